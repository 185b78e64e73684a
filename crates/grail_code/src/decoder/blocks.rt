ghost use Rattle.std.specs.Prelude.{◌≡◌, Bool, map, ◌≤◌, vec_len, IfOk};
ghost use Rattle.camelot_values.specs.declared.kinds.Kind.{Kind};
ghost use Rattle.grail_blocks.specs.declared.blocks.CaseCell.{CaseCell};
ghost use Rattle.grail_code.specs.Code.{CaseArm as PlainArm, Block as PlainBlock, Func as PlainFunc, arm_of, term_of, block_of, func_of};
ghost use Rattle.grail_code.specs.Reader.{Gives};
ghost use Rattle.grail_code.specs.CodeReader.{cell_at, arm_at, ret_at, tail_call_at, goto_at, if_at, case_at, exit_at, block_at, kinds_of, marks_of, param_at, header_at, func_at, format_of};
ghost use Rattle.grail_code.specs.Params.{param_of};

use super::lets::local;
use super::names::{Letter, name};
use super::reader::{Decode, Halt, Version, list, number};
use super::types::{kind, numbered};
use crate::code::{Block, Func};
use camelot_values::Kind;
use grail_blocks::{CaseArm, CaseCell, Term};
use smallvec::SmallVec;
use std::alloc::{AllocError, Global};

#[tactic(auto, unfolding(crate::specs::CodeReader::cell_at, crate::specs::CodeReader::cell_rest, crate::specs::Reader::tag_at, crate::specs::Reader::byte_at))]
fn cell(version: Version, bytes: &[u8]) -> Result<(CaseCell, &[u8]), Halt>
    ensures { Gives (λ x. (x.0, x.1.now)) result (cell_at (format_of version) bytes.now) }
{
    match (version, bytes) {
        (_, []) => Err(Halt::Short),
        (_, [0, rest @ ..]) => Ok((CaseCell::Inline, rest)),
        (_, [1, rest @ ..]) => Ok((CaseCell::Free, rest)),
        (_, [2, rest @ ..]) => {
            let (diamond, rest) = local(rest)?;
            Ok((CaseCell::Keep(diamond), rest))
        }
        (Version::Second, [3, rest @ ..]) => Ok((CaseCell::Look, rest)),
        (_, [_, ..]) => Err(Halt::Bad { left: bytes.len() }),
    }
}

impl Decode for CaseArm {
    ghost Plain = { PlainArm };

    ghost plain = { arm_of };

    ghost read_at = { arm_at };

    #[tactic(auto, unfolding(crate::specs::CodeReader::arm_at))]
    fn decode<'a>(
        alloc: Global,
        version: Version,
        bytes: &'a [u8],
    ) -> Result<(CaseArm, &'a [u8]), Halt> {
        let (fields, rest) = list(alloc, version, 0, 4, bytes)?;
        let (cell, rest) = cell(version, rest)?;
        let (target, rest) = local(rest)?;
        let arm = CaseArm {
            fields,
            cell,
            target,
        };
        Ok((arm, rest))
    }
}

#[tactic(auto, unfolding(crate::specs::CodeReader::ret_at))]
fn ret(bytes: &[u8]) -> Result<(Term, &[u8]), Halt>
    ensures { Gives (λ x. (term_of x.0, x.1.now)) result (ret_at bytes.now) }
{
    let (from, rest) = local(bytes)?;
    Ok((Term::Ret(from), rest))
}

#[tactic(auto, unfolding(crate::specs::CodeReader::tail_call_at))]
fn tail_call(alloc: Global, version: Version, bytes: &[u8]) -> Result<(Term, &[u8]), Halt>
    ensures { Gives (λ x. (term_of x.0, x.1.now)) result (tail_call_at bytes.now) }
{
    let (func, rest) = number(4, 0, 63, bytes)?;
    let (args, rest) = list(alloc, version, 0, 16, rest)?;
    let args = SmallVec::from_vec(args);
    Ok((Term::Tail { func, args }, rest))
}

#[tactic(auto, unfolding(crate::specs::CodeReader::goto_at))]
fn goto(bytes: &[u8]) -> Result<(Term, &[u8]), Halt>
    ensures { Gives (λ x. (term_of x.0, x.1.now)) result (goto_at bytes.now) }
{
    let (target, rest) = local(bytes)?;
    Ok((Term::Goto(target), rest))
}

#[tactic(auto, unfolding(crate::specs::CodeReader::if_at))]
fn branch(bytes: &[u8]) -> Result<(Term, &[u8]), Halt>
    ensures { Gives (λ x. (term_of x.0, x.1.now)) result (if_at bytes.now) }
{
    let (cond, rest) = local(bytes)?;
    let (yes, rest) = local(rest)?;
    let (no, rest) = local(rest)?;
    Ok((Term::If { cond, yes, no }, rest))
}

#[tactic(auto, unfolding(crate::specs::CodeReader::case_at))]
fn case(alloc: Global, version: Version, bytes: &[u8]) -> Result<(Term, &[u8]), Halt>
    ensures { Gives (λ x. (term_of x.0, x.1.now)) result (case_at (format_of version) bytes.now) }
{
    let (on, rest) = local(bytes)?;
    let (arms, rest) = list(alloc, version, 0, 64, rest)?;
    Ok((Term::Case { on, arms }, rest))
}

#[tactic(auto, unfolding(crate::specs::CodeReader::exit_at, crate::specs::CodeReader::exit_rest, crate::specs::Reader::tag_at, crate::specs::Reader::byte_at))]
fn term(alloc: Global, version: Version, bytes: &[u8]) -> Result<(Term, &[u8]), Halt>
    ensures { Gives (λ x. (term_of x.0, x.1.now)) result (exit_at (format_of version) bytes.now) }
{
    match bytes {
        [] => Err(Halt::Short),
        [0, rest @ ..] => ret(rest),
        [1, rest @ ..] => tail_call(alloc, version, rest),
        [2, rest @ ..] => goto(rest),
        [3, rest @ ..] => branch(rest),
        [4, rest @ ..] => case(alloc, version, rest),
        [_, ..] => Err(Halt::Bad { left: bytes.len() }),
    }
}

impl Decode for Block {
    ghost Plain = { PlainBlock };

    ghost plain = { block_of };

    ghost read_at = { block_at };

    #[tactic(auto, unfolding(crate::specs::CodeReader::block_at))]
    fn decode<'a>(
        alloc: Global,
        version: Version,
        bytes: &'a [u8],
    ) -> Result<(Block, &'a [u8]), Halt> {
        let (params, rest) = list(alloc, version, 0, 256, bytes)?;
        let (lets, rest) = list(alloc, version, 0, 256, rest)?;
        let (term, rest) = term(alloc, version, rest)?;
        let block = Block {
            params: SmallVec::from_vec(params),
            lets,
            term,
        };
        Ok((block, rest))
    }
}

/// A parameter: its kind, and whether it is only looked at.
#[derive(Clone, Copy, Drop)]
struct Param {
    kind: Kind,
    read: bool,
}

// A parameter. One that is only looked at goes by its kind's number behind those of all kinds.
#[tactic(auto, unfolding(crate::specs::CodeReader::param_at))]
fn parameter(version: Version, bytes: &[u8]) -> Result<(Param, &[u8]), Halt>
    ensures { Gives (λ x. (param_of x.0, x.1.now)) result (param_at (format_of version) bytes.now) }
{
    let most = match version {
        Version::First => 66,
        Version::Second => 133,
    };
    let (code, rest) = number(4, 0, most, bytes)?;
    let param = if code < 67 {
        Param {
            kind: numbered(code),
            read: false,
        }
    } else {
        Param {
            kind: numbered(code - 67),
            read: true,
        }
    };
    Ok((param, rest))
}

impl Decode for Param {
    ghost Plain = { Kind × Bool };

    ghost plain = { param_of };

    ghost read_at = { param_at };

    fn decode<'a>(
        _alloc: Global,
        version: Version,
        bytes: &'a [u8],
    ) -> Result<(Param, &'a [u8]), Halt> {
        parameter(version, bytes)
    }
}

// The kinds of parameters, and their marks.
#[tactic(auto, using(crate::proofs::SpellingApart::kinds_more, crate::proofs::SpellingApart::marks_more, crate::proofs::SpellingApart::kinds_done, crate::proofs::SpellingApart::marks_done))]
fn apart(alloc: Global, params: &[Param]) -> Result<(Vec<Kind>, Vec<bool>), AllocError>
    ensures kinds { IfOk result (λ x. x.0.items ≡ kinds_of (map param_of params.now)) }
    ensures marks { IfOk result (λ x. x.1.items ≡ marks_of (map param_of params.now)) }
{
    let mut kinds = Vec::with_capacity(alloc, params.len())?;
    let mut reads = Vec::with_capacity(alloc, params.len())?;
    'params: for param in params {
        kinds.push(param.kind)?;
        reads.push(param.read)?;
    }
    Ok((kinds, reads))
}

// A function's parameters, and the kinds of its result and its further locals.
#[tactic(auto, unfolding(crate::specs::CodeReader::header_at))]
fn header(
    alloc: Global,
    version: Version,
    bytes: &[u8],
) -> Result<((Vec<Param>, Kind, Vec<Kind>), &[u8]), Halt>
    ensures reads { Gives (λ x. ((map param_of x.0.0.items, (x.0.1, x.0.2.items)), x.1.now)) result (header_at (format_of version) bytes.now) }
    ensures few_params { IfOk result (λ x. vec_len x.0.0 ≤ 16) }
    ensures few_locals { IfOk result (λ x. vec_len x.0.2 ≤ 240) }
{
    let (params, rest) = list(alloc, version, 1, 16, bytes)?;
    let (result, rest) = kind(rest)?;
    let (locals, rest) = list(alloc, version, 0, 240, rest)?;
    Ok(((params, result, locals), rest))
}

impl Decode for Func {
    ghost Plain = { PlainFunc };

    ghost plain = { func_of };

    ghost read_at = { func_at };

    #[tactic(auto, unfolding(crate::specs::CodeReader::func_at))]
    fn decode<'a>(
        alloc: Global,
        version: Version,
        bytes: &'a [u8],
    ) -> Result<(Func, &'a [u8]), Halt> {
        let (name, rest) = name(alloc, Letter::Lower, bytes)?;
        let ((params, result, locals), rest) = header(alloc, version, rest)?;
        let (params, reads) = apart(alloc, &params)?;
        let (blocks, rest) = list(alloc, version, 1, 256, rest)?;
        let func = Func {
            name,
            params,
            reads,
            result,
            locals,
            blocks,
        };
        Ok((func, rest))
    }
}
