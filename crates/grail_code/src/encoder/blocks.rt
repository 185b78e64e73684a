ghost use Rattle.std.specs.Prelude.{◌≡◌, ◌++◌, ◌∷◌, length, map, flat_map, ◌≤◌, OnOk};
ghost use Rattle.std.specs.List.{AllByRecursion};
ghost use Rattle.grail_code.specs.Code.{CaseArm as PlainArm, Block as PlainBlock, Func as PlainFunc, arm_of, term_of, block_of, func_of};
ghost use Rattle.grail_code.specs.Spelling.{Second, number, counted, arm_bytes, cell_bytes, term_bytes, block_bytes, func_bytes, param_bytes, marked, AreCounted, FitsKind, FitsArm, FitsTerm, FitsBlock, FitsFunc};

use super::lets::{call, tagged};
use super::types::{kind_code, name};
use super::writer::{Encode, list, number};
use crate::code::{Block, Func};
use camelot_values::Kind;
use grail_blocks::{CaseArm, CaseCell, Term};
use std::alloc::AllocError;

fn cell(out: &mut Vec<u8>, cell: CaseCell) -> Result<(), AllocError>
    ensures { OnOk result (out.new.items ≡ out.old.items ++ cell_bytes cell) }
{
    match cell {
        CaseCell::Inline => out.push(0)?,
        CaseCell::Free => out.push(1)?,
        CaseCell::Keep(diamond) => {
            out.push(2)?;
            number(out, diamond)?;
        }
        CaseCell::Look => out.push(3)?,
    }
    Ok(())
}

impl Encode for CaseArm {
    ghost Plain = { PlainArm };

    ghost plain = { arm_of };

    ghost Fits = { FitsArm Second };

    ghost spell = { arm_bytes };

    fn encode(&self, out: &mut Vec<u8>) -> Result<(), AllocError> {
        list(out, &self.fields)?;
        cell(out, self.cell)?;
        number(out, self.target)
    }
}

fn branch(out: &mut Vec<u8>, cond: u32, yes: u32, no: u32) -> Result<(), AllocError>
    ensures { OnOk result (out.new.items ≡ out.old.items ++ (3 ∷ (number cond ++ number yes ++ number no))) }
{
    tagged(out, 3, cond)?;
    number(out, yes)?;
    number(out, no)
}

fn case(out: &mut Vec<u8>, on: u32, arms: &[CaseArm]) -> Result<(), AllocError>
    requires { AreCounted (FitsArm Second) 0 64 (map arm_of arms.now) }
    ensures { OnOk result (out.new.items ≡ out.old.items ++ (4 ∷ (number on ++ counted arm_bytes (map arm_of arms.now)))) }
{
    tagged(out, 4, on)?;
    list(out, arms)
}

fn term(out: &mut Vec<u8>, term: &Term) -> Result<(), AllocError>
    requires { FitsTerm Second (term_of term.now) }
    ensures { OnOk result (out.new.items ≡ out.old.items ++ term_bytes (term_of term.now)) }
{
    match term {
        Term::Ret(from) => tagged(out, 0, *from),
        Term::Tail { func, args } => call(out, 1, *func, args),
        Term::Goto(target) => tagged(out, 2, *target),
        Term::If { cond, yes, no } => branch(out, *cond, *yes, *no),
        Term::Case { on, arms } => case(out, *on, arms),
    }
}

impl Encode for Block {
    ghost Plain = { PlainBlock };

    ghost plain = { block_of };

    ghost Fits = { FitsBlock Second };

    ghost spell = { block_bytes };

    fn encode(&self, out: &mut Vec<u8>) -> Result<(), AllocError> {
        list(out, &self.params)?;
        list(out, &self.lets)?;
        term(out, &self.term)
    }
}

// A parameter of this kind, and whether it is only looked at.
fn param(out: &mut Vec<u8>, kind: Kind, read: bool) -> Result<(), AllocError>
    requires { FitsKind kind }
    ensures { OnOk result (out.new.items ≡ out.old.items ++ param_bytes (kind, read)) }
{
    let behind = if read { 67 } else { 0 };
    number(out, kind_code(kind) + behind)
}

// The parameters, each with its mark.
fn each_param(out: &mut Vec<u8>, kinds: &[Kind], reads: &[bool]) -> Result<(), AllocError>
    requires as_many { length reads.now ≡ length kinds.now }
    requires fit { AllByRecursion FitsKind kinds.now }
    ensures { OnOk result (out.new.items ≡ out.old.items ++ flat_map param_bytes (marked kinds.now reads.now)) }
{
    'params: for (place, kind) in kinds.iter().enumerate() {
        param(out, *kind, reads[place])?;
    }
    Ok(())
}

// How many parameters there are, and each.
#[tactic(auto, using(crate::proofs::SpellingParams::params_written))]
fn params(out: &mut Vec<u8>, kinds: &[Kind], reads: &[bool]) -> Result<(), AllocError>
    requires few { length kinds.now ≤ 16 }
    requires as_many { length reads.now ≡ length kinds.now }
    requires fit { AllByRecursion FitsKind kinds.now }
    ensures { OnOk result (out.new.items ≡ out.old.items ++ counted param_bytes (marked kinds.now reads.now)) }
{
    number(out, kinds.len() as u32)?;
    each_param(out, kinds, reads)
}

impl Encode for Func {
    ghost Plain = { PlainFunc };

    ghost plain = { func_of };

    ghost Fits = { FitsFunc Second };

    ghost spell = { func_bytes };

    fn encode(&self, out: &mut Vec<u8>) -> Result<(), AllocError> {
        name(out, &self.name)?;
        params(out, &self.params, &self.reads)?;
        self.result.encode(out)?;
        list(out, &self.locals)?;
        list(out, &self.blocks)
    }
}
