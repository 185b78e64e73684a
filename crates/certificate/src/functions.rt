ghost use Rattle.std.specs.Prelude.{◌≡◌, ◌∷◌, [], false, map, MatchResult, MatchOption};
ghost use Rattle.certificate.specs.Certificates.{FuncIsWithin};
ghost use Rattle.certificate.specs.Words.{var_of, block_of, make_of, func_of};
ghost use Rattle.certificate.specs.Steps.{AreWithin};
ghost use Rattle.certificate.specs.Reading.{is_five, is_none, only_params, last_var, last_block, at_last, add_param, add_result, add_block, add_var, add_make, add_own, add_line, function_of_words, bare_func, put_behind, IsRead, IsStopped, IsNoMemory};
ghost use Rattle.text_lines.specs.Cuts.{words, further};

use super::items::{MOST_NEED, read_block, read_make, read_var, three_words};
use super::names::is_lower_name;
use super::stop::LineStop;
use super::types::{BlockCert, FuncCert, VarCert};
use super::vectors::read_vector;
use annotations::Vector;
use camelot_values::Word;
use std::alloc::Global;
use text_lines::{first_word, further_word, number};

// Whether only parameters stand there.
#[tactic(auto, using(crate::proofs::FuncSteps::some_result, crate::proofs::FuncSteps::some_blocks, crate::proofs::FuncSteps::makes_left))]
fn only_params(f: &FuncCert) -> bool
    ensures { result ≡ only_params (func_of f.now) }
{
    if !f.result.pairs().is_empty() {
        return false;
    }
    if !f.blocks.as_slice().is_empty() {
        return false;
    }
    f.makes.as_slice().is_empty()
}

// Whether no builds stand there.
#[tactic(auto, using(crate::proofs::FuncSteps::no_makes))]
fn has_no_makes(f: &FuncCert) -> bool
    ensures { result ≡ is_none (func_of f.now).makes }
{
    f.makes.as_slice().is_empty()
}

// The number of the last local.
#[tactic(auto, using(crate::proofs::FuncSteps::no_last, crate::proofs::FuncSteps::last_is))]
fn last_var(vars: &[VarCert]) -> Option<u32>
    ensures { result ≡ last_var (map var_of vars.now) }
{
    match vars {
        [] => None,
        [.., last] => Some(last.var),
    }
}

// The number of the last block.
#[tactic(auto, using(crate::proofs::FuncSteps::no_last, crate::proofs::FuncSteps::last_is))]
fn last_block(blocks: &[BlockCert]) -> Option<u32>
    ensures { result ≡ last_block (map block_of blocks.now) }
{
    match blocks {
        [] => None,
        [.., last] => Some(last.block),
    }
}

// One parameter more.
#[tactic(auto, using(crate::proofs::FuncSteps::param_not, crate::proofs::FuncSteps::param_stopped))]
fn add_param(alloc: Global, f: FuncCert, rest: &[u8]) -> Result<FuncCert, LineStop>
    requires { FuncIsWithin (func_of f) }
    ensures { MatchResult result (λ g. IsRead (add_param (further rest.now) (func_of f)) FuncIsWithin (func_of g))
        (λ stop. IsStopped (add_param (further rest.now) (func_of f)) FuncIsWithin stop) }
{
    let mut f = f;
    if !only_params(&f) {
        return Err(LineStop::Line);
    }
    let param = match read_var(alloc, last_var(&f.params), rest) {
        Ok(param) => param,
        Err(stop) => return Err(stop),
    };
    match f.params.push(param) {
        Ok(()) => Ok(f),
        Err(_) => Err(LineStop::Memory),
    }
}

// The result's annotations.
#[tactic(auto, using(crate::proofs::FuncSteps::result_not, crate::proofs::FuncSteps::result_stopped))]
fn add_result(alloc: Global, f: FuncCert, rest: &[u8]) -> Result<FuncCert, LineStop>
    requires { FuncIsWithin (func_of f) }
    ensures { MatchResult result (λ g. IsRead (add_result (further rest.now) (func_of f)) FuncIsWithin (func_of g))
        (λ stop. IsStopped (add_result (further rest.now) (func_of f)) FuncIsWithin stop) }
{
    let mut f = f;
    if !only_params(&f) {
        return Err(LineStop::Line);
    }
    let vector = match read_vector(alloc, rest) {
        Ok(vector) => vector,
        Err(stop) => return Err(stop),
    };
    f.result = vector;
    Ok(f)
}

// One block more.
#[tactic(auto, using(crate::proofs::FuncSteps::block_not, crate::proofs::FuncSteps::block_stopped))]
fn add_block(alloc: Global, f: FuncCert, rest: &[u8]) -> Result<FuncCert, LineStop>
    requires { FuncIsWithin (func_of f) }
    ensures { MatchResult result (λ g. IsRead (add_block (further rest.now) (func_of f)) FuncIsWithin (func_of g))
        (λ stop. IsStopped (add_block (further rest.now) (func_of f)) FuncIsWithin stop) }
{
    let mut f = f;
    if !has_no_makes(&f) {
        return Err(LineStop::Line);
    }
    let block = match read_block(alloc, last_block(&f.blocks), rest) {
        Ok(block) => block,
        Err(stop) => return Err(stop),
    };
    match f.blocks.push(block) {
        Ok(()) => Ok(f),
        Err(_) => Err(LineStop::Memory),
    }
}

// One local more, of the last block.
#[tactic(auto, using(crate::proofs::FuncSteps::var_not, crate::proofs::FuncSteps::var_no_block, crate::proofs::FuncSteps::var_stopped))]
fn add_var(alloc: Global, f: FuncCert, rest: &[u8]) -> Result<FuncCert, LineStop>
    requires { FuncIsWithin (func_of f) }
    ensures { MatchResult result (λ g. IsRead (add_var (further rest.now) (func_of f)) FuncIsWithin (func_of g))
        (λ stop. IsStopped (add_var (further rest.now) (func_of f)) FuncIsWithin stop) }
{
    let mut f = f;
    if !has_no_makes(&f) {
        return Err(LineStop::Line);
    }
    let Some(mut block) = f.blocks.pop() else {
        return Err(LineStop::Line);
    };
    let var = match read_var(alloc, last_var(&block.vars), rest) {
        Ok(var) => var,
        Err(stop) => return Err(stop),
    };
    match block.vars.push(var) {
        Ok(()) => {}
        Err(_) => return Err(LineStop::Memory),
    }
    match f.blocks.push(block) {
        Ok(()) => Ok(f),
        Err(_) => Err(LineStop::Memory),
    }
}

// One build more.
#[tactic(auto, using(crate::proofs::FuncSteps::make_stopped))]
fn add_make(alloc: Global, f: FuncCert, rest: &[u8]) -> Result<FuncCert, LineStop>
    requires { FuncIsWithin (func_of f) }
    ensures { MatchResult result (λ g. IsRead (add_make (further rest.now) (func_of f)) FuncIsWithin (func_of g))
        (λ stop. IsStopped (add_make (further rest.now) (func_of f)) FuncIsWithin stop) }
{
    let mut f = f;
    let make = match read_make(alloc, &f.makes, rest) {
        Ok(make) => make,
        Err(stop) => return Err(stop),
    };
    match f.makes.push(make) {
        Ok(()) => Ok(f),
        Err(_) => Err(LineStop::Memory),
    }
}

// The function with one line of its own more.
#[tactic(auto, using(crate::proofs::FuncSteps::own_none))]
fn add_own(alloc: Global, f: FuncCert, tag: &[u8], rest: &[u8]) -> Result<FuncCert, LineStop>
    requires { FuncIsWithin (func_of f) }
    ensures { MatchResult result (λ g. IsRead (add_own tag.now (further rest.now) (func_of f)) FuncIsWithin
        (func_of g)) (λ stop. IsStopped (add_own tag.now (further rest.now) (func_of f)) FuncIsWithin stop) }
{
    if tag == b"param".as_slice() {
        return add_param(alloc, f, rest);
    }
    if tag == b"result".as_slice() {
        return add_result(alloc, f, rest);
    }
    if tag == b"block".as_slice() {
        return add_block(alloc, f, rest);
    }
    if tag == b"var".as_slice() {
        return add_var(alloc, f, rest);
    }
    if tag == b"make".as_slice() {
        return add_make(alloc, f, rest);
    }
    Err(LineStop::Line)
}

// Just five words.
#[tactic(auto, using(crate::proofs::FuncSteps::five_none, crate::proofs::FuncSteps::five_one, crate::proofs::FuncSteps::five_less, crate::proofs::FuncSteps::five_all))]
fn five_words(rest: &[u8]) -> Option<(&[u8], &[u8], &[u8], &[u8], &[u8])>
    ensures { MatchOption result (is_five (further rest.now) ≡ false) (λ p. further rest.now ≡ p.0.now ∷ p.1.now ∷ p.2.now ∷ p.3.now ∷ p.4.now ∷ []) }
{
    let Some((first, behind)) = further_word(rest) else {
        return None;
    };
    let Some((second, after)) = further_word(behind) else {
        return None;
    };
    let Some((third, fourth, fifth)) = three_words(after) else {
        return None;
    };
    Some((first, second, third, fourth, fifth))
}

// A function without annotations.
fn bare_function(alloc: Global, name: &[u8], need: u64, back: u64) -> Result<FuncCert, LineStop>
    ensures { MatchResult result (λ f. func_of f ≡ bare_func name.now need back) (λ stop. IsNoMemory stop) }
{
    match Word::new(alloc, name) {
        Ok(name) => Ok(FuncCert {
            name,
            need,
            back,
            params: Vec::new(alloc),
            result: Vector::none(alloc),
            blocks: Vec::new(alloc),
            makes: Vec::new(alloc),
        }),
        Err(_) => Err(LineStop::Memory),
    }
}

// A function without annotations: its name, its need and what it gives back.
#[tactic(auto, using(crate::proofs::FuncSteps::function_none))]
fn read_function(alloc: Global, rest: &[u8]) -> Result<FuncCert, LineStop>
    ensures { MatchResult result (λ f. IsRead (function_of_words (further rest.now)) FuncIsWithin (func_of f))
        (λ stop. IsStopped (function_of_words (further rest.now)) FuncIsWithin stop) }
{
    let Some((name, need_tag, need_word, back_tag, back_word)) = five_words(rest) else {
        return Err(LineStop::Line);
    };
    let Some(need) = number(need_word) else {
        return Err(LineStop::Line);
    };
    let Some(back) = number(back_word) else {
        return Err(LineStop::Line);
    };
    if !is_lower_name(name) {
        return Err(LineStop::Line);
    }
    if need_tag != b"need".as_slice() {
        return Err(LineStop::Line);
    }
    if back_tag != b"back".as_slice() {
        return Err(LineStop::Line);
    }
    if need > MOST_NEED {
        return Err(LineStop::Number);
    }
    if back > MOST_NEED {
        return Err(LineStop::Number);
    }
    bare_function(alloc, name, need, back)
}

// The functions and one that this line begins.
fn add_function(alloc: Global, funcs: Vec<FuncCert>, rest: &[u8]) -> Result<Vec<FuncCert>, LineStop>
    requires { AreWithin (map func_of funcs.items) }
    ensures { MatchResult result (λ gs. IsRead (put_behind (map func_of funcs.items)
        (function_of_words (further rest.now))) AreWithin (map func_of gs.items))
        (λ stop. IsStopped (put_behind (map func_of funcs.items)
        (function_of_words (further rest.now))) AreWithin stop) }
{
    let mut funcs = funcs;
    let func = match read_function(alloc, rest) {
        Ok(func) => func,
        Err(stop) => return Err(stop),
    };
    match funcs.push(func) {
        Ok(()) => Ok(funcs),
        Err(_) => Err(LineStop::Memory),
    }
}

// The functions, the last with one line more.
fn extend_last(
    alloc: Global,
    funcs: Vec<FuncCert>,
    tag: &[u8],
    rest: &[u8],
) -> Result<Vec<FuncCert>, LineStop>
    requires { AreWithin (map func_of funcs.items) }
    ensures { MatchResult result (λ gs. IsRead (at_last (add_own tag.now (further rest.now))
        (map func_of funcs.items)) AreWithin (map func_of gs.items))
        (λ stop. IsStopped (at_last (add_own tag.now (further rest.now)) (map func_of funcs.items)) AreWithin stop) }
{
    let mut funcs = funcs;
    let Some(last) = funcs.pop() else {
        return Err(LineStop::Line);
    };
    let func = match add_own(alloc, last, tag, rest) {
        Ok(func) => func,
        Err(stop) => return Err(stop),
    };
    match funcs.push(func) {
        Ok(()) => Ok(funcs),
        Err(_) => Err(LineStop::Memory),
    }
}

/// The functions with one line more.
pub(crate) fn add_line(
    alloc: Global,
    funcs: Vec<FuncCert>,
    line: &[u8],
) -> Result<Vec<FuncCert>, LineStop>
    requires { AreWithin (map func_of funcs.items) }
    ensures { MatchResult result (λ gs. IsRead (add_line (words line.now) (map func_of funcs.items)) AreWithin
        (map func_of gs.items)) (λ stop. IsStopped
        (add_line (words line.now) (map func_of funcs.items)) AreWithin stop) }
{
    let (tag, rest) = first_word(line);
    if tag == b"function".as_slice() {
        return add_function(alloc, funcs, rest);
    }
    extend_last(alloc, funcs, tag, rest)
}
