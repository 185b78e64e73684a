//! Where the lines of each block stand, found once for a licence.
ghost use Rattle.std.specs.Prelude.{◌≡◌, ◌++◌, ℕ, ◌≤◌, nat_lt, length, map, replicate, slice_get, IfOk, OnOk};
ghost use Rattle.std.specs.Option.{option_map};
ghost use Rattle.std.specs.List.{range_with_len};
ghost use Rattle.grail_code.specs.Code.{code_of, func_of};
ghost use Rattle.annotations.specs.Vectors.{is_heap_con};
ghost use Rattle.certificate.specs.Words as words;
ghost use Rattle.frame_accounts.specs.Tables.{heaps_from, lines_before, makes_before, row_for, row_of, rows_for, rows_from, rows_of, table_of};

use crate::lookups::own_at;
use camelot_values::{Kind, Types};
use certificate::{BlockCert, FuncCert, MakeCert};
use grail_code::Func;
use licence::Licence;
use std::alloc::{AllocError, Global};
use std::marker::Model;

// The highest number of a line.
const MOST_NUMBER: usize = 4_294_967_295;

/// Where a block's line stands among those of its function's blocks, and the first line of its builds among those of
/// builds.
#[derive(Clone, Copy)]
pub(crate) struct BlockRow {
    pub(crate) line: u32,
    pub(crate) make: u32,
}

/// The rows of a function's blocks.
#[derive(Drop)]
pub(crate) struct FuncRows {
    pub(crate) blocks: Vec<BlockRow>,
}

/// Where the lines of a licence's certificate stand for each block of its code, found once for the accounts of many
/// frames: 8 bytes for each block, 24 for each function, and one for each constructor.
#[derive(Drop)]
pub struct AccountTable {
    pub(crate) heaps: Vec<bool>,
    pub(crate) funcs: Vec<FuncRows>,
}

impl Model for AccountTable {
    ghost use Rattle.std.specs.Prelude.{map};
    ghost use Rattle.frame_accounts.specs.Tables.{Table, rows_of};

    ghost Value = { Table };

    ghost view = { λ t. record { heaps = t.heaps.items; funcs = map rows_of t.funcs.items } };
}

// Adds as many marks.
#[tactic(auto, using(crate::proofs::TableLaws::one_mark))]
fn push_marks(marks: &mut Vec<bool>, mark: bool, count: usize) -> Result<(), AllocError>
    ensures { OnOk result (marks.new.items ≡ marks.old.items ++ replicate count mark) }
{
    'marks: for _mark in 0..count {
        marks.push(mark)?;
    }
    Ok(())
}

// For each constructor whether it's of a heap type.
fn heaps_of(alloc: Global, types: &Types) -> Result<Vec<bool>, AllocError>
    ensures { IfOk result (λ heaps. heaps.items ≡ heaps_from types.now 0 types.now) }
{
    types.limits();
    let mut heaps = Vec::new(alloc);
    let mut number = 0;
    let mut rest = types.defs();
    'types: while let [def, others @ ..] = rest {
        push_marks(&mut heaps, types.is_heap(Kind::Of(number)), def.cons.len())?;
        number += 1;
        rest = others;
    }
    Ok(heaps)
}

// Whether the line is of a block before this one.
fn line_is_before(line: &BlockCert, block: usize) -> bool
    ensures { result ≡ nat_lt line.now.block block }
{
    (line.block as usize) < block
}

// How many lines stand in front of this block. So many of them are known to.
#[tactic(auto, using(crate::proofs::TableLaws::one_line, crate::proofs::TableLaws::no_line, crate::proofs::TableLaws::no_more_lines))]
fn lines_before(lines: &[BlockCert], known: usize, block: usize) -> usize
    requires { known ≤ lines_before (map words.block_of lines.now) block }
    ensures { result ≡ lines_before (map words.block_of lines.now) block }
{
    let mut count = known;
    'lines: while count < lines.len() {
        if !line_is_before(&lines[count], block) {
            return count;
        }
        count += 1;
    }
    count
}

// Whether the line of a build is of a block before this one.
fn make_is_before(make: &MakeCert, block: usize) -> bool
    ensures { result ≡ nat_lt make.now.block block }
{
    (make.block as usize) < block
}

// How many lines of builds stand in front of this block. So many of them are known to.
#[tactic(auto, using(crate::proofs::TableLaws::one_make, crate::proofs::TableLaws::no_make, crate::proofs::TableLaws::no_more_makes))]
fn makes_before(makes: &[MakeCert], known: usize, block: usize) -> usize
    requires { known ≤ makes_before (map words.make_of makes.now) block }
    ensures { result ≡ makes_before (map words.make_of makes.now) block }
{
    let mut count = known;
    'makes: while count < makes.len() {
        if !make_is_before(&makes[count], block) {
            return count;
        }
        count += 1;
    }
    count
}

// The row of a block. No text of fewer than 2^32 bytes has a line of a higher number.
fn block_row(line: usize, make: usize) -> Result<BlockRow, AllocError>
    ensures { IfOk result (λ r. row_of r ≡ record { line = line; make = make }) }
{
    if line > MOST_NUMBER || make > MOST_NUMBER {
        return Err(AllocError);
    }
    Ok(BlockRow {
        line: line as u32,
        make: make as u32,
    })
}

// The rows of so many blocks, by one walk beside the lines.
fn rows_of(alloc: Global, own: &FuncCert, count: usize) -> Result<Vec<BlockRow>, AllocError>
    ensures { IfOk result (λ rows. map row_of rows.items ≡ map (row_for (words.func_of own.now)) (range_with_len 0 count)) }
{
    let mut rows = Vec::new(alloc);
    let mut line = 0;
    let mut make = 0;
    'each: for block in 0..count {
        line = lines_before(&own.blocks, line, block);
        make = makes_before(&own.makes, make, block);
        let row = block_row(line, make)?;
        rows.push(row)?;
    }
    Ok(rows)
}

// How many blocks the function has.
#[tactic(auto, using(crate::proofs::TableLaws::blocks_long))]
fn block_count(func: &Func) -> usize
    ensures { result ≡ length (func_of func.now).blocks }
{
    func.blocks.len()
}

// The rows of a function with these lines.
fn func_rows(alloc: Global, func: &Func, own: Option<&FuncCert>) -> Result<FuncRows, AllocError>
    ensures { IfOk result (λ rows. rows_of rows ≡ rows_for (func_of func.now) (option_map (λ f. words.func_of f.now) own.entry)) }
{
    match own {
        Some(own) => {
            let blocks = rows_of(alloc, own, block_count(func))?;
            Ok(FuncRows { blocks })
        }
        None => Ok(FuncRows {
            blocks: Vec::new(alloc),
        }),
    }
}

// The rows of these functions, the first of which has number 0.
#[tactic(auto, using(crate::proofs::TableLaws::one_func))]
fn all_rows(alloc: Global, licence: &Licence, funcs: &[Func]) -> Result<Vec<FuncRows>, AllocError>
    ensures { IfOk result (λ rows. map rows_of rows.items ≡ rows_from licence.now.cert 0 (map func_of funcs.now)) }
{
    let mut rows = Vec::new(alloc);
    'funcs: for (number, func) in funcs.iter().enumerate() {
        rows.push(func_rows(alloc, func, own_at(licence, number))?)?;
    }
    Ok(rows)
}

impl AccountTable {
    /// The table of this licence, by one walk beside the lines of its certificate. `AllocError` where memory runs out,
    /// or where a line's number has more than 32 bits: no text of fewer than 2^32 bytes has so many.
    pub fn new(alloc: Global, licence: &Licence) -> Result<AccountTable, AllocError>
        // It is what code and certificate say.
        ensures { IfOk result (λ table. table ≡ table_of licence.now) }
    {
        let heaps = heaps_of(alloc, &licence.code().types)?;
        let funcs = all_rows(alloc, licence, &licence.code().funcs)?;
        Ok(AccountTable { heaps, funcs })
    }

    /// For each constructor whether it's of a heap type.
    pub(crate) fn heaps(&self) -> &[bool]
        ensures { result.now ≡ self.now.heaps }
    {
        &self.heaps
    }

    /// The rows of the blocks of the function of this number, where there is one.
    pub(crate) fn rows_at(&self, func: u32) -> Option<&FuncRows>
        ensures { option_map (λ r. rows_of r.now) result ≡ slice_get self.now.funcs func }
    {
        self.funcs.get(func as usize)
    }
}
