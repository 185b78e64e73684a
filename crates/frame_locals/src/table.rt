//! What is known of the locals of each function, made once for its code.
ghost use Rattle.std.specs.Prelude.{◌≡◌, ◌<◌, ◌&&◌, not, ℕ, length, map, slice_get, Some, IfOk};
ghost use Rattle.std.specs.List.{list_any};
ghost use Rattle.std.specs.Option.{option_map};
ghost use Rattle.camelot_values.specs.Heap.{is_heap};
ghost use Rattle.grail_code.specs.Code.{block_of, code_of, func_of};
ghost use Rattle.grail_code.specs.Code as plain;
ghost use Rattle.grail_code.specs.WellFormed.{is_lent, is_read, local_kinds};
ghost use Rattle.frame_locals.specs.Marking.{is_set};
ghost use Rattle.frame_locals.specs.Lending.{block_lends, lends_at};
ghost use Rattle.frame_locals.specs.Tables.{Row, owned_from, row_for, row_of, table_of};

use camelot_values::{Kind, Types};
use grail_check::mark_looked;
use grail_code::{Block, Code, Func};
use std::alloc::{AllocError, Global};
use std::marker::Model;

/// Which locals of a function are owned, and which of its blocks have a parameter that is lent.
#[derive(Drop)]
pub(crate) struct FuncLocals {
    pub(crate) owned: Vec<bool>,
    pub(crate) lends: Vec<bool>,
}

/// What is known of the locals of all functions of a code: a byte for each local and for each block.
#[derive(Drop)]
pub struct LocalTable {
    pub(crate) rows: Vec<FuncLocals>,
}

impl Model for LocalTable {
    ghost use Rattle.std.specs.Prelude.{List, map};
    ghost use Rattle.frame_locals.specs.Tables.{Row, row_of};

    ghost Value = { List Row };

    ghost view = { λ t. map row_of t.rows.items };
}

// For each local whether it is only read.
#[tactic(auto, using(crate::proofs::TableLaws::reads_known, crate::proofs::TableLaws::reads_count))]
fn reads_in(alloc: Global, func: &Func) -> Result<Vec<bool>, AllocError>
    ensures count { IfOk result (λ reads. length reads.items ≡ length (local_kinds (func_of func.now))) }
    ensures known { (x : ℕ) → x < length (local_kinds (func_of func.now))
        → IfOk result (λ reads. slice_get reads.items x ≡ Some (is_read (func_of func.now) x)) }
{
    let unmarked = vec![in alloc; false; func.locals.len()]?;
    let mut reads = Vec::new(alloc);
    reads.extend_from_slice(&func.reads)?;
    reads.extend_from_slice(&unmarked)?;
    mark_looked(&mut reads, func);
    Ok(reads)
}

// Whether a local of this kind is owned, which is only read or isn't.
fn is_owned(types: &Types, kind: Kind, read: bool) -> bool
    ensures { result ≡ (is_heap types.now kind && not read) }
{
    types.is_heap(kind) && !read
}

// For each local whether it is owned.
fn owned_in(
    alloc: Global,
    types: &Types,
    func: &Func,
    reads: &[bool],
) -> Result<Vec<bool>, AllocError>
    requires count { length reads.now ≡ length (local_kinds (func_of func.now)) }
    requires known { (x : ℕ) → x < length (local_kinds (func_of func.now)) → slice_get reads.now x ≡ Some (is_read (func_of func.now) x) }
    ensures { IfOk result (λ owned. owned.items ≡ owned_from types.now (func_of func.now) 0 (local_kinds (func_of func.now))) }
{
    let mut owned = Vec::new(alloc);
    'locals: for (number, read) in reads.iter().enumerate() {
        let Some(kind) = func.kind_of(number as u32) else {
            return Ok(owned);
        };
        owned.push(is_owned(types, kind, *read))?;
    }
    Ok(owned)
}

// Whether the local is lent.
#[tactic(auto, using(crate::proofs::TableLaws::lent_read))]
fn is_lent(types: &Types, func: &Func, reads: &[bool], local: u32) -> bool
    requires count { length reads.now ≡ length (local_kinds (func_of func.now)) }
    requires known { (x : ℕ) → x < length (local_kinds (func_of func.now)) → slice_get reads.now x ≡ Some (is_read (func_of func.now) x) }
    ensures { result ≡ is_lent types.now (func_of func.now) local }
{
    let Some(kind) = func.kind_of(local) else {
        return false;
    };
    match reads.get(local as usize) {
        Some(read) => types.is_heap(kind) && *read,
        None => false,
    }
}

// Whether a parameter of the block is lent.
fn block_lends(types: &Types, func: &Func, reads: &[bool], block: &Block) -> bool
    requires count { length reads.now ≡ length (local_kinds (func_of func.now)) }
    requires known { (x : ℕ) → x < length (local_kinds (func_of func.now)) → slice_get reads.now x ≡ Some (is_read (func_of func.now) x) }
    ensures { result ≡ list_any (is_lent types.now (func_of func.now)) (block_of block.now).params }
{
    let params: &[u32] = &block.params;
    'params: for param in params {
        if is_lent(types, func, reads, *param) {
            return true;
        }
    }
    false
}

// For each block whether a parameter of it is lent.
#[tactic(auto, using(crate::proofs::TableLaws::one_more, crate::proofs::TableLaws::all_are))]
fn lends_in(
    alloc: Global,
    types: &Types,
    func: &Func,
    reads: &[bool],
) -> Result<Vec<bool>, AllocError>
    requires count { length reads.now ≡ length (local_kinds (func_of func.now)) }
    requires known { (x : ℕ) → x < length (local_kinds (func_of func.now)) → slice_get reads.now x ≡ Some (is_read (func_of func.now) x) }
    ensures { IfOk result (λ lends. lends.items ≡ map (λ b. list_any (is_lent types.now (func_of func.now)) b.params) (func_of func.now).blocks) }
{
    let mut lends = Vec::new(alloc);
    'each: for block in &func.blocks {
        lends.push(block_lends(types, func, reads, block))?;
    }
    Ok(lends)
}

// What is known of a function's locals.
fn row(alloc: Global, code: &Code, func: &Func) -> Result<FuncLocals, AllocError>
    ensures { IfOk result (λ r. row_of r ≡ row_for (code_of code.now) (func_of func.now)) }
{
    let reads = reads_in(alloc, func)?;
    let owned = owned_in(alloc, &code.types, func, &reads)?;
    let lends = lends_in(alloc, &code.types, func, &reads)?;
    Ok(FuncLocals { owned, lends })
}

// That of these functions.
#[tactic(auto, using(crate::proofs::TableLaws::one_more, crate::proofs::TableLaws::all_are))]
fn rows(alloc: Global, code: &Code, funcs: &[Func]) -> Result<Vec<FuncLocals>, AllocError>
    ensures { IfOk result (λ rows. map row_of rows.items ≡ map (row_for (code_of code.now)) (map func_of funcs.now)) }
{
    let mut rows = Vec::new(alloc);
    'funcs: for func in funcs {
        rows.push(row(alloc, code, func)?)?;
    }
    Ok(rows)
}

/// Whether there is a mark at this place, and it is set.
pub fn is_set(marks: &[bool], place: u32) -> bool
    ensures { result ≡ is_set marks.now place }
{
    match marks.get(place as usize) {
        Some(mark) => *mark,
        None => false,
    }
}

impl LocalTable {
    /// What is known of the locals of this code. `AllocError` where memory runs out.
    pub fn new(alloc: Global, code: &Code) -> Result<LocalTable, AllocError>
        // It is what the code says.
        ensures { IfOk result (λ table. table ≡ table_of (code_of code.now)) }
    {
        let rows = rows(alloc, code, &code.funcs)?;
        Ok(LocalTable { rows })
    }

    // What is known of the locals of this function, where there is one.
    fn row_at(&self, func: u32) -> Option<&FuncLocals>
        ensures { option_map (λ r. row_of r.now) result ≡ slice_get self.now func }
    {
        self.rows.get(func as usize)
    }

    // Which locals of a function are owned.
    pub(crate) fn owned(&self, code: &Code, func: u32) -> &[bool]
        requires { self.now ≡ table_of (code_of code.now) }
        ensures { (f : plain.Func) → slice_get (code_of code.now).funcs func ≡ Some f
            → result.now ≡ owned_from (code_of code.now).types f 0 (local_kinds f) }
    {
        let _ = code;
        match self.row_at(func) {
            Some(row) => &row.owned,
            None => &[],
        }
    }

    /// Whether a parameter of this block of this function is lent. By [`crate::laws::law_of_lending`] a frame that
    /// stands in the block has a lent local that is ready exactly where that is so.
    pub fn lends(&self, code: &Code, func: u32, block: u32) -> bool
        requires { self.now ≡ table_of (code_of code.now) }
        ensures { result ≡ lends_at (code_of code.now) func block }
    {
        let _ = code;
        match self.row_at(func) {
            Some(row) => is_set(&row.lends, block),
            None => false,
        }
    }
}
