ghost use Rattle.std.specs.Prelude.{◌≡◌, ◌≤◌, length, map};
ghost use Rattle.annotations.specs.Tables.{table_of};
ghost use Rattle.grail_code.specs.Code.{code_of, func_of};
ghost use Rattle.grail_code.specs.WellFormed.{IsWellFormed};
ghost use Rattle.lp_size.specs.Counting.{funcs_count_onto, funcs_onto};
ghost use Rattle.lp_system.specs.Unknowns.{unknowns_of};
ghost use Rattle.lp_system.specs.Forms.{rows_of};

use super::books::Books;
use super::unknowns::func_count;
use super::walk::func_rows;
use annotations::ReachTable;
use grail_code::{Code, Func};
use lp_system::looked_in;

/// How many unknowns and rows the system of a code has.
#[derive(Clone, Copy, Debug, PartialEq, Eq)]
pub struct Size {
    pub unknowns: u64,
    pub rows: u64,
}

// The unknowns and the rows of functions, the first of which has number 0. Both are counted of a function before the
// next one is looked at, while it is in the cache.
fn funcs_size(books: Books<'_>, funcs: &[Func]) -> Size
    requires { length funcs.now ≤ 64 }
    ensures unknowns { result.unknowns ≡ funcs_count_onto (code_of books.entry.code.now).types 0 (map func_of funcs.now) }
    ensures rows { result.rows ≡ funcs_onto (code_of books.entry.code.now) 0 0 (map func_of funcs.now) }
{
    let mut unknowns: u64 = 0;
    let mut rows: u64 = 0;
    let mut number = 0;
    'walk: for func in funcs {
        let looked = looked_in(func);
        unknowns = unknowns.saturating_add(func_count(books, func, &looked));
        rows = rows.saturating_add(func_rows(books, number, func, &looked));
        number += 1;
    }
    Size { unknowns, rows }
}

/// The size of the system of well-formed code, where this is the table of its types. It goes through each function once
/// for the unknowns and once for the rows, whatever the units are, and takes no memory.
#[tactic(auto, using(crate::proofs::Total::all_unknowns, crate::proofs::Total::all_rows))]
pub fn size_of(code: &Code, table: &ReachTable) -> Size
    requires well { IsWellFormed (code_of code.now) }
    requires table { table.now ≡ table_of code.now.types }
    // It has the number of unknowns of the code's system.
    ensures unknowns { result.unknowns ≡ length (unknowns_of (code_of code.now)) }
    // It has the number of rows of the code's system.
    ensures rows { result.rows ≡ length (rows_of (code_of code.now)) }
{
    code.limits();
    let books = Books { code, table };
    funcs_size(books, &code.funcs)
}
