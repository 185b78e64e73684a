ghost use Rattle.std.specs.Prelude.{◌≡◌, ◌≤◌, length, map, IfOk};
ghost use Rattle.annotations.specs.Tables.{table_of};
ghost use Rattle.grail_code.specs.Code.{code_of};
ghost use Rattle.grail_code.specs.WellFormed.{IsWellFormed};
ghost use Rattle.dual_simplex.specs.Systems.{plain_row, plain_system};
ghost use Rattle.lp_system.specs.Unknowns.{unknowns_of};
ghost use Rattle.lp_system.specs.Forms.{cost_of, rows_of, system_of};
ghost use Rattle.lp_rows.specs.Plain.{plain};
ghost use Rattle.lp_rows.specs.Walk.{funcs_rows};

use super::books::Books;
use super::listing::unknowns;
use super::unknown::{Unknown, cost_of};
use super::walk::push_funcs;
use annotations::ReachTable;
use dual_simplex::{Row, System};
use grail_code::Code;
use std::alloc::{AllocError, Global};

// The costs of unknowns.
fn costs(alloc: Global, unknowns: &[Unknown]) -> Result<Vec<i64>, AllocError>
    ensures { IfOk result (λ costs. costs.items ≡ map cost_of (map plain unknowns.now)) }
{
    let mut costs = Vec::new(alloc);
    'unknowns: for unknown in unknowns {
        costs.push(cost_of(unknown))?;
    }
    Ok(costs)
}

// The rows over these unknowns.
fn rows(
    alloc: Global,
    code: &Code,
    table: &ReachTable,
    unknowns: &[Unknown],
) -> Result<Vec<Row>, AllocError>
    requires table { table.now ≡ table_of code.now.types }
    requires few { length unknowns.now ≤ 512 }
    ensures { IfOk result (λ rows. map plain_row rows.items ≡ funcs_rows (code_of code.now) (map plain unknowns.now) 0 (code_of code.now).funcs) }
{
    let books = Books {
        alloc,
        code,
        table,
        unknowns,
    };
    let mut rows = Vec::new(alloc);
    push_funcs(books, &mut rows)?;
    Ok(rows)
}

/// The system of a code, where it is small. `AllocError` where memory runs out.
///
/// One unit is one cell. The code is walked once; besides that, each row and each let that takes or gives units costs a
/// pass over the unknowns, of which there are at most 512.
#[tactic(auto, using(crate::proofs::Made::few_listed))]
pub fn system(alloc: Global, code: &Code, table: &ReachTable) -> Result<System, AllocError>
    requires well { IsWellFormed (code_of code.now) }
    requires table { table.now ≡ table_of code.now.types }
    requires few_unknowns { length (unknowns_of (code_of code.now)) ≤ 512 }
    requires few_rows { length (rows_of (code_of code.now)) ≤ 1536 }
    ensures { IfOk result (λ s. plain_system s ≡ system_of (code_of code.now)) }
{
    code.limits();
    let list = unknowns(alloc, code, table)?;
    let rows = rows(alloc, code, table, &list)?;
    let costs = costs(alloc, &list)?;
    Ok(System {
        unknowns: list.len() as u32,
        costs,
        rows,
    })
}
