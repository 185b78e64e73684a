//! A payload that has a copy of its lease's cells.
ghost use Rattle.std.specs.Prelude.{◌≡◌, IfOk};
ghost use Rattle.cell_span.specs.declared.cell.Cell.{Cell};

use cell_span::{Cell, Span};
use lease_desk::{DeskName, Filed, Lease};
use std::alloc::{AllocError, Global};

/// The number of a job, and its lease's cells.
#[derive(Drop)]
pub struct Copied {
    pub job: u32,
    pub cells: Vec<Cell>,
}

impl Filed for Copied {
    ghost job = { λ p. p.job };

    ghost cells = { λ p. p.cells.items };

    fn job(&self) -> u32 {
        self.job
    }
}

// All cells of a span.
#[tactic(auto, using(crate::proofs::Copies::copy_more, crate::proofs::Copies::copy_whole))]
fn cells_of(alloc: Global, span: &Span) -> Result<Vec<Cell>, AllocError>
    ensures { IfOk result (λ cells. cells.items ≡ span.now.cells) }
{
    let mut cells = Vec::new(alloc);
    let count = span.len();
    for at in 0..count {
        cells.push(span.get(at))?;
    }
    Ok(cells)
}

impl Copied {
    /// A copy of a lease's job and cells.
    pub fn of<N: DeskName>(alloc: Global, lease: &Lease<N>) -> Result<Copied, AllocError>
        ensures job { IfOk result (λ copied. copied.job ≡ lease.now.job) }
        ensures cells { IfOk result (λ copied. copied.cells.items ≡ lease.now.range.cells) }
    {
        Ok(Copied {
            job: lease.job(),
            cells: cells_of(alloc, lease.span())?,
        })
    }
}
