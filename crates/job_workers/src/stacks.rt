//! Stacks, which are kept from one run to the next of the same licence.
ghost use Rattle.std.specs.Prelude.{◌≡◌, slice_get, Some, IfOk};
ghost use Rattle.cell_machine.specs.Views.{IsStackFor};
ghost use Rattle.job_workers.specs.Serving.{IsStackAt};

use cell_machine::Stack;
use job_world::JobName;
use licence::Licence;
use std::alloc::{AllocError, Global};
use std::marker::{Model, PhantomData};

/// A stack that is kept for the next run. Its type keeps that it is one for the runs of the licence of its number.
#[derive(Drop)]
pub(crate) struct SpareStack<N: JobName> {
    licence: u32,
    stack: Stack,
    of: PhantomData<N>,
}

impl<N: JobName> Model for SpareStack<N> {
    ghost use Rattle.std.specs.Prelude.{ℕ};
    ghost use Rattle.job_workers.specs.Serving.{IsStackAt};

    // the number of the licence
    ghost Value = { ℕ };

    ghost view = { λ k. k.licence };

    ghost invariant = { λ k. IsStackAt N.planned.licences k.licence k.stack };
}

impl<N: JobName> SpareStack<N> {
    /// Keeps a stack for the runs of the licence of this number.
    pub(crate) fn new(licence: u32, stack: Stack) -> SpareStack<N>
        requires { IsStackAt N.planned.licences licence stack }
    {
        SpareStack {
            licence,
            stack,
            of: PhantomData,
        }
    }

    // The number of the licence.
    fn licence(&self) -> u32
        ensures { result ≡ self.now }
    {
        self.licence
    }

    // The stack.
    fn stack(self) -> Stack
        ensures { IsStackAt N.planned.licences self result }
    {
        self.stack
    }
}

/// A stack for the runs of this licence, which has this number: the one that is kept, where it is of that licence, else
/// a new one. `AllocError` where memory runs out.
pub(crate) fn stack_for<N: JobName>(
    alloc: Global,
    number: u32,
    licence: &Licence,
    kept: Option<SpareStack<N>>,
) -> Result<Stack, AllocError>
    requires is { slice_get N.planned.licences number ≡ Some licence.now }
    ensures { IfOk result (IsStackFor licence.now.code) }
{
    match kept {
        Some(kept) => {
            if kept.licence() == number {
                Ok(kept.stack())
            } else {
                Stack::new(alloc, licence)
            }
        }
        None => Stack::new(alloc, licence),
    }
}
