ghost use Rattle.std.specs.Prelude.{IsOk};

use std::alloc::AllocError;

/// What each worker passes between the grant of a lease and the run of its job. Workers share it.
pub trait Gate {
    /// Lets the worker of this job pass. It may wait. The job keeps its lease meanwhile: where the next job doesn't fit
    /// beside it, neither that one nor a later one comes to its gate before this one's lease is back.
    ///
    /// # Errors
    ///
    /// `AllocError` where the gate is refused memory. The job isn't run then, and its lease is withdrawn.
    fn pass(&self, job: u32) -> Result<(), AllocError>;
}

/// A gate that holds nobody.
#[derive(Drop)]
pub struct OpenGate;

impl Gate for OpenGate {
    fn pass(&self, _job: u32) -> Result<(), AllocError>
        ensures { IsOk result }
    {
        Ok(())
    }
}
