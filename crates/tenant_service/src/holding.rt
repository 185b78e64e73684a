use cell_machine::{Ending, Stack};
use job_world::Call;
use run_reports::JobCause;
use tenant_desk::{TenantDesk, TenantLease};

/// A job that a tenant holds: its name, its call, and the lease of its cells. It can't be dropped, as its cells can't.
pub(crate) struct Holding<'a> {
    pub(crate) name: &'a [u8],
    pub(crate) call: Call,
    pub(crate) lease: TenantLease,
}

/// A stack that is kept for the next run of the licence of this number.
#[derive(Drop)]
pub(crate) struct Spare {
    pub(crate) licence: u32,
    pub(crate) stack: Stack,
}

/// The desk of all tenants, the jobs that each of them holds, in the order in which they were started, and a stack from
/// the last run.
pub(crate) struct Shared<'a> {
    pub(crate) desk: TenantDesk,
    pub(crate) held: Vec<Vec<Holding<'a>>>,
    pub(crate) spare: Option<Spare>,
}

/// What a tenant is told that starts a job.
#[derive(Drop)]
pub(crate) enum Started {
    /// It holds a job of this name.
    Held,
    /// The job is refused.
    Refused { cause: JobCause },
    /// It holds so many cells, and would hold more than its budget.
    Over { held: u64, size: u64, budget: u32 },
    /// No hole of its piece has so many cells.
    Full { need: u32, largest: u32 },
    /// It holds the job now, from this cell of its piece on.
    Granted { first: u32, size: u64 },
}

/// What a run came to that is finished, with its fuel, its bound and the number of its licence.
#[derive(Drop)]
pub(crate) struct Came {
    pub(crate) ending: Ending,
    pub(crate) fuel: u64,
    pub(crate) bound: u64,
    pub(crate) licence: u32,
}
