//! Gates at which workers are held or refused.

use job_workers::Gate;
use std::alloc::AllocError;
use std::sync::atomic::{AtomicBool, Ordering};

/// How often job 0 looks whether job 1 has passed, before it goes on without it.
const MOST_LOOKS: u32 = 1_000_000_000;

/// Refuses one job.
#[derive(Drop)]
pub(crate) struct Refuses {
    pub(crate) job: u32,
}

impl Gate for Refuses {
    fn pass(&self, job: u32) -> Result<(), AllocError> {
        if job == self.job {
            return Err(AllocError);
        }
        Ok(())
    }
}

/// Holds job 0 until job 1 has passed, and notes whether it did. Jobs that run on one thread, one after the other,
/// don't get by before the last look.
#[derive(Drop)]
pub(crate) struct Holds {
    second_passed: AtomicBool,
    first_saw: AtomicBool,
}

impl Holds {
    pub(crate) fn new() -> Holds {
        Holds {
            second_passed: AtomicBool::new(false),
            first_saw: AtomicBool::new(false),
        }
    }

    /// Whether job 0 saw that job 1 has passed.
    pub(crate) fn saw(&self) -> bool {
        self.first_saw.load(Ordering::SeqCst)
    }
}

impl Gate for Holds {
    fn pass(&self, job: u32) -> Result<(), AllocError> {
        if job == 1 {
            self.second_passed.store(true, Ordering::SeqCst);
        }
        if job == 0 {
            for _ in 0..MOST_LOOKS {
                if self.second_passed.load(Ordering::SeqCst) {
                    self.first_saw.store(true, Ordering::SeqCst);
                    return Ok(());
                }
            }
        }
        Ok(())
    }
}
