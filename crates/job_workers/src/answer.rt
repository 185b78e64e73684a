ghost use Rattle.job_world.specs.Plans.{job_run, job_cells};

use crate::kept::Kept;
use job_world::JobName;
use lease_desk::Filed;
use std::marker::PhantomData;

/// The ending of one of the jobs that are served, or what is kept of it. Its type keeps that the meaning of the job's
/// own plan says this ending.
#[derive(Drop)]
pub struct Answer<N: JobName, K: Kept> {
    /// The number of the job.
    pub job: u32,
    /// How its run ended, as far as it is kept.
    pub ending: K,
    /// Which jobs are served.
    pub of: PhantomData<N>,
    ghost meant: { K.keeps (job_run N.planned job) ending } by { K.keeps_prop (job_run N.planned job) ending },
}

impl<N: JobName, K: Kept> Filed for Answer<N, K> {
    ghost job = { λ a. a.job };

    // the cells that the machine leaves that runs the job's plan
    ghost cells = { λ a. job_cells N.planned a.job };

    fn job(&self) -> u32 {
        self.job
    }
}
