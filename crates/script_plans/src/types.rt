use job_world::Jobs;
use run_reports::{JobCause, ProgramLine};

/// What is planned of a job of a script.
#[derive(Clone, Copy, Debug, PartialEq, Eq)]
pub enum JobPlan {
    /// It runs, as the job of this number among those that the desk serves. So many cells are its bound.
    Runs { job: u32, bound: u64 },
    /// It needs so many cells, more than the arena has.
    TooLarge { needs: u64 },
    /// It doesn't run, for this cause.
    Refused { cause: JobCause },
}

/// What is planned of a script.
#[derive(Drop)]
pub struct Plans {
    /// One line for each program, in the script's order.
    pub programs: Vec<ProgramLine>,
    /// The runs that are planned, with their licences.
    pub jobs: Jobs,
    /// One plan for each job, in the script's order. Those that run are the jobs 0, 1, 2 and so on of `jobs`.
    pub plans: Vec<JobPlan>,
    /// For each job of `jobs` its place among the script's entries, counted from 0.
    pub asked: Vec<u32>,
}
