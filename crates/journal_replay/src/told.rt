use hole_list::Run;

/// A lease that is out: the number of its job, and its run.
#[derive(Clone, Copy, Debug, PartialEq, Eq)]
pub struct Held {
    pub job: u32,
    pub run: Run,
}

/// What a journal comes to: the holes, in ascending order, and the leases that are out, by the numbers of their jobs.
#[derive(Debug, Drop)]
pub struct DeskState {
    pub holes: Vec<Run>,
    pub leases: Vec<Held>,
}
