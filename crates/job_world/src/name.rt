use lease_desk::DeskName;
use std::marker::Brand;

/// Which jobs they are, and on which desk. A function that serves jobs is generic in it, so that a type may speak of
/// the jobs without holding them. The call that serves them picks it, by passing [`Brand`].
///
/// That the sizes of the desk are the leases of the plans isn't told here: a function that needs it says so.
pub trait JobName: DeskName {
    ghost use Rattle.job_world.specs.Plans.{Planned};

    // the licences, and the plans of all jobs by their numbers
    ghost planned: { Planned };
}

/// What a call passes that picks the jobs. These members stand where none are picked.
impl JobName for Brand {
    ghost use Rattle.std.specs.Prelude.{[]};

    ghost planned = { record { licences = []; plans = [] } };
}
