use cause_texts::Cause;
use lease_desk::Event;

/// What is told of a program.
#[derive(Drop)]
pub enum ProgramLine {
    /// It has a licence; so many units of its certificate are one cell.
    Accepted { unit: u64 },
    /// It has none.
    Refused { cause: Cause },
}

/// Why a job didn't run.
#[derive(Clone, Copy, Debug, PartialEq, Eq)]
pub enum JobCause {
    /// No program of the script has the name.
    NoProgram,
    /// The program was refused.
    ProgramRefused,
    /// The program has no function of the entry's name.
    NoEntry,
    /// The text of the arguments isn't of values of the entry's kinds. Its longest front that begins such a text has
    /// `at` bytes.
    Argument { at: u64 },
    /// The arguments have so many nodes in all, more than 65,536.
    Long { items: u64 },
}

/// What is told of a job. The ending of its run stays where it is kept, as far as it is kept.
#[derive(Drop)]
pub enum JobLine<'a, K> {
    /// It ran, with so much fuel and this bound in cells, by the licence of this number.
    Ended {
        ending: &'a K,
        fuel: u64,
        bound: u64,
        licence: u32,
    },
    /// It needs more cells than the arena has.
    TooLarge {
        needs: u64,
        arena: u32,
    },
    /// It didn't run.
    Refused {
        cause: JobCause,
    },
}

/// What came of a script, before any of it is written. What its lines are made of stays where it is kept.
#[derive(Drop)]
pub struct Outcome<'a, K> {
    /// One line for each program, in the script's order.
    pub programs: &'a [ProgramLine],
    /// One line for each job, in the script's order.
    pub jobs: Vec<JobLine<'a, K>>,
    /// For each job of the desk its place among the script's entries, counted from 0.
    pub asked: &'a [u32],
    /// What the desk did.
    pub journal: &'a [Event],
    /// How many cells are free at the end.
    pub free: u64,
}
