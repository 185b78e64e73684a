//! The summary of a script in one line.
ghost use Rattle.std.specs.Prelude.{◌≡◌, ◌++◌, ◌^◌, List, length, map, IfOk, OnOk};
ghost use Rattle.licence.specs.Licensed.{Licensed};
ghost use Rattle.run_reports.specs.Lines.{line_tally};
ghost use Rattle.run_reports.specs.Summary.{added, counts_text, sum, sums_text, summary_text, tally_of_halt, tally_text};
ghost use Rattle.run_reports.specs.Summing.{IsUnder};
ghost use Rattle.run_reports.specs.EndsAs.{EndsAs};
ghost use Rattle.run_reports.specs.Told.{IsTold, Told};

use super::pieces::push_wide;
use crate::halting::HasHalt;
use crate::outcome::{JobLine, Outcome};
use cell_machine::Halt;
use std::alloc::{AllocError, Global};

/// What jobs count for in a summary.
#[derive(Clone, Copy, Debug, PartialEq, Eq)]
pub struct Tally {
    /// How many came to a value.
    pub done: u128,
    /// How many stopped on fuel.
    pub fuel: u128,
    /// How many went too deep.
    pub deep: u128,
    /// How many need more cells than the arena has.
    pub too_large: u128,
    /// How many didn't run for another cause.
    pub refused: u128,
    /// The sum of the calls of those that came to a value.
    pub calls: u128,
    /// The sum of the peaks of those that ran.
    pub peaks: u128,
}

/// Nothing was counted.
const NONE: Tally = Tally {
    done: 0,
    fuel: 0,
    deep: 0,
    too_large: 0,
    refused: 0,
    calls: 0,
    peaks: 0,
};

// What is counted of a run that ended so.
fn tally_halt(halt: Halt) -> Tally
    ensures tally { result ≡ tally_of_halt halt }
    ensures small { IsUnder (2 ^ 64) result }
{
    match halt {
        Halt::Done { calls, peak } => Tally {
            done: 1,
            calls: u128::from(calls),
            peaks: u128::from(peak),
            ..NONE
        },
        Halt::Fuel { peak } => Tally {
            fuel: 1,
            peaks: u128::from(peak),
            ..NONE
        },
        Halt::Deep { peak } => Tally {
            deep: 1,
            peaks: u128::from(peak),
            ..NONE
        },
        Halt::Trap { peak } => Tally {
            peaks: u128::from(peak),
            ..NONE
        },
    }
}

// What is counted of a job.
fn tally_line<K: HasHalt>(line: &JobLine<'_, K>) -> Tally
    ensures tally { result ≡ line_tally K.halt line.now }
    ensures small { IsUnder (2 ^ 64) result }
{
    match line {
        JobLine::Ended { ending, .. } => tally_halt(ending.halt()),
        JobLine::TooLarge { .. } => Tally {
            too_large: 1,
            ..NONE
        },
        JobLine::Refused { .. } => Tally { refused: 1, ..NONE },
    }
}

// Both together.
fn add(one: Tally, more: Tally) -> Tally
    requires one { IsUnder (2 ^ 127) one }
    requires more { IsUnder (2 ^ 64) more }
    ensures { result ≡ added one more }
{
    Tally {
        done: one.done + more.done,
        fuel: one.fuel + more.fuel,
        deep: one.deep + more.deep,
        too_large: one.too_large + more.too_large,
        refused: one.refused + more.refused,
        calls: one.calls + more.calls,
        peaks: one.peaks + more.peaks,
    }
}

// All jobs together.
#[tactic(auto, using(crate::proofs::Tallying::counted_none, crate::proofs::Tallying::one_behind, crate::proofs::Tallying::none_behind, crate::proofs::Tallying::still_small))]
fn total<K: HasHalt>(lines: &[JobLine<'_, K>]) -> Tally
    ensures { result ≡ sum (map (line_tally K.halt) lines.now) }
{
    let mut all = NONE;
    'lines: for line in lines {
        all = add(all, tally_line(line));
    }
    all
}

// Writes how many jobs ended in which way.
#[tactic(auto, using(crate::proofs::Joining::four))]
fn push_counts(out: &mut Vec<u8>, tally: &Tally) -> Result<(), AllocError>
    ensures { OnOk result (out.new.items ≡ out.old.items ++ counts_text tally.now) }
{
    push_wide(out, b" done ", tally.done)?;
    push_wide(out, b" fuel ", tally.fuel)?;
    push_wide(out, b" deep ", tally.deep)?;
    push_wide(out, b" too-large ", tally.too_large)
}

// Writes how many didn't run, and the sums.
#[tactic(auto, using(crate::proofs::Joining::three))]
fn push_sums(out: &mut Vec<u8>, tally: &Tally) -> Result<(), AllocError>
    ensures { OnOk result (out.new.items ≡ out.old.items ++ sums_text tally.now) }
{
    push_wide(out, b" refused ", tally.refused)?;
    push_wide(out, b" calls ", tally.calls)?;
    push_wide(out, b" peaks ", tally.peaks)
}

// Writes the line.
#[tactic(auto, using(crate::proofs::Joining::five))]
fn push_tally(out: &mut Vec<u8>, jobs: usize, tally: &Tally, free: u64) -> Result<(), AllocError>
    ensures { OnOk result (out.new.items ≡ out.old.items ++ tally_text jobs tally.now free) }
{
    push_wide(out, b"drill ", jobs as u128)?;
    push_counts(out, tally)?;
    push_sums(out, tally)?;
    push_wide(out, b" free ", u128::from(free))?;
    out.extend_from_slice(b"\n")
}

// The line of so many jobs.
fn summarize<K: HasHalt>(
    alloc: Global,
    lines: &[JobLine<'_, K>],
    free: u64,
) -> Result<Vec<u8>, AllocError>
    ensures { IfOk result (λ text. text.items ≡ tally_text (length lines.now) (sum (map (line_tally K.halt) lines.now)) free) }
{
    let tally = total(lines);
    let mut out = Vec::new(alloc);
    push_tally(&mut out, lines.len(), &tally, free)?;
    Ok(out)
}

/// The summary of what came of a script, in one line: how many jobs it has, how many of them came to a value, stopped
/// on fuel, went too deep, needed more cells than the arena has, and were refused; the sum of the calls of those that
/// came to a value; the sum of the peaks of all that ran; and the free cells at the end. It asks for no value of a run.
/// `AllocError` where memory runs out.
pub fn summary<K: HasHalt>(alloc: Global, outcome: &Outcome<'_, K>) -> Result<Vec<u8>, AllocError>
    // It is the summary of whatever this tells, with whichever licences.
    ensures { (licences : List Licensed) (told : Told) → IsTold (EndsAs K.halt) licences outcome.now told
        → IfOk result (λ text. text.items ≡ summary_text told) }
{
    let text = summarize(alloc, &outcome.jobs, outcome.free)?;
    Ok(text)
}
