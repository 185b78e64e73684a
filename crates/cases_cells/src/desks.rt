//! Answers lines about desks, so that tables of them are data: `stdin` has the lines, and `stdout` what is to be
//! answered. A line that begins with `--` is a note. Any other line is a command, and its answer stands behind it.
//!
//! - `desk N S1 S2 ..`: a new desk of an arena of N cells, for jobs of these sizes.
//! - `next`: asks for the next job; once every job was asked for and no lease is out, takes the first one that waits.
//! - `mark J T A`: writes the tag T into cell A of job J's lease, counted from 0, the first one where no A is given;
//!   into none where the lease has no such cell. `give J`: it goes back with a payload that has its cells. `withdraw
//!   J`: it goes back without one.
//! - `counts`: how many cells are free and in the largest hole, how many leases are out, and how many were withdrawn.
//!   `journal`: the events.
//! - `replay N S1 S2 ..: E1, E2, ..`: what the journal of these events comes to, as `took J F S`, `full J N L` and
//!   `gave J F S`.
//! - `finish`: withdraws what is out, and ends the desk; its cells' tags, and the jobs with a payload, where nothing
//!   was out.
mod answers;
mod copied;
mod replays;
mod session;

pub(crate) use answers::fit;
use answers::{answer_new, answer_without};
use std::io;

/// Answers the lines of a table. A desk's lines go up to that of the next desk.
pub(crate) fn answer_lines(rt: &HostRuntime, lines: &[String]) -> io::Result<()> {
    answer_without(rt, lines)?;
    for (place, line) in lines.iter().enumerate() {
        if let Some(words) = line.strip_prefix("desk ") {
            print!(rt; "{line}:")?;
            answer_new(rt, words, lines.get(place + 1..).unwrap_or(&[]))?;
        }
    }
    Ok(())
}
