//! The report of a script, as text.
#![tactic(auto)]

mod halting;
pub mod laws;
mod lines;
mod outcome;
mod pieces;
mod reporting;
mod summing;

pub use cause_texts::{Cause, cause_text};
pub use halting::HasHalt;
pub use lines::{push_cause, push_end, push_line, push_program};
pub use outcome::{JobCause, JobLine, Outcome, ProgramLine};
pub use pieces::{push_number, push_text, push_wide};
pub use reporting::{push_answers, report};
pub use summing::{Tally, summary};
