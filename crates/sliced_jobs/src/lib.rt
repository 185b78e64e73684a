//! Planned jobs on one thread, in slices: between two slices a job is a text, and its cells may lie elsewhere.
#![tactic(auto)]

mod job;
mod kit;
pub mod laws;
mod parts;
mod round;
mod serving;
mod table;
mod turn;

pub use serving::{SlicedJobs, serve_sliced};
