//! Serves planned jobs on a desk, by workers over a lock: each job is run by the machine in the cells of its lease, and
//! its ending is filed.
#![tactic(auto)]

mod answer;
mod arena;
mod gate;
mod kept;
mod rest;
mod serving;
mod stacks;
mod workers;

pub use answer::Answer;
pub use arena::{ServedJobs, serve_planned};
pub use gate::{Gate, OpenGate};
pub use kept::Kept;
pub use workers::{Home, serve_jobs};
