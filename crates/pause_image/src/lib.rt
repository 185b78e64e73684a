//! Pauses: what is kept of a run, and that a run goes on from it as it would have. A run goes on from any text that is
//! the image of a state with which nothing is wrong, whoever wrote it.
#![tactic(auto)]

mod cells;
mod fault;
mod judge;
pub mod laws;
mod owning;
mod pausing;
mod resuming;
mod shapes;
mod slicing;

pub use fault::ImageFault;
pub use judge::ImageJudge;
pub use pausing::{Paused, pause};
pub use resuming::{NoResume, resume};
pub use slicing::slice;
