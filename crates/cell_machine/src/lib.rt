//! The machine that runs Grail code in the cells of one range.
#![tactic(auto)]

mod drive;
mod exits;
mod frames;
mod functions;
mod homes;
pub mod laws;
mod licensed;
mod loading;
mod machine;
mod packed;
mod packing;
mod reading;
mod restoring;
mod room;
mod saving;
mod state;
mod steps;
mod walking;

pub use licensed::{halt, run, run_counted};
pub use loading::cells_of;
pub use machine::{Ending, Halt, Halted, Machine, Ran, Stack, run_code};
pub use room::Room;
