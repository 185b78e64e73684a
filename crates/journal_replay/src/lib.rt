//! What journals of leases come to, event by event, without an arena.
#![tactic(auto)]

mod holes;
pub mod laws;
mod moves;
mod replaying;
mod state;
mod told;

pub use replaying::replay;
pub use told::{DeskState, Held};
