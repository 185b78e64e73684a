//! The desk that leases runs of one arena to jobs, and keeps a journal of what it did.
#![tactic(auto)]

mod book;
mod desk;
mod event;
mod filed;
pub mod laws;
mod lease;
mod name;
mod places;

pub use desk::{Desk, DeskRefused, Finished, Next};
pub use event::Event;
pub use filed::Filed;
pub use lease::{Claim, Lease};
pub use name::DeskName;
