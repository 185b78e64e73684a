//! The desk that gives several tenants parts of one arena, each within a budget of its own.
//!
//! A tenant's piece is a run of the arena of as many cells as its budget. Runs of it are given by first fit, and what
//! one tenant asks for or gives back changes no other tenant's piece.
#![tactic(auto)]

mod ask;
mod cut;
mod desk;
pub mod laws;
mod lease;
mod piece;

pub use ask::Ask;
pub use desk::{DeskRefused, TenantDesk};
pub use lease::{TenantClaim, TenantLease};
