//! Locals of a frame by its place: which of them are ready, and whether one of them is lent.
#![tactic(auto)]

pub mod laws;
mod marking;
mod table;

pub use table::{LocalTable, is_set};
