//! Annotations of constructors, and the potential of values.
#![tactic(auto)]

mod carried;
mod compare;
pub mod laws;
mod reach;
mod vector;

pub use carried::potential;
pub use compare::at_least;
pub use reach::{ReachTable, first_below, is_among};
pub use vector::Vector;
