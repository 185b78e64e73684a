//! Runs of cells of one arena: an arena is made whole, its runs are split and joined, and each cell has one owner.
//!
//! The cells of an arena lie in one allocation, in which a run stays where it is: no call but `Span::new` takes memory,
//! and no call but `Span::end` gives it back.
#![tactic(auto)]

mod arena;
mod cell;
mod cells;
pub mod laws;
mod span;

pub use arena::Arena;
pub use cell::Cell;
#[doc(hidden)]
pub use cells::{Base, Cells, Deed};
pub use span::Span;
