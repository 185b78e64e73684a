//! Which cells of a range have an owner: marks for the cells, and walks over values and over the free list that set
//! them. So the cells of a state that nobody trusts are told to have one owner each.
#![tactic(auto)]

mod free;
pub mod laws;
mod look;
mod marks;
mod values;

pub use free::take_free;
pub use look::Due;
pub use marks::CellMarks;
pub use values::take_value;
