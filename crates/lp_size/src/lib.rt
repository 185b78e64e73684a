//! How many unknowns and rows the system of a code has, without building it.
#![tactic(auto)]

mod books;
mod count;
mod ends;
mod lets;
mod origins;
mod taken;
mod unknowns;
mod values;
mod walk;

pub use count::{Size, size_of};
