//! Values of Camelot and Grail as text.
#![tactic(auto)]

mod asking;
mod behind;
mod cutting;
mod finite;
mod inhabited;
mod ints;
pub mod laws;
mod names;
mod nodes;
mod reading;
mod splitting;
mod writing;

pub use asking::{ValueFault, read, read_known};
pub use inhabited::Inhabited;
pub use writing::{print, push_small, push_value};
