//! Kinds and values of Camelot and Grail.
#![tactic(auto)]

mod counts;
mod fits;
mod kinds;
pub mod laws;
mod reach;
mod reached;
mod value;

pub use kinds::{Con, Kind, TypeDef, Types, Word};
pub use laws::law_of_sequence;
pub use value::{Flat, Item};
