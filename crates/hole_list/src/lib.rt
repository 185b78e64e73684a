//! The holes of a run of an arena: parts of it are taken by first fit, and merge with their neighbours when they come
//! back.
#![tactic(auto)]

mod holes;
pub mod laws;
mod merge;
mod out;
mod places;
mod run;

pub use holes::{Holes, HolesRefused};
pub use run::Run;
