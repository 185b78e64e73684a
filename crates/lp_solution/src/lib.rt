//! The certificate that a solution of a code's system is.
#![tactic(auto)]

mod builds;
mod funcs;
mod limits;
mod lines;
mod solution;
mod values;

pub use solution::certificate;
