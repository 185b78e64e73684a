//! Inference: the least certificate of a code, found by linear programming (Hofmann and Jost 2003).
#![tactic(auto)]

mod conclude;
mod fault;
mod solving;

pub use fault::NoCert;
pub use solving::infer;
