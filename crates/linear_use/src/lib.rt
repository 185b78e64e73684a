//! The rule of use: on each path an owned variable of a heap kind is taken at most once, and not used behind that; what
//! is lent is only read.
#![tactic(auto)]

mod check;
mod fault;
mod functions;
mod known;
pub mod laws;
mod marks;
pub mod names;
mod parts;
mod reads;
mod spent;
mod state;
mod variable;
mod walk;

pub use check::{Linear, check_use};
pub use fault::UseFault;
