#![tactic(auto)]
//! Why a call has no answer: a fault of its input, or want of memory beside it.

mod stop;

pub use crate::stop::Stop;
