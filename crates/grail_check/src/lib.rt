//! The check of Grail code: whether code is well formed, and the first place where it isn't.
#![tactic(auto)]

mod arms;
mod blocks;
mod body;
mod check;
mod exits;
mod fault;
mod functions;
pub mod laws;
mod lent;
mod lets;
mod local_set;
mod locals;
mod marks;
mod names;
mod types;

pub use check::check_code;
pub use fault::{CodeFault, CodeKind};
pub use lent::mark_looked;
