//! The account of a frame by its place: how many units are left there, and what each local carries.
#![tactic(auto)]

mod account;
mod lines;
mod lookups;
mod table;
mod vectors;

pub use lookups::{block_in, func_at, let_in, own_at};
pub use table::AccountTable;
