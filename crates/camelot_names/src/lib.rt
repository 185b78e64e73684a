//! Tables of names with their numbers, and scopes with shadowing. Both look names up in ordered maps, and take no hash
//! of a name, so that no choice of names makes them collide.
#![tactic(auto)]

mod scopes;
mod tables;

pub use scopes::Scope;
pub use tables::Names;
