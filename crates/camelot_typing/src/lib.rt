//! Typing of Camelot programs: what it means (`specs/Typing.antt`, over the kinds of `specs/Kinds.antt`), and typed
//! programs.
#![tactic(auto)]

mod kinds;
pub mod laws;
mod typed;

pub use kinds::FunKinds;
pub use typed::Typed;
