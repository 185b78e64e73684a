//! The types of Camelot programs: the rules of typing (`camelot_typing`) decided, with the first fault of the walk
//! through the text (`specs/Walk.antt`). Kinds that aren't written are found by unification, as in ML (Milner 1978),
//! over kinds without type variables.
#![tactic(auto)]

mod arms;
mod atoms;
mod bodies;
mod builds;
mod compile;
mod constructors;
mod exprs;
mod facts;
mod fault;
mod globals;
mod guess;
mod headers;
mod heads;
pub mod laws;
mod names;
mod program;
mod settle;
mod table;
mod types;
mod walker;

pub use camelot_typing::{FunKinds, Typed};
pub use fault::TypeFault;
pub use program::{check, check_program};
