//! The normal form of Camelot programs: lets over locals, in basic blocks (`specs/Normal.antt`), which means what the
//! program means.
#![tactic(auto)]

mod appending;
mod copying;
mod count;
mod count_tail;
mod counts;
mod cut;
pub mod facts;
mod fault;
mod functions;
mod kinds;
mod known;
mod known_kinds;
pub mod laws;
mod names;
mod normalising;
mod order;
mod part;
mod program;
mod scopes;
mod tail;
mod tail_kinds;
mod value;

pub use fault::NormalFault;
pub use functions::normalise_function;
pub use known::Known;
pub use normalising::normalise;
pub use program::{Normal, NormalBlock, NormalFunction};
