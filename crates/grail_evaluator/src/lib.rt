//! A small and slow evaluator of Grail code. Its contract is the meaning of code (`specs/Meaning.antt` of
//! `grail_code`), so that what it answers on an input is what the definition says. It is for tests and for reading
//! along; jobs are run on cells, by the machine.
#![tactic(auto)]

mod counts;
mod ends;
mod evaluator;
mod locals;
mod outcome;
mod steps;
mod tree;

pub use evaluator::run;
pub use outcome::{Outcome, RunError};
pub use tree::Tree;
