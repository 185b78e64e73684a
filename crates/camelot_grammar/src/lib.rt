//! The grammar of Camelot: which tokens are a program and which program they are, where tokens stop being one, and laws
//! of these definitions.
//!
//! Trees of the grammar and what they spell are `specs/Grammar.antt`, the program that a tree stands for is
//! `specs/Program.antt`, and the level of each token is `specs/Levels.antt`; where tokens stop being a program is
//! `specs/Parsing.antt`. `specs/Machine.antt` reads tokens one by one and gives the same answers: a parser is proved by
//! it.
#![tactic(auto)]

mod fault;
pub mod laws;
mod lexeme;

pub use fault::ParseFault;
pub use lexeme::{Lexeme, Mark};
