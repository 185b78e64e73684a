//! The parser of Camelot.
//!
//! A text is scanned into tokens (`text_scan`), and these are read by [`parse`]. Which tokens are a program, and where
//! tokens stop being one, is said in `camelot_grammar`. The tree of a program is that of `camelot_tree`.
#![tactic(auto)]

mod arms;
mod chains;
mod decls;
mod ending;
mod exprs;
mod functions;
mod operand;
mod parser;
mod state;
mod text;
mod units;
mod words;

pub use camelot_grammar::{Lexeme, Mark, ParseFault, laws};
pub use camelot_tree::{
    Arm, ArmCell, Atom, Build, Call, ConDecl, Expr, FunDecl, Name, Param, PrimOp, Program, TypeDecl,
};
pub use text::parse;
