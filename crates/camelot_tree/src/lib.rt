//! The tree of a Camelot program, and what it means.
//!
//! A program as data of the code is [`Program`]; as plain data it is `specs/Tree.antt`. What a program means is
//! `specs/Meaning.antt`.
#![tactic(auto)]

mod copy;
pub mod laws;
mod program;
mod spine;
mod tree;

pub use program::Program;
pub use spine::{Rooms, Spine, left_spine};
pub use tree::{
    Arm, ArmCell, Atom, Build, Call, ConDecl, Expr, FunDecl, Name, Param, PrimOp, TypeDecl,
};
