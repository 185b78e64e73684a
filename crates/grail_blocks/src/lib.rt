//! Lets and ends of basic blocks, and what they mean: what code has in common with the compiler's normal form. A block
//! of code has parameters, to which a jump narrows what is bound; a block of the normal form has none, and a jump hands
//! everything on.
//!
//! The plain data is `specs/Blocks.antt`, what it means `specs/Running.antt`.
#![tactic(auto)]

mod blocks;
pub mod laws;

pub use blocks::{CaseArm, CaseCell, Let, Op, Place, PrimCode, Term};
