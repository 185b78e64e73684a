//! Grail code: a bytecode of lets and jumps that can be read as a functional program (Beringer, MacKenzie and
//! Stark, "Grail: a functional form for imperative mobile code", 2003), with what it means and its spellings in bytes.
//!
//! The spellings are in `specs/Spelling.antt`, and their laws are the contracts of [`laws`].
#![tactic(auto)]

mod by_name;
mod code;
mod decoder;
mod encoder;
mod fault;
pub mod laws;
mod limits;
pub mod meaning;
mod migration;
mod of_func;

pub use code::{Block, Code, Func};
pub use decoder::decode;
pub use encoder::encode;
pub use fault::DecodeFault;
pub use grail_blocks::{CaseArm, CaseCell, Let, Op, Place, PrimCode, Term};
pub use migration::migrate;
