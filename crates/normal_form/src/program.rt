use camelot_values::{Kind, Types, Word};
use grail_blocks::{Let, Term};

/// A basic block of the normal form: its lets in order, and its end. A jump hands on every local that is bound.
#[derive(Debug, Drop)]
pub struct NormalBlock {
    pub lets: Vec<Let>,
    pub term: Term,
}

/// A function in normal form. Its parameters are the locals from 0 on, with a mark for each that is only read, and
/// `locals` has the kinds of the further ones.
#[derive(Debug, Drop)]
pub struct NormalFunction {
    pub name: Word,
    pub params: Vec<Kind>,
    pub reads: Vec<bool>,
    pub result: Kind,
    pub locals: Vec<Kind>,
    pub blocks: Vec<NormalBlock>,
}

/// A program in normal form: its types and functions.
#[derive(Debug, Drop)]
pub struct Normal {
    pub types: Types,
    pub functions: Vec<NormalFunction>,
}
