//! The tokens of a Camelot text.
//!
//! A text is white space, comments that nest, and tokens. Each token is the longest one that begins at its place, and
//! the slice of the text from its `start` to its `end`. What one token looks like is `specs/Forms.antt`, what a comment
//! is `specs/Comments.antt`, and how a whole text is read `specs/Reading.antt`. The laws of these definitions are the
//! contracts of [`laws`].
#![tactic(auto)]

mod comment;
mod fault;
pub mod laws;
mod lexeme;
mod number;
mod scanner;
mod tokens;

pub use fault::ScanFault;
pub use number::{GREATEST_NUMBER, number_value};
pub use scanner::scan;
pub use tokens::{Token, TokenKind};
