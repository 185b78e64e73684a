//! What tables of cases are written in: tables of lines, codes in hexadecimal digits, texts with changed lines, and
//! cases with a head.
#![tactic(auto)]

mod case;
mod table;
mod text;
mod texts;

pub use case::Case;
pub use table::{Table, Tables};
pub use text::{Judge, Text, answer};
pub use texts::{Texts, edited};
