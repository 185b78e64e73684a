//! Texts of lines: cuts, numbers, and a reader of any format that is told line by line.
#![tactic(auto)]

mod cutting;
mod numbers;
mod reading;
mod writing;

pub use cutting::{behind, cut, first_word, further_word, next_line, next_word};
pub use numbers::{NUMBER_CAP, number};
pub use reading::{Halt, LineReader, Refused, read_lines};
pub use writing::push_number;
