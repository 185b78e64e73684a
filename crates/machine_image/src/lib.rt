//! Images of paused runs: their text, its reader and its writer.
//!
//! ```text
//! grail image 1
//! calls C net N peak P fuel F free H cells S
//! frame FUNC BLOCK PLACE
//! local X WORD
//! cell TAG W W W W
//! end
//! ```
//!
//! Each line ends with a line feed, and words stand one space apart. Numbers are decimal without leading zeros. Frames
//! stand from the oldest on, at least one, each followed by its live locals in ascending order. Then come the S cells.
//! P and the sum of C and F are at most 2^40. N is from -4294967295 to 4294967295, and `-0` is no number. All others
//! have 32 bits.
#![tactic(auto)]

mod counts;
pub mod laws;
mod lines;
mod numbers;
mod reading;
mod state;
mod writing;

pub use reading::{NoImage, read_image};
pub use state::{Bound, Frame, State};
pub use writing::write_image;

#[cfg(test)]
mod tests;
