//! The bounds that a licence grants, as text.
#![tactic(auto)]

mod writing;

pub use writing::bounds_text;
