//! Why an input is refused, and the text of it.
//!
//! A [`Cause`] is a fault of one of the crates that take a source to a bundle, or a bundle to a licence. Its text, by
//! [`cause_text`], is `specs/Texts.antt`.
#![tactic(auto)]

mod bundles;
mod cause;
mod pieces;
mod sources;
mod text;

pub use cause::Cause;
pub use text::cause_text;
