//! The system of a code, built: linear inequalities over what a certificate may say of it, one for each check of the
//! certificate's rules (Hofmann and Jost 2003).
#![tactic(auto)]

mod books;
mod ends;
mod entry;
mod form;
mod lets;
mod listing;
mod rows;
mod slots;
mod unknown;
mod values;
mod walk;

pub use entry::system;
