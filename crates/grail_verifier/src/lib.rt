//! The verifier of certificates: code and certificate from bytes to a licence.
#![tactic(auto)]

mod books;
mod ends;
mod entry;
mod judgement;
pub mod laws;
mod lets;
mod memo;
mod numbered;
mod numbering;
mod refusal;
mod short;
mod values;
mod walk;

pub use entry::verify;
pub use judgement::judge;
pub use refusal::Refusal;
