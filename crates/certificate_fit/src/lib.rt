//! Whether a certificate fits a code: one walk over the lines of the certificate, beside the blocks of the code.
#![tactic(auto)]

mod blocks;
mod fit;
pub mod laws;
mod lines;
mod looks;
mod makes;
mod own;
mod vars;

pub use fit::{Misfit, check_fit};
