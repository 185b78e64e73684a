//! The system of a code: linear inequalities over what a certificate may say, one for each check of the certificate's
//! rules (Hofmann and Jost 2003). Its solutions are the certificates that grant the code.
#![tactic(auto)]

pub mod laws;
mod lent;

pub use lent::{is_marked, local_carriers, looked_in};
