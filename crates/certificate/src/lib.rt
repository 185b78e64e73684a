//! Certificates of heap bounds, and their text.
#![tactic(auto)]

mod functions;
mod items;
pub mod laws;
mod names;
mod numbers;
mod reading;
mod stop;
mod types;
mod vectors;
mod writing;

pub use reading::{CertFault, read_cert};
pub use types::{BlockCert, Cert, FuncCert, MakeCert, VarCert};
pub use writing::write_cert;
