//! What tenants are told who share an arena: a reply to each start and each finish of a script of tenants. Each tenant is
//! told what its own lines and the programs come to, whatever the others do.
#![tactic(auto)]

mod ends;
mod faults;
mod holding;
mod holdings;
pub mod laws;
mod lines;
mod numbers;
mod programs;
mod rooms;
mod running;
mod service;
mod texts;

pub use faults::fault_line;
pub use service::{TenantsFault, serve_tenants};
