//! The host: a command, an input and an output, from bytes to bytes.
#![tactic(auto)]

mod command;
mod drill;
mod hosting;
pub mod laws;
mod migration;
mod refusal;
mod reply;
mod serve;
mod served;
mod slicing;
mod sources;
mod status;
mod tenants;
mod verify;

pub use camelot_compiler::compile;
pub use grail_bundle::{Bundle, BundleFault, read_bundle, write_bundle};
pub use hosting::{host, host_gated};
pub use script_service::{Gate, OpenGate};
pub use served::Served;
pub use status::Status;
