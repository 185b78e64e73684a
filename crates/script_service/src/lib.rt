//! Scripts served by workers: from the bytes of a script to what comes of it, and its report.
#![tactic(auto)]

mod counting;
mod faults;
pub mod laws;
mod lines;
mod reporting;
mod running;
mod service;
mod slicing;

pub use counting::Tallied;
pub use faults::fault_line;
pub use job_workers::{Gate, Kept, OpenGate};
pub use reporting::{Leftovers, ReportedScript, report_served, summarize_served};
pub use service::{ServeFault, ServedScript, drill, run_script, serve_script};
pub use slicing::slice_script;
