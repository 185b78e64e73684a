//! Bundles of Grail code and its certificate, and their text: written, and read.
#![tactic(auto)]

mod bundle;
mod fault;
pub mod laws;
mod lines;
mod reading;
mod writing;

pub use bundle::Bundle;
pub use fault::BundleFault;
pub use reading::read_bundle;
pub use writing::write_bundle;
