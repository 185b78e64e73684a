//! The licence of a bundle, from the bytes of its text alone.
#![tactic(auto)]

pub mod laws;
mod licensing;

pub use licensing::license_bundle;
