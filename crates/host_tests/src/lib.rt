//! Tests of what no clause and no text can tell: devices that fail in mid-stream, under the host and under its
//! adapters; bundles once through the host; calls that no command makes, each with enough memory; and that each name of
//! the product is where it is looked for.
#![tactic(auto)]

#[cfg(test)]
mod adapters;
#[cfg(test)]
mod bundles;
#[cfg(test)]
mod calls;
#[cfg(test)]
mod devices;
#[cfg(test)]
mod faults;
#[cfg(test)]
mod gates;
pub mod surface;
