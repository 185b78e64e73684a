//! The compiler: from the bytes of a Camelot source to a bundle of Grail code and its certificate, or to the licence
//! that the verifier gives for it; or the cause for which the source is refused.
#![tactic(auto)]

mod compiling;
pub mod laws;
mod licensing;
mod stages;

pub use compiling::compile;
pub use grail_bundle::{Bundle, write_bundle};
pub use licensing::license;
