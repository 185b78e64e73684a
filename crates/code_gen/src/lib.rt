//! The code of programs in normal form: blocks with the locals that are live at them as parameters
//! (`specs/Generated.antt`).
#![tactic(auto)]

mod coding;
mod compiling;
mod generating;
pub mod laws;
mod liveness;
mod local_set;
mod marks;

pub use compiling::compile;
pub use generating::generate;
