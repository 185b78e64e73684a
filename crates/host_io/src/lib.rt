//! Sources and sinks of bytes whose contracts say what was taken and what was told.
//!
//! A program is written over the traits `Source` and `Sink`. It runs over standard input and output by
//! `StdSource` and `StdSink`, and is tested over memory by `MemorySource` and `MemorySink`, which can be
//! made to fail at any call.
#![tactic(auto)]

mod memory;
mod sink;
mod source;
mod standard;
mod sure;

pub use memory::{MemorySink, MemorySource};
pub use sink::{Sink, write_all};
pub use source::{Failed, ReadStop, Source, read_all};
pub use standard::{StdSink, StdSource};
pub use sure::{SureSink, SureSource};
