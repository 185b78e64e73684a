//! Scripts of programs and jobs, read from their text.
#![tactic(auto)]

mod bodies;
mod entries;
mod heads;
mod known;
pub mod laws;
mod making;
mod names;
mod numbers;
mod reading;
mod stop;
mod types;
mod writing;

pub use heads::{Head, JobLine, read_job, read_program};
pub use known::KnownNames;
pub use making::{make_script, make_texts};
pub use names::{add_name, is_word};
pub use numbers::read_sized;
pub use reading::{ScriptFault, read_script};
pub use stop::LineStop;
pub use types::{Entry, Language, MadeTexts, Script};
pub use writing::{push_args, push_count, push_program, push_sized, push_word, write_script};
