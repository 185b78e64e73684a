//! From a script to what runs: its programs become licences, and its jobs become plans of runs, or are refused.
#![tactic(auto)]

mod answering;
mod calling;
mod cutting;
pub mod laws;
mod licensing;
mod planning;
mod rows;
mod types;
mod wanting;

pub use calling::call;
pub use licensing::{LicensedPrograms, license_all};
pub use planning::plan_script;
pub use rows::{Known, Row};
pub use types::{JobPlan, Plans};
