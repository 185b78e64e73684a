//! Plans of runs over licences, names for the jobs that are served, and the law that jobs in one arena leave each other
//! alone.
#![tactic(auto)]

mod call;
mod fault;
mod isolation;
mod jobs;
pub mod laws;
mod name;
mod plan;

pub use call::Call;
pub use fault::AddFault;
pub use hole_list::Run;
pub use isolation::isolation_law;
pub use jobs::Jobs;
pub use name::JobName;
pub use plan::Plan;
