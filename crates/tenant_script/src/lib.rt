//! Scripts of tenants that share an arena, read from their text and written.
#![tactic(auto)]

mod fault;
pub mod laws;
mod reading;
mod types;
mod writing;

pub use fault::TenantFault;
pub use reading::read_tenants;
pub use types::{Tenant, TenantEntry, TenantScript};
pub use writing::write_tenants;
