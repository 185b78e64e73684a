//! Licences: code with a certificate that grants it, and the bounds of its runs.
#![tactic(auto)]

mod bound;
mod constructors;
pub mod laws;
mod licence;
mod site;

pub use bound::Needs;
pub use constructors::first_con_of;
pub use licence::Licence;
pub use site::Site;
