//! The members of the metadata service, which change one node at a time.
#![tactic(auto)]

mod change;
mod fault;
mod growing;
mod members;
mod routes;
mod validity;

pub use change::{Change, ChangeList};
pub use fault::{MemberFault, StartFault};
pub use growing::Growing;
pub use members::Members;
pub use routes::route;
pub use validity::changes_meet;
