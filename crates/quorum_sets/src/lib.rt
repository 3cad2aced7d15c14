//! The number of replicas that read quorums and write quorums need.
#![tactic(auto)]

mod counting;
mod datacenter;
mod needs;
mod validity;

pub use counting::{local_quorum, names_datacenter, quorum};
pub use datacenter::within;
pub use needs::Quorum;
pub use validity::counting_tells;
