//! Replicas by NetworkTopologyStrategy.
#![tactic(auto)]

mod datacenter_ring;
mod divided_ring;
mod racked_pairs;
mod strategy;
mod validity;
mod walk;

pub use divided_ring::DividedRing;
pub use strategy::replicas;
pub use validity::placement_is_walked;
