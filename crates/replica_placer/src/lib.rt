//! Placing replicas on a ring, by the strategy of a replication.
#![tactic(auto)]

pub mod placer;

pub use placer::Placer;
