//! Replicas by SimpleStrategy.
#![tactic(auto)]

mod strategy;
mod validity;
mod walk;

pub use strategy::replicas;
pub use validity::placement_is_walked;
