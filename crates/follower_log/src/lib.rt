//! Followers of a log: nodes that are handed its entries and images in any order, lost and repeated.
#![tactic(auto)]

mod fault;
mod follower;
mod took;
pub mod validity;
mod waiting;

pub use fault::FollowerFault;
pub use follower::Follower;
pub use took::Took;
