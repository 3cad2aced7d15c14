//! Replies to a follower that was away and asks for what it lacks of a log.
#![tactic(auto)]

mod message;
mod replies;
mod validity;

pub use message::{EntryList, Reply};
pub use replies::{base, reply};
pub use validity::replies_stay;
