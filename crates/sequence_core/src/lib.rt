//! The steps of a movement, as values that must be consumed.
#![tactic(auto)]

mod phase;
mod seq;

pub use phase::{Mid, Prepared, Started};
pub use seq::Seq;
