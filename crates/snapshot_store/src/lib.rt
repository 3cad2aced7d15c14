//! The state of the cluster at an epoch of a log, from images that are kept of it.
#![tactic(auto)]

mod entries_taken;
mod nearest;
mod snapshots;

pub use snapshots::Snapshots;
