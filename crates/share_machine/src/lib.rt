//! The machine of `share`: one of many processes that answer scripts over one log, which a store of order keeps.
#![tactic(auto)]

pub mod validity;

pub use validity::entries_wait_for_the_store;
