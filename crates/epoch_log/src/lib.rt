//! The log of accepted entries, by id and by epoch.
#![tactic(auto)]

pub mod log;

pub use log::Log;
