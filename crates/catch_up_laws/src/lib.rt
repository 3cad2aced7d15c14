//! Laws of replies that are given to followers: what a reply has of its log, and how far it brings a follower. The laws
//! need `follower_log`, which stands on the metadata; `catch_up` needs neither.
#![tactic(auto)]

pub mod validity;

pub use validity::replies_catch_up;
