//! The cluster image, the commands that change it, and the image that each command leads to.
#![tactic(auto)]

pub mod command;
pub mod entry;
pub mod image;
pub mod image_rules;
pub mod keyspace;
mod movement_fit;
mod movement_rules;
mod movement_search;
mod node_rules;
mod node_search;
mod pair_search;
mod prepares;
pub mod refusal;
pub mod refusals;
mod ring_rules;
pub mod rings;
mod rule_search;
mod same;
pub mod sequence;
pub mod state;
mod token_count;

pub use command::Command;
pub use entry::Entry;
pub use image::Image;
pub use image_rules::{BadImage, bad_image};
pub use keyspace::{KeyspaceRow, KeyspaceRows};
pub use movement_search::movement_of;
pub use pair_search::ascend_by_token;
pub use refusal::Refusal;
pub use refusals::{early_refusal, register_refusal};
pub use rings::{
    RingKind, cuts, cuts_among, fixed_among, ring_with, ring_with_movement, widest, widest_among,
};
pub use sequence::{Goal, Kind, Phase, SeqRow, SeqRows};
pub use state::{NodeState, node_state, state_of};
