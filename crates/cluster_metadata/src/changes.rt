//! The changes that commands make in an image, and how they are made.

pub mod change;
pub mod command_change;
pub mod enact;
pub mod keyspaces;
pub mod left_row;
pub mod maps_after;
pub mod new_node;
pub mod next_image;
pub mod node_changes;
pub mod ring_pairs;
