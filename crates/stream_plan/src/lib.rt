//! Stream plans: the nodes that stream the data of each range to the nodes that a movement adds.
#![tactic(auto)]

mod grouping;
mod map_changes;
mod movement_streams;
mod replaced;
mod sources;
mod stream_row;
mod stream_rows;
pub mod validity;

pub use movement_streams::streams;
pub use stream_row::{StreamFrom, StreamRow, StreamRows};
