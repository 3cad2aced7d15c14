//! The registered nodes of a cluster, in order of registration, and the groups of nodes that have replicas.
#![tactic(auto)]

pub mod directory;
pub mod directory_room;
mod members;
mod shape;
mod stored_rows;
mod tally;

pub use directory::Directory;
pub use directory_room::DirectoryRoom;
pub use members::Members;
pub use shape::{Shape, shape_of};
pub use tally::{Tally, has_rack};
