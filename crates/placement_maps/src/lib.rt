//! The placement maps of images, and how they follow an image to the next one.
#![tactic(auto)]

pub mod arrangement;
pub mod delta_changes;
mod idle_map;
pub mod image_map;
mod image_rings;
pub mod keyspace_maps;
mod map_basis;
pub mod map_book;
pub mod map_change;
mod placers;
pub mod turn;

pub use arrangement::{Arrangement, Slot};
pub use delta_changes::{recut_book, turned_book};
pub use image_map::{find_map, place_map};
pub use keyspace_maps::{arrangement_of, maps_of};
pub use map_book::MapBook;
pub use map_change::{BookChanges, BookEdits, MapChange};
pub use turn::Turn;
