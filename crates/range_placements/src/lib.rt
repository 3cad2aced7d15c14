//! The placements of a keyspace: the nodes that are read and the nodes that are written at each token of the ring.
#![tactic(auto)]

mod edits_in_place;
mod edits_in_room;
pub mod map_row;
pub mod placement_map;
pub mod placement_row;
pub mod row_changes;
pub mod row_edits;
pub mod validity;

pub use map_row::MapRow;
pub use placement_map::PlacementMap;
pub use placement_row::{PlacementRow, PlacementRows, rows_with_room, with_change};
pub use row_changes::{NewNodes, RowChange, RowChanges};
pub use row_edits::{RowEdit, RowEdits};
