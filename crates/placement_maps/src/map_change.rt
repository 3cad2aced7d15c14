use crate::arrangement::Arrangement;
use crate::map_book::MapBook;
use range_placements::{RowChanges, RowEdits};

/// New sets for rows of each map of a book, in the order of the maps.
pub type BookChanges = Vec<RowChanges>;

/// Which rows each map of a book keeps, and which new rows it gets, in the order of the maps.
pub type BookEdits = Vec<RowEdits>;

/// How a change changes the placement maps. It holds all memory for that.
#[derive(Drop)]
pub enum MapChange {
    /// The maps stay.
    Keep,
    /// The maps are replaced by these.
    Anew(MapBook),
    /// Some maps stay, in a new order, and others are new.
    Arranged(Arrangement),
    /// The maps get new sets in some rows.
    Sets(BookChanges),
    /// The maps keep some rows, which move, and get new ones.
    Rows(BookEdits),
}
