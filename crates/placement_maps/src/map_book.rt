ghost use Rattle.std.specs.Prelude.{◌≡◌, ◌<◌, [], length, get_or};
ghost use Rattle.range_placements.specs.Editing.{edited};
ghost use Rattle.range_placements.specs.Placements.{IsPlacementMap};
ghost use Rattle.range_placements.specs.declared.map_row.MapRow.{MapRow as AnyRow};
ghost use Rattle.placement_maps.specs.code.Arrangements.{arranged};
ghost use Rattle.placement_maps.specs.code.MapChanges as spec;

use crate::arrangement::Arrangement;
use crate::map_change::{BookChanges, BookEdits};
use cluster_terms::{Memory, TryCopy};
use range_placements::{MapRow, RowChanges, RowEdits};
use std::alloc::Global;
use std::marker::Model;

/// The placements under each replication that a keyspace has, in the order in which the replications first appear.
/// Keyspaces with the same replication share a row. A lookup compares replications, of at most 64 maps.
#[derive(Debug, Drop)]
pub struct MapBook {
    rows: Vec<MapRow>,
}

impl Model for MapBook {
    ghost use Rattle.std.specs.Prelude.{List};
    ghost use Rattle.range_placements.specs.declared.map_row.MapRow.{MapRow};

    ghost Value = { List MapRow };

    ghost view = { λ book. book.rows.items };
}

/// Exchanges sets in the map at a position. A position past the last map changes nothing.
fn exchange_at(rows: &mut Vec<MapRow>, at: usize, changes: RowChanges)
    ensures { rows.new.items ≡ spec.exchanged_at at changes rows.old.items }
{
    if at < rows.len() {
        rows[at].map.exchange(changes);
    }
}

/// Keeps some rows of the map at an index, and puts in new ones. An index past the last map changes nothing.
fn edit_at(rows: &mut Vec<MapRow>, at: usize, edits: RowEdits)
    requires { (row : AnyRow) → at < length rows.old.items → row ≡ get_or rows.old.items at row
        → IsPlacementMap (edited edits row.map) }
    ensures { rows.new.items ≡ spec.edited_at at edits rows.old.items }
{
    if at < rows.len() {
        rows[at].map.edit(edits);
    }
}

impl MapBook {
    /// No map yet.
    pub fn empty(alloc: Global) -> MapBook
        ensures { result ≡ [] }
    {
        MapBook {
            rows: Vec::new(alloc),
        }
    }

    /// The maps in order.
    pub fn as_slice(&self) -> &[MapRow]
        ensures { result.now ≡ self.now }
    {
        self.rows.as_slice()
    }

    /// Keeps some maps in a new order, removes the others and puts in new ones. Takes no memory, and copies no map.
    pub fn arrange(&mut self, arrangement: Arrangement)
        ensures { self.new ≡ arranged arrangement self.old }
    {
        arrangement.make(&mut self.rows);
    }

    /// Exchanges sets in each map. Takes no memory.
    pub fn exchange(&mut self, mut changes: BookChanges)
        ensures { self.new ≡ spec.each_exchanged changes.items self.old }
    {
        while let Some(last) = changes.pop() {
            exchange_at(&mut self.rows, changes.len(), last);
        }
    }

    /// Keeps some rows of each map, removes others and puts in new ones. Takes no memory, and copies no set.
    pub fn edit(&mut self, mut edits: BookEdits)
        requires { spec.ArePlacementMaps (spec.each_edited edits.items self.old) }
        ensures { self.new ≡ spec.each_edited edits.items self.old }
    {
        while let Some(last) = edits.pop() {
            edit_at(&mut self.rows, edits.len(), last);
        }
    }
}

impl TryCopy for MapBook {
    fn copy(&self) -> Result<MapBook, Memory> {
        let mut rows = Vec::with_capacity(*self.rows.allocator(), self.rows.len())?;
        for row in &self.rows {
            rows.push(row.copy()?)?;
        }
        Ok(MapBook { rows })
    }
}
