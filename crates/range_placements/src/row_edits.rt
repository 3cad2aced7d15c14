ghost use Rattle.std.specs.Prelude.{◌≡◌, ◌+◌, ◌-◌, ◌<◌, ◌≤◌, ◌^◌, ◌∷◌, ◌++◌, [], length, take, drop, IfOk, OnOk, List, vec_capacity, vec_len};
ghost use Rattle.range_placements.specs.Editing as spec;
ghost use Rattle.range_placements.specs.declared.placement_row.PlacementRow.{PlacementRow as AnyRow};

use crate::edits_in_place::edit_in_place;
use crate::edits_in_room::edit_into;
use crate::placement_row::{PlacementRow, PlacementRows, rows_with_room};
use cluster_terms::Memory;
use std::alloc::Global;
use std::marker::Model;

/// A step in a pass over the rows of a placement map: it keeps some rows, removes the next ones, and then puts in its
/// row, if it has one.
#[derive(Debug, Drop)]
pub struct RowEdit {
    /// How many rows are kept.
    pub keep: usize,
    /// How many rows are removed after them.
    pub skip: usize,
    /// The row that is put in after these.
    pub row: Option<PlacementRow>,
}

/// How a pass over the rows of a placement map keeps some, removes others and puts in new ones. It holds the memory for
/// the rows after it. Rows that the pass doesn't come to are removed.
#[derive(Debug, Drop)]
pub struct RowEdits {
    edits: Vec<RowEdit>,
    keep: usize,
    passed: usize,
    made: usize,
    added: usize,
    room: PlacementRows,
}

impl Model for RowEdits {
    ghost use Rattle.std.specs.Prelude.{◌≡◌, ◌≤◌, vec_capacity, vec_len};
    ghost use Rattle.range_placements.specs.Editing.{Edits, rows_passed};
    ghost use Rattle.range_placements.specs.code.EditCounts.{rows_added, rows_made};

    ghost Value = { Edits };

    ghost view = { λ edits. record { edits = edits.edits.items; keep = edits.keep } };

    ghost invariant = { λ edits. (edits.passed ≡ rows_passed edits.edits.items edits.keep)
        × (edits.made ≡ rows_made edits.edits.items edits.keep)
        × (edits.added ≡ rows_added edits.edits.items)
        × (edits.made ≤ vec_capacity edits.room)
        × (vec_len edits.room ≡ 0) };
}

/// Takes memory for `more` rows beside `made` ones, if there is no room for them.
fn make_room(room: &mut PlacementRows, made: usize, more: usize) -> Result<(), Memory>
    requires { vec_len room.old ≡ 0 }
    ensures empty { vec_len room.new ≡ 0 }
    ensures grows { vec_capacity room.old ≤ vec_capacity room.new }
    ensures room { OnOk result (made + more ≤ vec_capacity room.new) }
    ensures bound { OnOk result (made + more < 2 ^ 64) }
{
    match made.checked_add(more) {
        Some(count) if count <= room.capacity() => Ok(()),
        Some(count) => Ok(room.reserve(count)?),
        None => Err(Memory),
    }
}

impl RowEdits {
    /// No edit yet. Memory for this many rows and an eighth more is taken at once.
    pub fn with_room(alloc: Global, count: usize) -> Result<RowEdits, Memory>
        ensures { IfOk result (λ edits. edits ≡ record { edits = []; keep = 0 }) }
    {
        Ok(RowEdits {
            edits: Vec::new(alloc),
            keep: 0,
            passed: 0,
            made: 0,
            added: 0,
            room: rows_with_room(alloc, count)?,
        })
    }

    /// How many rows the pass has come past.
    pub fn passed(&self) -> usize
        ensures { result ≡ spec.all_passed self.now }
    {
        self.passed
    }

    /// Removes the rows before an index, which the pass hasn't come past.
    fn skip_to(&mut self, at: usize) -> Result<(), Memory>
        requires { spec.all_passed self.old ≤ at }
        ensures rows { OnOk result ((rows : List AnyRow) → spec.edited self.new rows ≡ spec.edited self.old rows) }
        ensures passed { OnOk result (spec.all_passed self.new ≡ at) }
    {
        if self.passed == at {
            return Ok(());
        }
        self.edits.push(RowEdit {
            keep: self.keep,
            skip: at - self.passed,
            row: None,
        })?;
        self.keep = 0;
        self.passed = at;
        Ok(())
    }

    /// Keeps some rows from an index on, which the pass hasn't come past, and removes the rows before them.
    ///
    /// `placement_maps` keeps a row if it ends as its range does, the delta changes nothing there, and no later row was
    /// kept or passed over. It tests all three, so no proof says that rows come in order.
    pub fn keep(&mut self, at: usize, count: usize) -> Result<(), Memory>
        requires place { spec.all_passed self.old ≤ at }
        requires bound { at + count < 2 ^ 64 }
        ensures rows { OnOk result ((rows : List AnyRow)
            → spec.edited self.new rows ≡ spec.edited self.old rows ++ take count (drop at rows)) }
        ensures passed { OnOk result (spec.all_passed self.new ≡ at + count) }
    {
        self.skip_to(at)?;
        make_room(&mut self.room, self.made, count)?;
        self.keep += count;
        self.passed += count;
        self.made += count;
        Ok(())
    }

    /// Puts in a row.
    pub fn put(&mut self, row: PlacementRow) -> Result<(), Memory>
        ensures rows { OnOk result ((rows : List AnyRow)
            → spec.edited self.new rows ≡ spec.edited self.old rows ++ row ∷ []) }
        ensures passed { OnOk result (spec.all_passed self.new ≡ spec.all_passed self.old) }
    {
        make_room(&mut self.room, self.made, 1)?;
        self.edits.push(RowEdit {
            keep: self.keep,
            skip: 0,
            row: Some(row),
        })?;
        self.keep = 0;
        self.made += 1;
        self.added += 1;
        Ok(())
    }

    /// Puts in a row in the place of the row at an index, which the pass hasn't come past, and removes the rows before
    /// it.
    pub fn replace(&mut self, at: usize, row: PlacementRow) -> Result<(), Memory>
        requires place { spec.all_passed self.old ≤ at }
        requires bound { at < 2 ^ 64 - 1 }
        ensures rows { OnOk result ((rows : List AnyRow)
            → spec.edited self.new rows ≡ spec.edited self.old rows ++ row ∷ []) }
        ensures passed { OnOk result (spec.all_passed self.new ≡ at + 1) }
    {
        make_room(&mut self.room, self.made, 1)?;
        self.edits.push(RowEdit {
            keep: self.keep,
            skip: at + 1 - self.passed,
            row: Some(row),
        })?;
        self.keep = 0;
        self.passed = at + 1;
        self.made += 1;
        Ok(())
    }

    /// Makes the edits in these rows. Takes no memory: each row that stays is moved, within the memory of the rows if
    /// there is enough, and otherwise to the memory that the edits hold.
    pub(crate) fn make(self, rows: &mut PlacementRows)
        ensures { rows.new.items ≡ spec.edited self rows.old.items }
    {
        let RowEdits {
            edits,
            keep,
            passed,
            made: _,
            added,
            room,
        } = self;
        let spare = rows.capacity().saturating_sub(passed);
        if passed <= rows.len() && added <= spare {
            edit_in_place(rows, edits, keep, passed, added);
            room.destroy_empty();
        } else {
            edit_into(room, rows, edits, keep);
        }
    }
}
