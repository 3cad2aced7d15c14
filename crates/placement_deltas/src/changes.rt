ghost use Rattle.std.specs.Prelude.{◌≡◌, [], ◌++◌, IfOk, OnOk};
ghost use Rattle.placement_deltas.specs.code.Changes.{AreJoined, AreWithRow};
ghost use Rattle.placement_deltas.specs.code.JoinedRows as spec;

use crate::delta_row::{DeltaRow, DeltaRows};
use crate::joined_rows::{change_row, end_with_ring, push_joined, unchanged_row};
use cluster_terms::{Memory, RightEnd};
use node_sets::NodeSet;
use std::alloc::Global;
use std::marker::Model;

/// What changes in the rows so far, from the least token on. Adjacent rows are joined if their changes are equal.
///
/// Contracts see the rows that have ended, and the last one, which the next row may continue.
#[derive(Drop)]
pub struct Changes {
    alloc: Global,
    rows: Vec<DeltaRow>,
}

impl Model for Changes {
    ghost use Rattle.placement_deltas.specs.code.Changes.{RowsSoFar, so_far};

    ghost Value = { RowsSoFar };

    ghost view = { λ changes. so_far changes.rows.items };
}

impl Changes {
    /// No row yet, and room for this many.
    pub fn with_room(alloc: Global, count: usize) -> Result<Changes, Memory>
        ensures { IfOk result (AreJoined []) }
    {
        Ok(Changes {
            alloc,
            rows: Vec::with_capacity(alloc, count)?,
        })
    }

    /// Adds a row up to a right end, with the nodes before and after. If memory runs out, the changes may lack rows.
    pub fn push(&mut self, right: RightEnd, before: &NodeSet, after: &NodeSet) -> Result<(), Memory>
        // Promise: of rows added one after another, with the nodes before and after or without a change, a delta has
        // the changes, with neighbours joined that change the same. Guards: by plan, gained_and_lost_exchanged.edit,
        // tried.
        ensures { OnOk result (AreWithRow self.old (spec.change_row right before.now after.now) self.new) }
    {
        let row = change_row(self.alloc, right, before, after)?;
        push_joined(&mut self.rows, row)
    }

    /// Adds a row up to a right end, in which nothing changes. If memory runs out, the changes may lack rows.
    pub fn push_unchanged(&mut self, right: RightEnd) -> Result<(), Memory>
        ensures { OnOk result (AreWithRow self.old (spec.change_row right [] []) self.new) }
    {
        let row = unchanged_row(self.alloc, right);
        push_joined(&mut self.rows, row)
    }

    /// The rows, with the last one up to the end of the ring.
    pub(crate) fn into_rows(self) -> DeltaRows
        ensures { result ≡ self.joined ++ spec.row_ended self.begun }
    {
        let mut rows = self.rows;
        end_with_ring(&mut rows);
        DeltaRows::from_vec(rows)
    }
}
