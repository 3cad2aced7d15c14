//! What changes in each row between cuts with a movement, under one replication.

ghost use Rattle.std.specs.Prelude.{◌≡◌, map, IfOk, OnOk};
ghost use Rattle.std.specs.List.{AllByRecursion};
ghost use Rattle.cluster_terms.specs.Arc.{IsToken};
ghost use Rattle.cluster_terms.specs.Row.{rows_between};
ghost use Rattle.placement_deltas.specs.code.Changes.{AreJoined, AreWithRow};
ghost use Rattle.replica_placer.specs.Placers.{placed_by};
ghost use Rattle.sequence_plans.specs.code.RowChanges.{change_at};

use crate::movement_rings::MovementPlacers;
use cluster_terms::{Memory, Steps, Token, TokenRange, rows_between};
use placement_deltas::Changes;
use std::alloc::Global;
use std::sync::ledger::Ledger;
use token_ring::RangeList;

/// Adds what changes in a row: between the nodes that the placers give at its last token, if the ranges contain it, and
/// nothing otherwise.
fn push_row<L: Ledger>(
    changes: &mut Changes,
    alloc: Global,
    placers: &MovementPlacers,
    ranges: &RangeList,
    row: &TokenRange,
    walks: &mut Steps<L>,
) -> Result<(), Memory>
    ensures { OnOk result (AreWithRow changes.old
        (change_at ranges.now (placed_by placers.now.before) (placed_by placers.now.after) row.now)
        changes.new) }
{
    let last = row.last_token();
    if !ranges.contains(last) {
        return changes.push_unchanged(row.right);
    }
    let before = placers.before.place(alloc, last, walks)?;
    let after = placers.after.place(alloc, last, walks)?;
    changes.push(row.right, &before, &after)
}

/// What changes in the rows between cuts. Each placer makes one walk for each row in the ranges, and none elsewhere.
pub fn changes_of<L: Ledger>(
    alloc: Global,
    placers: &MovementPlacers,
    ranges: &RangeList,
    cuts: &[Token],
    walks: &mut Steps<L>,
) -> Result<Changes, Memory>
    ensures changes { IfOk result (AreJoined (map
        (change_at ranges.now (placed_by placers.now.before) (placed_by placers.now.after)) (rows_between cuts.now))) }
    ensures tokens { OnOk result (AllByRecursion IsToken cuts.now) }
{
    let rows = rows_between(alloc, cuts)?;
    let rows = rows.as_slice();
    let mut changes = Changes::with_room(alloc, rows.len())?;
    for row in rows {
        push_row(&mut changes, alloc, placers, ranges, row, walks)?;
    }
    Ok(changes)
}
