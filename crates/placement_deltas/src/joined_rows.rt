ghost use Rattle.std.specs.Prelude.{◌≡◌, ◌<◌, [], ◌++◌, None, Some, length, map, IfOk, OnOk};
ghost use Rattle.placement_deltas.specs.code.Changes.{AreWithRow, is_continued, so_far, with_end};
ghost use Rattle.placement_deltas.specs.code.JoinedRows as spec;

use crate::delta_row::{DeltaRow, DeltaRows};
use crate::side::Side;
use cluster_terms::{Memory, RightEnd, TokenRange, TryCopy};
use node_sets::NodeSet;
use std::alloc::Global;

/// The row up to a right end in which nothing changes.
pub(crate) fn unchanged_row(alloc: Global, right: RightEnd) -> DeltaRow
    ensures { result ≡ spec.change_row right [] [] }
{
    DeltaRow {
        right,
        gained: NodeSet::empty(alloc),
        lost: NodeSet::empty(alloc),
    }
}

/// The row up to a right end, with the nodes that are in only one of two sets.
pub(crate) fn change_row(
    alloc: Global,
    right: RightEnd,
    before: &NodeSet,
    after: &NodeSet,
) -> Result<DeltaRow, Memory>
    ensures { IfOk result (λ row. row ≡ spec.change_row right before.now after.now) }
{
    if before.ids() == after.ids() {
        return Ok(unchanged_row(alloc, right));
    }
    let (lost, gained) = before.differences(after)?;
    Ok(DeltaRow {
        right,
        gained,
        lost,
    })
}

fn row_of_side(alloc: Global, side: Side, row: &DeltaRow) -> Result<DeltaRow, Memory>
    ensures { IfOk result (λ other. other ≡ spec.row_of_side side row.now) }
{
    let (gained, lost) = match side {
        Side::Gained => (row.gained.copy()?, NodeSet::empty(alloc)),
        Side::Lost => (NodeSet::empty(alloc), row.lost.copy()?),
    };
    Ok(DeltaRow {
        right: row.right,
        gained,
        lost,
    })
}

fn same_change(row: &DeltaRow, other: &DeltaRow) -> bool
    ensures { result ≡ spec.same_change row.now other.now }
{
    row.gained.ids() == other.gained.ids() && row.lost.ids() == other.lost.ids()
}

/// Whether the last row has the same change as this one.
fn is_continued(rows: &[DeltaRow], row: &DeltaRow) -> bool
    ensures { result ≡ is_continued (so_far rows.now).begun row.now }
{
    match rows.last() {
        Some(last) => same_change(last, row),
        None => false,
    }
}

/// Lets the last row end at a right end.
fn end_at(rows: &mut Vec<DeltaRow>, right: RightEnd)
    requires { 0 < length rows.old.items }
    ensures { so_far rows.new.items ≡ with_end right (so_far rows.old.items) }
{
    let last = rows.len() - 1;
    rows[last].right = right;
}

/// Adds a row, or lets the last row end where this one ends if it has the same change.
#[tactic(auto, using(crate::proofs::SoFar::row_more, crate::proofs::SoFar::row_continued))]
#[inline(always)]
pub(crate) fn push_joined(rows: &mut Vec<DeltaRow>, row: DeltaRow) -> Result<(), Memory>
    ensures { OnOk result (AreWithRow (so_far rows.old.items) row (so_far rows.new.items)) }
{
    if is_continued(rows, &row) {
        end_at(rows, row.right);
    } else {
        rows.push(row)?;
    }
    Ok(())
}

/// Lets the last row end with the ring.
#[tactic(auto, using(crate::proofs::SoFar::ring_ended))]
pub(crate) fn end_with_ring(rows: &mut Vec<DeltaRow>)
    ensures { rows.new.items ≡ (so_far rows.old.items).joined ++ spec.row_ended (so_far rows.old.items).begun }
{
    if !rows.is_empty() {
        end_at(rows, RightEnd::Max);
    }
}

/// The changes of the rows between cuts, with adjacent rows joined if their changes are equal.
#[tactic(auto, using(crate::proofs::ChangesLemmas::joined_next))]
pub(crate) fn joined(
    alloc: Global,
    rows: &[TokenRange],
    before: &[NodeSet],
    after: &[NodeSet],
) -> Result<DeltaRows, Memory>
    requires before { length before.now ≡ length rows.now }
    requires after { length after.now ≡ length rows.now }
    ensures { IfOk result
        (λ joined. joined ≡ spec.joined_from None (spec.change_rows rows.now before.now after.now)) }
{
    let mut joined = Vec::with_capacity(alloc, rows.len())?;
    for ((row, before), after) in rows.iter().zip(before).zip(after) {
        push_joined(&mut joined, change_row(alloc, row.right, before, after)?)?;
    }
    end_with_ring(&mut joined);
    Ok(DeltaRows::from_vec(joined))
}

/// Whether a row has the same nodes as another one on one side, and none on the other side.
#[tactic(auto, using(crate::proofs::SideDeltas::none_in))]
fn has_only(last: &DeltaRow, side: Side, row: &DeltaRow) -> bool
    ensures { result ≡ spec.same_change last.now (spec.row_of_side side row.now) }
{
    match side {
        Side::Gained => last.gained.ids() == row.gained.ids() && last.lost.is_empty(),
        Side::Lost => last.gained.is_empty() && last.lost.ids() == row.lost.ids(),
    }
}

/// Whether the last row has the same change as the row with the nodes of one side alone.
fn is_continued_on(rows: &[DeltaRow], side: Side, row: &DeltaRow) -> bool
    ensures { result ≡ is_continued (so_far rows.now).begun (spec.row_of_side side row.now) }
{
    match rows.last() {
        Some(last) => has_only(last, side, row),
        None => false,
    }
}

/// Adds the row with the nodes of one side alone, or lets the last row end where it ends if it has these nodes.
#[tactic(auto, using(crate::proofs::SoFar::row_more, crate::proofs::SoFar::row_continued))]
fn push_side(
    rows: &mut Vec<DeltaRow>,
    alloc: Global,
    side: Side,
    row: &DeltaRow,
) -> Result<(), Memory>
    ensures { OnOk result (AreWithRow (so_far rows.old.items) (spec.row_of_side side row.now) (so_far rows.new.items)) }
{
    if is_continued_on(rows, side, row) {
        end_at(rows, row.right);
    } else {
        rows.push(row_of_side(alloc, side, row)?)?;
    }
    Ok(())
}

/// The rows with the nodes of one side alone, with adjacent rows joined if these nodes are equal.
pub(crate) fn joined_side(alloc: Global, side: Side, rows: &[DeltaRow]) -> Result<DeltaRows, Memory>
    ensures { IfOk result
        (λ joined. joined ≡ spec.joined_from None (map (spec.row_of_side side) rows.now)) }
{
    let mut joined = Vec::with_capacity(alloc, rows.len())?;
    for row in rows {
        push_side(&mut joined, alloc, side, row)?;
    }
    end_with_ring(&mut joined);
    Ok(DeltaRows::from_vec(joined))
}
