//! Changes placement maps by the deltas of a movement.

ghost use Rattle.std.specs.Prelude.{◌≡◌, ◌<◌, ◌≤◌, ◌^◌, ◌-◌, List, [], drop, get_or, length, map, take, IfOk, IsTrue, OnOk};
ghost use Rattle.cluster_terms.specs.Row.{last_token};
ghost use Rattle.placement_deltas.specs.Deltas.{delta_at};
ghost use Rattle.placement_deltas.specs.declared.delta_row.DeltaRow.{DeltaRow as AnyDeltaRow};
ghost use Rattle.range_placements.specs.Editing.{edited, all_passed};
ghost use Rattle.range_placements.specs.Exchanging.{with_changes};
ghost use Rattle.range_placements.specs.Placements.{right_ends};
ghost use Rattle.range_placements.specs.declared.placement_row.PlacementRow.{PlacementRow as AnyRow};
ghost use Rattle.placement_maps.specs.code.MapChanges.{each_edited, each_exchanged};
ghost use Rattle.placement_maps.specs.code.Turns as spec;

use crate::map_book::MapBook;
use crate::map_change::{BookChanges, BookEdits};
use crate::turn::Turn;
use cluster_terms::{Memory, RightEnd, Token, TokenRange, TryCopy};
use node_sets::NodeSet;
use placement_deltas::{Delta, DeltaBook};
use range_placements::{
    NewNodes, PlacementMap, PlacementRow, RowChange, RowChanges, RowEdits, with_change,
};
use std::alloc::Global;

/// A row with this right end and the sets of a row, changed by the nodes gained and the nodes lost.
fn turned_sets(
    turn: Turn,
    right: RightEnd,
    row: &PlacementRow,
    gained: &NodeSet,
    lost: &NodeSet,
) -> Result<PlacementRow, Memory>
    ensures { IfOk result (λ new. new
        ≡ spec.row_to right (spec.turned turn (row.now.reads, row.now.writes) (gained.now, lost.now))) }
{
    let PlacementRow { reads, writes, .. } = row;
    match turn {
        Turn::Keep => Ok(PlacementRow {
            right,
            reads: reads.copy()?,
            writes: writes.copy()?,
        }),
        Turn::Reads => Ok(PlacementRow {
            right,
            reads: with_change(reads, gained, lost)?,
            writes: writes.copy()?,
        }),
        Turn::Writes => Ok(PlacementRow {
            right,
            reads: reads.copy()?,
            writes: with_change(writes, gained, lost)?,
        }),
        Turn::ReadsBack => Ok(PlacementRow {
            right,
            reads: with_change(reads, lost, gained)?,
            writes: writes.copy()?,
        }),
        Turn::WritesBack => Ok(PlacementRow {
            right,
            reads: reads.copy()?,
            writes: with_change(writes, lost, gained)?,
        }),
    }
}

/// A row with this right end and the sets of a row, changed by what the delta shows at the last token. `hint` is where
/// the delta was looked at last.
fn turned_row(
    turn: Turn,
    right: &RightEnd,
    row: &PlacementRow,
    delta: &Delta,
    hint: &mut usize,
) -> Result<PlacementRow, Memory>
    ensures { IfOk result (λ new. new ≡ spec.row_to right.now
        (spec.turned turn (row.now.reads, row.now.writes) (delta_at delta.now (last_token right.now)))) }
{
    let (gained, lost) = delta.at_by_hint(right.last_token(), hint);
    turned_sets(turn, *right, row, gained, lost)
}

/// The new nodes of a row, by the nodes gained and the nodes lost. Returns `None` if the turn keeps the sets.
fn turned_nodes(
    turn: Turn,
    row: &PlacementRow,
    gained: &NodeSet,
    lost: &NodeSet,
) -> Result<Option<NewNodes>, Memory>
    ensures { IfOk result (λ nodes. spec.with_turned nodes row.now
        ≡ spec.row_to row.now.right (spec.turned turn (row.now.reads, row.now.writes) (gained.now, lost.now))) }
{
    let nodes = match turn {
        Turn::Keep => return Ok(None),
        Turn::Reads => NewNodes::Reads(with_change(&row.reads, gained, lost)?),
        Turn::Writes => NewNodes::Writes(with_change(&row.writes, gained, lost)?),
        Turn::ReadsBack => NewNodes::Reads(with_change(&row.reads, lost, gained)?),
        Turn::WritesBack => NewNodes::Writes(with_change(&row.writes, lost, gained)?),
    };
    Ok(Some(nodes))
}

/// Adds new nodes of the row at a position, if there are any.
fn push_nodes(changes: &mut RowChanges, at: usize, nodes: Option<NewNodes>) -> Result<(), Memory>
    ensures { OnOk result (spec.AddsNodes nodes at changes.old changes.new) }
{
    match nodes {
        Some(nodes) => changes.push(RowChange { at, nodes }),
        None => Ok(()),
    }
}

/// A turn of a map by a delta.
#[derive(Drop)]
struct Turning<'a> {
    turn: Turn,
    map: &'a PlacementMap,
    delta: &'a Delta,
}

/// How many rows of a map end at or before a token. The cost is a binary search. It is left out for the greatest token,
/// and if the token is in the row at position `hint` or the next one.
fn count_up_to(map: &PlacementMap, last: Token, hint: usize) -> usize
    ensures bound { result ≤ length map.now }
    ensures ends { spec.EndUpTo last map.now result }
{
    let count = map.rows().len();
    if last == RightEnd::Max.last_token() {
        return count;
    }
    let mut at = hint;
    let row = map.row_by_hint(last, &mut at);
    if row.last_token() == last {
        return at + 1;
    }
    at
}

/// The position after the rows of a map that a turn keeps, from a position on. Rows are passed up to the end of one row
/// of the delta, or all of them if the turn keeps each row. `hint` is where the delta was looked at last.
fn kept_up_to(turning: &Turning, at: usize, hint: &mut usize) -> usize
    requires { at < length turning.now.map.now }
    ensures later { at ≤ result }
    ensures passes { (row : AnyRow) → row ≡ get_or turning.now.map.now at row
        → delta_at turning.now.delta.now (last_token row.right) ≡ ([], []) → at < result }
    ensures bound { result ≤ length turning.now.map.now }
    ensures kept { spec.Keeps turning.now.turn turning.now.delta.now
        (take (result - at) (drop at turning.now.map.now)) }
{
    let rows = turning.map.rows();
    if matches!(turning.turn, Turn::Keep) {
        return rows.len();
    }
    match turning.delta.unchanged_from(rows[at].last_token(), hint) {
        Some(tokens) => count_up_to(turning.map, tokens.last, at).max(at + 1),
        None => at,
    }
}

/// Adds the new nodes of the row at a position, if the delta changes it, and passes it. Otherwise passes the rows that
/// end where the delta changes nothing. Returns the position of the row after these.
fn turn_from(
    changes: &mut RowChanges,
    turning: &Turning,
    at: usize,
    hint: &mut usize,
) -> Result<usize, Memory>
    requires bound { at < length turning.now.map.now }
    requires turned { spec.AreTurned turning.now.turn turning.now.delta.now turning.now.map.now at
        changes.old }
    ensures later { IfOk result (λ next. at < next) }
    ensures bound { IfOk result (λ next. next ≤ length turning.now.map.now) }
    ensures turned { IfOk result (λ next. spec.AreTurned turning.now.turn turning.now.delta.now
        turning.now.map.now next changes.new) }
{
    let row = &turning.map.rows()[at];
    let (gained, lost) = turning.delta.at_by_hint(row.last_token(), hint);
    if gained.is_empty() && lost.is_empty() {
        return Ok(kept_up_to(turning, at, hint));
    }
    let nodes = turned_nodes(turning.turn, row, gained, lost)?;
    push_nodes(changes, at, nodes)?;
    Ok(at + 1)
}

/// The new nodes of the rows of a map that a delta changes. The cost is a few binary searches for each row of the delta,
/// and a new set for each row of the map that it changes.
fn turned_rows(
    alloc: Global,
    turn: Turn,
    map: &PlacementMap,
    delta: &Delta,
) -> Result<RowChanges, Memory>
    ensures { IfOk result (λ changes. with_changes changes map.now ≡ spec.turned_rows turn map.now delta.now) }
{
    let turning = Turning { turn, map, delta };
    let mut changes = RowChanges::empty(alloc);
    let mut hint = 0;
    let mut at = 0;
    let count = map.rows().len();
    while at < count {
        at = turn_from(&mut changes, &turning, at, &mut hint)?;
    }
    Ok(changes)
}

/// Where a map and a delta were looked at last.
#[derive(Drop)]
struct Places {
    map: usize,
    delta: usize,
}

/// Whether a map has a row at an index, which no edit is past.
fn is_ahead(edits: &RowEdits, map: &PlacementMap, at: usize) -> bool
    ensures place { IsTrue result → all_passed edits.now ≤ at }
    ensures bound { IsTrue result → at < length map.now }
    ensures fits { length map.now < 2 ^ 64 }
{
    let count = map.rows().len();
    edits.passed() <= at && at < count
}

/// How many of these rows, from the first one on, have the right ends of these ranges.
fn count_same(rows: &[PlacementRow], ranges: &[TokenRange]) -> usize
    ensures rows { result ≤ length rows.now }
    ensures ranges { result ≤ length ranges.now }
    ensures same { right_ends (take result rows.now) ≡ map (λ range. range.right) (take result ranges.now) }
{
    let most = rows.len().min(ranges.len());
    for at in 0..most {
        if rows[at].right != ranges[at].right {
            return at;
        }
    }
    most
}

/// Adds the rows of some ranges, at least of the first, with the sets of their last tokens in a map, changed by what the
/// delta shows there. Returns how many. Rows that the map has, and that no edit is past, are kept if they don't change.
/// `places` is where the map and the delta are looked at.
fn recut_some(
    edits: &mut RowEdits,
    turning: &Turning,
    ranges: &[TokenRange],
    places: &mut Places,
) -> Result<usize, Memory>
    requires { 0 < length ranges.now }
    ensures some { IfOk result (λ count. 0 < count) }
    ensures bound { IfOk result (λ count. count ≤ length ranges.now) }
    ensures rows { IfOk result (λ count. spec.AddsRows turning.now.map.now
        (spec.recut_rows turning.now.turn (take count ranges.now) turning.now.map.now
        turning.now.delta.now) edits.old edits.new) }
{
    let Turning { turn, map, delta } = turning;
    let right = &ranges[0].right;
    let row = map.row_by_hint(right.last_token(), &mut places.map);
    let at = places.map;
    if row.right != *right || !is_ahead(edits, map, at) {
        edits.put(turned_row(*turn, right, row, delta, &mut places.delta)?)?;
        return Ok(1);
    }
    let end = kept_up_to(turning, at, &mut places.delta);
    let count = count_same(&map.rows()[at..end], ranges);
    if count > 0 {
        edits.keep(at, count)?;
        places.map = at + count;
        return Ok(count);
    }
    let new = turned_row(*turn, right, row, delta, &mut places.delta)?;
    edits.replace(at, new)?;
    Ok(1)
}

/// The edits that make a map one of these ranges, with the sets of their last tokens in the map, changed by what the
/// delta shows there.
fn recut_map(
    alloc: Global,
    turn: Turn,
    map: &PlacementMap,
    delta: &Delta,
    ranges: &[TokenRange],
) -> Result<RowEdits, Memory>
    ensures { IfOk result (λ edits. edited edits map.now ≡ spec.recut_rows turn ranges.now map.now delta.now) }
{
    let turning = Turning { turn, map, delta };
    let mut edits = RowEdits::with_room(alloc, ranges.len())?;
    let mut places = Places { map: 0, delta: 0 };
    let mut done = 0;
    while done < ranges.len() {
        done += recut_some(&mut edits, &turning, &ranges[done..], &mut places)?;
    }
    Ok(edits)
}

/// The new nodes of the rows of a book's maps that the deltas of a movement change. The deltas are under the same
/// replications in the same order. Cost: under each replication a few binary searches for each row of the delta, and a
/// pass over a set for each row of the map that changes.
///
/// A start, the step half way and a cancel half way change reads or writes, never both, so they make a new set only for
/// rows that change, and one for each.
pub fn turned_book(
    alloc: Global,
    turn: Turn,
    book: &MapBook,
    deltas: &DeltaBook,
) -> Result<BookChanges, Memory>
    ensures { IfOk result (λ changes. length book.now ≡ length deltas.now
        → each_exchanged changes.items book.now ≡ spec.each_map (spec.turned_rows turn) book.now deltas.now) }
{
    let mut changes = Vec::new(alloc);
    for (row, deltas) in book.as_slice().iter().zip(deltas.as_slice()) {
        changes.push(turned_rows(alloc, turn, &row.map, &deltas.delta)?)?;
    }
    Ok(changes)
}

/// The edits that make the maps of a book those of these ranges, with the sets of their last tokens in the maps of the
/// book, changed by the deltas of a movement. The deltas are under the same replications in the same order. Cost: under
/// each replication one pass over the map and the ranges, a few binary searches for each row of the delta and each row
/// that is new or changes, and a copy of the sets of the latter.
///
/// This serves where a movement begins or ends: the ranges are those between the cuts of the next image, and their sets
/// are read off the map as it is, at their last tokens. So the rows are right whichever cuts come and go, and each row
/// is made or moved once.
pub fn recut_book(
    alloc: Global,
    turn: Turn,
    book: &MapBook,
    deltas: &DeltaBook,
    ranges: &[TokenRange],
) -> Result<BookEdits, Memory>
    ensures { IfOk result (λ edits. length book.now ≡ length deltas.now
        → each_edited edits.items book.now
        ≡ spec.each_map (spec.recut_rows turn ranges.now) book.now deltas.now) }
{
    let mut edits = Vec::new(alloc);
    for (row, deltas) in book.as_slice().iter().zip(deltas.as_slice()) {
        edits.push(recut_map(alloc, turn, &row.map, &deltas.delta, ranges)?)?;
    }
    Ok(edits)
}
