//! Edits of the rows of a placement map within the memory of the rows. They are made from the last to the first.

ghost use Rattle.std.specs.Prelude.{◌≡◌, ◌+◌, ◌-◌, ◌≤◌, ◌++◌, length, take, drop, vec_capacity, vec_len};
ghost use Rattle.range_placements.specs.Editing.{edited_rows, rows_passed, with_first};
ghost use Rattle.range_placements.specs.code.EditCounts.{row_count, rows_added};

use crate::placement_row::{PlacementRow, PlacementRows, put_row};
use crate::row_edits::RowEdit;
use cluster_terms::RightEnd;
use node_sets::NodeSet;
use std::alloc::Global;

/// The rows that are no more needed, in the middle of edits. The rows before `from` are still to be edited, and those
/// from `to` on are edited.
#[derive(Drop)]
struct Gap {
    from: usize,
    to: usize,
}

fn blank(alloc: Global) -> PlacementRow {
    PlacementRow {
        right: RightEnd::Max,
        reads: NodeSet::empty(alloc),
        writes: NodeSet::empty(alloc),
    }
}

/// Removes the rows from an index on, and opens a gap of `count` rows there. There is room for them.
fn open_gap(rows: &mut PlacementRows, from: usize, count: usize) -> Gap
    requires bound { from ≤ vec_len rows.old }
    requires room { from + count ≤ vec_capacity rows.old }
    ensures rows { take from rows.new.items ≡ take from rows.old.items }
    ensures len { length rows.new.items ≡ from + count }
    ensures gap { result ≡ record { from = from; to = from + count } }
{
    let alloc = *rows.allocator();
    rows.truncate(from);
    for _new in 0..count {
        put_row(rows, blank(alloc));
    }
    Gap {
        from,
        to: rows.len(),
    }
}

/// Moves the `count` rows before `from` up to `to`. The rows between come before them.
fn move_up(rows: &mut [PlacementRow], from: usize, to: usize, count: usize)
    requires count { count ≤ from }
    requires order { from ≤ to }
    requires bound { to ≤ length rows.old }
    ensures before { take (from - count) rows.new ≡ take (from - count) rows.old }
    ensures after { drop (to - count) rows.new ≡ drop (from - count) (take from rows.old) ++ drop to rows.old }
{
    rows[from - count..to].rotate_right(to - from);
}

/// Keeps the `count` rows before the gap.
fn keep_rows(rows: &mut PlacementRows, gap: &mut Gap, count: usize)
    requires count { count ≤ gap.old.from }
    requires order { gap.old.from ≤ gap.old.to }
    requires bound { gap.old.to ≤ length rows.old.items }
    ensures gap { gap.new ≡ record { from = gap.old.from - count; to = gap.old.to - count } }
    ensures before { take gap.new.from rows.new.items ≡ take gap.new.from rows.old.items }
    ensures after { drop gap.new.to rows.new.items
        ≡ drop gap.new.from (take gap.old.from rows.old.items) ++ drop gap.old.to rows.old.items }
    ensures len { length rows.new.items ≡ length rows.old.items }
{
    move_up(rows.as_mut_slice(), gap.from, gap.to, count);
    gap.from -= count;
    gap.to -= count;
}

/// Removes `skip` rows before the gap, and puts in a row, if there is one.
fn put_first(rows: &mut PlacementRows, gap: &mut Gap, skip: usize, row: Option<PlacementRow>)
    requires skip { skip ≤ gap.old.from }
    requires order { gap.old.from + row_count row ≤ gap.old.to + skip }
    requires bound { gap.old.to ≤ length rows.old.items }
    ensures gap { gap.new ≡ record { from = gap.old.from - skip; to = gap.old.to - row_count row } }
    ensures before { take gap.new.from rows.new.items ≡ take gap.new.from rows.old.items }
    ensures after { drop gap.new.to rows.new.items ≡ with_first row (drop gap.old.to rows.old.items) }
    ensures len { length rows.new.items ≡ length rows.old.items }
{
    gap.from -= skip;
    if let Some(row) = row {
        gap.to -= 1;
        rows[gap.to] = row;
    }
}

fn remove_first(rows: &mut PlacementRows, count: usize)
    requires { count ≤ vec_len rows.old }
    ensures { rows.new.items ≡ drop count rows.old.items }
{
    let left = rows.len() - count;
    rows.as_mut_slice().rotate_left(count);
    rows.truncate(left);
}

/// Makes edits in these rows, and keeps `keep` rows after them. The edits pass `passed` rows, and there is memory for
/// the `added` rows that they put in where they remove none.
///
/// The edits go from the last to the first. The gap is between the rows that are edited and those that are not, and a
/// run of rows that stays changes places with the gap by a rotation. A map has memory for an eighth more rows
/// (`rows_with_room`).
pub fn edit_in_place(
    rows: &mut PlacementRows,
    mut edits: Vec<RowEdit>,
    keep: usize,
    passed: usize,
    added: usize,
)
    requires passed { passed ≡ rows_passed edits.items keep }
    requires added { added ≡ rows_added edits.items }
    requires bound { passed ≤ vec_len rows.old }
    requires room { passed + added ≤ vec_capacity rows.old }
    ensures { rows.new.items ≡ edited_rows edits.items keep rows.old.items }
{
    let mut gap = open_gap(rows, passed, added);
    let mut kept = keep;
    while let Some(RowEdit { keep, skip, row }) = edits.pop() {
        keep_rows(rows, &mut gap, kept);
        put_first(rows, &mut gap, skip, row);
        kept = keep;
    }
    keep_rows(rows, &mut gap, kept);
    remove_first(rows, gap.to);
}
