ghost use Rattle.std.specs.Prelude.{◌≡◌, ℤ, ◌≤ℤ◌, int_lt, true, false, not, ◌+◌, ◌*◌, ◌-◌, ◌^◌, ◌<◌, ◌≤◌, length, get_or, filter, IfOk, MatchResult};
ghost use Rattle.std.specs.List.Sorted.{IsPartitionPoint};
ghost use Rattle.std.specs.Ordering.{int_cmp, int_eq};
ghost use Rattle.cluster_terms.specs.Arc.{IsToken, greatest_token};
ghost use Rattle.cluster_terms.specs.Ascending.{put};
ghost use Rattle.cluster_terms.specs.Row.{last_token};
ghost use Rattle.placement_deltas.specs.Deltas.{EndAtCuts, delta_at};
ghost use Rattle.range_placements.specs.Editing.{edited};
ghost use Rattle.range_placements.specs.Exchanging.{with_changes};
ghost use Rattle.range_placements.specs.Placements.{HasSameSides, IsPlacementMap, cuts_of, is_cut_of, merged_rows, map_at, reads_changed, right_ends, split_rows, writes_changed};
ghost use Rattle.range_placements.specs.declared.placement_row.PlacementRow.{PlacementRow as AnyRow};

use crate::placement_row::{PlacementRow, PlacementRows};
use crate::row_changes::RowChanges;
use crate::row_edits::RowEdits;
use cluster_terms::{Memory, RightEnd, Steps, Token, TryCopy, row_index, row_index_by_hint};
use node_sets::NodeSet;
use placement_deltas::Delta;
use std::marker::Model;
use std::sync::ledger::Ledger;

/// The nodes that are read and the nodes that are written at each token. The rows ascend, and the last row has the
/// greatest token. It ends in `Max` or at 2^63 - 1, as the greatest token may be a cut.
///
/// The rows are a `Vec`, as a split inserts a row, a merge removes one, and both may change a right end in place.
#[derive(Debug, Drop)]
pub struct PlacementMap {
    rows: PlacementRows,
}

impl Model for PlacementMap {
    ghost use Rattle.std.specs.Prelude.{List};
    ghost use Rattle.range_placements.specs.declared.placement_row.PlacementRow.{PlacementRow};
    ghost use Rattle.range_placements.specs.Placements.{IsPlacementMap};

    ghost Value = { List PlacementRow };

    ghost view = { λ map. map.rows.items };

    ghost invariant = { λ map. IsPlacementMap map.rows.items };
}

/// Whether a row ends before the token with this number. Counts one comparison.
fn ends_before<L: Ledger>(row: &PlacementRow, number: i64, steps: &mut Steps<L>) -> bool
    ensures answer { result ≡ int_lt (last_token row.now.right) number }
    ensures counted { steps.new ≡ steps.old + 1 }
{
    steps.tick();
    row.last_token().value() < number
}

/// How many rows end before a token, by a binary search. Counts the comparisons.
fn find<L: Ledger>(rows: &[PlacementRow], t: Token, steps: &mut Steps<L>) -> usize
    requires { IsPlacementMap rows.now }
    ensures bound { result < length rows.now }
    ensures split { IsPartitionPoint (λ r. int_lt (last_token r.right) t ≡ true)
        (λ r. int_lt (last_token r.right) t ≡ false) rows.now result }
    ensures rises { steps.old ≤ steps.new }
    ensures cost { 2 ^ (steps.new - steps.old) ≤ 2 * length rows.now }
    ensures enough { length rows.now < 2 * 2 ^ (steps.new - steps.old) }
{
    let number = t.value();
    let mut low = 0;
    let mut high = rows.len() - 1;
    while low < high {
        let middle = low + (high - low) / 2;
        if ends_before(&rows[middle], number, steps) {
            low = middle + 1;
        } else {
            high = middle;
        }
    }
    low
}

/// Makes a token a cut of the rows.
fn split(rows: &mut PlacementRows, t: Token) -> Result<(), Memory>
    requires { IsPlacementMap rows.old.items }
    ensures rows { MatchResult result (λ _. rows.new.items ≡ split_rows rows.old.items t)
        (λ _. rows.new.items ≡ rows.old.items) }
    ensures token { t ≤ℤ greatest_token }
{
    let at = row_index(rows.as_slice(), t);
    if rows[at].last_token() == t {
        rows[at].right = RightEnd::At(t);
    } else {
        let row = rows[at].up_to(t)?;
        rows.insert(at, row)?;
    }
    Ok(())
}

/// Removes a cut of the rows.
fn merge(rows: &mut PlacementRows, t: Token)
    requires { IsPlacementMap rows.old.items }
    ensures { rows.new.items ≡ merged_rows rows.old.items t }
{
    let at = row_index(rows.as_slice(), t);
    if at + 1 < rows.len() {
        let _removed = rows.remove(at);
    } else {
        rows[at].right = RightEnd::Max;
    }
}

impl PlacementMap {
    /// The map of these rows. Their last tokens ascend, and the last row ends in `Max` or at 2^63 - 1.
    pub fn from_rows(rows: PlacementRows) -> PlacementMap
        requires { IsPlacementMap rows.items }
        // Promise: rows whose last tokens ascend, with the last row in `Max` or at 2^63 - 1, make the map of these
        // rows. Guards: scripts.
        ensures { result ≡ rows.items }
    {
        PlacementMap { rows }
    }

    /// The rows in ascending order.
    pub fn rows(&self) -> &[PlacementRow]
        // Promise: a map shows its rows, which ascend up to the greatest token. Guards: scripts, by the invariant of
        // PlacementMap.
        ensures rows { result.now ≡ self.now }
        ensures map { IsPlacementMap self.now }
    {
        self.rows.as_slice()
    }

    /// The reads and the writes at a token. Takes no memory.
    ///
    /// The cost is a binary search, and each comparison is counted. For n rows 2^steps is more than n / 2 and at
    /// most 2 n.
    pub fn at<L: Ledger>(&self, t: Token, steps: &mut Steps<L>) -> (&NodeSet, &NodeSet)
        // Promise: the nodes that are read and those that are written at a token are those of the first row that ends
        // at or after it. Guards: a_lookup_in_the_row_before.edit, quorums.rt, calls/maps.rt, tried.
        ensures placement { (result.0.now, result.1.now) ≡ map_at self.now t }
        // Promise: a lookup in a map of n rows counts s steps, one for each comparison, and 2^s is more than n / 2 and
        // at most 2 n. Guards: tried.
        ensures rises { steps.old ≤ steps.new }
        ensures cost { 2 ^ (steps.new - steps.old) ≤ 2 * length self.now }
        ensures enough { length self.now < 2 * 2 ^ (steps.new - steps.old) }
    {
        let rows = self.rows();
        let row = &rows[find(rows, t, steps)];
        (&row.reads, &row.writes)
    }

    /// The first row that ends at or after a token. Takes no memory. It is that row for any hint, so no loop has to
    /// prove that its index is right.
    ///
    /// `hint` may be any position, and becomes that of the token's row. If it was this position or the one before, only
    /// these rows are looked at, so for ascending tokens that miss no row a look-up costs a few comparisons. Otherwise
    /// the cost is a binary search.
    pub fn row_by_hint(&self, t: Token, hint: &mut usize) -> &PlacementRow
        ensures bound { hint.new < length self.now }
        ensures row { (d : AnyRow) → result.now ≡ get_or self.now hint.new d }
        ensures first { IsPartitionPoint (λ r. int_lt (last_token r.right) t ≡ true)
            (λ r. int_lt (last_token r.right) t ≡ false) self.now hint.new }
        ensures placement { (result.now.reads, result.now.writes) ≡ map_at self.now t }
    {
        let rows = self.rows();
        let found = row_index_by_hint(rows, *hint, t);
        *hint = found;
        &rows[found]
    }

    /// The reads and the writes at a token, as `at` gives them. Takes no memory. The cost is that of `row_by_hint`.
    pub fn at_by_hint(&self, t: Token, hint: &mut usize) -> (&NodeSet, &NodeSet)
        ensures placement { (result.0.now, result.1.now) ≡ map_at self.now t }
        ensures first { IsPartitionPoint (λ r. int_lt (last_token r.right) t ≡ true)
            (λ r. int_lt (last_token r.right) t ≡ false) self.now hint.new }
    {
        let row = self.row_by_hint(t, hint);
        (&row.reads, &row.writes)
    }

    /// Makes a token a cut: the row of the token ends there, and the rest of its range is a row of its own with the
    /// same sets. At 2^63 - 1 there is no rest, and the last right end becomes that token. If the token is a cut
    /// already, the rows stay as they are.
    ///
    /// If memory runs out, leaves the map unchanged. The cost is a binary search and a move of each later row.
    pub fn split_at(&mut self, t: Token) -> Result<(), Memory>
        // Promise: a split makes a token a cut and adds no other, the reads and the writes at every token stay, and if
        // memory runs out, the map is as before. Guards: calls/maps.rt, tried.
        ensures rows { MatchResult result (λ _. self.new ≡ split_rows self.old t) (λ _. self.new ≡ self.old) }
        ensures cuts { IfOk result (λ _. cuts_of self.new ≡ put int_cmp t (cuts_of self.old)) }
        ensures same { (x : ℤ) → map_at self.new x ≡ map_at self.old x }
    {
        split(&mut self.rows, t)
    }

    /// Removes a cut, whose two sides have the same reads and the same writes. At 2^63 - 1 the last right end becomes
    /// `Max`. Takes no memory. The cost is a binary search and a move of each later row.
    pub fn merge_at(&mut self, t: Token)
        requires cut { is_cut_of self.old t ≡ true }
        requires sides { HasSameSides self.old t }
        // Promise: a merge removes a cut and no other, if both sides of it have the same reads and writes, and the
        // reads and writes at every token stay. Guards: calls/maps.rt, tried.
        ensures rows { self.new ≡ merged_rows self.old t }
        ensures cuts { cuts_of self.new ≡ filter (λ s. not (int_eq t s)) (cuts_of self.old) }
        ensures same { (x : ℤ) → map_at self.new x ≡ map_at self.old x }
    {
        merge(&mut self.rows, t);
    }

    /// The map with the nodes that a delta gains added to the reads, and the nodes that it loses removed from them.
    /// Each cut of the delta is a cut of the map. The program's pass over the rows needs no such fact.
    ///
    /// The cost is a binary search in the delta and a pass over the sets for each row.
    pub fn with_reads(&self, delta: &Delta) -> Result<PlacementMap, Memory>
        requires cuts { EndAtCuts (cuts_of self.now) delta.now }
        // Promise: the reads gain and lose at each token what the delta shows there, if its cuts are cuts of the map,
        // and writes and right ends stay. Guards: a_swap_that_leaves_the_losing_node.edit, calls/maps.rt.
        ensures placement { IfOk result (λ map. (x : ℤ) → IsToken x
            → map_at map x ≡ reads_changed (map_at self.now x) (delta_at delta.now x)) }
        ensures ends { IfOk result (λ map. right_ends map ≡ right_ends self.now) }
    {
        let mut rows = Vec::with_capacity(*self.rows.allocator(), self.rows.len())?;
        for row in &self.rows {
            rows.push(row.with_reads(delta)?)?;
        }
        Ok(PlacementMap { rows })
    }

    /// The map with the nodes that a delta gains added to the writes, and the nodes that it loses removed from them.
    /// Each cut of the delta is a cut of the map. The program's pass over the rows needs no such fact.
    ///
    /// The cost is a binary search in the delta and a pass over the sets for each row.
    pub fn with_writes(&self, delta: &Delta) -> Result<PlacementMap, Memory>
        requires cuts { EndAtCuts (cuts_of self.now) delta.now }
        // Promise: the writes gain and lose at each token what the delta shows there, if its cuts are cuts of the map,
        // and reads and right ends stay. Guards: a_swap_that_leaves_the_losing_node.edit, calls/maps.rt.
        ensures placement { IfOk result (λ map. (x : ℤ) → IsToken x
            → map_at map x ≡ writes_changed (map_at self.now x) (delta_at delta.now x)) }
        ensures ends { IfOk result (λ map. right_ends map ≡ right_ends self.now) }
    {
        let mut rows = Vec::with_capacity(*self.rows.allocator(), self.rows.len())?;
        for row in &self.rows {
            rows.push(row.with_writes(delta)?)?;
        }
        Ok(PlacementMap { rows })
    }

    /// Keeps some rows, removes others and puts in new ones. Takes no memory, and copies no set.
    ///
    /// If the rows have memory to spare for those that are put in, a row moves past the rows that come or go after it,
    /// and no further. Otherwise each row moves into the memory that the edits hold.
    pub fn edit(&mut self, edits: RowEdits)
        requires { IsPlacementMap (edited edits self.old) }
        // Promise: an edited map has the rows that the edits keep and those that they put in, in the order of the
        // edits, if these are the rows of a map. Guards: scripts, tried.
        ensures { self.new ≡ edited edits self.old }
    {
        edits.make(&mut self.rows);
    }

    /// Exchanges the reads or the writes of some rows for new ones. Their ranges and the other sets stay. A position past
    /// the last row changes nothing. Takes no memory. The cost is a move of each new set.
    pub fn exchange(&mut self, changes: RowChanges)
        // Promise: some rows get new reads or new writes, their ranges and the other set stay, and a position past the
        // last row changes nothing. Guards: scripts, tried.
        ensures { self.new ≡ with_changes changes self.old }
    {
        changes.make(&mut self.rows);
    }
}

impl TryCopy for PlacementMap {
    fn copy(&self) -> Result<PlacementMap, Memory> {
        let mut rows = Vec::with_capacity(*self.rows.allocator(), self.rows.len())?;
        for row in &self.rows {
            rows.push(row.copy()?)?;
        }
        Ok(PlacementMap { rows })
    }
}
