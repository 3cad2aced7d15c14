ghost use Rattle.std.specs.Prelude.{◌≡◌, ◌≢◌, ℤ, ◌≤ℤ◌, int_lt, true, false, List, [], None, get_or, length, IfOk, IfSome, IsFalse, IsNone, IsTrue};
ghost use Rattle.std.specs.List.Sorted.{IsPartitionPoint, IsStrictlySortedBy};
ghost use Rattle.std.specs.Ordering.{int_cmp};
ghost use Rattle.cluster_terms.specs.Arc.{IsToken};
ghost use Rattle.cluster_terms.specs.Row.{last_token, rows_between};
ghost use Rattle.placement_deltas.specs.code.Changes.{AreJoined, MakeDelta};
ghost use Rattle.placement_deltas.specs.Deltas.{ChangesNothing, EndAtCuts, IsDelta, ShowsChanges, change_in, delta_at, exchanged, inverse_of, only};
ghost use Rattle.placement_deltas.specs.code.JoinedRows.{joined_from};
ghost use Rattle.placement_deltas.specs.declared.delta_row.DeltaRow.{DeltaRow as AnyRow};

use crate::changes::Changes;
use crate::delta_row::{DeltaRow, DeltaRows};
use crate::joined_rows::{joined, joined_side};
use crate::side::Side;
use crate::unchanged::Unchanged;
use cluster_terms::{Memory, Token, TryCopy, row_index, row_index_by_hint, rows_between};
use node_sets::NodeSet;
use std::alloc::Global;
use std::marker::Model;

/// The nodes gained and the nodes lost at each token. The rows ascend, and adjacent rows differ in one of the two sets.
#[derive(Debug, Drop)]
pub struct Delta {
    alloc: Global,
    rows: DeltaRows,
}

impl Model for Delta {
    ghost use Rattle.std.specs.Prelude.{List};
    ghost use Rattle.placement_deltas.specs.declared.delta_row.DeltaRow.{DeltaRow};
    ghost use Rattle.placement_deltas.specs.Deltas.{IsDelta};

    ghost Value = { List DeltaRow };

    ghost view = { λ delta. delta.rows };

    ghost invariant = { λ delta. IsDelta delta.rows };
}

fn changes_nothing(row: &DeltaRow) -> bool
    ensures yes { IsTrue result → change_in row.now ≡ ([], []) }
    ensures no { IsFalse result → change_in row.now ≢ ([], []) }
{
    row.gained.is_empty() && row.lost.is_empty()
}

/// The row with the nodes gained and the nodes lost exchanged.
fn exchanged(row: &DeltaRow) -> Result<DeltaRow, Memory>
    ensures { IfOk result (λ other. other ≡ exchanged row.now) }
{
    Ok(DeltaRow {
        right: row.right,
        gained: row.lost.copy()?,
        lost: row.gained.copy()?,
    })
}

impl Delta {
    /// The nodes gained and lost at each token between two lists of node sets. Each list has a set for each row between
    /// the cuts. The cost is one pass over the rows and the sets.
    pub fn between(
        alloc: Global,
        cuts: &[Token],
        before: &[NodeSet],
        after: &[NodeSet],
    ) -> Result<Delta, Memory>
        requires ascending { IsStrictlySortedBy int_cmp cuts.now }
        requires before { length before.now ≡ length (rows_between cuts.now) }
        requires after { length after.now ≡ length (rows_between cuts.now) }
        // Promise: at each token of each row between the cuts, a delta shows which nodes only the set after has, and
        // which only the set before has. Guards: gained_and_lost_exchanged.edit, calls/deltas.rt, tried.
        ensures sets { IfOk result (ShowsChanges (rows_between cuts.now) before.now after.now) }
        // Promise: each row of a delta ends at a cut or in `Max`. Guards: calls/deltas.rt.
        ensures cuts { IfOk result (EndAtCuts cuts.now) }
    {
        let between = rows_between(alloc, cuts)?;
        let rows = joined(alloc, between.as_slice(), before, after)?;
        Ok(Delta { alloc, rows })
    }

    /// The delta of changes that make one: those in rows that follow each other up to the end of the ring. Copies
    /// nothing.
    pub fn of_changes(alloc: Global, changes: Changes) -> Result<Delta, Memory>
        requires { MakeDelta changes }
        ensures { IfOk result
            (λ delta. (rows : List AnyRow) → AreJoined rows changes → delta ≡ joined_from None rows) }
    {
        let rows = changes.into_rows();
        Ok(Delta { alloc, rows })
    }

    /// The rows in ascending order.
    pub fn rows(&self) -> &[DeltaRow]
        // Promise: rows ascend, adjacent rows differ, and the last row ends in `Max`. Guards: calls/deltas.rt.
        ensures rows { result.now ≡ self.now }
        ensures delta { IsDelta self.now }
    {
        self.rows.as_slice()
    }

    /// The nodes gained and the nodes lost at a token. Takes no memory. The cost is a binary search.
    pub fn at(&self, t: Token) -> (&NodeSet, &NodeSet)
        // Promise: the nodes gained and the nodes lost at a token are those of the first row that ends at or after it.
        // Guards: calls/deltas.rt, tried.
        ensures { (result.0.now, result.1.now) ≡ delta_at self.now t }
    {
        let rows = self.rows();
        let row = &rows[row_index(rows, t)];
        (&row.gained, &row.lost)
    }

    /// The nodes gained and the nodes lost at a token, as `at` gives them. Takes no memory.
    ///
    /// `hint` may be any position, and becomes that of the token's row. If it was this position or the one before, only
    /// these rows are looked at, so for ascending tokens that miss no row a look-up costs a few comparisons. Otherwise
    /// the cost is a binary search.
    #[inline(always)]
    pub fn at_by_hint(&self, t: Token, hint: &mut usize) -> (&NodeSet, &NodeSet)
        ensures delta { (result.0.now, result.1.now) ≡ delta_at self.now t }
        ensures first { IsPartitionPoint (λ r. int_lt (last_token r.right) t ≡ true)
            (λ r. int_lt (last_token r.right) t ≡ false) self.now hint.new }
    {
        let rows = self.rows();
        let found = row_index_by_hint(rows, *hint, t);
        *hint = found;
        let row = &rows[found];
        (&row.gained, &row.lost)
    }

    /// The tokens from `t` up to the end of its row, if the delta changes nothing at `t`. Returns `None` if and only if
    /// it changes something there. Takes no memory. `hint` and the cost are as for `at_by_hint`, so a pass over
    /// tokens gets past unchanged rows by one binary search.
    pub fn unchanged_from(&self, t: Token, hint: &mut usize) -> Option<Unchanged>
        // Promise: a delta changes nothing at the tokens from a token up to another one, and none are given exactly
        // where it changes something at the first. Guards: calls/deltas.rt.
        ensures changed { IsNone result → delta_at self.now t ≢ ([], []) }
        ensures ends { IfSome result (λ tokens. (tokens.first ≡ t) × (t ≤ℤ tokens.last)) }
        ensures unchanged { IfSome result (λ tokens. ChangesNothing self.now tokens.first tokens.last) }
        ensures first { IsPartitionPoint (λ r. int_lt (last_token r.right) t ≡ true)
            (λ r. int_lt (last_token r.right) t ≡ false) self.now hint.new }
        ensures end { IfSome result
            (λ tokens. (d : AnyRow) → tokens.last ≡ last_token (get_or self.now hint.new d).right) }
    {
        let rows = self.rows();
        let found = row_index_by_hint(rows, *hint, t);
        *hint = found;
        let row = &rows[found];
        if !changes_nothing(row) {
            return None;
        }
        let last = row.last_token();
        Some(Unchanged { first: t, last })
    }

    /// The delta of one side alone: the nodes gained, and none lost, or the nodes lost, and none gained. The cost is a
    /// copy of the sets of this side.
    pub fn only(&self, side: Side) -> Result<Delta, Memory>
        // Promise: one side of a delta has at each token the nodes that the delta gains, and loses none, and the other
        // has those that it loses, and gains none. Guards: calls/deltas.rt, tried.
        ensures { IfOk result
            (λ delta. (x : ℤ) → IsToken x → delta_at delta x ≡ only side (delta_at self.now x)) }
    {
        let rows = joined_side(self.alloc, side, self.rows())?;
        Ok(Delta {
            alloc: self.alloc,
            rows,
        })
    }

    /// The delta with the nodes gained and the nodes lost exchanged. The cost is a copy of the rows.
    pub fn inverse(&self) -> Result<Delta, Memory>
        // Promise: the inverse has the nodes gained and the nodes lost exchanged in each row. Guards:
        // inverse_keeps_one_side.edit, calls/deltas.rt.
        ensures { IfOk result (λ delta. delta ≡ inverse_of self.now) }
    {
        let mut rows = DeltaRows::empty(self.alloc);
        for row in self.rows() {
            rows.push(exchanged(row)?)?;
        }
        Ok(Delta {
            alloc: self.alloc,
            rows,
        })
    }
}

impl TryCopy for Delta {
    fn copy(&self) -> Result<Delta, Memory> {
        let rows = self.rows.copy()?;
        Ok(Delta {
            alloc: self.alloc,
            rows,
        })
    }
}
