ghost use Rattle.std.specs.Prelude.{◌≡◌, ◌+◌, ◌<◌, ◌≤◌, ◌∷◌, ◌++◌, [], IfOk, vec_capacity, vec_len};
ghost use Rattle.cluster_terms.specs.Row.{last_token};
ghost use Rattle.cluster_terms.specs.declared.token.RightEnd.TheVariants as right_end;
ghost use Rattle.range_placements.specs.code.Changing as spec;
ghost use Rattle.range_placements.specs.Placements.{with_change, row_until, reads_changed, writes_changed};

use cluster_terms::{Memory, RightEnd, RingRow, Token, TryCopy};
use node_sets::NodeSet;
use placement_deltas::Delta;
use std::alloc::Global;

/// The nodes that are read and the nodes that are written at the tokens of a range. The range begins where the row
/// before it ends, or with the least token.
#[derive(Debug, Drop)]
pub struct PlacementRow {
    pub right: RightEnd,
    pub reads: NodeSet,
    pub writes: NodeSet,
}

/// The rows of a placement map.
pub type PlacementRows = Vec<PlacementRow>;

/// An empty list with room for this many rows and an eighth more, so that rows can be put in without new memory.
pub fn rows_with_room(alloc: Global, count: usize) -> Result<PlacementRows, Memory>
    // Promise: an empty list of rows has room for as many rows as are asked for. Guards: scripts.
    ensures empty { IfOk result (λ rows. vec_len rows ≡ 0) }
    ensures room { IfOk result (λ rows. count ≤ vec_capacity rows) }
{
    Ok(Vec::with_capacity(alloc, count.saturating_add(count / 8))?)
}

/// Adds a row at the end. There is room for it.
pub(crate) fn put_row(rows: &mut PlacementRows, row: PlacementRow)
    requires { vec_len rows.old < vec_capacity rows.old }
    ensures items { rows.new.items ≡ rows.old.items ++ row ∷ [] }
    ensures count { vec_len rows.new ≡ vec_len rows.old + 1 }
    ensures room { vec_capacity rows.old ≤ vec_capacity rows.new }
{
    match rows.push(row) {
        Ok(()) => {}
        Err(_) => unreachable!(),
    }
}

/// A set of nodes without the nodes that it loses, and with those that it gains.
#[inline(always)]
pub fn with_change(set: &NodeSet, gained: &NodeSet, lost: &NodeSet) -> Result<NodeSet, Memory>
    // Promise: a changed set is without the nodes that it loses, and with those that it gains. Guards: scripts.
    ensures { IfOk result (λ other. other ≡ with_change set.now gained.now lost.now) }
{
    if gained.is_empty() && lost.is_empty() {
        return set.copy();
    }
    if lost.is_empty() {
        return gained.union(set);
    }
    if gained.is_empty() {
        return set.minus(lost);
    }
    gained.union(&set.minus(lost)?)
}

impl PlacementRow {
    /// The last token of the row. It is 2^63 - 1 if the right end is `Max`.
    pub fn last_token(&self) -> Token
        // Promise: `last_token` gives the last token of a row. Guards: scripts.
        ensures { result ≡ last_token self.now.right }
    {
        self.right.last_token()
    }

    /// The row with its right end at a token.
    pub(crate) fn up_to(&self, t: Token) -> Result<PlacementRow, Memory>
        ensures { IfOk result (λ row. row ≡ row_until self.now (right_end.At t)) }
    {
        Ok(PlacementRow {
            right: RightEnd::At(t),
            reads: self.reads.copy()?,
            writes: self.writes.copy()?,
        })
    }

    /// The row with the reads changed by what the delta shows at the last token.
    pub(crate) fn with_reads(&self, delta: &Delta) -> Result<PlacementRow, Memory>
        ensures { IfOk result (λ row. row ≡ spec.row_changed reads_changed delta.now self.now) }
    {
        let (gained, lost) = delta.at(self.last_token());
        Ok(PlacementRow {
            right: self.right,
            reads: with_change(&self.reads, gained, lost)?,
            writes: self.writes.copy()?,
        })
    }

    /// The row with the writes changed by what the delta shows at the last token.
    pub(crate) fn with_writes(&self, delta: &Delta) -> Result<PlacementRow, Memory>
        ensures { IfOk result (λ row. row ≡ spec.row_changed writes_changed delta.now self.now) }
    {
        let (gained, lost) = delta.at(self.last_token());
        Ok(PlacementRow {
            right: self.right,
            reads: self.reads.copy()?,
            writes: with_change(&self.writes, gained, lost)?,
        })
    }
}

impl RingRow for PlacementRow {
    ghost right = { λ row. row.right };

    fn right_end(&self) -> RightEnd {
        self.right
    }
}

impl TryCopy for PlacementRow {
    fn copy(&self) -> Result<PlacementRow, Memory> {
        Ok(PlacementRow {
            right: self.right,
            reads: self.reads.copy()?,
            writes: self.writes.copy()?,
        })
    }
}
