ghost use Rattle.std.specs.Prelude.{◌≡◌, ◌↔◌, IsNone};
ghost use Rattle.std.specs.List.{AllByRecursion, AllPairs};
ghost use Rattle.std.specs.List.Sorted.{IsStrictlySortedBy};
ghost use Rattle.std.specs.Ordering.{int_cmp};
ghost use Rattle.token_ring.specs.TokenRanges.{AreCutOut};
ghost use Rattle.locked_ranges.specs.Conflict.{overlap_among};
ghost use Rattle.locked_ranges.specs.Sharing.{ShareNoToken};

use crate::first_conflict::first_conflict;
use cluster_terms::{NodeId, RightEnd, Token};
use token_ring::LockRow;

/// The first movement of `rows` that shares a row between ascending cuts with a later one, under one replication: its
/// node, the node of the first such later movement, and the right end of the first row that both share. The bounds of
/// all ranges are cuts. Returns `None` if and only if no token is in two of the rows. All books list the same
/// replications in the same order, as they are compared row by row.
///
/// The cost is that of `first_conflict` for each row with the rows after it, up to the one that is found. Takes no
/// memory.
pub fn first_overlap(rows: &[LockRow], cuts: &[Token]) -> Option<(NodeId, NodeId, RightEnd)>
    requires ascending { IsStrictlySortedBy int_cmp cuts.now }
    requires cut_out { AllByRecursion (λ w. AllByRecursion (λ r. AreCutOut cuts.now r.ranges) w.ranges) rows.now }
    // Promise: the first movement that shares a row with a later one is found, with the first such one and the right
    // end of that row. Guards: greater_node_first.edit, renewals.rt.
    ensures overlap { result ≡ overlap_among rows.now cuts.now }
    // Promise: no overlap is found if and only if no two movements share a token. Guards: greater_node_first.edit,
    // renewals.rt.
    ensures apart { IsNone result ↔ AllPairs (λ one other. ShareNoToken one.ranges other.ranges) rows.now }
{
    let mut rest = rows;
    while let Some((row, later)) = rest.split_first() {
        if let Some((node, end)) = first_conflict(row.ranges.as_slice(), later, cuts) {
            return Some((row.node, node, end));
        }
        rest = later;
    }
    None
}
