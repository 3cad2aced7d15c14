ghost use Rattle.std.specs.Prelude.{◌≡◌, ◌↔◌, IsNone};
ghost use Rattle.std.specs.List.{AllByRecursion};
ghost use Rattle.std.specs.List.Sorted.{IsStrictlySortedBy};
ghost use Rattle.std.specs.Ordering.{int_cmp};
ghost use Rattle.token_ring.specs.TokenRanges.{AreCutOut};
ghost use Rattle.locked_ranges.specs.Conflict.{conflict_of};
ghost use Rattle.locked_ranges.specs.Sharing.{ShareNoToken};

use crate::first_end::first_shared;
use cluster_terms::{NodeId, RightEnd, Token};
use token_ring::{LockRow, RangeRow};

/// The first movement of `wide` that shares a row between ascending cuts with `ours`, under one replication, and the
/// right end of the first such row. The bounds of all ranges are cuts. Returns `None` if and only if no token is in
/// `ours` and in a row of `wide`.
///
/// The cost is that of `first_shared` for each row of `wide`, up to the one that is found. Takes no memory.
pub fn first_conflict(
    ours: &[RangeRow],
    wide: &[LockRow],
    cuts: &[Token],
) -> Option<(NodeId, RightEnd)>
    requires ascending { IsStrictlySortedBy int_cmp cuts.now }
    requires ours { AllByRecursion (λ r. AreCutOut cuts.now r.ranges) ours.now }
    requires wide { AllByRecursion (λ w. AllByRecursion (λ r. AreCutOut cuts.now r.ranges) w.ranges) wide.now }
    ensures conflict { result ≡ conflict_of ours.now wide.now cuts.now }
    ensures free { IsNone result ↔ AllByRecursion (λ w. ShareNoToken ours.now w.ranges) wide.now }
{
    for row in wide {
        if let Some(end) = first_shared(ours, row.ranges.as_slice(), cuts) {
            return Some((row.node, end));
        }
    }
    None
}
