//! The first row that the ranges of two movements share.

ghost use Rattle.std.specs.Prelude.{◌≡◌, ◌↔◌, IsNone};
ghost use Rattle.std.specs.List.{AllByRecursion};
ghost use Rattle.std.specs.List.Sorted.{IsStrictlySortedBy};
ghost use Rattle.std.specs.Ordering.{int_cmp};
ghost use Rattle.token_ring.specs.TokenRanges.{AreCutOut};
ghost use Rattle.locked_ranges.specs.Conflict.{first_shared_end};
ghost use Rattle.locked_ranges.specs.code.FirstEnd.{first_end, lesser_end};
ghost use Rattle.locked_ranges.specs.Sharing.{ShareNoToken};

use cluster_terms::{RightEnd, Token};
use token_ring::{RangeList, RangeRow};

fn lesser_end(one: RightEnd, end: RightEnd) -> RightEnd
    ensures { result ≡ lesser_end one end }
{
    match one {
        RightEnd::Max => end,
        RightEnd::At(t) => match end {
            RightEnd::Max => one,
            RightEnd::At(u) => RightEnd::At(if u < t { u } else { t }),
        },
    }
}

/// The lesser of two right ends, each of which may be absent. Returns `None` if both are.
fn first_end(one: Option<RightEnd>, end: Option<RightEnd>) -> Option<RightEnd>
    ensures { result ≡ first_end one end }
{
    match (one, end) {
        (Some(one), Some(end)) => Some(lesser_end(one, end)),
        (one, None) => one,
        (None, end) => end,
    }
}

/// The right end of the first row between ascending cuts that is in the ranges of both movements under one replication.
/// The bounds of all ranges are cuts. Returns `None` if and only if no token is in both under one replication.
///
/// The cost is one pass over the ranges of both under each replication. If they share a token, then for r replications
/// and c cuts, the cost is also at most 2·r·(c + 1) binary searches.
pub fn first_shared(ours: &[RangeRow], theirs: &[RangeRow], cuts: &[Token]) -> Option<RightEnd>
    requires ascending { IsStrictlySortedBy int_cmp cuts.now }
    requires ours { AllByRecursion (λ r. AreCutOut cuts.now r.ranges) ours.now }
    requires theirs { AllByRecursion (λ r. AreCutOut cuts.now r.ranges) theirs.now }
    ensures first { result ≡ first_shared_end ours.now theirs.now cuts.now }
    ensures none { IsNone result ↔ ShareNoToken ours.now theirs.now }
{
    let mut first = None;
    for (our, their) in ours.iter().zip(theirs) {
        let end = RangeList::first_common(&our.ranges, &their.ranges, cuts);
        first = first_end(first, end);
    }
    first
}
