ghost use Rattle.std.specs.Prelude.{◌≡◌, ℤ, false, ◌&&◌, ◌↔◌, IsNone, IsTrue};
ghost use Rattle.std.specs.List.Sorted.{IsStrictlySortedBy};
ghost use Rattle.std.specs.Ordering.{int_cmp};
ghost use Rattle.cluster_terms.specs.Arc.{IsToken};
ghost use Rattle.token_ring.specs.code.EndedRanges as code;
ghost use Rattle.token_ring.specs.TokenRanges.{have_token, AreCutOut, IsRangeList, first_common_end};

use crate::range_list::RangeList;
use cluster_terms::{RightEnd, Token, TokenRange};

fn have_both(a: &RangeList, b: &RangeList, number: i64) -> bool
    ensures { result ≡ (have_token a.now number && have_token b.now number) }
{
    let t = Token::new(number);
    a.contains(t) && b.contains(t)
}

/// Whether a range with this right end has no token past this left end.
fn ends_by(right: &RightEnd, left: &Option<Token>) -> bool
    ensures { result ≡ code.ends_by right.now left.now }
{
    match (right, left) {
        (RightEnd::At(right), Some(left)) => *right <= *left,
        _ => false,
    }
}

/// Whether no token is in both lists. The cost is one pass over both.
fn are_apart(a: &[TokenRange], b: &[TokenRange]) -> bool
    requires one { IsRangeList a.now }
    requires other { IsRangeList b.now }
    ensures { IsTrue result → (t : ℤ) → (have_token a.now t && have_token b.now t) ≡ false }
{
    let (mut i, mut j) = (0, 0);
    while i < a.len() && j < b.len() {
        if ends_by(&a[i].right, &b[j].left) {
            i += 1;
        } else if ends_by(&b[j].right, &a[i].left) {
            j += 1;
        } else {
            return false;
        }
    }
    true
}

impl RangeList {
    /// The right end of the first row between ascending cuts that is in both lists. The bounds of both lists are cuts.
    /// Returns `None` if and only if no token is in both. The cost is one pass over both lists and, if they share a
    /// token, up to two binary searches for each cut. Takes no memory.
    pub fn first_common(a: &RangeList, b: &RangeList, cuts: &[Token]) -> Option<RightEnd>
        requires ascending { IsStrictlySortedBy int_cmp cuts.now }
        requires one { AreCutOut cuts.now a.now }
        requires other { AreCutOut cuts.now b.now }
        // Promise: the right end of the first row that is in both lists is found, and none if and only if they have no
        // token in common. Guards: locks.rt, tried.
        ensures first { result ≡ first_common_end a.now b.now cuts.now }
        ensures none { IsNone result ↔
            ((t : ℤ) → IsToken t → (have_token a.now t && have_token b.now t) ≡ false) }
    {
        if are_apart(a.as_slice(), b.as_slice()) {
            return None;
        }
        for cut in cuts {
            if have_both(a, b, cut.value()) {
                return Some(RightEnd::At(*cut));
            }
        }
        if have_both(a, b, i64::MAX) {
            Some(RightEnd::Max)
        } else {
            None
        }
    }
}
