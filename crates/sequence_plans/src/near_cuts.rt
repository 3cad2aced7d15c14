//! The cuts near ranges. Outside the ranges of a movement nothing is walked, so its deltas are taken between the cuts
//! in and at its ranges alone.

ghost use Rattle.std.specs.Prelude.{◌≡◌, int_le, filter, IfOk};
ghost use Rattle.std.specs.List.Sorted.{IsStrictlySortedBy};
ghost use Rattle.std.specs.Ordering.{int_cmp};
ghost use Rattle.token_ring.specs.TokenRanges.{IsRangeList};
ghost use Rattle.sequence_plans.specs.code.NearCuts.{is_from, near_cuts, touches};

use cluster_terms::{Memory, Token, TokenRange};
use std::alloc::Global;

/// The cuts from a left end on, with the cut at this end.
fn cuts_from<'a>(cuts: &'a [Token], left: &Option<Token>) -> &'a [Token]
    requires { IsStrictlySortedBy int_cmp cuts.now }
    ensures { result.now ≡ filter (is_from left.now) cuts.now }
{
    match left {
        None => cuts,
        Some(left) => {
            let before = cuts.partition_point(|cut| cut < left);
            &cuts[before..]
        }
    }
}

/// The cuts up to a token, with the cut at this token.
fn cuts_up_to<'a>(cuts: &'a [Token], last: Token) -> &'a [Token]
    requires { IsStrictlySortedBy int_cmp cuts.now }
    ensures { result.now ≡ filter (λ t. int_le t last) cuts.now }
{
    let count = cuts.partition_point(|cut| *cut <= last);
    &cuts[..count]
}

/// The cuts that a range contains, and the cut at which it begins. The cost is two binary searches.
fn cuts_near<'a>(cuts: &'a [Token], range: &TokenRange) -> &'a [Token]
    requires { IsStrictlySortedBy int_cmp cuts.now }
    ensures { result.now ≡ filter (touches range.now) cuts.now }
{
    cuts_up_to(cuts_from(cuts, &range.left), range.last_token())
}

/// Of ascending cuts, those that a range contains and those at which a range begins. Each range costs two binary
/// searches and a copy of its cuts.
pub fn near_cuts(alloc: Global, cuts: &[Token], ranges: &[TokenRange]) -> Result<Vec<Token>, Memory>
    requires ascending { IsStrictlySortedBy int_cmp cuts.now }
    requires list { IsRangeList ranges.now }
    ensures { IfOk result (λ near. near.items ≡ near_cuts cuts.now ranges.now) }
{
    let mut near = Vec::new(alloc);
    for range in ranges {
        near.extend_from_slice(cuts_near(cuts, range))?;
    }
    Ok(near)
}
