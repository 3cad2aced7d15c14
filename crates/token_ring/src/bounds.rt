ghost use Rattle.std.specs.Prelude.{◌≡◌, ◌++◌, IfOk, OnOk};
ghost use Rattle.std.specs.List.Sorted.{IsStrictlySortedBy};
ghost use Rattle.std.specs.Ordering.{int_cmp};
ghost use Rattle.token_ring.specs.Bounds.{bounds_of};
ghost use Rattle.token_ring.specs.TokenRanges.{AreCutOut};

use cluster_terms::{Memory, RightEnd, Token, TokenRange, put_in_order};
use std::alloc::Global;

/// Adds the tokens at which ranges begin and end.
fn push_bounds(bounds: &mut Vec<Token>, ranges: &[TokenRange]) -> Result<(), Memory>
    ensures { OnOk result (bounds.new.items ≡ bounds.old.items ++ bounds_of ranges.now) }
{
    for range in ranges {
        if let Some(left) = range.left {
            bounds.push(left)?;
        }
        if let RightEnd::At(right) = range.right {
            bounds.push(right)?;
        }
    }
    Ok(())
}

/// The tokens at which the ranges of two lists begin and end, in ascending order, each once.
pub(crate) fn bounds_of_both(
    alloc: Global,
    one: &[TokenRange],
    other: &[TokenRange],
) -> Result<Vec<Token>, Memory>
    ensures ascending { IfOk result (λ cuts. IsStrictlySortedBy int_cmp cuts.items) }
    ensures one { IfOk result (λ cuts. AreCutOut cuts.items one.now) }
    ensures other { IfOk result (λ cuts. AreCutOut cuts.items other.now) }
{
    let mut bounds = Vec::new(alloc);
    push_bounds(&mut bounds, one)?;
    push_bounds(&mut bounds, other)?;
    put_in_order(&mut bounds);
    Ok(bounds)
}
