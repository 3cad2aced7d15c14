ghost use Rattle.std.specs.Prelude.{◌≡◌, ◌++◌, IfOk, OnOk};
ghost use Rattle.std.specs.List.{flat_map};
ghost use Rattle.std.specs.List.Sorted.{IsStrictlySortedBy};
ghost use Rattle.std.specs.Ordering.{int_cmp};
ghost use Rattle.token_ring.specs.TokenRanges.{AreCutOut, HaveTokens};
ghost use Rattle.ring_reach.specs.code.Moved.{HaveSameTokens};
ghost use Rattle.ring_reach.specs.code.Windows.{any_have, window_bounds};

use crate::windows::{Window, Windows};
use cluster_terms::{Memory, Token, put_in_order};
use std::alloc::Global;
use token_ring::RangeList;

fn push_bounds(bounds: &mut Vec<Token>, windows: &[Window]) -> Result<(), Memory>
    ensures { OnOk result (bounds.new.items ≡ bounds.old.items ++ window_bounds windows.now) }
{
    for window in windows {
        bounds.push(window.left)?;
        bounds.push(window.right)?;
    }
    Ok(())
}

/// The tokens at which windows begin and end, in ascending order, each once.
fn cuts_of(alloc: Global, groups: &[Windows]) -> Result<Vec<Token>, Memory>
    ensures tokens { IfOk result (λ cuts. HaveSameTokens cuts.items (flat_map window_bounds groups.now)) }
    ensures ascending { IfOk result (λ cuts. IsStrictlySortedBy int_cmp cuts.items) }
{
    let mut bounds = Vec::new(alloc);
    for windows in groups {
        push_bounds(&mut bounds, windows.as_slice())?;
    }
    put_in_order(&mut bounds);
    Ok(bounds)
}

fn is_reached(groups: &[Windows], t: Token) -> bool
    ensures { result ≡ any_have groups.now t }
{
    groups.iter().any(|windows| windows.has(t))
}

/// The ranges of the tokens that the windows of any group have. Their bounds are bounds of the windows.
pub fn ranges_of(alloc: Global, groups: &[Windows]) -> Result<RangeList, Memory>
    ensures reach { IfOk result (HaveTokens (any_have groups.now)) }
    ensures bounds { IfOk result (AreCutOut (flat_map window_bounds groups.now)) }
{
    let cuts = cuts_of(alloc, groups)?;
    RangeList::of_rows(alloc, &cuts, |t| is_reached(groups, t))
}
