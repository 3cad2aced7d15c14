ghost use Rattle.std.specs.Prelude.{◌≡◌, ℤ, IfOk};
ghost use Rattle.std.specs.List.Sorted.{IsStrictlySortedBy};
ghost use Rattle.std.specs.Ordering.{int_cmp};
ghost use Rattle.node_directory.specs.Members.{group_of};
ghost use Rattle.ring_reach.specs.code.RingChange.{reaches_in, tokens_of_both};
ghost use Rattle.ring_reach.specs.code.Moved.{AreTokensAmong, HaveSameTokens, tokens_in};
ghost use Rattle.ring_reach.specs.code.Windows.{window_bounds, have};

use crate::common_shape::common_shape;
use crate::walk_back::WalkBack;
use crate::windows::Windows;
use cluster_terms::{Memory, Pair, Token, put_in_order};
use node_directory::Members;
use std::alloc::Global;
use token_ring::Ring;

/// A change of a ring: the pairs that stay in any case, the widest set of pairs, and the pairs that come or go.
#[derive(Drop)]
pub struct RingChange<'a> {
    pub fixed: &'a Ring,
    pub widest: &'a [Pair],
    pub moved: &'a [Pair],
}

/// The tokens of those pairs whose node is in the group, in ascending order, each once.
fn tokens_of(alloc: Global, members: &Members, pairs: &[Pair]) -> Result<Vec<Token>, Memory>
    ensures tokens { IfOk result (λ tokens.
        HaveSameTokens tokens.items (tokens_in (group_of members.now) pairs.now)) }
    ensures ascending { IfOk result (λ tokens. IsStrictlySortedBy int_cmp tokens.items) }
{
    let mut tokens = Vec::new(alloc);
    for pair in pairs {
        if members.rack_of(pair.node).is_some() {
            tokens.push(pair.token)?;
        }
    }
    put_in_order(&mut tokens);
    Ok(tokens)
}

impl<'a> RingChange<'a> {
    /// The windows of the tokens that the change reaches in a group. Their bounds are tokens of fixed or moved pairs.
    ///
    /// The cost is a look-up for each moved pair. If a moved pair has a node of the group, the cost is also that of
    /// `common_shape` and of `WalkBack::windows`.
    pub fn windows(&self, alloc: Global, members: &Members<'a>) -> Result<Windows, Memory>
        ensures reach { IfOk result (λ windows. (x : ℤ)
            → have windows x ≡ reaches_in self.now (group_of members.now) x) }
        ensures bounds { IfOk result (λ windows. AreTokensAmong (window_bounds windows) (tokens_of_both self.now)) }
    {
        let moved = tokens_of(alloc, members, self.moved)?;
        let Some(first) = moved.first() else {
            return Ok(Windows::empty(alloc));
        };
        match common_shape(members, self.fixed.pairs(), self.widest) {
            Some(shape) => {
                let walk = WalkBack {
                    fixed: self.fixed,
                    members,
                    shape,
                };
                walk.windows(alloc, &moved)
            }
            None => Windows::whole_ring(alloc, *first),
        }
    }
}
