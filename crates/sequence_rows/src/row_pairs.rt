ghost use Rattle.std.specs.Prelude.{◌≡◌, IfOk, map};
ghost use Rattle.transformations.specs.Movements.{owned, pairs_of};

use cluster_terms::{Memory, NodeId, Pair, PairList, Token};
use std::alloc::Global;

/// The pairs of a node with each of these tokens, in the same order.
pub fn pairs_with(alloc: Global, node: NodeId, tokens: &[Token]) -> Result<PairList, Memory>
    ensures { IfOk result (λ pairs. pairs ≡ pairs_of node tokens.now) }
{
    let mut pairs = PairList::empty(alloc);
    for token in tokens {
        pairs.push(Pair {
            token: *token,
            node,
        })?;
    }
    Ok(pairs)
}

/// The pairs of a node in a ring, in the order of the ring.
pub(crate) fn owned(alloc: Global, ring: &[Pair], node: NodeId) -> Result<PairList, Memory>
    ensures { IfOk result (λ pairs. pairs ≡ owned ring.now node) }
{
    let mut pairs = PairList::empty(alloc);
    for pair in ring {
        if pair.node == node {
            pairs.push(*pair)?;
        }
    }
    Ok(pairs)
}

/// The pairs of another node with the tokens of these pairs, in the same order.
pub(crate) fn handed_over(alloc: Global, pairs: &[Pair], node: NodeId) -> Result<PairList, Memory>
    ensures { IfOk result (λ handed. handed ≡ pairs_of node (map (λ p. p.token) pairs.now)) }
{
    let mut handed = PairList::empty(alloc);
    for pair in pairs {
        handed.push(Pair {
            token: pair.token,
            node,
        })?;
    }
    Ok(handed)
}
