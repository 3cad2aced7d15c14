//! Binary searches in pairs whose tokens strictly ascend.

ghost use Rattle.std.specs.Prelude.{◌≡◌, ◌<ℤ◌, ◌≤ℤ◌, ◌≤◌, ◌↔◌, length, IsTrue};
ghost use Rattle.std.specs.List.{list_any};
ghost use Rattle.std.specs.List.Sorted.{IsPartitionPoint, IsStrictlySortedBy};
ghost use Rattle.std.specs.Ordering.{int_eq};
ghost use Rattle.cluster_terms.specs.Pair.{has_pair};
ghost use Rattle.transformations.specs.Orders.{by_token};

use cluster_terms::{Pair, Token};

/// Whether the tokens of pairs strictly ascend. The cost is one pass.
pub fn ascend_by_token(pairs: &[Pair]) -> bool
    ensures { IsTrue result ↔ IsStrictlySortedBy by_token pairs.now }
{
    pairs.is_sorted_by(|a, b| a.token < b.token)
}

/// The number of pairs below token `t` in an ascending list.
pub(crate) fn count_below(pairs: &[Pair], t: Token) -> usize
    requires { IsStrictlySortedBy by_token pairs.now }
    ensures bound { result ≤ length pairs.now }
    ensures split { IsPartitionPoint (λ p. p.token <ℤ t) (λ p. t ≤ℤ p.token) pairs.now result }
{
    pairs.partition_point(|pair| pair.token < t)
}

/// Whether a pair in an ascending list has this token. The cost is a binary search.
pub(crate) fn finds(pairs: &[Pair], token: Token) -> bool
    requires { IsStrictlySortedBy by_token pairs.now }
    ensures { result ≡ list_any (λ p. int_eq p.token token) pairs.now }
{
    let below = count_below(pairs, token);
    below < pairs.len() && pairs[below].token == token
}

/// Whether a pair is in an ascending list. The cost is a binary search.
pub(crate) fn finds_pair(pairs: &[Pair], pair: Pair) -> bool
    requires { IsStrictlySortedBy by_token pairs.now }
    ensures { result ≡ has_pair pairs.now pair }
{
    let below = count_below(pairs, pair.token);
    below < pairs.len() && pair == pairs[below]
}
