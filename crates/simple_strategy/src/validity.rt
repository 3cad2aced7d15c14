//! The placement is what SimpleStrategy's walk takes.

ghost use Rattle.std.specs.Prelude.{◌≡◌, ℕ, ◌≤◌, ℤ, List, [], ◌∷◌, ◌++◌, take, drop};
ghost use Rattle.std.specs.Ordering.{nat_cmp};
ghost use Rattle.cluster_terms.specs.Ascending.{ascending};
ghost use Rattle.cluster_terms.specs.Group.{nodes_of, place};
ghost use Rattle.cluster_terms.specs.Replication.{whole_group};
ghost use Rattle.cluster_terms.specs.declared.token.Pair.{Pair};
ghost use Rattle.token_ring.specs.Ring.{IsFirstAt, IsRing};
ghost use Rattle.simple_strategy.specs.SimpleWalk.{taken_after};

/// The placement of the group of all nodes, which is defined by counting, is what SimpleStrategy's walk takes: from the
/// first token at or after `x` round the ring each node that isn't taken yet, until it has `rf` nodes. In an empty ring
/// the placement is empty.
pub fn placement_is_walked()
    // Promise: the placement, which is defined by counting, is what SimpleStrategy's walk takes. Guards: law.
    ensures walk { (rf i : ℕ) (ring : List Pair) (x : ℤ) → 1 ≤ rf → IsRing ring → IsFirstAt ring x i
        → place (whole_group rf ∷ []) x ring
        ≡ ascending nat_cmp (taken_after rf [] (nodes_of (drop i ring ++ take i ring))) }
    ensures nowhere { (rf : ℕ) (x : ℤ) → place (whole_group rf ∷ []) x [] ≡ [] }
{}
