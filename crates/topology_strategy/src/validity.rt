//! The placement is what NetworkTopologyStrategy's walks take.

ghost use Rattle.std.specs.Prelude.{◌≡◌, ℕ, ℤ, List, []};
ghost use Rattle.std.specs.Ordering.{nat_cmp};
ghost use Rattle.cluster_terms.specs.Ascending.{ascending};
ghost use Rattle.cluster_terms.specs.declared.node.NodeRow.{NodeRow};
ghost use Rattle.cluster_terms.specs.declared.token.Pair.{Pair};
ghost use Rattle.token_ring.specs.Ring.{IsFirstAt, IsRing};
ghost use Rattle.topology_strategy.specs.GroupedRing.{topology_placement};
ghost use Rattle.topology_strategy.specs.Walk.{taken_from};

/// The placement in these datacenters, which is defined by counting, is what NetworkTopologyStrategy's walks take. Each
/// datacenter has a walk, from the first token at or after `x` round the ring, with the datacenter's shape in the ring.
/// In an empty ring the placement is empty.
pub fn placement_is_walked()
    // Promise: the placement, which is defined by counting, is what NetworkTopologyStrategy's walks take. Guards: law.
    ensures walk { (nodes : List NodeRow) (factors : List (List ℕ × ℕ)) (ring : List Pair) (x : ℤ) (i : ℕ)
        → IsRing ring → IsFirstAt ring x i
        → topology_placement nodes factors x ring ≡ ascending nat_cmp (taken_from i nodes factors ring) }
    ensures nowhere { (nodes : List NodeRow) (factors : List (List ℕ × ℕ)) (x : ℤ)
        → topology_placement nodes factors x [] ≡ [] }
{}
