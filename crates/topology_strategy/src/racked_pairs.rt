//! The pairs of a group in a ring, with the racks of their nodes.

ghost use Rattle.std.specs.Prelude.{◌≡◌, ◌<◌, ◌≤◌, ◌<ℤ◌, ◌≤ℤ◌, length, IfOk};
ghost use Rattle.std.specs.List.Sorted.{IsPartitionPoint};
ghost use Rattle.node_directory.specs.Members.{group_of};
ghost use Rattle.token_ring.specs.Ring.{IsRing, IsFirstAt};
ghost use Rattle.topology_strategy.specs.code.RackedPairs.{AreWithin};

use cluster_terms::{Memory, Pair, Token};
use node_directory::Members;
use std::alloc::Global;

/// The pairs of a group in a ring, in ring order, and the racks of their nodes in the same order.
#[derive(Drop)]
pub struct RackedPairs<'a> {
    pub pairs: Vec<Pair>,
    pub racks: Vec<&'a [u8]>,
}

/// How many pairs stand before the first token at or after `t`.
fn count_below(pairs: &[Pair], t: Token) -> usize
    requires { IsRing pairs.now }
    ensures bound { result ≤ length pairs.now }
    ensures split { IsPartitionPoint (λ p. p.token <ℤ t) (λ p. t ≤ℤ p.token) pairs.now result }
{
    pairs.partition_point(|pair| pair.token < t)
}

/// The position of the first token at or after `t` in ring order, and 0 if there is no pair.
pub fn first_at(pairs: &[Pair], t: Token) -> usize
    requires { IsRing pairs.now }
    ensures bound { result ≤ length pairs.now }
    ensures first { 0 < length pairs.now → IsFirstAt pairs.now t result }
{
    let below = count_below(pairs, t);
    if below < pairs.len() { below } else { 0 }
}

/// The pairs whose nodes are in the group, in their order. Takes memory for all pairs at once. In a datacenter the cost
/// is a look-up in the directory for each pair.
pub fn racked_pairs<'a>(
    alloc: Global,
    members: &Members<'a>,
    ring: &[Pair],
) -> Result<RackedPairs<'a>, Memory>
    ensures { IfOk result (AreWithin (group_of members.now) ring.now) }
{
    let mut pairs = Vec::with_capacity(alloc, ring.len())?;
    let mut racks = Vec::with_capacity(alloc, ring.len())?;
    for pair in ring {
        if let Some(rack) = members.rack_of(pair.node) {
            pairs.push(*pair)?;
            racks.push(rack)?;
        }
    }
    Ok(RackedPairs { pairs, racks })
}
