ghost use Rattle.std.specs.Prelude.{◌≡◌, ◌+◌, IfOk};
ghost use Rattle.topology_strategy.specs.GroupedRing.{topology_placement};

use crate::divided_ring::DividedRing;
use cluster_terms::{Factors, Memory, Steps, Token};
use node_directory::Directory;
use node_sets::NodeSet;
use std::alloc::Global;
use std::sync::ledger::Ledger;
use token_ring::Ring;

/// The replicas of a token by NetworkTopologyStrategy, in the datacenters that the factors name.
///
/// Each datacenter is placed by itself. If `n` of its nodes have tokens, in `k` racks, `min(rf, n)` of these nodes are
/// to be replicas, and up to `rf - k` of them (none if that is negative) may stand in a rack that already has one. The
/// walk goes round the ring from the first token at or after `t`, until it has all replicas. It passes over a node that
/// is taken already, is in another datacenter, or isn't registered. It takes a node of a new rack, and a node of a seen
/// rack while such repeats are left. The taken nodes are the placement, which is defined by counting.
///
/// The cost is that of [`DividedRing::new`] and of [`DividedRing::replicas`]. Adds one to `walks`, even on an
/// error.
pub fn replicas<L: Ledger>(
    alloc: Global,
    ring: &Ring,
    dir: &Directory,
    factors: &Factors,
    t: Token,
    walks: &mut Steps<L>,
) -> Result<NodeSet, Memory>
    // Promise: the nodes that the walks take in the named datacenters are the placement, and each of these is by
    // itself. Guards: datacenter_walk_passes_the_token.edit, scripts.rt, tried.
    // Promise: a rack is repeated as often as the racks of the whole ring leave it, and no more. Guards:
    // repeats_by_racks_seen.edit, scripts.rt, tried.
    ensures placement { IfOk result (λ replicas.
        replicas ≡ topology_placement dir.now.rows factors.now t ring.now) }
    // Promise: one step is counted, whatever is answered. Guards: tried.
    ensures counted { walks.new ≡ walks.old + 1 }
{
    match DividedRing::new(alloc, ring, dir, factors) {
        Ok(divided) => divided.replicas(t, walks),
        Err(error) => {
            walks.tick();
            Err(error)
        }
    }
}
