ghost use Rattle.std.specs.Prelude.{◌≡◌, ◌+◌, ◌<◌, [], ◌∷◌, IfOk};
ghost use Rattle.cluster_terms.specs.Group.{place};
ghost use Rattle.cluster_terms.specs.Replication.{whole_group};

use crate::walk::walk;
use cluster_terms::{Memory, Rf, Steps, Token};
use node_sets::NodeSet;
use std::alloc::Global;
use std::sync::ledger::Ledger;
use token_ring::Ring;

/// The replicas of a token by SimpleStrategy. The walk goes round the ring from the first token at or after `t`. It
/// takes each node that isn't taken yet, until it has `rf` nodes or has gone round once. The nodes are the placement
/// of the group of all nodes.
///
/// The walk visits each token at most once, ends once it has `rf` nodes, and takes no memory. Adds one to
/// `walks`, even on an error.
pub fn replicas<L: Ledger>(
    alloc: Global,
    ring: &Ring,
    rf: Rf,
    t: Token,
    walks: &mut Steps<L>,
) -> Result<NodeSet, Memory>
    // Promise: the nodes that the walk takes are the placement. Guards: scripts.rt, tried.
    ensures placement { IfOk result (λ replicas. replicas ≡ place (whole_group rf ∷ []) t ring.now) }
    // Promise: a walk is counted, whatever is answered. Guards: tried.
    ensures counted { walks.new ≡ walks.old + 1 }
{
    walks.tick();
    let taken = walk(ring, rf, t);
    NodeSet::from_ids(alloc, taken.as_slice())
}
