ghost use Rattle.std.specs.Prelude.{◌≡◌};
ghost use Rattle.cluster_terms.specs.Replication.{groups_of};
ghost use Rattle.node_directory.specs.Members.{group_of};
ghost use Rattle.ring_reach.specs.Settled.{is_in_any_unsettled, is_in_unsettled};

use crate::common_shape::common_shape;
use cluster_terms::{Name, NodeId, Pair, Replication, Rf};
use node_directory::{Directory, Members};
use token_ring::Ring;

/// Whether a node is in a group whose shape differs between the fixed ring and the widest set of pairs.
fn differs_in(fixed: &Ring, widest: &[Pair], members: &Members, node: NodeId) -> bool
    ensures { result ≡ is_in_unsettled fixed.now widest.now node (group_of members.now) }
{
    members.rack_of(node).is_some() && common_shape(members, fixed.pairs(), widest).is_none()
}

fn differs_in_datacenters(
    fixed: &Ring,
    widest: &[Pair],
    dir: &Directory,
    factors: &[(Name, Rf)],
    node: NodeId,
) -> bool
    ensures { result ≡ is_in_any_unsettled
        (groups_of dir.now.rows (Replication.Topology factors.now)) fixed.now widest.now node }
{
    for (name, rf) in factors {
        let members = Members::Datacenter(dir, name, *rf);
        if differs_in(fixed, widest, &members, node) {
            return true;
        }
    }
    false
}

/// Whether a node is in a group of the replication whose shape isn't settled: the fixed ring and the widest set of
/// pairs differ in how many replicas the group wants, or in how many of them may stand in a rack that already has one.
///
/// Costs at most two passes over the fixed pairs, and one over the widest pairs, for each group that the node is in. A
/// pair costs a look at no more nodes and racks than there are to be replicas, and in a datacenter a look-up in the
/// directory. Takes no memory.
///
/// Neither this nor `reached` has a precondition: the fixed pairs needn't be among the widest, nor need nodes be
/// registered.
pub fn shape_differs(
    fixed: &Ring,
    widest: &[Pair],
    dir: &Directory,
    replication: &Replication,
    node: NodeId,
) -> bool
    // Promise: `shape_differs` tells whether a node is in a group that has another shape in the widest set of pairs
    // than in the fixed ring. Guards: calls/reach.rt, tried.
    ensures { result ≡ is_in_any_unsettled
        (groups_of dir.now.rows replication.now) fixed.now widest.now node }
{
    match replication {
        Replication::Simple(rf) => differs_in(fixed, widest, &Members::All(*rf), node),
        Replication::Topology(factors) => {
            differs_in_datacenters(fixed, widest, dir, factors.rows(), node)
        }
    }
}
