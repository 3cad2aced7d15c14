ghost use Rattle.std.specs.Prelude.{◌≡◌, is_some, IfOk};
ghost use Rattle.cluster_terms.specs.NodeRow.{row_of};
ghost use Rattle.cluster_terms.specs.Quorum.{within};
ghost use Rattle.cluster_terms.specs.Replication.{rack_within};

use cluster_terms::{Memory, Name, NodeId};
use node_directory::Directory;
use node_sets::NodeSet;
use std::alloc::Global;

/// Whether a node is registered in a datacenter.
pub(crate) fn is_within(dir: &Directory, dc: &Name, n: NodeId) -> bool
    ensures { result ≡ is_some (rack_within dc.now (row_of dir.now.rows n)) }
{
    dir.rack_in(dc, n).is_some()
}

fn ids_within(
    alloc: Global,
    dir: &Directory,
    dc: &Name,
    ids: &[NodeId],
) -> Result<Vec<NodeId>, Memory>
    ensures { IfOk result (λ nodes. nodes.items ≡ within dir.now.rows dc.now ids.now) }
{
    let nodes = ids
        .iter()
        .copied()
        .filter(|n| is_within(dir, dc, *n))
        .collect(alloc)?;
    Ok(nodes)
}

/// The nodes of a set that are registered in a datacenter.
///
/// Cost: a look-up of the row of each node of the set, and about n log n for the n nodes that are found.
pub fn within(alloc: Global, dir: &Directory, dc: &Name, nodes: &NodeSet) -> Result<NodeSet, Memory>
    ensures { IfOk result (λ set. set ≡ within dir.now.rows dc.now nodes.now) }
{
    let ids = ids_within(alloc, dir, dc, nodes.ids())?;
    NodeSet::from_ids(alloc, &ids)
}
