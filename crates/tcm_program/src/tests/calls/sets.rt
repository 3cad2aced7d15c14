//! Unions and differences of sets of nodes.

use cluster_terms::{NodeId, TryCopy};
use node_sets::NodeSet;
use std::alloc::Global;
use std::test::Fail;

/// Two sets, their union, and the first without the second.
const SETS: [(&[u32], &[u32], &[u32], &[u32]); 6] = [
    (&[], &[], &[], &[]),
    (&[], &[2], &[2], &[]),
    (&[3, 1, 3, 2], &[], &[1, 2, 3], &[1, 2, 3]),
    (&[1, 4, 7], &[4, 9, 0], &[0, 1, 4, 7, 9], &[1, 7]),
    (&[5, 6], &[6, 5], &[5, 6], &[]),
    (
        &[4_294_967_295, 0],
        &[7],
        &[0, 7, 4_294_967_295],
        &[0, 4_294_967_295],
    ),
];

pub fn set_of(alloc: Global, ids: &[u32]) -> Result<NodeSet, Fail> {
    let ids = ids
        .iter()
        .map(|id| NodeId(*id))
        .collect::<Vec<NodeId>>(alloc)?;
    Ok(NodeSet::from_ids(alloc, &ids)?)
}

fn shows(set: &NodeSet, ids: &[u32]) -> bool {
    let same = set.ids().iter().map(|id| id.0).eq(ids.iter().copied());
    same && set.len() == ids.len() && set.is_empty() == ids.is_empty()
}

#[test]
fn sets_of_nodes(rt: HostRuntime) -> Result<(), Fail> {
    for row in &SETS {
        let (one, other, both, rest) = *row;
        let one = set_of(rt.alloc(), one)?;
        let other = set_of(rt.alloc(), other)?;
        let union = one.union(&other)?;
        assert!(rt; shows(&union, both));
        for id in both {
            assert!(rt; union.has(NodeId(*id)), "{id}");
        }
        assert!(rt; !union.has(NodeId(8)));
        assert!(rt; shows(&one.minus(&other)?, rest));
        assert!(rt; shows(&union.copy()?, both));
    }
    Ok(())
}
