//! Whether the shape of a node's group differs in a wider set of pairs.

use crate::calls::name_of;
use cluster_terms::{NodeId, NodeRow, Pair, Replication, Token};
use node_directory::Directory;
use ring_reach::shape_differs;
use std::alloc::Global;
use std::test::Fail;
use token_ring::Ring;

/// Ids, names, datacenters and racks. Node 5 isn't registered.
const NODES: [(u32, &str, &str, &str); 4] = [
    (1, "a", "dc1", "r1"),
    (2, "b", "dc1", "r1"),
    (3, "c", "dc1", "r2"),
    (4, "d", "dc2", "r1"),
];

/// A replication, the nodes of the fixed ring, the nodes of the widest set, a node, and whether the shape of a group with
/// this node differs between the two.
const SHAPES: [(&str, &[u32], &[u32], u32, bool); 9] = [
    ("simple 2", &[1], &[1, 2], 1, true),
    ("simple 2", &[1], &[1, 2], 5, true),
    ("simple 1", &[1], &[1, 2], 1, false),
    ("topology dc1:2", &[1, 2], &[1, 2, 3], 1, true),
    ("topology dc1:2", &[1, 3], &[1, 2, 3], 2, false),
    ("topology dc1:2", &[1], &[1, 4], 1, false),
    ("topology dc1:1 dc2:1", &[1], &[1, 4], 1, false),
    ("topology dc1:1 dc2:1", &[1], &[1, 4], 4, true),
    ("topology dc1:1 dc2:1", &[1], &[1, 4], 5, false),
];

fn directory(alloc: Global) -> Result<Directory, Fail> {
    let mut rows = Vec::new(alloc);
    for row in &NODES {
        let (id, name, dc, rack) = *row;
        rows.push(NodeRow {
            id: NodeId(id),
            name: name_of(alloc, name)?,
            dc: name_of(alloc, dc)?,
            rack: name_of(alloc, rack)?,
            left: false,
        })?;
    }
    Ok(Directory::from_rows(alloc, &rows, 6)?.ok_or("no directory")?)
}

/// One pair for each node, each at a different token.
fn pairs_of(alloc: Global, nodes: &[u32]) -> Result<Vec<Pair>, Fail> {
    let pairs = nodes
        .iter()
        .map(|node| Pair {
            token: Token::new(i64::from(*node)),
            node: NodeId(*node),
        })
        .collect::<Vec<Pair>>(alloc)?;
    Ok(pairs)
}

#[test]
fn shapes_of_groups(rt: HostRuntime) -> Result<(), Fail> {
    let alloc = rt.alloc();
    let dir = directory(alloc)?;
    for row in &SHAPES {
        let (text, fixed, widest, node, wanted) = *row;
        let asked = Replication::parse(alloc, text)?.ok_or(text)?;
        let fixed = pairs_of(alloc, fixed)?;
        let fixed = Ring::from_pairs(alloc, &fixed)?.ok_or("a token comes twice")?;
        let widest = pairs_of(alloc, widest)?;
        let found = shape_differs(&fixed, &widest, &dir, &asked, NodeId(node));
        assert_eq!(rt; found, wanted, "{text}, node {node}");
    }
    Ok(())
}
