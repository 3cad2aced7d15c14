//! Binary searches in rows of nodes whose ids strictly ascend.

ghost use Rattle.std.specs.Prelude.{◌≡◌, ◌<◌, ◌≤◌, length, map};
ghost use Rattle.std.specs.List.Sorted.{IsPartitionPoint, IsStrictlyIncreasing};
ghost use Rattle.std.specs.Option.{option_copied};
ghost use Rattle.cluster_terms.specs.NodeRow.{row_of};
ghost use Rattle.transformations.specs.Valid.{is_standing};

use cluster_terms::{NodeId, NodeRow};

/// The number of rows below id `n` in an ascending list.
fn count_below(nodes: &[NodeRow], n: NodeId) -> usize
    requires { IsStrictlyIncreasing (map (λ row. row.id) nodes.now) }
    ensures bound { result ≤ length nodes.now }
    ensures split { IsPartitionPoint (λ row. row.id < n) (λ row. n ≤ row.id) nodes.now result }
{
    nodes.partition_point(|row| row.id < n)
}

/// The row of a node, if it is registered. The cost is a binary search.
pub(crate) fn row_among(nodes: &[NodeRow], n: NodeId) -> Option<&NodeRow>
    requires { IsStrictlyIncreasing (map (λ row. row.id) nodes.now) }
    ensures { option_copied result ≡ row_of nodes.now n }
{
    let below = count_below(nodes, n);
    if nodes.len() <= below {
        return None;
    }
    let row = &nodes[below];
    if row.id == n { Some(row) } else { None }
}

/// Whether a node is registered and hasn't left. The cost is a binary search.
pub(crate) fn is_standing(nodes: &[NodeRow], n: NodeId) -> bool
    requires { IsStrictlyIncreasing (map (λ row. row.id) nodes.now) }
    ensures { result ≡ is_standing nodes.now n }
{
    match row_among(nodes, n) {
        Some(row) => !row.left,
        None => false,
    }
}
