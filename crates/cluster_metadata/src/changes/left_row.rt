//! Which node has left once a movement is done.

ghost use Rattle.std.specs.Prelude.{◌≡◌, ◌==◌, position, IfOk, IfSome};
ghost use Rattle.transformations.specs.Movements.{first_node, leaver, with_left};
ghost use Rattle.transformations.specs.Valid.{IsSound};
ghost use Rattle.cluster_metadata.specs.code.Nodes as spec;

use crate::on_heap::OnHeap;
use cluster_terms::{Memory, NodeId, NodeRow, Pair, TryCopy};
use std::alloc::Global;
use transformations::{Image, Kind, SeqRow};

/// The row of a node that leaves, marked as left, and its position among the nodes.
#[derive(Drop)]
pub struct LeftRow {
    pub at: usize,
    pub row: NodeRow,
}

/// The node of the first pair. Returns `None` if there is no pair.
fn first_node(pairs: &[Pair]) -> Option<NodeId>
    ensures { result ≡ first_node pairs.now }
{
    match pairs {
        [first, ..] => Some(first.node),
        [] => None,
    }
}

/// The node that has left once a movement is done: the node of a leave, or the node from which a replace takes pairs.
/// Returns `None` for a join, for a move, and for a replace that takes no pair.
pub fn leaver(row: &SeqRow) -> Option<NodeId>
    ensures { result ≡ leaver row.now }
{
    match row.kind {
        Kind::Leave => Some(row.node),
        Kind::Replace => first_node(row.out_pairs.as_slice()),
        Kind::Join | Kind::Move => None,
    }
}

/// The position of a node's row. Returns `None` if and only if the node is not registered.
fn found_at(nodes: &[NodeRow], node: NodeId) -> Option<usize>
    ensures { result ≡ position (λ row. row.id == node) nodes.now }
{
    nodes.iter().position(|row| row.id == node)
}

/// The row of the leaver, marked as left. Returns `None` if no row changes: there is no leaver, or it is not
/// registered.
pub fn left_row(
    alloc: Global,
    image: &Image,
    leaver: Option<NodeId>,
) -> Result<Option<OnHeap<LeftRow>>, Memory>
    requires { IsSound image.now }
    ensures nodes { IfOk result
        (λ left. spec.nodes_left image.now.nodes left ≡ with_left image.now.nodes leaver) }
    ensures row { IfOk result (λ left. IfSome left (spec.IsLeftRow image.now.nodes)) }
{
    let Some(node) = leaver else {
        return Ok(None);
    };
    let nodes = image.nodes.as_slice();
    match found_at(nodes, node) {
        Some(at) => {
            let mut row = nodes[at].copy()?;
            row.left = true;
            let left = OnHeap::new(alloc, LeftRow { at, row })?;
            Ok(Some(left))
        }
        None => Ok(None),
    }
}
