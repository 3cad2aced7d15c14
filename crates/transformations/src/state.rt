ghost use Rattle.std.specs.Prelude.{◌≡◌, ◌==◌};
ghost use Rattle.std.specs.List.{list_any};
ghost use Rattle.std.specs.Option.{option_copied};
ghost use Rattle.cluster_terms.specs.NodeRow.{row_of};
ghost use Rattle.transformations.specs.Rings.{has_started};
ghost use Rattle.transformations.specs.States.{node_state, started_of, state_in, state_of_row};

use crate::image::Image;
use crate::sequence::{Kind, Phase, SeqRow};
use cluster_terms::{NodeId, NodeRow, Pair};

/// The state of a node, derived from its row, the movements in flight and the ring.
#[derive(Clone, Copy, Debug, PartialEq, Eq)]
pub enum NodeState {
    /// It has left the cluster.
    Left,
    /// A join of the node has started.
    Bootstrapping,
    /// A move of the node has started.
    Moving,
    /// A leave of the node has started.
    Leaving,
    /// A replace has started, and this node is the new node.
    BootReplacing,
    /// It has a token in the ring, and no movement of it has started.
    Joined,
    /// It is registered, and none of the other states applies.
    Registered,
}

/// The state of a node whose movement of this kind has started.
fn state_in(kind: Kind) -> NodeState
    ensures { result ≡ state_in kind }
{
    match kind {
        Kind::Join => NodeState::Bootstrapping,
        Kind::Move => NodeState::Moving,
        Kind::Leave => NodeState::Leaving,
        Kind::Replace => NodeState::BootReplacing,
    }
}

fn has_started(phase: Phase) -> bool
    ensures { result ≡ has_started phase }
{
    match phase {
        Phase::Prepared => false,
        Phase::Started | Phase::Mid => true,
    }
}

/// The movement of a node, if it has started.
fn started_of(image: &Image, n: NodeId) -> Option<&SeqRow>
    ensures { option_copied result ≡ started_of image.now n }
{
    image
        .sequences
        .as_slice()
        .iter()
        .find(|row| row.node == n && has_started(row.phase))
}

/// Whether a pair in a list is the node's. Looks at all pairs, several at once, as most nodes that are asked for have
/// none.
pub(crate) fn has_pair(pairs: &[Pair], n: NodeId) -> bool
    ensures { result ≡ list_any (λ p. p.node == n) pairs.now }
{
    let mut found = false;
    for pair in pairs {
        found |= pair.node == n;
    }
    found
}

/// The row of a node, if it is registered.
pub(crate) fn row_of(nodes: &[NodeRow], n: NodeId) -> Option<&NodeRow>
    ensures { option_copied result ≡ row_of nodes.now n }
{
    nodes.iter().find(|row| row.id == n)
}

/// The state of the node of a row: `Left` if the row says so; otherwise the state for its movement, if it has started;
/// otherwise `Joined` if it has a token in the ring, and `Registered` if it has none. The cost is a pass over the
/// movements, and one over the ring.
#[tactic(auto, unfolding(crate::specs::States::state_of_row))]
pub fn state_of(image: &Image, row: &NodeRow) -> NodeState
    // Promise: a node's state follows from its row, else from its movement, if it has started, else from whether it
    // has a token. Guards: refusals.rt, tried.
    ensures { result ≡ state_of_row image.now row.now }
{
    if row.left {
        return NodeState::Left;
    }
    match started_of(image, row.id) {
        Some(movement) => state_in(movement.kind),
        None if has_pair(image.tokens.as_slice(), row.id) => NodeState::Joined,
        None => NodeState::Registered,
    }
}

/// The state of a node. Returns `None` if and only if the node isn't registered. The cost is a pass over the nodes, and
/// that of `state_of`.
pub fn node_state(image: &Image, n: NodeId) -> Option<NodeState>
    ensures { result ≡ node_state image.now n }
{
    row_of(image.nodes.as_slice(), n).map(|row| state_of(image, row))
}
