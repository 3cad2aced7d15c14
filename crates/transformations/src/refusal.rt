use crate::sequence::{Kind, Phase};
use crate::state::NodeState;
use cluster_terms::{Name, NodeId, RightEnd, Token};

/// Why a command was refused.
#[derive(Debug, Drop)]
pub enum Refusal {
    /// This node has the name that is to be registered.
    NameTaken(NodeId),
    /// 1,024 nodes are registered.
    NodesFull,
    /// A node that the command names isn't registered.
    NoNode,
    /// The node is in this state, in which the command can't act on it.
    WrongState(NodeState),
    /// The node takes part in the movement of this node.
    InSequence(NodeId),
    /// The node has no movement.
    NoSequence,
    /// The movement of the node has this kind and this phase, and the step isn't its next step.
    WrongStep(Kind, Phase),
    /// This token is in the ring, or a movement in flight brings it. It is the least such token of the command.
    TokenTaken(Token),
    /// The node that is to be replaced has no token.
    NoTokens,
    /// With the command there would be more than 16,384 tokens.
    TokensFull,
    /// The node has this number of tokens, but a move needs exactly 1.
    NotOneToken(u32),
    /// The node that is to be replaced is in this datacenter and rack, and the new node isn't.
    OtherRack(Name, Name),
    /// A movement is in flight, so no tokens are given at once. This is the least node that has a movement.
    NotIdle(NodeId),
    /// No keyspace has the name.
    NoKeyspace,
    /// There are 64 keyspaces, and none of them has the name.
    KeyspacesFull,
    /// Under the replication of this keyspace, a group of the node that is to leave has no more nodes with tokens than
    /// it is to have replicas. It is the least such keyspace by name. If a keyspace is to be set, it is this one, and
    /// the node is that of a leave in flight.
    TooFewNodes(Name),
    /// The ranges of the new movement overlap those of this node's movement. It is the least such node. The right end
    /// is that of the first row between cuts in the ranges of both, under the replication of one keyspace.
    Locked(NodeId, RightEnd),
    /// The id of the commit is in the log at this epoch, with another command.
    IdReused(u64),
    /// 65,536 epochs are committed.
    EpochsFull,
    /// With the keyspace so set, the ranges of the movements of these two nodes would overlap. The first node is the
    /// least one whose movement would overlap that of a greater node, and the second is the least such greater node.
    /// The right end is that of the first row between cuts in the ranges of both, under any keyspace of the image with
    /// the new one. Where the movements are apart before, only the new keyspace can show an overlap.
    KeyspaceLocked(NodeId, NodeId, RightEnd),
}
