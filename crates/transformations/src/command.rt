ghost use Rattle.std.specs.Prelude.{◌≡◌};

use crate::sequence::{Goal, Kind};
use cluster_terms::{Memory, Name, NodeId, Replication, Token, TokenList, TryCopy};

/// A transformation of the cluster's metadata (CEP-21).
#[derive(Debug, Drop)]
pub enum Command {
    /// Adds a node under the next id.
    Register {
        name: Name,
        dc: Name,
        rack: Name,
    },
    /// Removes a node that has no tokens. Its id is not used again.
    Unregister {
        node: NodeId,
    },
    /// Gives tokens to a node at once, without a movement. The tokens ascend.
    UnsafeJoin {
        node: NodeId,
        tokens: TokenList,
    },
    /// Makes a keyspace, or gives it another replication.
    Keyspace {
        name: Name,
        replication: Replication,
    },
    /// Removes a keyspace.
    DropKeyspace {
        name: Name,
    },
    /// Prepares a join: the node is to get these tokens. The tokens ascend.
    PrepareJoin {
        node: NodeId,
        tokens: TokenList,
    },
    /// Prepares a move: this token is to replace the node's only token.
    PrepareMove {
        node: NodeId,
        token: Token,
    },
    /// Prepares a leave: the node is to give up its tokens. When the leave is finished, the node has left.
    PrepareLeave {
        node: NodeId,
    },
    /// Prepares a replace: the node is to take the tokens of `gone`. When the replace is finished, `gone` has left.
    PrepareReplace {
        node: NodeId,
        gone: NodeId,
    },
    /// Takes the movement of a node to this goal. The movement is of this kind. A step can be refused with `NoNode`,
    /// `NoSequence` or `WrongStep`, looked for in this order.
    Step {
        goal: Goal,
        kind: Kind,
        node: NodeId,
    },
    /// Cancels the movement of a node: from `Mid` it goes back to `Started`, and before `Mid` it ends.
    Cancel {
        node: NodeId,
    },
}

impl TryCopy for Command {
    fn copy(&self) -> Result<Command, Memory> {
        match self {
            Command::Register { name, dc, rack } => Ok(Command::Register {
                name: name.copy()?,
                dc: dc.copy()?,
                rack: rack.copy()?,
            }),
            Command::Unregister { node } => Ok(Command::Unregister { node: *node }),
            Command::UnsafeJoin { node, tokens } => Ok(Command::UnsafeJoin {
                node: *node,
                tokens: tokens.copy()?,
            }),
            Command::Keyspace { name, replication } => Ok(Command::Keyspace {
                name: name.copy()?,
                replication: replication.copy()?,
            }),
            Command::DropKeyspace { name } => Ok(Command::DropKeyspace { name: name.copy()? }),
            Command::PrepareJoin { node, tokens } => Ok(Command::PrepareJoin {
                node: *node,
                tokens: tokens.copy()?,
            }),
            Command::PrepareMove { node, token } => Ok(Command::PrepareMove {
                node: *node,
                token: *token,
            }),
            Command::PrepareLeave { node } => Ok(Command::PrepareLeave { node: *node }),
            Command::PrepareReplace { node, gone } => Ok(Command::PrepareReplace {
                node: *node,
                gone: *gone,
            }),
            Command::Cancel { node } => Ok(Command::Cancel { node: *node }),
            Command::Step { goal, kind, node } => Ok(Command::Step {
                goal: *goal,
                kind: *kind,
                node: *node,
            }),
        }
    }
}
