ghost use Rattle.std.specs.Prelude.{◌≡◌};

use cluster_terms::NodeId;
use std::marker::Model;

/// The key to a node's lock. Contracts see it as the node.
///
/// The key must be spent, by `LockTable::unlock`. Code doesn't compile if it drops a key or uses a key twice. CEP-21
/// locks the ranges of a movement until it ends. The key, by a rule of this project, is what a movement holds
/// meanwhile.
pub struct LockKey {
    node: NodeId,
}

impl Model for LockKey {
    ghost use Rattle.std.specs.Prelude.{ℕ};

    ghost Value = { ℕ };

    ghost view = { λ key. key.node };
}

impl LockKey {
    /// The node whose lock this is.
    pub fn node(&self) -> NodeId
        // Promise: a key shows its node. Guards: none.
        ensures { result ≡ self.now }
    {
        self.node
    }

    /// The key to a node's lock. Only a table that has just locked the node's ranges makes it.
    pub(crate) fn of(node: NodeId) -> LockKey
        ensures { result ≡ node }
    {
        LockKey { node }
    }

    /// Spends the key, and returns its node.
    pub(crate) fn spend(self) -> NodeId
        ensures { result ≡ self }
    {
        let LockKey { node } = self;
        node
    }
}
