ghost use Rattle.std.specs.Prelude.{◌≡◌, ℕ};

use crate::list::{SmallList, TryCopy};
use crate::memory::Memory;
use crate::name::Name;
use std::marker::Model;

/// The id of a node. Ids count up from 1 in order of registration and are never used again.
#[derive(Clone, Copy, Debug, Default, PartialEq, Eq, PartialOrd, Ord)]
pub struct NodeId(pub u32);

impl Model for NodeId {
    ghost Value = { ℕ };

    ghost view = { λ n. n.0 };

    ghost inverse = { λ n. record { 0 = n } };
}

impl TryCopy for NodeId {
    fn copy(&self) -> Result<NodeId, Memory> {
        Ok(*self)
    }
}

/// A registered node: its id, name, datacenter and rack, and whether it has left the cluster.
#[derive(Debug, Drop)]
pub struct NodeRow {
    pub id: NodeId,
    pub name: Name,
    pub dc: Name,
    pub rack: Name,
    pub left: bool,
}

impl TryCopy for NodeRow {
    fn copy(&self) -> Result<NodeRow, Memory> {
        Ok(NodeRow {
            id: self.id,
            name: self.name.copy()?,
            dc: self.dc.copy()?,
            rack: self.rack.copy()?,
            left: self.left,
        })
    }
}

/// Registered nodes, in order of id.
pub type NodeRows = SmallList<NodeRow>;
