ghost use Rattle.std.specs.Prelude.{◌≡◌, ◌≤◌};
ghost use Rattle.std.specs.Option.{option_copied};

use crate::directory::Directory;
use cluster_terms::{Name, NodeId, Rf};

/// A group of nodes, each with its rack, and the number of replicas that the group is to have.
#[derive(Drop)]
pub enum Members<'a> {
    /// All nodes, counted as one rack.
    All(Rf),
    /// The nodes of a datacenter.
    Datacenter(&'a Directory, &'a Name, Rf),
}

impl<'a> Members<'a> {
    ghost use Rattle.node_directory.specs.Members.{group_of};

    /// The number of replicas that the group is to have, from 1 to 16.
    pub fn rf(&self) -> usize
        // Promise: a group has its number of replicas, at most 16. Guards: scripts.
        ensures value { result ≡ (group_of self.now).rf }
        ensures high { result ≤ 16 }
    {
        match self {
            Members::All(rf) => usize::from(rf.value()),
            Members::Datacenter(_, _, rf) => usize::from(rf.value()),
        }
    }

    /// The name of a node's rack, which is empty for the group of all nodes. Returns `None` if and only if the node is
    /// not in the group. In a datacenter the cost is a look-up in the directory.
    pub fn rack_of(&self, node: NodeId) -> Option<&'a [u8]>
        // Promise: a group has a node's rack, and none if and only if the node isn't in the group. Guards: scripts.
        ensures { option_copied result ≡ (group_of self.now).rack_of node }
    {
        match self {
            Members::All(_) => Some(&[]),
            Members::Datacenter(dir, name, _) => {
                let rack = dir.rack_in(name, node)?;
                Some(rack.as_str().as_bytes())
            }
        }
    }
}
