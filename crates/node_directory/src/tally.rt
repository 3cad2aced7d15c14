ghost use Rattle.std.specs.Prelude.{◌≡◌, ◌≤◌, length, nat_eq};
ghost use Rattle.std.specs.List.{list_any};
ghost use Rattle.std.specs.Set.{is_member};
ghost use Rattle.std.specs.Str.{bytes_eq};
ghost use Rattle.node_directory.specs.Members.{group_of};
ghost use Rattle.node_directory.specs.Tally as spec;
ghost use Rattle.node_directory.specs.code.GroupTally as code;

use crate::members::Members;
use cluster_terms::{Few, NodeId};
use std::marker::Model;

/// The distinct nodes and racks met so far, up to the numbers asked for, which are at most 16. A tally takes no memory.
#[derive(Drop)]
pub struct Tally<'a> {
    most_nodes: usize,
    most_racks: usize,
    nodes: Few<NodeId, 16>,
    racks: Few<&'a [u8], 16>,
}

impl<'a> Model for Tally<'a> {
    ghost use Rattle.std.specs.Prelude.{◌≤◌};
    ghost use Rattle.node_directory.specs.Tally.{Tallied, racks_in};

    ghost Value = { Tallied };

    ghost view = { λ t. record {
      most_nodes = t.most_nodes;
      most_racks = t.most_racks;
      nodes = t.nodes;
      racks = racks_in t.racks;
    } };

    ghost invariant = { λ t. (t.most_nodes ≤ 16) × (t.most_racks ≤ 16) };
}

fn has_node(nodes: &[NodeId], node: NodeId) -> bool
    ensures { result ≡ is_member nat_eq nodes.now node }
{
    nodes.iter().any(|other| node == *other)
}

fn is_one_of(rack: &[u8], racks: &[&[u8]]) -> bool
    ensures { result ≡ list_any (λ r. bytes_eq rack.now r.now) racks.now }
{
    racks.iter().any(|other| rack == *other)
}

/// Whether a list contains a rack. The cost is one pass over the list.
pub fn has_rack(racks: &[&[u8]], rack: &[u8]) -> bool
    // Promise: a rack is found in a list by its name. Guards: scripts.rt.
    ensures { result ≡ is_member bytes_eq (spec.racks_in racks.now) rack.now }
{
    is_one_of(rack, racks)
}

/// Adds a node if it is new and the list has fewer than `most` nodes.
fn add_node(nodes: &mut Few<NodeId, 16>, most: usize, node: NodeId)
    requires { most ≤ 16 }
    ensures { nodes.new ≡ spec.with_new nat_eq most node nodes.old }
{
    if nodes.len() < most && !has_node(nodes.as_slice(), node) {
        nodes.push(node);
    }
}

/// Adds a rack if it is new and the list has fewer than `most` racks.
fn add_rack<'a>(racks: &mut Few<&'a [u8], 16>, most: usize, rack: &'a [u8])
    requires { most ≤ 16 }
    ensures { spec.racks_in racks.new ≡ spec.with_new bytes_eq most rack.now (spec.racks_in racks.old) }
{
    if racks.len() < most && !has_rack(racks.as_slice(), rack) {
        racks.push(rack);
    }
}

impl<'a> Tally<'a> {
    /// An empty tally, for at most these numbers of nodes and racks, which are at most 16.
    pub fn new(most_nodes: usize, most_racks: usize) -> Tally<'a>
        requires nodes { most_nodes ≤ 16 }
        requires racks { most_racks ≤ 16 }
        // Promise: a tally begins with no node and no rack, for at most 16 of each. Guards: locks.rt.
        ensures { result ≡ spec.nothing most_nodes most_racks }
    {
        Tally {
            most_nodes,
            most_racks,
            nodes: Few::of(NodeId(0)),
            racks: Few::of(&[]),
        }
    }

    /// The number of nodes in the tally.
    pub(crate) fn node_count(&self) -> usize
        ensures { result ≡ length self.now.nodes }
    {
        self.nodes.len()
    }

    /// The number of racks in the tally.
    pub(crate) fn rack_count(&self) -> usize
        ensures { result ≡ length self.now.racks }
    {
        self.racks.len()
    }

    /// Whether the tally has fewer nodes or fewer racks than asked for.
    pub fn lacks(&self) -> bool
        // Promise: a tally tells whether it lacks nodes or racks. Guards: locks.rt.
        ensures { result ≡ spec.lacks self.now }
    {
        self.nodes.len() < self.most_nodes || self.racks.len() < self.most_racks
    }

    /// Whether the tally has as many nodes as asked for, and the rack with the empty name.
    pub(crate) fn has_all(&self) -> bool
        ensures { result ≡ code.has_all self.now }
    {
        self.most_nodes <= self.nodes.len() && has_rack(self.racks.as_slice(), &[])
    }

    /// Removes all nodes and racks.
    pub fn clear(&mut self)
        // Promise: a tally that is cleared has no node and no rack. Guards: locks.rt, tried.
        ensures { self.new ≡ spec.nothing self.old.most_nodes self.old.most_racks }
    {
        self.nodes.clear();
        self.racks.clear();
    }

    /// Meets a node. If the node is in the group, adds the node and its rack, each if it is new and still asked for.
    pub fn meet(&mut self, members: &Members<'a>, node: NodeId)
        // Promise: a tally has the different nodes of a group that it met, and their different racks, up to the numbers
        // asked for, without memory. Guards: locks.rt.
        ensures { self.new ≡ spec.met (group_of members.now) node self.old }
    {
        if let Some(rack) = members.rack_of(node) {
            add_node(&mut self.nodes, self.most_nodes, node);
            add_rack(&mut self.racks, self.most_racks, rack);
        }
    }
}
