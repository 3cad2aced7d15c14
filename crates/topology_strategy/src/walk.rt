ghost use Rattle.std.specs.Prelude.{◌≡◌, ◌<◌, ◌≤◌, [], length, nat_eq};
ghost use Rattle.std.specs.Set.{is_member};
ghost use Rattle.cluster_terms.specs.Group.{nodes_of};
ghost use Rattle.node_directory.specs.Tally.{racks_in};
ghost use Rattle.topology_strategy.specs.Walk.{found_at};
ghost use Rattle.topology_strategy.specs.code.WalkAmong.{found_among};

use cluster_terms::{Few, NodeId, Pair};
use node_directory::{Shape, has_rack};
use std::marker::Model;

/// A walk round a ring in one group: the nodes that it took, in the order of the walk, the racks that it saw, and how
/// many further nodes of these racks it may still take. A walk takes no memory: its lists are arrays
/// of 16. A node that isn't registered is in no datacenter and is passed over, so no walk requires its nodes to be
/// registered.
#[derive(Drop)]
pub struct Walk<'a> {
    taken: Few<NodeId, 16>,
    racks: Few<&'a [u8], 16>,
    repeats: usize,
}

impl<'a> Model for Walk<'a> {
    ghost use Rattle.std.specs.Prelude.{◌≤◌, length};
    ghost use Rattle.node_directory.specs.Tally.{racks_in};
    ghost use Rattle.topology_strategy.specs.Walk.{Found};

    ghost Value = { Found };

    ghost view = { λ w.
        record { taken = w.taken; racks = racks_in w.racks; repeats = w.repeats } };

    ghost invariant = { λ w. length w.racks ≤ length w.taken };
}

fn is_taken(taken: &[NodeId], node: NodeId) -> bool
    ensures { result ≡ is_member nat_eq taken.now node }
{
    taken.iter().any(|other| node == *other)
}

impl<'a> Walk<'a> {
    /// A new walk in a group of this shape.
    pub fn begin(shape: Shape) -> Walk<'a>
        ensures { result ≡ record { taken = []; racks = []; repeats = shape.spare } }
    {
        Walk {
            taken: Few::of(NodeId(0)),
            racks: Few::of(&[]),
            repeats: shape.spare,
        }
    }

    /// Meets a node of the group, in this rack. Passes over a node that is taken already. Takes a node of a new rack,
    /// and a node of a seen rack while repeats are left, which uses up a repeat. There must be room for a node.
    fn meet(&mut self, node: NodeId, rack: &'a [u8])
        requires { length self.old.taken < 16 }
        ensures { self.new ≡ found_at node rack.now self.old }
    {
        if is_taken(self.taken.as_slice(), node) {
            return;
        }
        if !has_rack(self.racks.as_slice(), rack) {
            self.taken.push(node);
            self.racks.push(rack);
        } else if self.repeats > 0 {
            self.taken.push(node);
            self.repeats -= 1;
        }
    }

    /// Continues the walk along these pairs of the group, whose nodes have these racks, until `wanted` nodes are taken,
    /// which are at most 16.
    pub fn go_among(&mut self, wanted: usize, pairs: &[Pair], racks: &[&'a [u8]])
        requires bound { wanted ≤ 16 }
        requires racks { length racks.now ≡ length pairs.now }
        ensures { self.new ≡ found_among wanted (nodes_of pairs.now) (racks_in racks.now) self.old }
    {
        for i in 0..pairs.len() {
            if self.taken.len() >= wanted {
                return;
            }
            self.meet(pairs[i].node, racks[i]);
        }
    }

    /// The nodes that the walk took, in its order.
    pub fn nodes(&self) -> &[NodeId]
        ensures { result.now ≡ self.now.taken }
    {
        self.taken.as_slice()
    }
}
