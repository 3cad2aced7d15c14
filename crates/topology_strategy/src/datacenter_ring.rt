//! The tokens of one datacenter in a ring.

ghost use Rattle.std.specs.Prelude.{◌≡◌, ◌||◌, ℕ, IfOk, OnOk};
ghost use Rattle.node_sets.specs.NodeSets.{IsNodeSet, has_node};
ghost use Rattle.topology_strategy.specs.code.RingParts.{is_replica_in};

use crate::racked_pairs::{RackedPairs, first_at, racked_pairs};
use crate::walk::Walk;
use cluster_terms::{Memory, Name, Rf, Token};
use node_directory::{Directory, Members, Shape, shape_of};
use node_sets::NodeSet;
use std::alloc::Global;
use std::marker::Model;
use token_ring::Ring;

/// The tokens of one datacenter in a ring, in ring order, each with the rack of its node.
///
/// A walk in the datacenter passes these tokens only, and looks nothing up.
#[derive(Drop)]
pub struct DatacenterRing<'a> {
    ring: &'a Ring,
    dir: &'a Directory,
    name: &'a Name,
    rf: Rf,
    racked: RackedPairs<'a>,
    shape: Shape,
}

impl<'a> Model for DatacenterRing<'a> {
    ghost use Rattle.std.specs.Prelude.{◌≡◌};
    ghost use Rattle.cluster_terms.specs.Group.{nodes_of};
    ghost use Rattle.cluster_terms.specs.Replication.{datacenter_group};
    ghost use Rattle.node_directory.specs.Shape.{shape_of};
    ghost use Rattle.token_ring.specs.Ring.{IsRing};
    ghost use Rattle.topology_strategy.specs.DatacenterRing.{RingPart};
    ghost use Rattle.topology_strategy.specs.code.RackedPairs.{AreWithin};
    ghost use Rattle.topology_strategy.specs.code.FewReplicas.{IsFew};

    ghost Value = { RingPart };

    ghost view = { λ d. record { ring = d.ring.now; nodes = d.dir.now.rows; factor = (d.name.now, d.rf) } };

    ghost invariant = { λ d.
        let group = datacenter_group d.dir.now.rows (d.name.now, d.rf) in
        IsRing d.ring.now × (AreWithin group d.ring.now d.racked
        × ((d.shape ≡ shape_of (nodes_of d.ring.now) group) × IsFew d.shape)) };
}

impl<'a> DatacenterRing<'a> {
    /// The tokens of a datacenter in a ring, where the datacenter is to have `rf` replicas.
    ///
    /// Costs a look-up in the directory for each pair of the ring, and a pass over the datacenter's pairs that counts its
    /// nodes and racks.
    pub fn new(
        alloc: Global,
        ring: &'a Ring,
        dir: &'a Directory,
        name: &'a Name,
        rf: Rf,
    ) -> Result<DatacenterRing<'a>, Memory>
        ensures { IfOk result (λ part.
            part ≡ record { ring = ring.now; nodes = dir.now.rows; factor = (name.now, rf) }) }
    {
        let members = Members::Datacenter(dir, name, rf);
        let racked = racked_pairs(alloc, &members, ring.pairs())?;
        let shape = shape_of(&members, &racked.pairs);
        Ok(DatacenterRing {
            ring,
            dir,
            name,
            rf,
            racked,
            shape,
        })
    }

    /// Adds the replicas that the datacenter has at a token to a set: the nodes that the walk from the token takes.
    /// Takes memory only for more than 7 nodes. If memory runs out, some of the nodes may be added. The cost is a binary
    /// search, the walk, and that of `NodeSet::add_all`.
    pub fn place_at(&self, t: Token, placed: &mut NodeSet) -> Result<(), Memory>
        ensures ascend { OnOk result (IsNodeSet placed.new) }
        ensures nodes { OnOk result ((v : ℕ) → has_node placed.new v
            ≡ (has_node placed.old v || is_replica_in self.now t v)) }
    {
        let RackedPairs { pairs, racks } = &self.racked;
        let first = first_at(pairs, t);
        let (front, rest) = pairs.split_at(first);
        let (front_racks, rest_racks) = racks.split_at(first);
        let mut walk = Walk::begin(self.shape);
        walk.go_among(self.shape.wanted, rest, rest_racks);
        walk.go_among(self.shape.wanted, front, front_racks);
        placed.add_all(walk.nodes())?;
        Ok(())
    }
}
