ghost use Rattle.std.specs.Prelude.{◌≡◌, ◌+◌, IfOk};
ghost use Rattle.replica_placer.specs.Placers.{PlacesOn, at_homes, placed_by};

use cluster_terms::{Memory, Pair, Replication, Rf, Steps, Token};
use node_directory::Directory;
use node_sets::NodeSet;
use std::alloc::Global;
use std::sync::ledger::Ledger;
use token_ring::Ring;
use topology_strategy::DividedRing;

/// A ring, with the strategy that places replicas on it. It has a crate of its own, as plans and maps both place
/// replicas, and are proved side by side on it.
#[derive(Drop)]
pub enum Placer<'a> {
    /// SimpleStrategy, with its factor.
    Simple(&'a Ring, Rf),
    /// NetworkTopologyStrategy, with the tokens of its datacenters apart.
    Topology(DividedRing<'a>),
}

impl<'a> Placer<'a> {
    /// The placer of a replication on a ring. For NetworkTopologyStrategy the cost is that of `DividedRing::new`, and
    /// otherwise nothing.
    pub fn new(
        alloc: Global,
        ring: &'a Ring,
        dir: &'a Directory,
        replication: &'a Replication,
    ) -> Result<Placer<'a>, Memory>
        ensures { IfOk result (PlacesOn ring.now dir.now.rows replication.now) }
    {
        match replication {
            Replication::Simple(rf) => Ok(Placer::Simple(ring, *rf)),
            Replication::Topology(factors) => {
                let divided = DividedRing::new(alloc, ring, dir, factors)?;
                Ok(Placer::Topology(divided))
            }
        }
    }

    /// As `new`, but under NetworkTopologyStrategy only in the datacenters that have a node of one of these pairs. The
    /// cost is that of `DividedRing::among`, and otherwise nothing.
    pub fn among(
        alloc: Global,
        ring: &'a Ring,
        dir: &'a Directory,
        replication: &'a Replication,
        pairs: &[Pair],
    ) -> Result<Placer<'a>, Memory>
        ensures { IfOk result (PlacesOn ring.now dir.now.rows (at_homes dir.now.rows pairs.now replication.now)) }
    {
        match replication {
            Replication::Simple(rf) => Ok(Placer::Simple(ring, *rf)),
            Replication::Topology(factors) => {
                let divided = DividedRing::among(alloc, ring, dir, factors, pairs)?;
                Ok(Placer::Topology(divided))
            }
        }
    }

    /// The replicas at a token. Adds one to `walks`, even on an error.
    pub fn place<L: Ledger>(
        &self,
        alloc: Global,
        at: Token,
        walks: &mut Steps<L>,
    ) -> Result<NodeSet, Memory>
        // Promise: a placer gives the placement of a replication on its ring, in all datacenters or in those of some
        // pairs, and counts each walk, whatever is answered. Guards: scripts.
        ensures placement { IfOk result (λ nodes. nodes ≡ placed_by self.now at) }
        ensures counted { walks.new ≡ walks.old + 1 }
    {
        match self {
            Placer::Simple(ring, rf) => simple_strategy::replicas(alloc, ring, *rf, at, walks),
            Placer::Topology(divided) => divided.replicas(at, walks),
        }
    }
}
