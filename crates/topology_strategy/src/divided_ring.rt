ghost use Rattle.std.specs.Prelude.{◌≡◌, ◌+◌, ℕ, IfOk};
ghost use Rattle.std.specs.List.{list_any};
ghost use Rattle.node_sets.specs.NodeSets.{IsNodeSet, has_node};
ghost use Rattle.topology_strategy.specs.code.RingParts.{is_replica_in, parts_of};
ghost use Rattle.topology_strategy.specs.GroupedRing.{homes_of, is_home, placement_at};

use crate::datacenter_ring::DatacenterRing;
use cluster_terms::{Factors, Memory, Name, Pair, Rf, Steps, Token};
use node_directory::Directory;
use node_sets::NodeSet;
use std::alloc::Global;
use std::marker::Model;
use std::sync::ledger::Ledger;
use token_ring::Ring;

/// A ring, the registered nodes, and datacenters that are to have replicas, with the tokens of each datacenter apart.
///
/// A walk passes the tokens of its own datacenter only. To place several tokens, make this value once: then each token
/// costs only its walks, which look nothing up. Walks over the whole ring would cost its square where other datacenters
/// have many nodes.
#[derive(Drop)]
pub struct DividedRing<'a> {
    ring: &'a Ring,
    dir: &'a Directory,
    parts: Vec<DatacenterRing<'a>>,
}

impl<'a> Model for DividedRing<'a> {
    ghost use Rattle.std.specs.Prelude.{◌≡◌};
    ghost use Rattle.topology_strategy.specs.DatacenterRing.{factors_of};
    ghost use Rattle.topology_strategy.specs.code.RingParts.{parts_of};
    ghost use Rattle.topology_strategy.specs.GroupedRing.{GroupedRing};

    ghost Value = { GroupedRing };

    ghost view = { λ d.
        record { ring = d.ring.now; nodes = d.dir.now.rows; factors = factors_of d.parts.items } };

    ghost invariant = { λ d. d.parts.items ≡ parts_of d.ring.now d.dir.now.rows (factors_of d.parts.items) };
}

/// The tokens of each of these datacenters in a ring.
fn divided<'a>(
    alloc: Global,
    ring: &'a Ring,
    dir: &'a Directory,
    factors: &'a [(Name, Rf)],
) -> Result<Vec<DatacenterRing<'a>>, Memory>
    ensures { IfOk result (λ parts. parts.items ≡ parts_of ring.now dir.now.rows factors.now) }
{
    let mut parts = Vec::with_capacity(alloc, factors.len())?;
    for (name, rf) in factors {
        parts.push(DatacenterRing::new(alloc, ring, dir, name, *rf)?)?;
    }
    Ok(parts)
}

/// Whether one of these pairs has a node of a datacenter.
fn is_home(dir: &Directory, dc: &Name, pairs: &[Pair]) -> bool
    ensures { result ≡ is_home dir.now.rows pairs.now dc.now }
{
    pairs
        .iter()
        .any(|pair| dir.rack_in(dc, pair.node).is_some())
}

/// The tokens in a ring of those of these datacenters that have a node of one of the pairs.
fn divided_among<'a>(
    alloc: Global,
    ring: &'a Ring,
    dir: &'a Directory,
    factors: &'a [(Name, Rf)],
    pairs: &[Pair],
) -> Result<Vec<DatacenterRing<'a>>, Memory>
    ensures { IfOk result (λ parts.
        parts.items ≡ parts_of ring.now dir.now.rows (homes_of dir.now.rows pairs.now factors.now)) }
{
    let mut parts = Vec::new(alloc);
    for (name, rf) in factors {
        if is_home(dir, name, pairs) {
            parts.push(DatacenterRing::new(alloc, ring, dir, name, *rf)?)?;
        }
    }
    Ok(parts)
}

/// The nodes that the walks from a token take in these datacenters.
fn placed_in(alloc: Global, parts: &[DatacenterRing], t: Token) -> Result<NodeSet, Memory>
    ensures ascend { IfOk result (λ placed. IsNodeSet placed) }
    ensures nodes { IfOk result (λ placed. (v : ℕ)
        → has_node placed v ≡ list_any (λ part. is_replica_in part t v) parts.now) }
{
    let mut placed = NodeSet::empty(alloc);
    for part in parts {
        part.place_at(t, &mut placed)?;
    }
    Ok(placed)
}

impl<'a> DividedRing<'a> {
    /// Puts the tokens of each datacenter that the factors name apart, with the racks of their nodes.
    ///
    /// Costs two passes over the ring for each named datacenter. The first looks up each pair in the directory. The
    /// second counts the datacenter's nodes and racks, and ends once it has met as many of each as there are to be
    /// replicas.
    #[tactic(auto, using(crate::proofs::RackedLemmas::factors_of_parts))]
    pub fn new(
        alloc: Global,
        ring: &'a Ring,
        dir: &'a Directory,
        factors: &'a Factors,
    ) -> Result<DividedRing<'a>, Memory>
        // Promise: a divided ring is of the ring, the nodes and the factors that it was made of. Guards: scripts.rt.
        ensures { IfOk result (λ d.
            d ≡ record { ring = ring.now; nodes = dir.now.rows; factors = factors.now }) }
    {
        let parts = divided(alloc, ring, dir, factors.rows())?;
        Ok(DividedRing { ring, dir, parts })
    }

    /// As `new`, but only with those of the named datacenters that have a node of one of these pairs. The cost is that
    /// of `new` for these datacenters, and for each of the others a look-up in the directory for each of the pairs.
    #[tactic(auto, using(crate::proofs::RackedLemmas::factors_of_parts))]
    pub fn among(
        alloc: Global,
        ring: &'a Ring,
        dir: &'a Directory,
        factors: &'a Factors,
        pairs: &[Pair],
    ) -> Result<DividedRing<'a>, Memory>
        // Promise: `among` leaves out the datacenters that have no node of the pairs. Guards: scripts.rt.
        ensures { IfOk result (λ d. d ≡ record {
          ring = ring.now;
          nodes = dir.now.rows;
          factors = homes_of dir.now.rows pairs.now factors.now;
        }) }
    {
        let parts = divided_among(alloc, ring, dir, factors.rows(), pairs)?;
        Ok(DividedRing { ring, dir, parts })
    }

    /// The nodes that the walks from a token take.
    fn placed_at(&self, t: Token) -> Result<NodeSet, Memory>
        ensures { IfOk result (λ placed. placed ≡ placement_at self.now t) }
    {
        let placed = placed_in(*self.parts.allocator(), &self.parts, t)?;
        Ok(placed)
    }

    /// The replicas of a token by NetworkTopologyStrategy, as [`replicas`](crate::replicas) gives them.
    ///
    /// Costs a binary search and a walk for each named datacenter. A walk ends once its datacenter has all its
    /// replicas. It passes each token of its datacenter at most once, and looks at no more nodes and racks there than
    /// there are to be replicas. Takes memory only for more than 7 replicas. Adds one to `walks`, even on an
    /// error.
    pub fn replicas<L: Ledger>(&self, t: Token, walks: &mut Steps<L>) -> Result<NodeSet, Memory>
        ensures placement { IfOk result (λ replicas. replicas ≡ placement_at self.now t) }
        ensures counted { walks.new ≡ walks.old + 1 }
    {
        walks.tick();
        self.placed_at(t)
    }
}
