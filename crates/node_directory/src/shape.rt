ghost use Rattle.std.specs.Prelude.{◌≡◌, ◌≤◌, IsTrue};
ghost use Rattle.cluster_terms.specs.Group.{nodes_of};
ghost use Rattle.node_directory.specs.Members.{group_of};
ghost use Rattle.node_directory.specs.Shape as spec;
ghost use Rattle.node_directory.specs.code.GroupTally.{IsComplete, group_tally};

use crate::members::Members;
use crate::tally::Tally;
use cluster_terms::Pair;

/// The number of replicas that a group is to have in a ring, and how many of them may stand in a rack that already has
/// a replica.
#[derive(Clone, Copy, Debug, PartialEq, Eq)]
pub struct Shape {
    pub wanted: usize,
    pub spare: usize,
}

/// Whether it is known that no node of the group changes the tally. The group of all nodes counts as one rack, so its
/// tally needs no other rack.
#[tactic(auto, using(crate::proofs::TallyLemmas::met_all_full, crate::proofs::TallyLemmas::met_all_whole))]
fn is_complete(members: &Members, tally: &Tally) -> bool
    ensures { IsTrue result → IsComplete (group_of members.now) tally.now }
{
    match members {
        Members::All(_) => tally.has_all(),
        Members::Datacenter(..) => !tally.lacks(),
    }
}

/// The tally of the pairs' nodes, with at most as many nodes and racks as replicas are asked for.
fn tally_of<'a>(members: &Members<'a>, pairs: &[Pair]) -> Tally<'a>
    ensures { result ≡ group_tally (group_of members.now) (nodes_of pairs.now) }
{
    let mut tally = Tally::new(members.rf(), members.rf());
    for pair in pairs {
        if is_complete(members, &tally) {
            return tally;
        }
        tally.meet(members, pair.node);
    }
    tally
}

/// The shape of a group in a ring of these pairs.
///
/// Costs one pass over the pairs. The pass ends once it has met as many nodes and, in a datacenter, as many racks of
/// the group as there are to be replicas. A pair costs a look at no more nodes and racks than that, and in a datacenter
/// a look-up in the directory. Takes no memory.
pub fn shape_of(members: &Members, pairs: &[Pair]) -> Shape
    // Promise: a group's shape in a ring is how many replicas are wanted, at most 16, and how many rack repeats are
    // spare. Guards: scripts.rt, tried.
    ensures shape { result ≡ spec.shape_of (nodes_of pairs.now) (group_of members.now) }
    ensures bound { result.wanted ≤ 16 }
{
    let tally = tally_of(members, pairs);
    Shape {
        wanted: tally.node_count(),
        spare: members.rf() - tally.rack_count(),
    }
}
