ghost use Rattle.std.specs.Prelude.{◌≡◌, ◌≤◌, [], ◌∷◌, nat_eq};
ghost use Rattle.std.specs.Ordering.{nat_cmp};
ghost use Rattle.std.specs.Set.{is_member};
ghost use Rattle.cluster_terms.specs.Ascending.{ascending};
ghost use Rattle.cluster_terms.specs.Group.{nodes_of, place};
ghost use Rattle.cluster_terms.specs.Replication.{whole_group};
ghost use Rattle.simple_strategy.specs.SimpleWalk.{taken_after};

use cluster_terms::{Few, NodeId, Pair, Rf, Token};
use token_ring::Ring;

fn is_taken(taken: &[NodeId], node: NodeId) -> bool
    ensures { result ≡ is_member nat_eq taken.now node }
{
    taken.iter().any(|other| node == *other)
}

/// Goes over the pairs and takes each node that isn't taken yet, until `wanted` nodes are taken.
#[tactic(auto, using(crate::proofs::SimpleWalkLemmas::taken_full))]
fn take_nodes(taken: &mut Few<NodeId, 16>, wanted: usize, pairs: &[Pair])
    requires { wanted ≤ 16 }
    ensures { taken.new ≡ taken_after wanted taken.old (nodes_of pairs.now) }
{
    for pair in pairs {
        if taken.len() >= wanted {
            return;
        }
        if !is_taken(taken.as_slice(), pair.node) {
            taken.push(pair.node);
        }
    }
}

/// The replicas of a token in the order of the walk, which goes round the ring from the first token at or after `t`.
/// Takes no memory.
pub fn walk(ring: &Ring, rf: Rf, t: Token) -> Few<NodeId, 16>
    ensures { place (whole_group rf ∷ []) t ring.now ≡ ascending nat_cmp result }
{
    let wanted = usize::from(rf.value());
    let mut taken = Few::of(NodeId(0));
    let Some(first) = ring.first_at(t) else {
        return taken;
    };
    let (front, rest) = ring.pairs().split_at(first);
    take_nodes(&mut taken, wanted, rest);
    take_nodes(&mut taken, wanted, front);
    taken
}
