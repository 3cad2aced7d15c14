ghost use Rattle.std.specs.Prelude.{◌≡◌, ℤ, ◌++◌, false, List, IfOk};
ghost use Rattle.cluster_terms.specs.Arc.{IsToken};
ghost use Rattle.cluster_terms.specs.Group.{place};
ghost use Rattle.cluster_terms.specs.Reach.{DifferWithin, IsBetween, is_reached};
ghost use Rattle.cluster_terms.specs.Replication.{groups_of};
ghost use Rattle.cluster_terms.specs.declared.token.Pair.{Pair};
ghost use Rattle.token_ring.specs.TokenRanges.{AreCutOut, HaveTokens, have_token};
ghost use Rattle.cluster_terms.specs.Pair.{tokens_of};

use crate::groups::ranges_in_groups;
use crate::ring_change::RingChange;
use cluster_terms::{Memory, Pair, Replication};
use node_directory::Directory;
use std::alloc::Global;
use token_ring::{RangeList, Ring};

/// The tokens whose placement may change when pairs come or go (CEP-21's locked ranges, by this project's rule).
///
/// At any time the ring lies between the fixed ring and the widest set of pairs. If a group of the replication has
/// different shapes in these two, the moved pairs of its nodes reach all tokens. Otherwise such a pair reaches a token
/// if fewer replicas than wanted are sure to be found before the pair: clockwise from the token, too few of the group's
/// fixed nodes are met before the pair, or these stand in too few racks.
///
/// The bounds of the ranges are tokens of fixed or moved pairs. Outside the ranges, two rings between the fixed ring
/// and the widest set of pairs place a token alike if they differ only in moved pairs.
///
/// For `k` moved pairs, a group costs `k` look-ups. If one of these pairs has a node of the group, it also costs up to
/// two passes over the fixed pairs and one over the widest pairs, to compare the shapes, and about `k log k` to put the
/// tokens in order. Each moved token then costs a search in the ring, and a step for each fixed pair on the way back to
/// where enough replicas are met, or to the moved token before it. The memory taken is about `k`.
pub fn reached(
    alloc: Global,
    fixed: &Ring,
    widest: &[Pair],
    dir: &Directory,
    moved: &[Pair],
    replication: &Replication,
) -> Result<RangeList, Memory>
    // Promise: the ranges have the tokens that a moved pair reaches, and no others. Guards:
    // spare_repeats_forgotten.edit, locks.rt, tried.
    // Promise: a moved pair reaches nothing in a group that doesn't have its node. Guards: locks.rt, tried.
    // Promise: each named datacenter counts. Guards: locks.rt, tried.
    // Promise: if the shape of a moved pair's group differs in the widest set of pairs, each token is reached. Guards:
    // locks.rt, tried.
    ensures reach { IfOk result (λ ranges. HaveTokens
        (is_reached (groups_of dir.now.rows replication.now) fixed.now widest.now moved.now) ranges) }
    // Promise: each end of the ranges that is a token is one of a fixed or moved pair, and outside the ranges the
    // placement doesn't depend on the moved pairs. Guards: by reach.
    ensures bounds { IfOk result (λ ranges. AreCutOut (tokens_of fixed.now ++ tokens_of moved.now) ranges) }
    ensures alone { IfOk result (λ ranges. (x : ℤ) (one other : List Pair)
        → IsToken x → have_token ranges x ≡ false
        → IsBetween fixed.now widest.now one → IsBetween fixed.now widest.now other
        → DifferWithin moved.now one other
        → place (groups_of dir.now.rows replication.now) x one
        ≡ place (groups_of dir.now.rows replication.now) x other) }
{
    let change = RingChange {
        fixed,
        widest,
        moved,
    };
    ranges_in_groups(alloc, &change, dir, replication)
}
