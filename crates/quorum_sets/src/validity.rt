//! The meaning of the count that tells whether quorums have a replica in common.

ghost use Rattle.std.specs.Prelude.{◌≡◌, ℕ, true, false, List, nat_eq};
ghost use Rattle.std.specs.List.{IsDistinct, list_any};
ghost use Rattle.std.specs.Set.{is_member};
ghost use Rattle.cluster_terms.specs.Quorum.{AreSome, have_common};
ghost use Rattle.quorum_sets.specs.Parted.{ArePartable};

/// If the count of two lists is true, any `a` different nodes of the first and any `b` of the second have a node in
/// common. If it is false, and neither list repeats a node, there are `a` different nodes of the first and `b` of the
/// second without a node in common. So counting is enough: in all other cases there are two
/// quorums that don't meet.
pub fn counting_tells()
    // Promise: if the count says so, any a nodes of one set and any b of another have a node in common, and otherwise
    // some a and some b have none. Guards: law.
    ensures common { (a b : ℕ) (ns ms some others : List ℕ) → have_common a ns b ms ≡ true
        → AreSome a ns some → AreSome b ms others → list_any (is_member nat_eq some) others ≡ true }
    ensures parted { (a b : ℕ) (ns ms : List ℕ) → IsDistinct nat_eq ns → IsDistinct nat_eq ms
        → have_common a ns b ms ≡ false → ArePartable a ns b ms }
{}
