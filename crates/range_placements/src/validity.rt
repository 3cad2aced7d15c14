ghost use Rattle.std.specs.Prelude.{◌≡◌, List, ℕ, ℤ, false, ◌&&◌, ◌||◌, not};
ghost use Rattle.node_sets.specs.NodeSets.{IsNodeSet, has_node};
ghost use Rattle.placement_deltas.specs.Deltas.{change};
ghost use Rattle.range_placements.specs.Placements.{IsPlacementMap, with_change, is_cut_of, merged_rows, split_rows};
ghost use Rattle.range_placements.specs.declared.placement_row.PlacementRow.{PlacementRow as AnyRow};

/// A split at a token that is no cut, and a merge there, give the rows back.
#[tactic(auto, using(crate::proofs::MapCuts::split_undone))]
pub fn a_merge_undoes_a_split()
    // Promise: a split at a token that is no cut, and a merge there, give the rows back. Guards: law, MapExamples.antt.
    ensures { (rows : List AnyRow) (t : ℤ) → IsPlacementMap rows → is_cut_of rows t ≡ false
        → merged_rows (split_rows rows t) t ≡ rows }
{}

/// A node is in a changed set if and only if it is gained, or it is in the set and is not lost.
#[tactic(auto, using(crate::proofs::ChangedRows::changed_nodes))]
pub fn a_change_adds_and_removes_nodes()
    // Promise: a node is in a changed set if and only if it is gained, or it is in the set and isn't lost. Guards: law,
    // MapExamples.antt.
    ensures { (set gained lost : List ℕ) (n : ℕ)
        → has_node (with_change set gained lost) n
        ≡ (has_node gained n || (has_node set n && not (has_node lost n))) }
{}

/// The change between two sets leads from the first to the second.
#[tactic(auto, using(crate::proofs::ChangedRows::changed_to))]
pub fn a_change_leads_to_the_other_set()
    // Promise: the change between two sets, made to the first, gives the second. Guards: law.
    ensures { (before after : List ℕ) → IsNodeSet before → IsNodeSet after
        → with_change before (change before after).0 (change before after).1 ≡ after }
{}
