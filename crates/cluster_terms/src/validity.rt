//! Properties of tokens and of the rows between cuts.

ghost use Rattle.std.specs.Prelude.{◌≡◌, ℤ, true, List, filter, length};
ghost use Rattle.std.specs.List.{All};
ghost use Rattle.std.specs.List.Sorted.{IsStrictlySortedBy};
ghost use Rattle.std.specs.Ordering.{int_cmp};
ghost use Rattle.cluster_terms.specs.Arc.{IsToken};
ghost use Rattle.cluster_terms.specs.Row.{is_within, last_token, rows_between};

/// Ascending cuts divide the tokens into rows: each token is in exactly one row between the cuts, and each row contains
/// its last token.
#[tactic(auto, using(crate::proofs::rows::RowLemmas::one_row, crate::proofs::rows::RowLemmas::each_has_last))]
pub fn each_token_has_one_row()
    // Promise: each token is in exactly one row between ascending cuts. Guards: law.
    ensures one { (cuts : List ℤ) (x : ℤ) → IsStrictlySortedBy int_cmp cuts → All IsToken cuts → IsToken x
        → length (filter (is_within x) (rows_between cuts)) ≡ 1 }
    ensures last { (cuts : List ℤ) → IsStrictlySortedBy int_cmp cuts → All IsToken cuts
        → All (λ row. is_within (last_token row.right) row ≡ true) (rows_between cuts) }
{}
