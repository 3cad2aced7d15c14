ghost use Rattle.std.specs.Prelude.{◌≡◌, Bool, ℤ, List, int_lt, true, false, [], ◌∷◌, ◌++◌, ◌≤◌, length, IfOk, OnOk, MatchResult};
ghost use Rattle.std.specs.List.{AllByRecursion};
ghost use Rattle.std.specs.List.Sorted.{IsPartitionPoint, IsStrictlySortedBy};
ghost use Rattle.std.specs.Ordering.{int_cmp};
ghost use Rattle.cluster_terms.specs.Arc.{IsToken};
ghost use Rattle.cluster_terms.specs.Row as spec;
ghost use Rattle.cluster_terms.specs.declared.row.TokenRange.{TokenRange as AnyRange};
ghost use Rattle.token_ring.specs.Bounds.{bounds_of};
ghost use Rattle.token_ring.specs.TokenRanges.{have_token, either_has, HaveTokens, ends_before, IsRange, IsRangeList, AreCutOut, have_chosen, chosen_by, AnswersAs};

use crate::bounds::bounds_of_both;
use crate::chosen_ranges::joined_where;
use cluster_terms::{Memory, Token, TokenRange, TryCopy};
use std::alloc::Global;
use std::marker::Model;

/// Ascending ranges of tokens. Each contains a token, and there is a token between any two of them.
#[derive(Debug, Drop)]
pub struct RangeList {
    ranges: Vec<TokenRange>,
}

impl Model for RangeList {
    ghost use Rattle.std.specs.Prelude.{List};
    ghost use Rattle.cluster_terms.specs.declared.row.TokenRange.{TokenRange};
    ghost use Rattle.token_ring.specs.TokenRanges.{IsRangeList};

    ghost Value = { List TokenRange };

    ghost view = { λ list. list.ranges.items };

    ghost invariant = { λ list. IsRangeList list.ranges.items };
}

/// How many ranges end before a token.
fn count_before(ranges: &[TokenRange], t: Token) -> usize
    requires { IsRangeList ranges.now }
    ensures bound { result ≤ length ranges.now }
    ensures split { IsPartitionPoint (λ r. int_lt (spec.last_token r.right) t ≡ true)
        (λ r. int_lt (spec.last_token r.right) t ≡ false) ranges.now result }
{
    ranges.partition_point(|range| range.last_token() < t)
}

/// Whether a token comes after this left end.
fn is_past(left: &Option<Token>, t: Token) -> bool
    ensures { result ≡ spec.is_past left.now t }
{
    match left {
        None => true,
        Some(left) => *left < t,
    }
}

impl RangeList {
    /// The empty list.
    pub fn empty(alloc: Global) -> RangeList
        ensures { result ≡ [] }
    {
        RangeList {
            ranges: Vec::new(alloc),
        }
    }

    /// The ranges in ascending order.
    pub fn as_slice(&self) -> &[TokenRange]
        // Promise: ranges ascend, each contains a token, and there is a token between any two. Guards: calls/rings.rt.
        ensures ranges { result.now ≡ self.now }
        ensures list { IsRangeList self.now }
    {
        self.ranges.as_slice()
    }

    /// Adds a range at the end. The range contains a token, ends in `Max` if it contains the greatest token, and begins
    /// after all other ranges, with a token between. If memory runs out, returns the range and leaves the list
    /// unchanged.
    pub fn push(&mut self, range: TokenRange) -> Result<(), (TokenRange, Memory)>
        requires range { IsRange range }
        requires apart { AllByRecursion (λ r. ends_before r.right range.left ≡ true) self.old }
        // Promise: a range is added past all others, and if memory runs out, nothing changes and the range is handed
        // back. Guards: tried.
        ensures { MatchResult result (λ _. self.new ≡ self.old ++ range ∷ [])
            (λ e. (self.new ≡ self.old) × (e.0 ≡ range)) }
    {
        match self.ranges.push(range) {
            Ok(()) => Ok(()),
            Err(failed) => Err((failed.value, Memory)),
        }
    }

    /// Whether one of the ranges contains a token. The cost is a binary search.
    pub fn contains(&self, t: Token) -> bool
        // Promise: a token is found if and only if it is in a range. Guards: calls/rings.rt, tried.
        ensures { result ≡ have_token self.now t }
    {
        let before = count_before(&self.ranges, t);
        before < self.ranges.len() && is_past(&self.ranges[before].left, t)
    }

    /// The ranges of those rows between ascending cuts whose last token passes a test, with adjacent rows joined. The
    /// cost is one pass over the cuts, and one test for each row. It is public, as `ring_reach` makes ranges of the
    /// rows that pass its test.
    pub fn of_rows<F: Fn(Token) -> bool>(
        alloc: Global,
        cuts: &[Token],
        test: F,
    ) -> Result<RangeList, Memory>
        requires ascending { IsStrictlySortedBy int_cmp cuts.now }
        requires calls { F.IsAlwaysCallable test }
        // Promise: the ranges have the tokens of the rows whose last token passes a test, and their ends are cuts.
        // Guards: calls/rings.rt, tried.
        ensures ranges { IfOk result (λ ranges. (has : ℤ → Bool) → AnswersAs (F.post test) has
            → HaveTokens (have_chosen (spec.rows_between cuts.now)
            (chosen_by has (spec.rows_between cuts.now))) ranges) }
        ensures bounds { IfOk result (λ ranges. AreCutOut cuts.now ranges) }
        ensures tokens { OnOk result (AllByRecursion IsToken cuts.now) }
    {
        let ranges = joined_where(alloc, cuts, test)?;
        Ok(RangeList { ranges })
    }

    /// The ranges of the tokens that are in either list. The cost is about m log m for m ranges in both lists together.
    pub fn union(&self, other: &RangeList) -> Result<RangeList, Memory>
        // Promise: a union has the tokens of both lists. Guards: calls/rings.rt, tried.
        ensures { IfOk result (λ both. HaveTokens (either_has self.now other.now) both) }
    {
        let alloc = *self.ranges.allocator();
        let cuts = bounds_of_both(alloc, self.as_slice(), other.as_slice())?;
        let both = RangeList::of_rows(alloc, &cuts, |t| self.contains(t) || other.contains(t))?;
        Ok(both)
    }
}

impl TryCopy for RangeList {
    fn copy(&self) -> Result<RangeList, Memory> {
        let ranges = self.ranges.clone()?;
        Ok(RangeList { ranges })
    }
}

/// Each set of tokens has only one list of ranges.
#[tactic(auto, using(crate::proofs::SameTokens::same_list))]
pub fn each_set_has_one_list()
    // Promise: ranges with the same tokens are the same list. Guards: law.
    ensures { (one other : List AnyRange) → IsRangeList one → IsRangeList other
        → AllByRecursion IsToken (bounds_of one) → AllByRecursion IsToken (bounds_of other)
        → ((t : ℤ) → IsToken t → have_token one t ≡ have_token other t) → one ≡ other }
{}
