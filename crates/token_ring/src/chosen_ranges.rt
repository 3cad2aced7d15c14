ghost use Rattle.std.specs.Prelude.{◌≡◌, Bool, ℤ, List, [], ◌∷◌, ◌++◌, None, IfOk, OnOk};
ghost use Rattle.std.specs.List.{AllByRecursion};
ghost use Rattle.cluster_terms.specs.Arc.{IsToken};
ghost use Rattle.cluster_terms.specs.Row.{rows_between, rows_from};
ghost use Rattle.cluster_terms.specs.declared.row.TokenRange.{TokenRange as AnyRange};
ghost use Rattle.token_ring.specs.code.ChosenRanges as spec;
ghost use Rattle.token_ring.specs.TokenRanges.{AnswersAs, chosen_by};

use cluster_terms::{Memory, RightEnd, Token, TokenRange, TryCopy};
use std::alloc::Global;

/// A row, joined to the range that ends where the row begins, if there is such a range.
fn grown(begun: Option<TokenRange>, row: TokenRange) -> TokenRange
    ensures { result ≡ spec.grown begun row }
{
    match begun {
        None => row,
        Some(range) => TokenRange {
            left: range.left,
            right: row.right,
        },
    }
}

/// The same range, with the right end `Max` if it ends at the greatest token.
fn open_ended(range: TokenRange) -> TokenRange
    ensures { result ≡ spec.ended range }
{
    if range.last_token().value() == i64::MAX {
        TokenRange {
            left: range.left,
            right: RightEnd::Max,
        }
    } else {
        range
    }
}

/// The ranges of the rows so far, and the range that the next row continues if it is chosen too.
#[derive(Drop)]
struct ChosenRanges {
    ranges: Vec<TokenRange>,
    begun: Option<TokenRange>,
}

impl ChosenRanges {
    fn new(alloc: Global) -> ChosenRanges
        ensures ranges { result.ranges.items ≡ [] }
        ensures begun { result.begun ≡ None }
    {
        ChosenRanges {
            ranges: Vec::new(alloc),
            begun: None,
        }
    }

    fn add(&mut self, row: TokenRange, is_chosen: bool) -> Result<(), Memory>
        ensures { OnOk result ((rows : List AnyRange) (chosen : List Bool)
            → self.new.ranges.items ++ spec.chosen_from self.new.begun rows chosen
            ≡ self.old.ranges.items ++ spec.chosen_from self.old.begun (row ∷ rows) (is_chosen ∷ chosen)) }
    {
        if is_chosen {
            self.begun = Some(grown(self.begun, row));
        } else if let Some(range) = self.begun {
            self.ranges.push(range)?;
            self.begun = None;
        }
        Ok(())
    }

    /// The ranges when there are no more rows. Only the last row may contain the greatest token.
    fn finish(self) -> Result<Vec<TokenRange>, Memory>
        ensures { IfOk result (λ ranges. ranges.items
            ≡ self.ranges.items ++ spec.chosen_from self.begun [] []) }
    {
        let mut ranges = self.ranges;
        if let Some(range) = self.begun {
            ranges.push(open_ended(range))?;
        }
        Ok(ranges)
    }
}

/// The row from this left end on, unless no token comes after it.
fn last_row(left: Option<Token>) -> Option<TokenRange>
    ensures { spec.begun_range result ≡ rows_from left [] }
{
    let is_last = match left {
        None => false,
        Some(token) => token.value() == i64::MAX,
    };
    if is_last {
        return None;
    }
    Some(TokenRange {
        left,
        right: RightEnd::Max,
    })
}

/// The ranges of the rows between cuts whose last token passes a test, with adjacent rows joined.
pub(crate) fn joined_where<F: Fn(Token) -> bool>(
    alloc: Global,
    cuts: &[Token],
    test: F,
) -> Result<Vec<TokenRange>, Memory>
    requires { F.IsAlwaysCallable test }
    ensures ranges { IfOk result (λ ranges. (chosen : List Bool)
        × (ranges.items ≡ spec.chosen_from None (rows_between cuts.now) chosen)
        × ((has : ℤ → Bool) → AnswersAs (F.post test) has
        → chosen ≡ chosen_by has (rows_between cuts.now))) }
    ensures tokens { OnOk result (AllByRecursion IsToken cuts.now) }
{
    let mut joining = ChosenRanges::new(alloc);
    let mut left = None;
    for cut in cuts {
        let passes = test(cut.copy()?);
        let right = RightEnd::At(*cut);
        joining.add(TokenRange { left, right }, passes)?;
        left = Some(*cut);
    }
    if let Some(row) = last_row(left) {
        let is_chosen = test(row.last_token().copy()?);
        joining.add(row, is_chosen)?;
    }
    joining.finish()
}
