ghost use Rattle.std.specs.Prelude.{◌≡◌, IfOk, OnOk};
ghost use Rattle.std.specs.List.{AllByRecursion};
ghost use Rattle.cluster_terms.specs.Arc.{IsToken, greatest_token};
ghost use Rattle.cluster_terms.specs.Row as spec;

use crate::list::{SmallList, TryCopy};
use crate::memory::Memory;
use crate::token::{RightEnd, Token};
use std::alloc::Global;

/// A range of tokens that excludes `left` and includes `right`. If `left` is `None`, the range begins with the least
/// token.
#[derive(Clone, Copy, Debug, PartialEq, Eq)]
pub struct TokenRange {
    pub left: Option<Token>,
    pub right: RightEnd,
}

/// A list of ranges.
pub type Rows = SmallList<TokenRange>;

impl TryCopy for TokenRange {
    fn copy(&self) -> Result<TokenRange, Memory> {
        Ok(*self)
    }
}

impl TokenRange {
    /// The last token of the range. It is 2^63 - 1 if the right end is `Max`.
    pub fn last_token(&self) -> Token
        ensures { result ≡ spec.last_token self.now.right }
    {
        self.right.last_token()
    }
}

/// The greatest token, 2^63 - 1.
fn greatest_token() -> Token
    ensures { result ≡ greatest_token }
{
    Token::new(i64::MAX)
}

/// Whether no token comes after this left end.
fn is_last(left: &Option<Token>) -> bool
    ensures { result ≡ spec.is_last left.now }
{
    match left {
        None => false,
        Some(token) => *token == greatest_token(),
    }
}

/// The ranges between ascending cuts: one up to each cut, and one for the tokens after the last cut, if any. The cost
/// is one pass over the cuts.
pub fn rows_between(alloc: Global, cuts: &[Token]) -> Result<Rows, Memory>
    // Promise: rows end at each cut, and one more past the last, if a token is left there. Guards: scripts.rt, tried.
    ensures rows { IfOk result (λ rows. rows ≡ spec.rows_between cuts.now) }
    ensures tokens { OnOk result (AllByRecursion IsToken cuts.now) }
{
    let mut rows = Vec::with_capacity(alloc, cuts.len().saturating_add(1))?;
    let mut left = None;
    for cut in cuts {
        let right = RightEnd::At(cut.copy()?);
        rows.push(TokenRange { left, right })?;
        left = Some(*cut);
    }
    if !is_last(&left) {
        let right = RightEnd::Max;
        rows.push(TokenRange { left, right })?;
    }
    Ok(Rows::from_vec(rows))
}
