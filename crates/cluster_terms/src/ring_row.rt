ghost use Rattle.std.specs.Prelude.{◌≡◌, ◌≤ℤ◌, ◌<◌, length, IsTrue};
ghost use Rattle.cluster_terms.specs.Arc.{greatest_token};
ghost use Rattle.cluster_terms.specs.Row.{CoverRing, EndBefore};
ghost use Rattle.cluster_terms.specs.declared.token.RightEnd.{RightEnd as AnyEnd};

use crate::token::{RightEnd, Token};

/// A row of a list that covers the ring. It tells something of the tokens of a range, which begins where the row before
/// it ends, or with the least token.
pub trait RingRow {
    ghost right: { Self → AnyEnd };

    /// The right end of the row's range.
    fn right_end(&self) -> RightEnd
        ensures { result ≡ right self.now };
}

/// The index of the row of a token: how many rows end before it. The cost is a binary search.
pub fn row_index<R: RingRow>(rows: &[R], t: Token) -> usize
    requires { CoverRing R.right rows.now }
    // Promise: the row of a token, in rows that cover the ring, has as many rows before it as end before the token.
    // Guards: scripts.
    ensures bound { result < length rows.now }
    ensures row { EndBefore R.right t rows.now result }
    ensures token { t ≤ℤ greatest_token }
{
    let number = t.value();
    rows.partition_point(|row| row.right_end().last_token().value() < number)
}

fn is_row_of<R: RingRow>(rows: &[R], at: usize, t: Token) -> bool
    requires { CoverRing R.right rows.now }
    ensures bound { IsTrue result → at < length rows.now }
    ensures row { IsTrue result → EndBefore R.right t rows.now at }
{
    if at >= rows.len() {
        return false;
    }
    if rows[at].right_end().last_token() < t {
        return false;
    }
    if at == 0 {
        return true;
    }
    rows[at - 1].right_end().last_token() < t
}

/// The index of the row of a token: `hint` or the next index, if that is right, and otherwise by a binary search.
pub fn row_index_by_hint<R: RingRow>(rows: &[R], hint: usize, t: Token) -> usize
    requires { CoverRing R.right rows.now }
    ensures bound { result < length rows.now }
    ensures row { EndBefore R.right t rows.now result }
{
    if is_row_of(rows, hint, t) {
        return hint;
    }
    let next = hint.saturating_add(1);
    if is_row_of(rows, next, t) {
        return next;
    }
    row_index(rows, t)
}
