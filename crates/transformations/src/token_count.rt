ghost use Rattle.std.specs.Prelude.{◌≡◌, ◌+◌, length, min, IfOk};
ghost use Rattle.transformations.specs.Refusals.{tokens_with};
ghost use Rattle.transformations.specs.Rings.{widest};

use crate::image::Image;
use crate::rings::{sort_once, tokens_of, widest};
use cluster_terms::{Memory, Token};
use std::alloc::Global;

/// The number of pairs in the ring, of pairs that movements bring, and of a command's tokens, together. If the sum is
/// greater than `usize::MAX`, returns `usize::MAX`.
pub(crate) fn count_all(image: &Image, tokens: &[Token]) -> usize
    ensures { result ≡ min (length (widest image.now) + length tokens.now) usize.MAX }
{
    let mut count = tokens.len().saturating_add(image.tokens.as_slice().len());
    for row in image.sequences.as_slice() {
        count = count.saturating_add(row.in_pairs.as_slice().len());
    }
    count
}

/// The number of different tokens that there would be with those of a command. A token that is handed over counts once.
/// If `count_all` is at most 16,384, callers need no such count. The cost is that of `cuts_among`.
pub(crate) fn tokens_with(alloc: Global, image: &Image, tokens: &[Token]) -> Result<usize, Memory>
    ensures { IfOk result (λ count. count ≡ tokens_with image.now tokens.now) }
{
    let pairs = widest(image)?;
    let mut all = tokens_of(alloc, pairs.as_slice())?;
    all.extend_from_slice(tokens)?;
    sort_once(&mut all)?;
    Ok(all.len())
}
