//! The first place in a list that breaks a rule.

ghost use Rattle.std.specs.Prelude.{◌≡◌, option_map};
ghost use Rattle.transformations.specs.ImageRules.{above, first_fall};

use cluster_terms::Ordered;
use std::cmp::Ordering;

/// The count, if it is above a limit.
pub(crate) fn above(most: usize, count: usize) -> Option<i128>
    ensures { result ≡ above most count }
{
    if most < count {
        Some(count as i128)
    } else {
        None
    }
}

/// The first item that isn't above the one before it, and its position.
pub(crate) fn first_fall<T: Ordered>(items: &[T]) -> Option<(usize, &T)>
    ensures { option_map (λ found. (found.0, found.1.now)) result ≡ first_fall T.order 0 items.now }
{
    for at in 1..items.len() {
        if items[at - 1].order(&items[at]) != Ordering::Less {
            return Some((at, &items[at]));
        }
    }
    None
}
