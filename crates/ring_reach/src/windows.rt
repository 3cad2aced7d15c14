ghost use Rattle.std.specs.Prelude.{◌≡◌, ◌≤◌, [], ◌∷◌, int_lt, length, true, false, IfOk};
ghost use Rattle.std.specs.List.Sorted.{IsPartitionPoint, IsStrictlySortedBy};
ghost use Rattle.std.specs.Ordering.{int_cmp};
ghost use Rattle.ring_reach.specs.code.Windows as spec;

use cluster_terms::{Memory, Token};
use std::alloc::Global;
use std::marker::Model;

/// A window of the ring: the tokens after `left` up to `right`, in ring order. If these are one token, the window has
/// all tokens.
#[derive(Clone, Copy)]
pub struct Window {
    pub left: Token,
    pub right: Token,
}

impl Window {
    /// Whether a token is in the window.
    pub fn has(&self, t: Token) -> bool
        ensures { result ≡ spec.is_inside t self.now }
    {
        if t <= self.right {
            self.left < t || self.right <= self.left
        } else {
            self.left < t && self.right <= self.left
        }
    }
}

/// Windows of the ring, in ascending order of their right ends. They have a token if the nearest window has it: the one
/// that ends first at or after the token, in ring order.
#[derive(Drop)]
pub struct Windows {
    windows: Vec<Window>,
}

impl Model for Windows {
    ghost use Rattle.std.specs.Prelude.{List};
    ghost use Rattle.std.specs.List.Sorted.{IsStrictlySortedBy};
    ghost use Rattle.std.specs.Ordering.{int_cmp};
    ghost use Rattle.ring_reach.specs.code.Windows.{rights_of};
    ghost use Rattle.ring_reach.specs.declared.windows.Window.{Window};

    ghost Value = { List Window };

    ghost view = { λ list. list.windows.items };

    ghost invariant = { λ list. IsStrictlySortedBy int_cmp (rights_of list.windows.items) };
}

/// How many windows end before a token.
fn count_before(windows: &[Window], t: Token) -> usize
    requires { IsStrictlySortedBy int_cmp (spec.rights_of windows.now) }
    ensures bound { result ≤ length windows.now }
    ensures split { IsPartitionPoint (λ w. int_lt w.right t ≡ true)
        (λ w. int_lt w.right t ≡ false) windows.now result }
{
    windows.partition_point(|window| window.right < t)
}

impl Windows {
    /// No windows.
    pub fn empty(alloc: Global) -> Windows
        ensures { result ≡ [] }
    {
        Windows {
            windows: Vec::new(alloc),
        }
    }

    /// One window, which has all tokens: from a token round the ring to the same token.
    pub fn whole_ring(alloc: Global, token: Token) -> Result<Windows, Memory>
        ensures { IfOk result (λ windows. windows ≡ spec.window token token ∷ []) }
    {
        let window = Window {
            left: token,
            right: token,
        };
        let windows = Vec::from_slice(alloc, &[window])?;
        Ok(Windows { windows })
    }

    /// These windows, given in ascending order of their right ends.
    pub fn from_ascending(windows: Vec<Window>) -> Windows
        requires { IsStrictlySortedBy int_cmp (spec.rights_of windows.items) }
        ensures { result ≡ windows.items }
    {
        Windows { windows }
    }

    /// The windows in ascending order of their right ends.
    pub fn as_slice(&self) -> &[Window]
        ensures { result.now ≡ self.now }
    {
        self.windows.as_slice()
    }

    /// The nearest window to a token. Returns `None` if and only if there are no windows. The cost is a binary search.
    fn nearest(&self, t: Token) -> Option<Window>
        ensures { result ≡ spec.nearest self.now t }
    {
        let windows = self.windows.as_slice();
        let first = windows.first()?;
        let before = count_before(windows, t);
        if before < windows.len() {
            Some(windows[before])
        } else {
            Some(*first)
        }
    }

    /// Whether the windows have a token. The cost is a binary search.
    pub fn has(&self, t: Token) -> bool
        ensures { result ≡ spec.have self.now t }
    {
        match self.nearest(t) {
            Some(window) => window.has(t),
            None => false,
        }
    }
}
