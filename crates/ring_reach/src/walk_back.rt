ghost use Rattle.std.specs.Prelude.{◌≡◌, ◌≤◌, ℤ, None, ◌++◌, IfOk};
ghost use Rattle.std.specs.List.{list_any};
ghost use Rattle.std.specs.List.Sorted.{IsStrictlySortedBy};
ghost use Rattle.std.specs.Ordering.{int_cmp};
ghost use Rattle.cluster_terms.specs.Pair.{tokens_of};
ghost use Rattle.ring_reach.specs.code.Moved.{AreTokensAmong};
ghost use Rattle.ring_reach.specs.code.WalkBack as spec;
ghost use Rattle.ring_reach.specs.code.Windows.{window_bounds, have};

use crate::windows::{Window, Windows};
use cluster_terms::{Memory, Pair, Token};
use node_directory::{Members, Shape, Tally};
use std::alloc::Global;
use token_ring::Ring;

/// Walks back round the ring in one group, from each moved token to where enough replicas are met: the pairs that stay,
/// the group, and its shape.
///
/// A walk is made in a span: the window that ends at a moved token, and begins at the moved token before it in ring
/// order.
#[derive(Drop)]
pub struct WalkBack<'a> {
    pub fixed: &'a Ring,
    pub members: &'a Members<'a>,
    pub shape: Shape,
}

impl<'a> WalkBack<'a> {
    /// Walks back over the pairs from the last to the first, and meets their nodes. Returns where the walk ends: at the
    /// token at which the tally lacks nothing more, or at the left end of the span if a pair is past it. Returns `None`
    /// if the walk goes on.
    fn back(&self, span: &Window, pairs: &[Pair], tally: &mut Tally<'a>) -> Option<Token>
        ensures left { result ≡ spec.back (spec.course_of self.now) span.now pairs.now tally.old }
        ensures tally { result ≡ None
            → tally.new ≡ spec.met_back (spec.course_of self.now) pairs.now tally.old }
        ensures sizes { spec.AskSame tally.old tally.new }
    {
        for at in (0..pairs.len()).rev() {
            let pair = pairs[at];
            if !span.has(pair.token) {
                return Some(span.left);
            }
            tally.meet(self.members, pair.node);
            if !tally.lacks() {
                return Some(pair.token);
            }
        }
        None
    }

    /// The part of a span whose tokens leave replicas to find at its right end.
    fn part(&self, span: Window, tally: &mut Tally<'a>) -> Window
        requires { spec.AsksAs (spec.course_of self.now) tally.old }
        ensures reach { spec.IsPart (spec.course_of self.now) span result }
        ensures asks { spec.AsksAs (spec.course_of self.now) tally.new }
    {
        tally.clear();
        let right = span.right;
        let Some(first) = self.fixed.first_at(right) else {
            return span;
        };
        let (front, rest) = self.fixed.pairs().split_at(first);
        if let Some(left) = self.back(&span, front, tally) {
            return Window { left, right };
        }
        let left = self.back(&span, rest, tally).unwrap_or(span.left);
        Window { left, right }
    }

    /// The parts of the spans of all moved tokens.
    fn parts(
        &self,
        alloc: Global,
        moved: &[Token],
        tally: &mut Tally<'a>,
    ) -> Result<Windows, Memory>
        requires asks { spec.AsksAs (spec.course_of self.now) tally.old }
        requires ascending { IsStrictlySortedBy int_cmp moved.now }
        ensures reach { IfOk result (λ windows. (x : ℤ)
            → have windows x ≡ list_any (spec.leaves (spec.course_of self.now) x) moved.now) }
        ensures bounds { IfOk result (λ windows.
            AreTokensAmong (window_bounds windows) (tokens_of self.now.fixed.now ++ moved.now)) }
    {
        let Some(last) = moved.last() else {
            return Ok(Windows::empty(alloc));
        };
        let mut left = *last;
        let mut windows = Vec::with_capacity(alloc, moved.len())?;
        for token in moved {
            let right = *token;
            windows.push(self.part(Window { left, right }, tally))?;
            left = right;
        }
        Ok(Windows::from_ascending(windows))
    }

    /// The windows of the tokens that leave replicas to find at any of the moved tokens: clockwise from the token, too
    /// few nodes or racks are met before the moved token.
    ///
    /// A moved token costs a search in the ring. The walk back from it ends where enough nodes and racks are met, or at
    /// the moved token before it. A pair on the way costs a look-up in the directory, and a look at no more nodes and
    /// racks than there are to be replicas.
    pub fn windows(&self, alloc: Global, moved: &[Token]) -> Result<Windows, Memory>
        requires bound { self.now.shape.wanted ≤ 16 }
        requires ascending { IsStrictlySortedBy int_cmp moved.now }
        ensures reach { IfOk result (λ windows. (x : ℤ)
            → have windows x ≡ list_any (spec.leaves (spec.course_of self.now) x) moved.now) }
        ensures bounds { IfOk result (λ windows.
            AreTokensAmong (window_bounds windows) (tokens_of self.now.fixed.now ++ moved.now)) }
    {
        let racks = self.shape.wanted.saturating_sub(self.shape.spare);
        let mut tally = Tally::new(self.shape.wanted, racks);
        if !tally.lacks() {
            return Ok(Windows::empty(alloc));
        }
        self.parts(alloc, moved, &mut tally)
    }
}
