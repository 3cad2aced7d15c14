ghost use Rattle.std.specs.Prelude.{◌≡◌};
ghost use Rattle.tcm_edges.specs.Calls.{fresh_plan, next_fails, next_keep, call_passed, failed};

use crate::store_fail::StoreFail;
use cluster_terms::SmallList;
use std::marker::Model;

/// The numbers of the calls that are to fail, counted from 1.
pub type CallList = SmallList<u64>;

/// Which calls are to fail, each told by an `F`, how many were made, and how many failed. Both counts stop at the
/// greatest `u64`, so the equation on counts holds of several calls in a row without a lemma.
#[derive(Debug, Drop)]
pub(crate) struct Calls<F> {
    fails: SmallList<F>,
    made: u64,
    faults: u64,
}

impl<F> Model for Calls<F> {
    ghost use Rattle.tcm_edges.specs.Calls.{Plan};

    ghost Value = { Plan F };

    ghost view = { λ calls. record { fails = calls.fails; made = calls.made; faults = calls.faults } };
}

impl<F> Calls<F> {
    /// A plan by which these calls fail, before the first call.
    pub(crate) fn new(fails: SmallList<F>) -> Self
        ensures { result ≡ fresh_plan fails }
    {
        Calls {
            fails,
            made: 0,
            faults: 0,
        }
    }

    /// Counts a call that succeeded.
    pub(crate) fn pass(&mut self)
        ensures { self.new ≡ call_passed self.old }
    {
        self.made = self.made.saturating_add(1);
    }

    /// Counts a call that failed.
    pub(crate) fn fail(&mut self)
        ensures { self.new ≡ failed self.old }
    {
        self.made = self.made.saturating_add(1);
        self.faults = self.faults.saturating_add(1);
    }
}

impl Calls<u64> {
    /// Whether the next call is to fail.
    pub(crate) fn next_fails(&self) -> bool
        ensures { result ≡ next_fails self.now }
    {
        self.fails.as_slice().contains(&self.made.saturating_add(1))
    }
}

impl Calls<StoreFail> {
    /// The number of bytes that the next call is to keep, or `None` if it is not to fail.
    pub(crate) fn next_keep(&self) -> Option<u64>
        ensures { result ≡ next_keep self.now }
    {
        let next = self.made.saturating_add(1);
        self.fails
            .as_slice()
            .iter()
            .find(|fail| fail.call == next)
            .map(|fail| fail.keep)
    }
}
