ghost use Rattle.std.specs.Prelude.{◌≡◌};
ghost use Rattle.tcm_edges.specs.Calls.{fresh_plan, next_fails, call_passed, failed};

use std::marker::Model;
use tcm_edges::CallList;

/// Which calls of a disk are to fail, how many were made, and how many failed. Both counts stop at the greatest `u64`.
#[derive(Debug, Drop)]
pub(crate) struct DiskCalls {
    fails: CallList,
    made: u64,
    faults: u64,
}

impl Model for DiskCalls {
    ghost use Rattle.std.specs.Prelude.{ℕ};
    ghost use Rattle.tcm_edges.specs.Calls.{Plan};

    ghost Value = { Plan ℕ };

    ghost view = { λ calls. record { fails = calls.fails; made = calls.made; faults = calls.faults } };
}

impl DiskCalls {
    /// A plan by which these calls fail, before the first call.
    pub(crate) fn new(fails: CallList) -> DiskCalls
        ensures { result ≡ fresh_plan fails }
    {
        DiskCalls {
            fails,
            made: 0,
            faults: 0,
        }
    }

    /// Counts a call that succeeded.
    pub(crate) fn pass(&mut self)
        ensures { self.new ≡ call_passed self.old }
    {
        self.made = self.made.saturating_add(1);
    }

    /// Counts a call that failed.
    pub(crate) fn fail(&mut self)
        ensures { self.new ≡ failed self.old }
    {
        self.made = self.made.saturating_add(1);
        self.faults = self.faults.saturating_add(1);
    }

    /// Whether the next call is to fail.
    pub(crate) fn next_fails(&self) -> bool
        ensures { result ≡ next_fails self.now }
    {
        self.fails.as_slice().contains(&self.made.saturating_add(1))
    }
}
