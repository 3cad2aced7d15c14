ghost use Rattle.std.specs.Prelude.{◌≡◌};
ghost use Rattle.transformations.specs.declared.sequence.Phase.TheVariants as phase;

use crate::phase::{Mid, Prepared, Started};
use locked_ranges::LockKey;
use placement_deltas::Plan;
use std::marker::{Model, PhantomData};

/// A movement in flight at a phase (CEP-21's multi-step operations). It is prepared, started, brought half way and
/// finished, in this order, or cancelled. Contracts see it as its plan. No step changes the plan: its row stays at
/// `Prepared`, and the type tells the phase. If a keyspace is set or dropped, `renewed` gives the movement a new plan.
///
/// The movement holds the key to the lock of its ranges. The call that ends the movement gives the key back.
///
/// The value must be consumed. Code doesn't compile if it drops a `Seq`, uses a `Seq` twice, or takes a step out of
/// order, such as `finish` of a `Seq<Started>`.
pub struct Seq<P> {
    plan: Plan,
    key: LockKey,
    at: PhantomData<P>,
}

impl<P> Model for Seq<P> {
    ghost use Rattle.std.specs.Prelude.{◌≡◌};
    ghost use Rattle.placement_deltas.specs.declared.plan.Plan.{Plan};
    ghost use Rattle.transformations.specs.declared.sequence.Phase.TheVariants as phase;

    ghost Value = { Plan };

    ghost view = { λ s. s.plan };

    ghost invariant = { λ s. (s.plan.row.phase ≡ phase.Prepared) × (s.key ≡ s.plan.row.node) };
}

impl<P> Seq<P> {
    /// The plan of the movement. Its row is at `Prepared`. If the movement is one of `Metadata`, only the row and the
    /// deltas are told: the cuts, the ranges and `wide` may be left out, or be those of an earlier image.
    pub fn plan(&self) -> &Plan
        ensures plan { result.now ≡ self.now }
        ensures prepared { self.now.row.phase ≡ phase.Prepared }
    {
        &self.plan
    }

    /// The movement with a new plan of the same row. The phase and the key stay. Takes no memory.
    pub fn renewed(self, plan: Plan) -> Seq<P>
        requires { plan.row ≡ self.row }
        // Promise: a movement at any phase is given a new plan of its row, and keeps its key and its phase, without
        // memory. Guards: renewals.rt.
        ensures { result ≡ plan }
    {
        let Seq {
            plan: _,
            key,
            at: _,
        } = self;
        Seq {
            plan,
            key,
            at: PhantomData,
        }
    }

    fn at<Q>(self) -> Seq<Q>
        ensures { result ≡ self }
    {
        let Seq { plan, key, at: _ } = self;
        Seq {
            plan,
            key,
            at: PhantomData,
        }
    }

    fn into_key(self) -> LockKey
        ensures { result ≡ self.row.node }
    {
        let Seq {
            plan: _,
            key,
            at: _,
        } = self;
        key
    }
}

impl Seq<Prepared> {
    /// The movement of a plan whose row is at `Prepared`, with the key to the lock of its node.
    pub fn begin(plan: Plan, key: LockKey) -> Seq<Prepared>
        requires phase { plan.row.phase ≡ phase.Prepared }
        requires key { key ≡ plan.row.node }
        // Promise: a movement begins with a plan whose row is at `Prepared` and with the key to the lock of its node,
        // and shows this plan, whose row stays at `Prepared`. Guards: scripts, tried.
        ensures { result ≡ plan }
    {
        Seq {
            plan,
            key,
            at: PhantomData,
        }
    }

    /// Cancels the movement, which ends it, and gives back the key to its lock.
    pub fn cancel(self) -> LockKey
        ensures { result ≡ self.row.node }
    {
        self.into_key()
    }

    /// Starts the movement. Its plan and its key stay.
    pub fn start(self) -> Seq<Started>
        // Promise: a start, the half way step, and a cancel half way keep the plan. Guards:
        // a_step_that_exchanges_deltas.edit, scripts, tried.
        ensures { result ≡ self }
    {
        self.at()
    }
}

impl Seq<Started> {
    /// Cancels the movement, which ends it, and gives back the key to its lock.
    pub fn cancel(self) -> LockKey
        ensures { result ≡ self.row.node }
    {
        self.into_key()
    }

    /// Brings the movement half way. Its plan and its key stay.
    pub fn mid(self) -> Seq<Mid>
        ensures { result ≡ self }
    {
        self.at()
    }
}

impl Seq<Mid> {
    /// Cancels the last step: the movement goes back to `Started`, and its plan and its key stay. If one epoch ended
    /// the movement from here, quorums of adjacent epochs might not meet.
    pub fn cancel(self) -> Seq<Started>
        ensures { result ≡ self }
    {
        self.at()
    }

    /// Finishes the movement, and gives back the key to its lock.
    pub fn finish(self) -> LockKey
        // Promise: a finish, and a cancel of a movement that is prepared or has started, end the movement and give back
        // the key to the lock of its node. Guards: the compiler, scripts.
        ensures { result ≡ self.row.node }
    {
        self.into_key()
    }
}
