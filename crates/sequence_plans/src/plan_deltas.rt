//! The deltas of a movement.

ghost use Rattle.std.specs.Prelude.{◌≡◌, [], ◌∷◌, ◌++◌, IfOk, OnOk};
ghost use Rattle.token_ring.specs.TokenRanges.{AreCutOut, HaveTokens};
ghost use Rattle.transformations.specs.Ranges.{in_ranges};
ghost use Rattle.transformations.specs.Rings as spec;
ghost use Rattle.sequence_plans.specs.code.DeltaParts.{AreBooks, AreExact};
ghost use Rattle.sequence_plans.specs.code.MovementRings.{AreMovementRings};
ghost use Rattle.sequence_plans.specs.Plan.{IsBook};

use crate::movement_rings::MovementRings;
use crate::near_cuts::near_cuts;
use crate::row_changes::changes_of;
use cluster_terms::{Memory, Replication, Steps, Token, TryCopy};
use placement_deltas::{Delta, DeltaBook, DeltaBookRow, Side};
use std::alloc::Global;
use std::sync::ledger::Ledger;
use token_ring::RangeRow;

/// The deltas of the steps of a movement, under one replication.
#[derive(Drop)]
struct Deltas {
    gain: Delta,
    swap: Delta,
    lose: Delta,
}

/// The deltas of the steps of a movement, under each replication.
#[derive(Drop)]
pub struct DeltaBooks {
    pub gain: DeltaBook,
    pub swap: DeltaBook,
    pub lose: DeltaBook,
}

/// The deltas of a movement under the replication of a row of its ranges. Each of the two placers makes one walk for each
/// row between cuts that is in these ranges. The rest costs about k log m for m ranges with k cuts near them.
fn deltas_under<L: Ledger>(
    alloc: Global,
    rings: &MovementRings,
    row: &RangeRow,
    cuts: &[Token],
    walks: &mut Steps<L>,
) -> Result<Deltas, Memory>
    requires rings { AreMovementRings rings.now }
    requires ranges { HaveTokens (in_ranges rings.now.image.now row.now.replication rings.now.row.now) row.now.ranges }
    requires bounds { AreCutOut (spec.cuts rings.now.image.now) row.now.ranges }
    requires cuts { cuts.now ≡ spec.cuts rings.now.image.now }
    ensures { IfOk result (AreExact rings.now.image.now rings.now.row.now row.now.replication) }
{
    let near = near_cuts(alloc, cuts, row.ranges.as_slice())?;
    let placers = rings.placers(alloc, &row.replication)?;
    let changes = changes_of(alloc, &placers, &row.ranges, near.as_slice(), walks)?;
    let swap = Delta::of_changes(alloc, changes)?;
    Ok(Deltas {
        gain: swap.only(Side::Gained)?,
        lose: swap.only(Side::Lost)?,
        swap,
    })
}

impl DeltaBooks {
    fn empty(alloc: Global) -> DeltaBooks
        ensures { result ≡ record { gain = []; swap = []; lose = [] } }
    {
        DeltaBooks {
            gain: DeltaBook::empty(alloc),
            swap: DeltaBook::empty(alloc),
            lose: DeltaBook::empty(alloc),
        }
    }

    fn push(&mut self, replication: &Replication, deltas: Deltas) -> Result<(), Memory>
        ensures gain { OnOk result (self.new.gain
            ≡ self.old.gain ++ record { replication = replication.now; delta = deltas.gain } ∷ []) }
        ensures swap { OnOk result (self.new.swap
            ≡ self.old.swap ++ record { replication = replication.now; delta = deltas.swap } ∷ []) }
        ensures lose { OnOk result (self.new.lose
            ≡ self.old.lose ++ record { replication = replication.now; delta = deltas.lose } ∷ []) }
    {
        self.gain.push(DeltaBookRow {
            replication: replication.copy()?,
            delta: deltas.gain,
        })?;
        self.swap.push(DeltaBookRow {
            replication: replication.copy()?,
            delta: deltas.swap,
        })?;
        self.lose.push(DeltaBookRow {
            replication: replication.copy()?,
            delta: deltas.lose,
        })?;
        Ok(())
    }

    /// The deltas of a movement, under the replication of each row of its ranges. Under each replication it makes two
    /// walks for each row between cuts that is in its ranges.
    pub fn of_movement<L: Ledger>(
        alloc: Global,
        rings: &MovementRings,
        ranges: &[RangeRow],
        cuts: &[Token],
        walks: &mut Steps<L>,
    ) -> Result<DeltaBooks, Memory>
        requires rings { AreMovementRings rings.now }
        requires ranges { IsBook rings.now.image.now rings.now.row.now ranges.now }
        requires cuts { cuts.now ≡ spec.cuts rings.now.image.now }
        ensures { IfOk result (AreBooks rings.now.image.now rings.now.row.now ranges.now) }
    {
        let mut books = DeltaBooks::empty(alloc);
        for row in ranges {
            let deltas = deltas_under(alloc, rings, row, cuts, walks)?;
            books.push(&row.replication, deltas)?;
        }
        Ok(books)
    }
}
