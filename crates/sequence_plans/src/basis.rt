ghost use Rattle.std.specs.Prelude.{◌≡◌, IfOk};
ghost use Rattle.std.specs.List.{Contains};
ghost use Rattle.token_ring.specs.TokenRanges.{AreCutOut, HaveTokens};
ghost use Rattle.transformations.specs.Ranges.{in_ranges, moved_by};
ghost use Rattle.transformations.specs.Rings as spec;
ghost use Rattle.transformations.specs.Movements.{others};
ghost use Rattle.transformations.specs.Valid.{IsSound};
ghost use Rattle.sequence_plans.specs.code.Basis.{IsBasis, MovesWithin};
ghost use Rattle.sequence_plans.specs.PlanDeltas.{AreStepDeltas};
ghost use Rattle.sequence_plans.specs.Plan.{AreLocks, IsBook};
ghost use Rattle.placement_deltas.specs.Replications.{replications_of};

use crate::movement_rings::MovementRings;
use crate::plan_deltas::DeltaBooks;
use crate::wide_image::WideImage;
use cluster_terms::{Memory, NodeId, Pair, PairList, Replication, Steps, Token, TryCopy};
use node_directory::Directory;
use placement_deltas::{Replications, replications_of};
use ring_reach::reached;
use std::alloc::Global;
use std::sync::ledger::Ledger;
use token_ring::{LockRow, LockRows, RangeBook, RangeList, RangeRow, Ring};
use transformations::{SeqRow, fixed_among, widest_among};

/// The values from which the ranges of an image's movements are computed. They are the same for all movements.
#[derive(Drop)]
pub struct Basis<'a> {
    alloc: Global,
    image: &'a WideImage<'a>,
    fixed: Ring,
    widest: PairList,
    directory: &'a Directory,
    replications: Replications,
}

/// The pairs that a movement takes out, followed by the pairs that it puts in.
pub(crate) fn moved_by(row: &SeqRow) -> Result<PairList, Memory>
    ensures { IfOk result (λ pairs. pairs ≡ moved_by row.now) }
{
    let mut moved = row.out_pairs.copy()?;
    moved.extend(row.in_pairs.as_slice())?;
    Ok(moved)
}

impl<'a> Basis<'a> {
    /// The basis of an image's ranges. The directory must hold the nodes of the image.
    pub fn of_image(
        alloc: Global,
        image: &'a WideImage<'a>,
        directory: &'a Directory,
    ) -> Result<Basis<'a>, Memory>
        requires sound { IsSound image.now }
        requires nodes { directory.now.rows ≡ image.now.nodes }
        ensures image { IfOk result (λ basis. basis.image.now ≡ image.now) }
        ensures basis { IfOk result IsBasis }
    {
        let fixed = fixed_among(alloc, image.tokens(), image.sequences())?;
        Ok(Basis {
            alloc,
            image,
            fixed: Ring::from_list(fixed)?,
            widest: widest_among(image.tokens(), image.sequences())?,
            directory,
            replications: replications_of(alloc, image.keyspaces())?,
        })
    }

    /// The ranges of a movement, which moves these pairs, under a replication.
    fn ranges_of(
        &self,
        row: &SeqRow,
        moved: &[Pair],
        replication: &Replication,
    ) -> Result<RangeList, Memory>
        requires basis { IsBasis self.now }
        requires within { MovesWithin self.now.image.now row.now }
        requires moved { moved.now ≡ moved_by row.now }
        ensures ranges { IfOk result
            (HaveTokens (in_ranges self.now.image.now replication.now row.now)) }
        ensures bounds { IfOk result (AreCutOut (spec.cuts self.now.image.now)) }
    {
        reached(
            self.alloc,
            &self.fixed,
            self.widest.as_slice(),
            self.directory,
            moved,
            replication,
        )
    }

    /// The ranges of a movement under each replication of the keyspaces.
    pub fn book_of(&self, row: &SeqRow) -> Result<RangeBook, Memory>
        requires basis { IsBasis self.now }
        requires within { MovesWithin self.now.image.now row.now }
        ensures { IfOk result (IsBook self.now.image.now row.now) }
    {
        let moved = moved_by(row)?;
        let mut book = RangeBook::with_room(self.alloc, self.replications.as_slice().len())?;
        for replication in self.replications.as_slice() {
            book.push(RangeRow {
                replication: replication.copy()?,
                ranges: self.ranges_of(row, moved.as_slice(), replication)?,
            })?;
        }
        Ok(book)
    }

    /// The deltas of a movement, under the replication of each row of its ranges. Under each replication it makes two
    /// walks for each row between cuts that is in its ranges.
    pub fn deltas_of<L: Ledger>(
        &self,
        row: &SeqRow,
        ranges: &[RangeRow],
        cuts: &[Token],
        walks: &mut Steps<L>,
    ) -> Result<DeltaBooks, Memory>
        requires basis { IsBasis self.now }
        requires sound { IsSound self.now.image.now }
        requires moves { Contains self.now.image.now.sequences row.now }
        requires ranges { IsBook self.now.image.now row.now ranges.now }
        requires cuts { cuts.now ≡ spec.cuts self.now.image.now }
        ensures { IfOk result (λ books. AreStepDeltas self.now.image.now row.now
            (replications_of self.now.image.now.keyspaces) books.gain books.swap books.lose) }
    {
        let rings = MovementRings::new(self.alloc, self.image, row, self.directory)?;
        DeltaBooks::of_movement(self.alloc, &rings, ranges, cuts, walks)
    }

    /// The ranges of all movements, except the movement of a node. They are found anew for each plan: m movements under
    /// r replications, prepared one after another, take about m·m·r calls of `reached`, each of which ends early. 64
    /// joins on 1,024 tokens cost about as much as reading their lines.
    pub fn locks_beside(&self, node: NodeId) -> Result<LockRows, Memory>
        requires basis { IsBasis self.now }
        requires sound { IsSound self.now.image.now }
        ensures { IfOk result (AreLocks self.now.image.now (others self.now.image.now.sequences node)) }
    {
        let mut locks = LockRows::with_room(self.alloc, self.image.sequences().len())?;
        for row in self.image.sequences() {
            if row.node != node {
                locks.push(LockRow {
                    node: row.node,
                    ranges: self.book_of(row)?,
                })?;
            }
        }
        Ok(locks)
    }
}
