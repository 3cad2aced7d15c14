ghost use Rattle.std.specs.Prelude.{◌≡◌, ◌==◌, ◌++◌, ◌∷◌, ◌<◌, [], find, true, false, List, None, IfOk, MatchResult, OnOk};
ghost use Rattle.std.specs.List.{Contains};
ghost use Rattle.std.specs.Option.{option_copied};
ghost use Rattle.locked_ranges.specs.Table.{has_row, other_locks};
ghost use Rattle.transformations.specs.Refusals.{with_movement};
ghost use Rattle.transformations.specs.Rings.{cuts};
ghost use Rattle.transformations.specs.Valid.{IsSound};
ghost use Rattle.transformations.specs.declared.sequence.Phase.TheVariants as phase;
ghost use Rattle.transformations.specs.declared.sequence.SeqRow.{SeqRow as MovementRow};
ghost use Rattle.sequence_plans.specs.PlanDeltas.{HasDeltas};
ghost use Rattle.sequence_plans.specs.Plan.{AreLocks, IsLockRow, IsPlan};
ghost use Rattle.cluster_metadata.specs.ImageFaults.{IsCause};
ghost use Rattle.cluster_metadata.specs.code.Overlaps.{FindsOverlap, overlap_of, overlapping_at};
ghost use Rattle.sequence_plans.specs.Locks.{AreLocksOf};
ghost use Rattle.cluster_metadata.specs.code.Locking.{AddsMovement, AreCutAt, AreLocked, lock_of};
ghost use Rattle.cluster_metadata.specs.code.Change.{in_phase};
ghost use Rattle.cluster_metadata.specs.code.Running.{HaveDeltas, IsRunning, phase_after, phase_of, plan_of, movement_row, moving_node};
ghost use Rattle.placement_maps.specs.code.Turns.{undoing};
ghost use Rattle.cluster_metadata.specs.declared.image_fault.ImageFault.TheVariants as fault;

use crate::image_fault::ImageFault;
use crate::movements::in_flight::InFlight;
use crate::movements::stepping::at_phase;
use cluster_terms::{Memory, NodeId, Steps, TryCopy};
use locked_ranges::{LockKey, LockTable};
use node_directory::Directory;
use placement_deltas::Plan;
use placement_maps::Turn;
use sequence_core::{Mid, Prepared, Seq, Started};
use sequence_plans::plan_in;
use std::alloc::Global;
use std::marker::Brand;
use std::sync::ledger::{Blank, Ledger};
use transformations::{BadImage, Image, Phase, SeqRow};

/// A movement in flight, as a value of its phase. It holds the plan of the movement, and the key to the lock of its
/// ranges.
pub enum Running {
    Prepared(Seq<Prepared>),
    Started(Seq<Started>),
    Mid(Seq<Mid>),
}

impl Running {
    /// The value of a movement from its plan, whose row is at `Prepared`, and the key to the lock of its node.
    pub fn begin(plan: Plan, key: LockKey) -> Running
        requires phase { plan.row.phase ≡ phase.Prepared }
        requires key { key ≡ plan.row.node }
        ensures plan { plan_of result ≡ plan }
        ensures phase { phase_of result ≡ phase.Prepared }
    {
        Running::Prepared(Seq::begin(plan, key))
    }

    /// The plan of the movement. Its row is at `Prepared`.
    pub fn plan(&self) -> &Plan
        ensures plan { result.now ≡ plan_of self.now }
        ensures prepared { result.now.row.phase ≡ phase.Prepared }
    {
        match self {
            Running::Prepared(seq) => seq.plan(),
            Running::Started(seq) => seq.plan(),
            Running::Mid(seq) => seq.plan(),
        }
    }

    /// The turn that undoes the last step of the movement.
    pub fn undoing(&self) -> Turn
        ensures { result ≡ undoing (phase_of self.now) }
    {
        match self {
            Running::Prepared(_) => Turn::Keep,
            Running::Started(_) => Turn::WritesBack,
            Running::Mid(_) => Turn::ReadsBack,
        }
    }

    /// The value of a movement at any phase, from its plan and the key to its lock.
    pub fn resume(plan: Plan, key: LockKey, at: Phase) -> Running
        requires phase { plan.row.phase ≡ phase.Prepared }
        requires key { key ≡ plan.row.node }
        ensures plan { plan_of result ≡ plan }
        ensures phase { phase_of result ≡ at }
    {
        let begun = Running::begin(plan, key);
        match at {
            Phase::Prepared => begun,
            Phase::Started => begun.next_phase(),
            Phase::Mid => begun.next_phase().next_phase(),
        }
    }

    /// Takes a movement from `Prepared` to `Started`, from `Started` to `Mid`, or from `Mid` back to `Started`.
    pub fn next_phase(self) -> Running
        ensures plan { plan_of result ≡ plan_of self }
        ensures phase { phase_of result ≡ phase_after (phase_of self) }
    {
        match self {
            Running::Prepared(seq) => Running::Started(seq.start()),
            Running::Started(seq) => Running::Mid(seq.mid()),
            Running::Mid(seq) => Running::Started(seq.cancel()),
        }
    }

    /// The value of a movement with a new plan of its row at `Prepared`. The phase stays.
    pub fn renewed(self, plan: Plan) -> Running
        requires { plan.row ≡ in_phase phase.Prepared (plan_of self).row }
        ensures plan { plan_of result ≡ plan }
        ensures phase { phase_of result ≡ phase_of self }
    {
        match self {
            Running::Prepared(seq) => Running::Prepared(seq.renewed(plan)),
            Running::Started(seq) => Running::Started(seq.renewed(plan)),
            Running::Mid(seq) => Running::Mid(seq.renewed(plan)),
        }
    }

    /// Consumes the value of a movement at any phase, and gives back the key to its lock. The image doesn't change.
    pub fn close(self) -> LockKey
        ensures { result ≡ moving_node self }
    {
        match self {
            Running::Prepared(seq) => seq.cancel(),
            Running::Started(seq) => seq.cancel(),
            Running::Mid(seq) => seq.finish(),
        }
    }
}

/// The value of the movement of a node.
pub fn find_running(running: &[Running], node: NodeId) -> Option<&Running>
    ensures { option_copied result ≡ find (λ m. moving_node m == node) running.now }
{
    running
        .iter()
        .find(|movement| movement.plan().row.node == node)
}

/// The plan of a movement.
pub fn planned<L: Ledger>(
    alloc: Global,
    image: &Image,
    directory: &Directory,
    row: SeqRow,
    walks: &mut Steps<L>,
) -> Result<Plan, Memory>
    requires prepared { row.phase ≡ phase.Prepared }
    requires sound { IsSound (with_movement image.now row) }
    requires nodes { directory.now.rows ≡ image.now.nodes }
    ensures { IfOk result (IsPlan (with_movement image.now row) row) }
{
    match plan_in(alloc, image, directory, row, walks) {
        Ok(plan) => Ok(plan),
        Err((_row, memory)) => Err(memory),
    }
}

/// The fault of an image whose movement of this node overlaps the movement of a lesser node.
fn overlapping(node: NodeId) -> ImageFault
    ensures { result ≡ fault.Bad (overlapping_at node) }
{
    ImageFault::Bad(BadImage {
        rule: 18,
        value: i128::from(node.0),
    })
}

/// Locks the ranges of a movement of an image, and returns its value, with the whole plan that it has there. The table
/// has the locks of the movements of lesser nodes. Fails with `Bad` if the ranges share a token with a row of the
/// table, and with `Memory` if memory runs out. After an error the table is unchanged.
fn resumed<L: Ledger>(
    alloc: Global,
    image: &Image,
    directory: &Directory,
    row: &SeqRow,
    locks: &mut LockTable,
    walks: &mut Steps<L>,
) -> Result<Running, ImageFault>
    requires sound { IsSound image.now }
    requires nodes { directory.now.rows ≡ image.now.nodes }
    requires movement { Contains image.now.sequences row.now }
    requires new { has_row locks.old row.now.node ≡ false }
    requires cut { AreCutAt (cuts image.now) locks.old }
    ensures row { IfOk result (λ movement. movement_row movement ≡ row.now) }
    ensures deltas { IfOk result (λ movement. HasDeltas image.now (plan_of movement)) }
    ensures locks { MatchResult result (λ movement. locks.new ≡ locks.old ++ lock_of movement ∷ [])
        (λ _. locks.new ≡ locks.old) }
    ensures lock { IfOk result (λ movement. IsLockRow image.now row.now (lock_of movement)) }
    ensures overlap { (earlier : List MovementRow) → AreLocks image.now earlier locks.old
        → FindsOverlap image.now row.now earlier result }
{
    // The plan is made anew, with its row at `Prepared`. Deltas persist, so they are those of the prepare. All plans of
    // an image share one directory.
    let plan = planned(
        alloc,
        image,
        directory,
        at_phase(row, Phase::Prepared)?,
        walks,
    )?;
    // Rule 18 is checked by the lock that each movement takes anyway: a movement overlaps that of a lesser node if and
    // only if its ranges aren't free.
    if !locks.is_free(&plan.ranges, plan.cuts.as_slice()) {
        return Err(overlapping(row.node));
    }
    let ranges = plan.ranges.copy()?;
    match locks.lock(row.node, ranges) {
        Ok(key) => Ok(Running::resume(plan, key, row.phase)),
        Err((_ranges, _memory)) => Err(ImageFault::Memory),
    }
}

/// Adds the value of a movement that has a lock. If memory runs out, the values are unchanged, and the lock is removed.
fn push(in_flight: &mut InFlight, movement: Running) -> Result<(), Memory>
    requires { has_row in_flight.old.locks (moving_node movement) ≡ true }
    ensures running { MatchResult result
        (λ _. in_flight.new.running.items ≡ in_flight.old.running.items ++ movement ∷ [])
        (λ _. in_flight.new.running.items ≡ in_flight.old.running.items) }
    ensures locks { MatchResult result (λ _. in_flight.new.locks ≡ in_flight.old.locks)
        (λ _. in_flight.new.locks ≡ other_locks in_flight.old.locks (moving_node movement)) }
{
    match in_flight.running.push(movement) {
        Ok(()) => Ok(()),
        Err(failed) => {
            in_flight.locks.unlock(failed.value.close());
            Err(Memory)
        }
    }
}

/// Adds the value of a movement of an image, and its lock. Fails as `resumed` does. After an error both lists are
/// unchanged.
fn add<L: Ledger>(
    alloc: Global,
    image: &Image,
    directory: &Directory,
    row: &SeqRow,
    in_flight: &mut InFlight,
    walks: &mut Steps<L>,
) -> Result<(), ImageFault>
    requires sound { IsSound image.now }
    requires nodes { directory.now.rows ≡ image.now.nodes }
    requires movement { Contains image.now.sequences row.now }
    requires new { has_row in_flight.old.locks row.now.node ≡ false }
    requires cut { AreCutAt (cuts image.now) in_flight.old.locks }
    ensures added { MatchResult result
        (λ _. AddsMovement image.now row.now in_flight.old.running.items in_flight.new.running.items
        in_flight.old.locks in_flight.new.locks)
        (λ _. (in_flight.new.running.items ≡ in_flight.old.running.items)
        × (in_flight.new.locks ≡ in_flight.old.locks)) }
    ensures overlap { (earlier : List MovementRow) → AreLocks image.now earlier in_flight.old.locks
        → FindsOverlap image.now row.now earlier result }
{
    let movement = resumed(alloc, image, directory, row, &mut in_flight.locks, walks)?;
    push(in_flight, movement)?;
    Ok(())
}

/// Adds the values of the movements of an image, in their order, and their locks. Fails with `Bad` for the first
/// movement that overlaps the movement of a lesser node, and with `Memory` if memory runs out. After an error some of
/// the values and locks may be added.
fn push_all<L: Ledger>(
    alloc: Global,
    image: &Image,
    directory: &Directory,
    in_flight: &mut InFlight,
    blank: Blank,
) -> Result<(), ImageFault>
    requires name { blank.name ≡ L.name }
    requires parts { blank.parts ≡ L.parts }
    requires some { 0 < blank.parts }
    requires sound { IsSound image.now }
    requires nodes { directory.now.rows ≡ image.now.nodes }
    requires empty { in_flight.old.running.items ≡ [] }
    requires unlocked { in_flight.old.locks ≡ [] }
    ensures running { OnOk result (IsRunning image.now.sequences in_flight.new.running.items) }
    ensures deltas { OnOk result (HaveDeltas image.now in_flight.new.running.items) }
    ensures locks { OnOk result (AreLocksOf image.now image.now.sequences in_flight.new.locks) }
    ensures locked { AreLocked in_flight.new.locks in_flight.new.running.items }
    ensures overlap { MatchResult result (λ _. overlap_of image.now ≡ None)
        (λ e. IsCause (overlap_of image.now) e) }
{
    let mut walks = Steps::<L>::begin(blank);
    for row in image.sequences.as_slice() {
        add(alloc, image, directory, row, in_flight, &mut walks)?;
    }
    Ok(())
}

/// The values of the movements of an image, in their order, and the table of their locks. The directory has the nodes
/// of the image. Fails with `Bad` for the first movement that overlaps the movement of a lesser node, and with `Memory`
/// if memory runs out.
///
/// Cost: a plan for each movement, as `sequence_plans::plan_in` makes it, and a comparison of its ranges with the locks
/// before it. The walks are counted on a counter of their own.
pub fn resume_all(
    alloc: Global,
    image: &Image,
    directory: &Directory,
) -> Result<InFlight, ImageFault>
    requires sound { IsSound image.now }
    requires nodes { directory.now.rows ≡ image.now.nodes }
    ensures running { IfOk result (λ held. IsRunning image.now.sequences held.running.items) }
    ensures deltas { IfOk result (λ held. HaveDeltas image.now held.running.items) }
    ensures locks { IfOk result (λ held. AreLocksOf image.now image.now.sequences held.locks) }
    ensures locked { IfOk result (λ held. AreLocked held.locks held.running.items) }
    ensures overlap { MatchResult result (λ _. overlap_of image.now ≡ None)
        (λ e. IsCause (overlap_of image.now) e) }
{
    let mut in_flight = InFlight::empty(alloc);
    match push_all::<Brand>(alloc, image, directory, &mut in_flight, Blank::new(1)) {
        Ok(()) => Ok(in_flight),
        Err(fault) => {
            close_all(in_flight);
            Err(fault)
        }
    }
}

/// Consumes the values of all these movements, and spends their keys.
pub fn close_all(in_flight: InFlight)
    requires { AreLocked in_flight.locks in_flight.running.items }
{
    let InFlight {
        mut running,
        mut locks,
    } = in_flight;
    while let Some(movement) = running.pop() {
        locks.unlock(movement.close());
    }
    running.destroy_empty();
}
