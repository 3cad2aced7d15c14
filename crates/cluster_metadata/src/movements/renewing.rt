//! New plans and new locks for the movements in flight, if the keyspaces change.

ghost use Rattle.std.specs.Prelude.{◌≡◌, ◌<◌, ◌^◌, ◌-◌, None, IfOk};
ghost use Rattle.std.specs.List.{AllPairs};
ghost use Rattle.locked_ranges.specs.Sharing.{ShareNoToken};
ghost use Rattle.transformations.specs.Refusals.{first_overlap};
ghost use Rattle.transformations.specs.Valid.{IsSound};
ghost use Rattle.sequence_plans.specs.Plan.{AreLocks};
ghost use Rattle.cluster_metadata.specs.code.Change.{AreReplanned, kept_plan, rekeyed};

use crate::movements::running::planned;
use crate::movements::stepping::at_phase;
use cluster_terms::{Memory, Steps, TokenList, TryCopy};
use locked_ranges::first_overlap;
use node_directory::Directory;
use placement_deltas::Plan;
use std::alloc::Global;
use std::marker::Brand;
use std::mem::replace;
use std::sync::ledger::{Blank, Ledger};
use token_ring::{LockRow, LockRows, RangeBook};
use transformations::{Image, KeyspaceRows, Phase, Refusal, cuts_among};

/// The plans of the movements in flight, in their order, without cuts and ranges; and their locks.
#[derive(Drop)]
pub struct Renewed {
    pub plans: Vec<Plan>,
    pub locks: LockRows,
}

/// The ranges of a plan, for the lock, and the plan without them. Its cuts are dropped too, since nothing needs them
/// once its movement has begun.
pub fn parted(alloc: Global, plan: Plan) -> (RangeBook, Plan)
    ensures ranges { result.0 ≡ plan.ranges }
    ensures plan { result.1 ≡ kept_plan plan }
{
    let mut plan = plan;
    plan.cuts = TokenList::empty(alloc);
    let ranges = replace(&mut plan.ranges, RangeBook::empty(alloc));
    (ranges, plan)
}

/// The image of the next epoch, with these keyspaces. Cost: a copy of the image.
pub fn with_keyspaces(image: &Image, keyspaces: &KeyspaceRows) -> Result<Image, Memory>
    requires { image.now.epoch < 2 ^ 64 - 1 }
    ensures { IfOk result (λ next. next ≡ rekeyed image.now keyspaces.now) }
{
    let mut next = image.copy()?;
    next.epoch += 1;
    next.keyspaces = keyspaces.copy()?;
    Ok(next)
}

/// The plans and the locks of the movements of an image.
fn plan_all<L: Ledger>(
    alloc: Global,
    image: &Image,
    directory: &Directory,
    blank: Blank,
) -> Result<Renewed, Memory>
    requires name { blank.name ≡ L.name }
    requires parts { blank.parts ≡ L.parts }
    requires some { 0 < blank.parts }
    requires sound { IsSound image.now }
    requires nodes { directory.now.rows ≡ image.now.nodes }
    ensures { IfOk result (AreReplanned image.now) }
{
    let mut walks = Steps::<L>::begin(blank);
    let mut plans = Vec::new(alloc);
    let mut locks = Vec::new(alloc);
    for row in image.sequences.as_slice() {
        let prepared = at_phase(row, Phase::Prepared)?;
        let plan = planned(alloc, image, directory, prepared, &mut walks)?;
        let (ranges, plan) = parted(alloc, plan);
        locks.push(LockRow {
            node: row.node,
            ranges,
        })?;
        plans.push(plan)?;
    }
    Ok(Renewed {
        plans,
        locks: LockRows::from_vec(locks),
    })
}

/// The plans and the locks of the movements of an image, in their order. The directory must hold the nodes of the
/// image. All plans are made anew, also if only the order of the replications changes, as plans keep this order.
///
/// Cost: a plan for each movement, as `sequence_plans::plan_in` makes it. The walks are counted on a counter of their
/// own.
pub fn replan(alloc: Global, image: &Image, directory: &Directory) -> Result<Renewed, Memory>
    requires sound { IsSound image.now }
    requires nodes { directory.now.rows ≡ image.now.nodes }
    ensures { IfOk result (AreReplanned image.now) }
{
    plan_all::<Brand>(alloc, image, directory, Blank::new(1))
}

/// `KeyspaceLocked` with the first two movements of an image that overlap, by their locks.
///
/// Cost: makes the cuts of the image, and compares the locks of each two movements, up to the two that are found.
pub fn overlap_refusal(
    alloc: Global,
    image: &Image,
    locks: &LockRows,
) -> Result<Option<Refusal>, Memory>
    requires { AreLocks image.now image.now.sequences locks.now }
    ensures refusal { IfOk result (λ found. found ≡ first_overlap image.now image.now.sequences) }
    ensures apart { IfOk result
        (λ found. found ≡ None → AllPairs (λ one other. ShareNoToken one.ranges other.ranges) locks.now) }
{
    let cuts = cuts_among(alloc, &image.tokens, image.sequences.as_slice())?;
    match first_overlap(locks.as_slice(), cuts.as_slice()) {
        Some((node, other, end)) => Ok(Some(Refusal::KeyspaceLocked(node, other, end))),
        None => Ok(None),
    }
}
