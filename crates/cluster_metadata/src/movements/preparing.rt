//! Begins a movement, unless its ranges are locked.

ghost use Rattle.std.specs.Prelude.{◌≡◌, ◌≤◌, ◌==◌, [], false, true, None, length, IfOk, IfSome};
ghost use Rattle.std.specs.List.{AllByRecursion, insert, list_any};
ghost use Rattle.std.specs.List.Sorted.{IsStrictlySortedBy};
ghost use Rattle.cluster_terms.specs.Ascending.{put};
ghost use Rattle.transformations.specs.History.{is_command};
ghost use Rattle.transformations.specs.Orders.{by_node};
ghost use Rattle.transformations.specs.Refusals.{early_refusal_of, locked, prepared_by, with_movement};
ghost use Rattle.transformations.specs.Valid.{IsSound};
ghost use Rattle.transformations.specs.declared.sequence.Phase.TheVariants as phase;
ghost use Rattle.transformations.specs.declared.sequence.SeqRow.{SeqRow};
ghost use Rattle.sequence_plans.specs.PlanDeltas.{HasDeltas};
ghost use Rattle.cluster_metadata.specs.code.Change.{Begins};
ghost use Rattle.sequence_plans.specs.Locks.{AreLocksOf, IsLockOf};
ghost use Rattle.cluster_metadata.specs.code.Change.{plan_lock};
ghost use Rattle.cluster_metadata.specs.Permission.{AdmitsUnless};

use crate::admit_fault::AdmitFault;
use crate::changes::change::Change;
use crate::on_heap::OnHeap;
use cluster_terms::{Memory, NodeId, Steps, TryCopy};
use locked_ranges::LockTable;
use node_directory::Directory;
use placement_deltas::Plan;
use sequence_plans::plan_in;
use sequence_rows::{join_row, leave_row, move_row, replace_row};
use std::alloc::Global;
use std::sync::ledger::Ledger;
use token_ring::LockRows;
use transformations::{Command, Image, Refusal, SeqRow};

/// The position at which the movement of a node that has none is put among the movements, in the order of nodes.
fn place_for(sequences: &[SeqRow], node: NodeId) -> usize
    requires { AllByRecursion (λ s. (s.node == node) ≡ false) sequences.now }
    ensures bound { result ≤ length sequences.now }
    ensures place { (row : SeqRow) → row.node ≡ node
        → put by_node row sequences.now ≡ insert sequences.now result row }
{
    for (at, other) in sequences.iter().enumerate() {
        if node < other.node {
            return at;
        }
    }
    sequences.len()
}

/// A plan without the ranges of other movements, which nothing needs once they are compared. Once the movement begins,
/// the plan is without its cuts too, and its own ranges are in the table of locks (`parted`). For m movements on n
/// tokens this saves memory for m·m ranges and m·n tokens. A movement that comes with an image keeps its whole plan.
fn without_others(alloc: Global, plan: Plan) -> Plan
    ensures { result ≡ record plan { wide = [] } }
{
    let mut plan = plan;
    plan.wide = LockRows::empty(alloc);
    plan
}

/// The change that begins the movement of a node that has none, with its plan.
fn begun(alloc: Global, image: &Image, plan: Plan) -> Result<Change, Memory>
    requires phase { plan.row.phase ≡ phase.Prepared }
    requires new { AllByRecursion (λ s. (s.node == plan.row.node) ≡ false) image.now.sequences }
    requires deltas { HasDeltas image.now plan }
    requires ranges { IsLockOf (with_movement image.now plan.row) plan.row (plan_lock plan) }
    ensures { IfOk result (Begins image.now plan.row) }
{
    let row = &plan.row;
    let at = place_for(image.sequences.as_slice(), row.node);
    let mut sequences = image.sequences.copy_for(1)?;
    sequences.insert(at, row.copy()?)?;
    let plan = OnHeap::new(alloc, plan)?;
    Ok(Change::Begun {
        at,
        plan,
        sequences,
    })
}

/// The row of the movement that a command prepares. The command has no early refusal. Returns `None` if and only if the
/// command prepares no movement.
pub fn row_prepared(alloc: Global, image: &Image, cmd: &Command) -> Result<Option<SeqRow>, Memory>
    requires sound { IsSound image.now }
    requires formed { is_command cmd.now ≡ true }
    requires early { early_refusal_of image.now cmd.now ≡ None }
    ensures row { IfOk result (λ found. found ≡ prepared_by image.now.tokens cmd.now) }
    ensures sound { IfOk result (λ found. IfSome found (λ row. IsSound (with_movement image.now row))) }
{
    let row = match cmd {
        Command::PrepareJoin { node, tokens } => join_row(alloc, image, *node, tokens)?,
        Command::PrepareMove { node, token } => move_row(alloc, image, *node, *token)?,
        Command::PrepareLeave { node } => leave_row(alloc, image, *node)?,
        Command::PrepareReplace { node, gone } => replace_row(alloc, image, *node, *gone)?,
        _ => return Ok(None),
    };
    Ok(Some(row))
}

/// The change that begins the movement of a node that has none. The directory must hold the nodes of the image.
///
/// Errors: `Refused` if its ranges are locked: they share a token with the ranges of a movement in flight, under the
/// replication of one keyspace; `Memory` if memory runs out.
pub fn prepare<L: Ledger>(
    alloc: Global,
    image: &Image,
    directory: &Directory,
    locks: &LockTable,
    row: SeqRow,
    walks: &mut Steps<L>,
) -> Result<Change, AdmitFault>
    requires phase { row.phase ≡ phase.Prepared }
    requires new { AllByRecursion (λ s. (s.node == row.node) ≡ false) image.now.sequences }
    requires sound { IsSound (with_movement image.now row) }
    requires movements { IsStrictlySortedBy by_node image.now.sequences }
    requires nodes { directory.now.rows ≡ image.now.nodes }
    requires locks { AreLocksOf image.now image.now.sequences locks.now }
    ensures change { IfOk result (Begins image.now row) }
    ensures refusal { AdmitsUnless (locked (with_movement image.now row) row) result }
{
    let plan = match plan_in(alloc, image, directory, row, walks) {
        Ok(plan) => plan,
        Err((_row, memory)) => return Err(AdmitFault::from(memory)),
    };
    let cuts = plan.cuts.as_slice();
    if let Some((node, end)) = locks.conflict(&plan.ranges, &plan.wide, cuts) {
        return Err(AdmitFault::Refused(Refusal::Locked(node, end)));
    }
    Ok(begun(alloc, image, without_others(alloc, plan))?)
}
