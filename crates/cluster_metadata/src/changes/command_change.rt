//! The change that a command makes in an image that accepts it.

ghost use Rattle.std.specs.Prelude.{◌≡◌, ◌<◌, ◌^◌, ◌-◌, false, true, None, IfOk, OnOk};
ghost use Rattle.transformations.specs.History.{is_command, most_epochs};
ghost use Rattle.transformations.specs.Meeting.{HasReplication};
ghost use Rattle.transformations.specs.Refusals.{early_refusal_of, prepared_by, refusal_of};
ghost use Rattle.transformations.specs.Valid.{IsSound, IsValid};
ghost use Rattle.transformations.specs.declared.command.Command.TheVariants as command;
ghost use Rattle.cluster_metadata.specs.code.Change.{IsChange, is_on_keyspaces};
ghost use Rattle.sequence_plans.specs.Locks.{AreLocksOf};
ghost use Rattle.cluster_metadata.specs.Permission.{AdmitsUnless};

use crate::admit_fault::AdmitFault;
use crate::changes::change::Change;
use crate::changes::keyspaces::{drop_keyspace, set_keyspace};
use crate::changes::new_node::{NewNode, new_row};
use crate::changes::ring_pairs::with_pairs;
use crate::movements::cancelling::cancel;
use crate::movements::preparing::{prepare, row_prepared};
use crate::movements::stepping::step;
use crate::on_heap::OnHeap;
use cluster_terms::{Memory, Name, NodeId, Steps, TokenList};
use locked_ranges::LockTable;
use node_directory::Directory;
use sequence_rows::pairs_with;
use std::alloc::Global;
use std::sync::ledger::Ledger;
use transformations::{Command, Image};

/// The change that adds a node under the next id.
#[tactic(auto, using(crate::proofs::accepted::ChangedNodes::free_name, crate::proofs::accepted::ChangedNodes::registers))]
fn register(
    alloc: Global,
    image: &Image,
    name: &Name,
    dc: &Name,
    rack: &Name,
) -> Result<Change, Memory>
    requires next { image.now.next < 2 ^ 32 - 1 }
    requires accepted { early_refusal_of image.now (command.Register name.now dc.now rack.now) ≡ None }
    ensures { IfOk result (IsChange image.now (command.Register name.now dc.now rack.now)) }
{
    let row = new_row(image.next, name, dc, rack)?;
    let node = NewNode::of_row(alloc, image, row)?;
    Ok(Change::Registered(OnHeap::new(alloc, node)?))
}

/// The change that gives tokens to a node at once, without a movement.
#[tactic(auto, unfolding(transformations::specs::History::next_image))]
fn unsafe_join(
    alloc: Global,
    image: &Image,
    node: NodeId,
    tokens: &TokenList,
) -> Result<Change, Memory>
    requires { IsSound image.now }
    ensures { IfOk result (IsChange image.now (command.UnsafeJoin node tokens.now)) }
{
    let pairs = pairs_with(alloc, node, tokens.as_slice())?;
    let ring = with_pairs(alloc, image.tokens.as_slice(), pairs.as_slice())?;
    Ok(Change::Tokens(ring))
}

/// The change of a command that prepares no movement, and neither sets nor drops a keyspace.
pub fn change_at_once(alloc: Global, image: &Image, cmd: &Command) -> Result<Change, Memory>
    requires next { image.now.next < 2 ^ 32 - 1 }
    requires sound { IsSound image.now }
    requires early { early_refusal_of image.now cmd.now ≡ None }
    requires unprepared { prepared_by image.now.tokens cmd.now ≡ None }
    requires keyspaces { is_on_keyspaces cmd.now ≡ false }
    ensures change { IfOk result (IsChange image.now cmd.now) }
    ensures replicated { OnOk result (HasReplication cmd.now) }
{
    match cmd {
        Command::Register { name, dc, rack } => register(alloc, image, name, dc, rack),
        Command::Unregister { node } => Ok(Change::Unregistered { node: *node }),
        Command::UnsafeJoin { node, tokens } => unsafe_join(alloc, image, *node, tokens),
        Command::Step { goal, kind, node } => step(alloc, image, *goal, *kind, *node),
        Command::Cancel { node } => Ok(cancel(image, *node)),
        Command::Keyspace { .. }
        | Command::DropKeyspace { .. }
        | Command::PrepareJoin { .. }
        | Command::PrepareMove { .. }
        | Command::PrepareLeave { .. }
        | Command::PrepareReplace { .. } => unreachable!(),
    }
}

/// The change of a command that has no early refusal. The directory must hold the nodes of the image.
///
/// Errors: `Refused` if the ranges of the movement that the command prepares are locked, or if movements would overlap
/// under the keyspace that it sets; `Memory` if memory runs out.
pub fn change_of<L: Ledger>(
    alloc: Global,
    image: &Image,
    directory: &Directory,
    locks: &LockTable,
    cmd: &Command,
    walks: &mut Steps<L>,
) -> Result<Change, AdmitFault>
    requires next { image.now.next < 2 ^ 32 - 1 }
    requires below_limit { image.now.epoch < most_epochs }
    requires valid { IsValid image.now }
    requires nodes { directory.now.rows ≡ image.now.nodes }
    requires locks { AreLocksOf image.now image.now.sequences locks.now }
    requires formed { is_command cmd.now ≡ true }
    requires early { early_refusal_of image.now cmd.now ≡ None }
    ensures change { IfOk result (IsChange image.now cmd.now) }
    ensures replicated { OnOk result (HasReplication cmd.now) }
    ensures refusal { AdmitsUnless (refusal_of image.now cmd.now) result }
    ensures uncounted { prepared_by image.now.tokens cmd.now ≡ None → walks.new ≡ walks.old }
{
    if let Some(row) = row_prepared(alloc, image, cmd)? {
        return prepare(alloc, image, directory, locks, row, walks);
    }
    match cmd {
        Command::Keyspace { name, replication } => {
            set_keyspace(alloc, image, directory, name, replication)
        }
        Command::DropKeyspace { name } => Ok(drop_keyspace(alloc, image, directory, name)?),
        _ => Ok(change_at_once(alloc, image, cmd)?),
    }
}
