//! The image that an accepted command leads to, without the metadata that goes with it.

ghost use Rattle.std.specs.Prelude.{◌≡◌, ◌+◌, ◌<◌, ◌^◌, ◌-◌, None, IfSome, IsTrue, OnOk};
ghost use Rattle.transformations.specs.History.{begun, empty_image, is_command, most_epochs, next_image};
ghost use Rattle.transformations.specs.Refusals.{refusal_of};
ghost use Rattle.transformations.specs.Valid.{IsValid};
ghost use Rattle.cluster_metadata.specs.code.Change.{FitsNodes, Follows, changed};
ghost use Rattle.cluster_metadata.specs.code.Nodes.{IsLeftRow, IsNew, with_node, with_node_left};

use crate::changes::change::Change;
use crate::changes::command_change::change_at_once;
use crate::changes::keyspaces::{put_keyspace, remove_keyspace};
use crate::changes::left_row::LeftRow;
use crate::changes::new_node::NewNode;
use crate::changes::node_changes::{add_row, remove_node};
use crate::movements::preparing::row_prepared;
use crate::movements::rows_in_place::{bring_to, remove_at};
use crate::on_heap::OnHeap;
use cluster_terms::{Memory, SmallList};
use std::alloc::Global;
use transformations::{Command, Image, Phase, SeqRow};

/// The image before the first command: epoch 0, no node and no keyspace. Takes no memory.
pub fn empty_image(alloc: Global) -> Image
    ensures { result ≡ empty_image }
{
    Image {
        epoch: 0,
        next: 1,
        nodes: SmallList::empty(alloc),
        tokens: SmallList::empty(alloc),
        keyspaces: SmallList::empty(alloc),
        sequences: SmallList::empty(alloc),
    }
}

fn add_node(image: &mut Image, node: NewNode)
    requires { IsNew image.old.nodes image.old.next node }
    ensures { image.new ≡ with_node image.old node }
{
    let NewNode {
        row,
        entry: _,
        next,
        nodes,
        directory: _,
    } = node;
    add_row(image, row, next, nodes);
}

/// Marks the node of a row, if there is one, as left.
fn leave(image: &mut Image, left: Option<OnHeap<LeftRow>>)
    requires { IfSome left (IsLeftRow image.old.nodes) }
    ensures { image.new ≡ with_node_left image.old left }
{
    if let Some(left) = left {
        let LeftRow { at, row } = left.take();
        image.nodes.replace(at, row);
    }
}

/// Makes a change in an image. Takes no memory. A past image is changed by this alone, without placements and plans.
/// `make` also makes the change in the directory, the movements and the locks, and both make the image that `changed`
/// says.
pub fn change_image(alloc: Global, image: &mut Image, change: Change)
    requires epochs { image.old.epoch < 2 ^ 64 - 1 }
    requires nodes { FitsNodes image.old change }
    requires follows { Follows image.old.sequences change }
    ensures { image.new ≡ changed image.old change }
{
    image.epoch += 1;
    match change {
        Change::Unchanged => {}
        Change::Registered(node) => add_node(image, node.take()),
        Change::Unregistered { node } => remove_node(&mut image.nodes, node),
        Change::Tokens(tokens) => image.tokens = tokens,
        Change::Keyspaces { keyspaces, .. } => image.keyspaces = keyspaces,
        Change::Started { at } => bring_to(alloc, &mut image.sequences, at, Phase::Started),
        Change::Mid { at } => bring_to(alloc, &mut image.sequences, at, Phase::Mid),
        Change::Finished { at, left, tokens } => {
            leave(image, left);
            image.tokens = tokens;
            remove_at(alloc, &mut image.sequences, at);
        }
        Change::Begun { sequences, .. } => image.sequences = sequences,
        Change::Ended { at } => remove_at(alloc, &mut image.sequences, at),
        Change::BroughtBack { at } => bring_to(alloc, &mut image.sequences, at, Phase::Started),
    }
}

/// Adds the row of a movement that is prepared. After an error, the image may have changed.
fn begin(image: &mut Image, row: SeqRow) -> Result<(), Memory>
    requires { image.old.epoch < 2 ^ 64 - 1 }
    ensures { OnOk result (image.new ≡ begun image.old row) }
{
    image.sequences.put(row)?;
    image.epoch += 1;
    Ok(())
}

/// Takes an image to the next one by a command that it accepts. If memory runs out, the image may have changed.
///
/// Cost: that of the lists that the command changes. Nothing is placed, and no ranges are found: a prepare costs as
/// much as its row.
pub fn advance(alloc: Global, image: &mut Image, cmd: &Command) -> Result<(), Memory>
    requires below_limit { image.old.epoch < most_epochs }
    requires valid { IsValid image.old }
    requires formed { IsTrue (is_command cmd.now) }
    requires accepted { refusal_of image.old cmd.now ≡ None }
    // Promise: an image that accepts a command is taken to the next one without metadata. Guards: scripts, limits.rt.
    ensures { OnOk result (image.new ≡ next_image image.old cmd.now) }
{
    if let Some(row) = row_prepared(alloc, image, cmd)? {
        return begin(image, row);
    }
    match cmd {
        Command::Keyspace { name, replication } => {
            put_keyspace(&mut image.keyspaces, name, replication)?;
            image.epoch += 1;
        }
        Command::DropKeyspace { name } => {
            remove_keyspace(&mut image.keyspaces, name);
            image.epoch += 1;
        }
        _ => change_image(alloc, image, change_at_once(alloc, image, cmd)?),
    }
    Ok(())
}
