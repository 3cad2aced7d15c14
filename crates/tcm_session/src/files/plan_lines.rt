//! The stream plan of a movement, in the last state of a log.

ghost use Rattle.std.specs.Prelude.{◌≡◌, ◌++◌, IfOk, OnOk, flat_map, length};
ghost use Rattle.script_lang.specs.AnswerTexts.{left_text};
ghost use Rattle.transformations.specs.Movements.{movement_of};
ghost use Rattle.tcm_session.specs.files.StreamPlan as spec;

use crate::ending::Ending;
use cluster_metadata::Metadata;
use cluster_terms::{ByteText, Memory, Name, NodeId, RightEnd, Token};
use script_lang::{Shown, labelled, list_text, no_text};
use script_session::Session;
use std::alloc::Global;
use stream_plan::{StreamFrom, StreamRow, streams};
use transformations::{Image, movement_of};

/// Adds the left end of a range: a token, or `min`.
fn add_left(left: Option<Token>, out: &mut ByteText) -> Result<(), Memory>
    ensures { OnOk result (out.new ≡ out.old ++ left_text left) }
{
    match left {
        None => out.extend(b"min"),
        Some(token) => token.show(out),
    }
}

fn add_range(left: Option<Token>, right: RightEnd, out: &mut ByteText) -> Result<(), Memory>
    ensures { OnOk result (out.new ≡ out.old ++ spec.range_text left right) }
{
    out.extend(b"(")?;
    add_left(left, out)?;
    labelled(b",", &right, out)?;
    out.extend(b"]")
}

/// Adds the nodes from which a node streams.
fn add_sources(from: &StreamFrom, out: &mut ByteText) -> Result<(), Memory>
    ensures { OnOk result (out.new ≡ out.old ++ spec.from_text from.now) }
{
    match from {
        StreamFrom::Strict(source) => labelled(b"from ", source, out),
        StreamFrom::AnyOf(nodes) => {
            out.extend(b"any ")?;
            list_text(nodes.ids(), out)
        }
    }
}

fn add_row(row: &StreamRow, out: &mut ByteText) -> Result<(), Memory>
    ensures { OnOk result (out.new ≡ out.old ++ spec.row_text row.now) }
{
    add_range(row.left, row.right, out)?;
    labelled(b" to ", &row.to, out)?;
    out.extend(b" ")?;
    add_sources(&row.from, out)?;
    out.extend(b"\n")
}

fn add_rows(rows: &[StreamRow], out: &mut ByteText) -> Result<(), Memory>
    ensures { OnOk result (out.new ≡ out.old ++ flat_map spec.row_text rows.now) }
{
    for row in rows {
        add_row(row, out)?;
    }
    Ok(())
}

/// Adds the line with the epoch, the node, the keyspace and the number of rows.
fn add_head(
    epoch: u64,
    node: NodeId,
    keyspace: &Name,
    count: u64,
    out: &mut ByteText,
) -> Result<(), Memory>
    ensures { OnOk result (out.new ≡ out.old ++ spec.plan_head epoch node keyspace.now count) }
{
    labelled(b"PLAN ", &epoch, out)?;
    labelled(b" ", &node, out)?;
    labelled(b" ", keyspace, out)?;
    labelled(b" ", &count, out)?;
    out.extend(b"\n")
}

/// The end with a plan.
fn planned(
    alloc: Global,
    epoch: u64,
    node: NodeId,
    keyspace: &Name,
    rows: &[StreamRow],
) -> Result<Ending, Memory>
    ensures { IfOk result (λ ending. ending
        ≡ record { status = 0; text = spec.plan_text epoch node keyspace.now rows.now }) }
{
    let mut text = ByteText::empty(alloc);
    add_head(epoch, node, keyspace, rows.len() as u64, &mut text)?;
    add_rows(rows, &mut text)?;
    Ok(Ending { status: 0, text })
}

/// The end without a plan: the node has no movement, or else no keyspace has the name.
fn unplanned(alloc: Global, image: &Image, node: NodeId) -> Result<Ending, Memory>
    ensures { IfOk result (λ ending. ending
        ≡ record { status = 7; text = spec.missing_text (movement_of image.now node) }) }
{
    let mut text = ByteText::empty(alloc);
    match movement_of(image, node) {
        None => no_text(b"SEQUENCE", &mut text)?,
        Some(_) => no_text(b"KEYSPACE", &mut text)?,
    }
    Ok(Ending { status: 7, text })
}

/// The end with the plan of the movement of a node under a keyspace, or without it.
fn in_metadata(
    alloc: Global,
    metadata: &Metadata,
    node: NodeId,
    keyspace: &Name,
) -> Result<Ending, Memory>
    ensures { IfOk result (λ ending. ending ≡ spec.plan_in node keyspace.now metadata.now) }
{
    match streams(metadata, node, keyspace)? {
        Some(rows) => planned(alloc, metadata.epoch(), node, keyspace, rows.as_slice()),
        None => unplanned(alloc, metadata.as_image(), node),
    }
}

/// The end with the stream plan of the movement of a node under a keyspace in the last state of the session's log; or
/// without it, if the node has no movement there or no keyspace has the name.
///
/// Cost: `stream_plan::streams` is called once.
pub fn show_plan(
    alloc: Global,
    session: &Session,
    node: NodeId,
    keyspace: &Name,
) -> Result<Ending, Memory>
    ensures { IfOk result (λ ending. ending ≡ spec.log_plan node keyspace.now session.now.log) }
{
    in_metadata(alloc, session.metadata(), node, keyspace)
}
