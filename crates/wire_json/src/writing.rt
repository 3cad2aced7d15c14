//! Writes the lines of files: of headers, of entries and of snapshots.

ghost use Rattle.std.specs.Prelude.{◌≡◌, false, [], ◌∷◌, ◌++◌, IfOk};
ghost use Rattle.serde_json.specs.View.{view};
ghost use Rattle.serde_json.specs.Written.{compact_text, has_float};
ghost use Rattle.wire_json.specs.EntryTexts as spec;
ghost use Rattle.wire_json.specs.Header as header;
ghost use Rattle.wire_json.specs.SnapshotTexts as snapshot;

use crate::command_values::command_value;
use crate::line::LOG_FORMAT;
use crate::snapshot_values::snapshot_value;
use cluster_terms::{ByteText, Memory, Name};
use serde_json::{Value, json};
use std::alloc::Global;
use transformations::{Entry, Image};

/// The header line of a cluster's log: its JSON object, with the keys in byte order and without spaces, and a line
/// feed. Each name has exactly one such line. `headers_read_back` tells that `read_line` reads the name back from it.
///
/// The cost is a pass over the name.
#[tactic(auto, using(crate::proofs::headers::HeaderFloats::no_float), unfolding(crate::specs::Header::header_text))]
pub fn header_line(alloc: Global, cluster: &Name) -> Result<ByteText, Memory>
    // Promise: a header has one line, with one line feed at its end. Guards: calls/wire.rt, headers.rt.
    ensures { IfOk result (λ line. line ≡ header.header_line cluster.now) }
{
    let value = header_value(alloc, cluster)?;
    line_of(alloc, &value)
}

/// The line of an entry: its JSON object, with the keys in byte order and without spaces, and a line feed. Each entry
/// has exactly one such line. `entries_read_back` tells which entries `read_line` reads back from it.
///
/// The cost is a pass over the entry.
#[tactic(auto, using(crate::proofs::entries::EntryFloats::no_float), unfolding(crate::specs::EntryTexts::entry_text))]
pub fn entry_line(alloc: Global, entry: &Entry) -> Result<ByteText, Memory>
    // Promise: an entry has one line, with one line feed at its end. Guards: calls/wire.rt, tried.
    ensures { IfOk result (λ line. line ≡ spec.entry_line entry.now) }
{
    let value = entry_value(alloc, entry)?;
    line_of(alloc, &value)
}

/// The line of an image: its JSON object under the key `snapshot`, with the keys in byte order and without spaces, and
/// a line feed. Each image has exactly one such line. `images_read_back` tells which images `read_line` reads back from
/// it.
///
/// The cost is a pass over the image.
#[tactic(auto, using(crate::proofs::images::ImageFloats::no_float), unfolding(crate::specs::SnapshotTexts::image_text))]
pub fn snapshot_line(alloc: Global, image: &Image) -> Result<ByteText, Memory>
    // Promise: an image has one line, with one line feed at its end. Guards: snapshots.rt, the computed row
    // `text_of_joining`.
    ensures { IfOk result (λ line. line ≡ snapshot.snapshot_line image.now) }
{
    let value = snapshot_value(alloc, image)?;
    line_of(alloc, &value)
}

/// The compact text of a JSON value, and a line feed.
fn line_of(alloc: Global, value: &Value) -> Result<ByteText, Memory>
    ensures { IfOk result (λ line. has_float (view value.now) ≡ false → line ≡ compact_text (view value.now) ++ 10 ∷ []) }
{
    let mut line = value.to_vec(alloc)?;
    line.push(b'\n')?;
    Ok(ByteText::from_vec(line))
}

fn header_value(alloc: Global, cluster: &Name) -> Result<Value, Memory>
    ensures { IfOk result (λ value. view value ≡ header.header_data cluster.now) }
{
    let value = json!(in alloc; {"cluster": cluster.as_str(), "format": LOG_FORMAT})?;
    Ok(value)
}

fn entry_value(alloc: Global, entry: &Entry) -> Result<Value, Memory>
    ensures { IfOk result (λ value. view value ≡ spec.entry_data entry.now) }
{
    let command = command_value(alloc, &entry.cmd)?;
    let value = json!(in alloc; {"command": command, "entry": entry.id, "epoch": entry.epoch})?;
    Ok(value)
}
