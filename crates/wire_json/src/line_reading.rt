//! Reads the lines of files: headers, entries and snapshots.

ghost use Rattle.std.specs.Prelude.{◌≡◌, ◌≢◌, ◌<◌, length, Err, IfOk, option_map};
ghost use Rattle.serde_json.specs.View.{view};
ghost use Rattle.wire_json.specs.code.ObjectMembers.{epoch_in};
ghost use Rattle.wire_json.specs.Reading as spec;
ghost use Rattle.wire_json.specs.code.ReadResults as code;
ghost use Rattle.wire_json.specs.Snapshots.{image_in};
ghost use Rattle.wire_json.specs.declared.line.Line.TheVariants.{Snapshot};
ghost use Rattle.wire_json.specs.declared.line.ReadLineFault.TheVariants as fault;

use crate::commands::command_of;
use crate::line::{LOG_FORMAT, Line, ReadLineFault};
use crate::object_members::{one_at, three_at};
use crate::snapshot_reading::image_in;
use crate::values::{has_keys, name_at, number_at};
use serde_json::Value;
use std::alloc::Global;
use transformations::Entry;

/// The most bytes of a line, without its line feed.
const MOST_BYTES: usize = 4_194_304;

/// The greatest epoch of an entry.
const MOST_EPOCHS: u64 = 65_536;

/// Reads a line of a file; `bytes` is the line without its line feed. The line is a header line, an entry line or a
/// snapshot line. It may be any JSON text of its object: keys may come in any order, and if a key comes twice, the last
/// value counts.
///
/// Fails with `Bad(rule)` for the first of these rules that the line breaks:
///
/// 1. The line has at most 4,194,304 bytes. A longer line is refused without taking memory.
/// 2. It is a JSON text in UTF-8, nested at most 127 deep, and no number in it is too large for a float.
/// 3. It is an object with exactly the keys `command`, `entry` and `epoch`, with exactly the key `snapshot`, or with
///    exactly the keys `cluster` and `format`.
/// 4. `entry` is a whole number below 2^64, and `epoch` is a whole number from 1 to 65,536. A whole number has no point
///    and no exponent, and isn't `-0`.
/// 5. `command` is an object with exactly the keys of its kind. Names are valid, a replication is written as in
///    scripts, nodes are whole numbers below 2^32, tokens are whole numbers from -2^63 to 2^63 - 1, and a list of
///    tokens has 1 to 256 tokens that ascend.
/// 6. `snapshot` is an object with exactly the keys `epoch`, `keyspaces`, `next`, `nodes`, `sequences` and `tokens`:
///    `epoch` is a whole number below 2^64, `next` a whole number below 2^32, and the others are lists of any length.
///    Their items have exactly the keys of their kind, with values as in rule 5; a pair is a list of a token and a
///    node. An image that is read needn't be valid.
/// 7. `cluster` is a valid name, and `format` is the whole number 2.
///
/// Fails with `Memory` if memory runs out. The cost is a pass over the bytes and over the value.
pub fn read_line(alloc: Global, bytes: &[u8]) -> Result<Line, ReadLineFault>
    // Promise: a line is read as the definitions say: as a header, as an entry, as an image, or as the first rule that
    // it breaks. Guards: calls/wire.rt, tried.
    // Promise: a token is a whole number, without a point or an exponent. Guards: calls/wire.rt, tried.
    // Promise: a line whose only key is `snapshot` is read as an image, valid or not, if each part has its form, and
    // breaks rule 6 otherwise. Guards: bad_lines.rt, snapshots.rt, tried.
    // Promise: a line with just the keys `cluster` and `format` is read as a header, if they are a name and the number
    // 2, and breaks rule 7 otherwise. Guards: calls/wire.rt, bad_lines.rt.
    // Promise: a command has 1 to 256 tokens, and they ascend. Guards: calls/wire.rt.
    // Promise: the epoch of an entry is at most 65,536. Guards: calls/wire.rt.
    ensures meaning { result ≢ Err fault.Memory → result ≡ spec.reading bytes.now }
    ensures tokens { IfOk result spec.HasTokens }
    ensures epoch { IfOk result spec.HasEpoch }
    // Promise: a line of more than 4,194,304 bytes breaks rule 1, and reading it never runs out of memory. Guards:
    // calls/wire.rt.
    ensures long { 4194304 < length bytes.now → result ≡ Err (fault.Bad 1) }
{
    if bytes.len() > MOST_BYTES {
        return Err(ReadLineFault::Bad(1));
    }
    let value = value_of(alloc, bytes)?;
    line_in(alloc, &value)
}

/// What a JSON value says: rules 3 to 7.
#[tactic(auto, using(crate::proofs::json_values::LineLemmas::gives_entry, crate::proofs::json_values::LineLemmas::gives_image), unfolding(crate::specs::Reading::line_in))]
fn line_in(alloc: Global, value: &Value) -> Result<Line, ReadLineFault>
    ensures { code.Gives (λ line. line) result (spec.line_in (view value.now)) }
{
    match one_at(value, "snapshot") {
        Some(image) => image_of_line(alloc, image),
        None if has_keys(value, &["cluster", "format"]) => header_of_line(alloc, value),
        None => entry_of(alloc, value).map(Line::Entry),
    }
}

/// The snapshot line with the image in a value. A line whose only key is `snapshot` is a snapshot line, so each of its
/// faults breaks rule 6. The form of the image is looked at, not whether its parts belong together.
fn image_of_line(alloc: Global, value: &Value) -> Result<Line, ReadLineFault>
    ensures { code.Gives (λ line. line) result (spec.found 6 (option_map Snapshot (image_in (view value.now)))) }
{
    match image_in(alloc, value)? {
        Some(image) => Ok(Line::Snapshot(image)),
        None => Err(ReadLineFault::Bad(6)),
    }
}

/// The header line in a JSON value: rule 7.
#[tactic(auto, unfolding(crate::specs::Reading::header_of))]
fn header_of_line(alloc: Global, value: &Value) -> Result<Line, ReadLineFault>
    ensures { code.Gives (λ line. line) result (spec.header_of_line (view value.now)) }
{
    let format = number_at(value, "format");
    match name_at(alloc, value, "cluster")? {
        Some(cluster) if format == Some(LOG_FORMAT) => Ok(Line::Header(cluster)),
        _ => Err(ReadLineFault::Bad(7)),
    }
}

/// The JSON value in the bytes: rule 2.
#[tactic(auto, using(crate::proofs::json_values::ReadingLemmas::value_there, crate::proofs::json_values::ReadingLemmas::no_value))]
fn value_of(alloc: Global, bytes: &[u8]) -> Result<Value, ReadLineFault>
    ensures { code.Gives view result (spec.found 2 (spec.value_of bytes.now)) }
{
    match Value::from_slice(alloc, bytes) {
        Ok(value) => Ok(value),
        Err(error) if error.is_memory() => Err(ReadLineFault::Memory),
        Err(_) => Err(ReadLineFault::Bad(2)),
    }
}

/// The entry in a JSON value: rules 3 to 5.
#[tactic(auto, unfolding(crate::specs::Reading::entry_of))]
fn entry_of(alloc: Global, value: &Value) -> Result<Entry, ReadLineFault>
    ensures { code.Gives (λ entry. entry) result (spec.entry_of (view value.now)) }
{
    let Some((command, id, epoch)) = three_at(value, "command", "entry", "epoch") else {
        return Err(ReadLineFault::Bad(3));
    };
    let Some(id) = id.as_u64() else {
        return Err(ReadLineFault::Bad(4));
    };
    let Some(epoch) = epoch_in(epoch) else {
        return Err(ReadLineFault::Bad(4));
    };
    match command_of(alloc, command)? {
        Some(cmd) => Ok(Entry { id, epoch, cmd }),
        None => Err(ReadLineFault::Bad(5)),
    }
}

/// The epoch in a value: a whole number from 1 to 65,536.
fn epoch_in(value: &Value) -> Option<u64>
    ensures { result ≡ epoch_in (view value.now) }
{
    value
        .as_u64()
        .filter(|epoch| (1..=MOST_EPOCHS).contains(epoch))
}
