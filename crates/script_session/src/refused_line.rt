//! Lines of files that are refused, and their text.

ghost use Rattle.std.specs.Prelude.{◌≡◌, ◌++◌, codes, decimal, take, length, OnOk};
ghost use Rattle.wire_json.specs.EntryTexts as wire;
ghost use Rattle.script_session.specs.LogFiles as spec;

use cluster_terms::{ByteText, Memory, Name};
use script_lang::{labelled, refusal_text};
use std::alloc::Global;
use transformations::{BadImage, Entry, Refusal};
use wire_json::entry_line;

/// Why a line of a file is refused. For the first line of a log file, `Line`, `Format` and `Cluster` are looked for in
/// this order, and for each later line `Line`, `Header`, `NotEntry`, `Epoch`, `Id` and `Command`. For a file that is
/// replayed, `Line`, `Header` and `Cluster` come first, and then `Image`, `Fork` and `Command` as the follower finds them.
#[derive(Debug, Drop)]
pub enum Cause {
    /// The line breaks this rule of `read_line`, and no rule with a smaller number.
    Line(u8),
    /// The first line of a log file isn't a header.
    Format,
    /// The line is a header, and isn't the first line of its file, or the file has the older format.
    Header,
    /// The header names another cluster: the wanted name, and the name that came.
    Cluster(Name, Name),
    /// The line is an image of a log, not an entry.
    NotEntry,
    /// The entry's epoch isn't the next epoch: the next one, and the epoch that came.
    Epoch(u64, u64),
    /// The entry's id is in the log already: the id, and the epoch of the earlier entry.
    Id(u64, u64),
    /// The command of the entry at this epoch is refused.
    Command(u64, Refusal),
    /// The image isn't valid: the first rule that it breaks, with its value.
    Image(BadImage),
    /// Another entry of this epoch waits: the one that waits, and the one that came.
    Fork(u64, Entry, Entry),
}

/// A line of a file that is refused: the number of the file and that of the line, both from 1 on, and the first cause.
#[derive(Debug, Drop)]
pub struct RefusedLine {
    pub file: u64,
    pub line: u64,
    pub cause: Cause,
}

/// Adds two numbers after a label, separated by a space.
fn numbers_text(label: &[u8], first: u64, second: u64, out: &mut ByteText) -> Result<(), Memory>
    ensures { OnOk result (out.new ≡ out.old ++ (label.now ++ decimal first ++ codes " " ++ decimal second)) }
{
    labelled(label, &first, out)?;
    labelled(b" ", &second, out)
}

fn clusters_text(want: &Name, came: &Name, out: &mut ByteText) -> Result<(), Memory>
    ensures { OnOk result (out.new ≡ out.old ++ (codes "CLUSTER " ++ want.now ++ codes " " ++ came.now)) }
{
    labelled(b"CLUSTER ", want, out)?;
    labelled(b" ", came, out)
}

fn cause_text(cause: &Cause, out: &mut ByteText) -> Result<(), Memory>
    ensures { OnOk result (out.new ≡ out.old ++ spec.cause_text cause.now) }
{
    match cause {
        Cause::Line(rule) => labelled(b"LINE ", &u64::from(*rule), out),
        Cause::Format => out.extend(b"FORMAT"),
        Cause::Header => out.extend(b"HEADER"),
        Cause::Cluster(want, came) => clusters_text(want, came, out),
        Cause::NotEntry => out.extend(b"NOT-ENTRY"),
        Cause::Epoch(next, came) => numbers_text(b"EPOCH ", *next, *came, out),
        Cause::Id(id, epoch) => numbers_text(b"ID ", *id, *epoch, out),
        Cause::Command(epoch, refusal) => {
            labelled(b"COMMAND ", epoch, out)?;
            out.extend(b" ")?;
            refusal_text(refusal, out)
        }
        Cause::Image(bad) => labelled(b"IMAGE ", bad, out),
        Cause::Fork(epoch, _held, _came) => labelled(b"FORK ", epoch, out),
    }
}

fn add_entry(alloc: Global, entry: &Entry, out: &mut ByteText) -> Result<(), Memory>
    ensures { OnOk result (out.new ≡ out.old ++ wire.entry_line entry.now) }
{
    let line = entry_line(alloc, entry)?;
    out.extend(line.as_slice())
}

/// Adds the lines of the entries of a fork.
fn fork_lines(alloc: Global, cause: &Cause, out: &mut ByteText) -> Result<(), Memory>
    ensures { OnOk result (out.new ≡ out.old ++ spec.fork_lines cause.now) }
{
    match cause {
        Cause::Fork(_epoch, held, came) => {
            add_entry(alloc, held, out)?;
            add_entry(alloc, came, out)
        }
        _ => Ok(()),
    }
}

/// Adds the numbers of a refused line, and its cause.
fn head_text(refused: &RefusedLine, out: &mut ByteText) -> Result<(), Memory>
    ensures { OnOk result (out.new ≡ out.old ++ spec.refused_head refused.now) }
{
    numbers_text(b"REFUSED ", refused.file, refused.line, out)?;
    out.extend(b" ")?;
    cause_text(&refused.cause, out)?;
    out.extend(b"\n")
}

/// Adds `REFUSED file line cause`, the text for a file that is refused at this line, and after a fork the lines of its
/// two entries.
#[tactic(auto, unfolding(crate::specs::LogFiles::refused_line_text))]
pub fn refused_line_text(
    alloc: Global,
    refused: &RefusedLine,
    out: &mut ByteText,
) -> Result<(), Memory>
    ensures { OnOk result (out.new ≡ out.old ++ spec.refused_line_text refused.now) }
{
    head_text(refused, out)?;
    fork_lines(alloc, &refused.cause, out)
}
