//! The report of a replay, and the run of `replay`.

ghost use Rattle.std.specs.Prelude.{◌≡◌, ◌≤◌, ◌∷◌, ◌++◌, [], codes, decimal, flat_map, length, map, string_bytes, take, IfOk, OnOk};
ghost use Rattle.tcm_edges.specs.Shown.{ShowsNoMore};
ghost use Rattle.script_lang.specs.AnswerTexts as texts;
ghost use Rattle.tcm_session.specs.Counts.{counts};
ghost use Rattle.tcm_session.specs.code.RunFaults.{counts_by};
ghost use Rattle.tcm_session.specs.files.Replay as spec;
ghost use Rattle.tcm_session.specs.code.Replays.{EndsSo};

use crate::ending::Ending;
use crate::files::replay::{Replay, hand_files};
use crate::run_fault::RunFault;
use cluster_metadata::Metadata;
use cluster_terms::{ByteText, Memory};
use script_lang::{labelled, nodes_text};
use script_session::placements_text;
use std::alloc::Global;
use tcm_edges::Store;

/// Adds the number of lines, and the follower's epoch.
fn epoch_text(replay: &Replay, out: &mut ByteText) -> Result<(), Memory>
    ensures { OnOk result (out.new ≡ out.old ++ (codes "REPLAY " ++ decimal replay.now.lines
        ++ codes " at " ++ decimal replay.now.follower.image.epoch)) }
{
    labelled(b"REPLAY ", &replay.lines, out)?;
    labelled(b" at ", &replay.follower.epoch(), out)
}

/// Adds the number of entries that wait at the follower, and the number of lines that were answered `Full`.
fn waiting_text(replay: &Replay, out: &mut ByteText) -> Result<(), Memory>
    ensures { OnOk result (out.new ≡ out.old
        ++ texts.line (codes " waiting " ++ decimal (length replay.now.follower.waiting)
        ++ codes " full " ++ decimal replay.now.full)) }
{
    let waiting = replay.follower.waiting() as u64;
    labelled(b" waiting ", &waiting, out)?;
    labelled(b" full ", &replay.full, out)?;
    out.extend(b"\n")
}

/// Adds the head of a report: the number of lines, the follower's epoch, the number of entries that wait at it, and the
/// number of lines that were answered `Full`.
fn head_text(replay: &Replay, out: &mut ByteText) -> Result<(), Memory>
    ensures { OnOk result (out.new ≡ out.old ++ spec.report_head replay.now) }
{
    epoch_text(replay, out)?;
    waiting_text(replay, out)
}

/// Adds the placements of all keyspaces, ascending by name.
fn places_text(metadata: &Metadata, out: &mut ByteText) -> Result<(), Memory>
    ensures { OnOk result (out.new ≡ out.old ++ flat_map (texts.place_text metadata.now) metadata.now.keyspaces) }
{
    for keyspace in metadata.as_image().keyspaces.as_slice() {
        placements_text(metadata, &keyspace.name, out)?;
    }
    Ok(())
}

/// Adds the report of a replay: the head, the nodes, and the placements of the keyspaces, ascending by name.
#[tactic(auto, unfolding(crate::specs::files::Replay::report_text))]
fn report_text(alloc: Global, replay: &Replay, out: &mut ByteText) -> Result<(), Memory>
    ensures { OnOk result (out.new ≡ out.old ++ spec.report_text replay.now) }
{
    let metadata = replay.follower.metadata();
    head_text(replay, out)?;
    nodes_text(alloc, metadata.as_image(), out)?;
    places_text(metadata, out)
}

/// The end of a replay at the end of its files.
fn reported(alloc: Global, replay: &Replay) -> Result<Ending, Memory>
    ensures { IfOk result (λ ending. ending ≡ record { status = 0; text = spec.report_text replay.now }) }
{
    let mut text = ByteText::empty(alloc);
    report_text(alloc, replay, &mut text)?;
    Ok(Ending { status: 0, text })
}

/// Hands the lines of files to a follower that was handed nothing, and returns the end of the replay.
fn end_of<D: Store>(
    alloc: Global,
    replay: &mut Replay,
    names: &[String],
    store: &mut D,
) -> Result<Ending, RunFault>
    requires few { length names.now ≤ 64 }
    requires begins { replay.old ≡ spec.nothing_replayed }
    ensures ends { IfOk result (λ ending.
        EndsSo (spec.replay_ending (map string_bytes names.now)) ending (D.files store.old)) }
    ensures files { D.files store.new ≡ D.files store.old }
    ensures crash { ShowsNoMore (D.shows store.old) (D.shows store.new) }
    ensures cause { counts 0 0 (D.faults store.new)
        ≡ counts_by result (counts 0 0 (D.faults store.old)) }
{
    match hand_files(alloc, replay, names, store)? {
        Some(ending) => Ok(ending),
        None => Ok(reported(alloc, replay)?),
    }
}

/// Replays files, and returns the end of the replay. No file changes.
///
/// Cost: one file is in memory at a time, beside the follower.
pub fn replay_files<D: Store>(
    alloc: Global,
    names: &[String],
    store: &mut D,
) -> Result<Ending, RunFault>
    requires few { length names.now ≤ 64 }
    ensures ends { IfOk result (λ ending.
        EndsSo (spec.replay_ending (map string_bytes names.now)) ending (D.files store.old)) }
    ensures files { D.files store.new ≡ D.files store.old }
    ensures crash { ShowsNoMore (D.shows store.old) (D.shows store.new) }
    ensures cause { counts 0 0 (D.faults store.new)
        ≡ counts_by result (counts 0 0 (D.faults store.old)) }
{
    let mut replay = Replay::empty(alloc)?;
    let ended = end_of(alloc, &mut replay, names, store);
    replay.close();
    ended
}
