//! Adds entries to the log, and their lines to its file.

ghost use Rattle.std.specs.Prelude.{◌≡◌, ◌+◌, ◌∷◌, ◌++◌, [], length, None, Some, OnOk, IfErr, MatchResult};
ghost use Rattle.std.specs.Option.{option_copied};
ghost use Rattle.transformations.specs.Log.{entry_with_id};
ghost use Rattle.wire_json.specs.EntryTexts as wire;
ghost use Rattle.script_session.specs.Faults.{count_by};
ghost use Rattle.script_session.specs.LogFiles.{Gains};
ghost use Rattle.script_session.specs.StepEnds.{Leaves, StepCrashes};
ghost use Rattle.script_session.specs.code.StepParts.{Notes, at};

use crate::fault::StepFault;
use cluster_terms::{ByteText, Memory};
use epoch_log::Log;
use script_lang::ok_text;
use std::alloc::Global;
use tcm_edges::Store;
use transformations::Entry;
use wire_json::entry_line;

/// Adds the next entry to the log. If memory runs out, the log is unchanged.
fn keep(log: &mut Log, entry: Entry) -> Result<(), Memory>
    requires epoch { entry.epoch ≡ length log.old + 1 }
    requires id { entry_with_id log.old entry.id ≡ None }
    ensures { MatchResult result (λ _. log.new ≡ log.old ++ entry ∷ []) (λ _. log.new ≡ log.old) }
{
    match log.push(entry) {
        Ok(()) => Ok(()),
        Err((_entry, memory)) => Err(memory),
    }
}

/// Adds the next entry to the log, and its line to the file with this name. After a fault, the log is unchanged. What
/// takes memory, the line and the place in the log, is made before the append, and enacting takes none. If the store
/// fails, `Log::pop` takes the entry out again, without memory.
fn keep_in_file<D: Store>(
    alloc: Global,
    log: &mut Log,
    entry: Entry,
    name: &str,
    store: &mut D,
) -> Result<(), StepFault>
    requires epoch { entry.epoch ≡ length log.old + 1 }
    requires id { entry_with_id log.old entry.id ≡ None }
    ensures log { MatchResult result (λ _. log.new ≡ log.old ++ entry ∷ []) (λ _. log.new ≡ log.old) }
    ensures file { OnOk result
        (Gains (Some name.now) (wire.entry_line entry) (D.files store.old) (D.files store.new)) }
    ensures fault { IfErr result (λ e. Leaves e (Some name.now) (entry ∷ []) (D.files store.old) (D.files store.new)) }
    ensures crash { StepCrashes D.files D.shows (λ e left. Leaves e (Some name.now) (entry ∷ []) (D.files store.old) left)
        store.old store.new result }
    ensures count { D.faults store.new ≡ count_by result (D.faults store.old) }
{
    let line = entry_line(alloc, &entry)?;
    keep(log, entry)?;
    match store.append(name, line.as_slice()) {
        Ok(()) => Ok(()),
        Err(fault) => {
            log.pop();
            Err(StepFault::from(fault))
        }
    }
}

/// Adds the answer to an accepted commit to `out`, its entry to the log, and the line of the entry to the file, if a
/// file is named. After a fault, the log is unchanged and `out` still begins with its old content.
pub fn note<D: Store>(
    alloc: Global,
    log: &mut Log,
    entry: Entry,
    file: Option<&str>,
    store: &mut D,
    out: &mut ByteText,
) -> Result<(), StepFault>
    requires epoch { entry.epoch ≡ length log.old + 1 }
    requires id { entry_with_id log.old entry.id ≡ None }
    ensures notes { Notes entry (option_copied file.entry)
        (at log.old out.old (D.files store.old) (D.faults store.old))
        (at log.new out.new (D.files store.new) (D.faults store.new)) result }
    ensures crash { StepCrashes D.files D.shows (λ e left. Leaves e (option_copied file.entry) (entry ∷ []) (D.files store.old) left)
        store.old store.new result }
    ensures unnamed { option_copied file.entry ≡ None → store.new ≡ store.old }
{
    // The answer is made whole before it is written, so without memory nothing of it is printed.
    ok_text(entry.epoch, out)?;
    // The text of the entry's line is made only if a file is named.
    match file {
        None => {
            keep(log, entry)?;
            Ok(())
        }
        Some(name) => keep_in_file(alloc, log, entry, name, store),
    }
}
