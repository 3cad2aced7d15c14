//! Writes a log file of the older format anew, as the log file of a cluster.

ghost use Rattle.std.specs.Prelude.{◌≡◌, ◌++◌, IfOk, OnErr, OnOk};
ghost use Rattle.tcm_edges.specs.Shown.{EachLeft, StaysOnly};
ghost use Rattle.script_session.specs.LogFiles.{entry_lines, old_log_of};
ghost use Rattle.wire_json.specs.EntryTexts.{entry_line as line_of};
ghost use Rattle.tcm_session.specs.Counts.{counts};
ghost use Rattle.tcm_session.specs.Mend as spec;
ghost use Rattle.tcm_session.specs.code.Mends.{Makes, Mends, StopsMaking, StopsMending};
ghost use Rattle.tcm_session.specs.code.RunFaults.{counts_by};

use crate::ending::Ending;
use crate::files::log_file::{LogFault, LogFile, open_old_log};
use crate::files::written::write_file;
use crate::limits::FILE_LIMIT;
use crate::run_fault::RunFault;
use cluster_terms::{ByteText, Memory, Name};
use epoch_log::Log;
use std::alloc::Global;
use tcm_edges::{Loaded, Store};
use transformations::Entry;
use wire_json::{entry_line, header_line};

fn add_entry(alloc: Global, entry: &Entry, out: &mut ByteText) -> Result<(), Memory>
    ensures { OnOk result (out.new ≡ out.old ++ line_of entry.now) }
{
    let line = entry_line(alloc, entry)?;
    out.extend(line.as_slice())
}

fn add_entries(alloc: Global, log: &Log, out: &mut ByteText) -> Result<(), Memory>
    ensures { OnOk result (out.new ≡ out.old ++ entry_lines log.now) }
{
    for before in 0..log.last_epoch() {
        match log.entry(before + 1) {
            Some(entry) => add_entry(alloc, entry, out)?,
            None => unreachable!(),
        }
    }
    Ok(())
}

/// The bytes of the log file of a cluster with the entries of a log. The entries are written in their one spelling, so
/// no bytes of the older file are kept.
fn log_text(alloc: Global, cluster: &Name, log: &Log) -> Result<ByteText, Memory>
    ensures { IfOk result (λ text. text ≡ spec.log_text cluster.now log.now) }
{
    let mut text = header_line(alloc, cluster)?;
    add_entries(alloc, log, &mut text)?;
    Ok(text)
}

/// Makes the log file of a cluster with the entries of a log, if no file of its name is there, and returns the end.
/// After a fault, the file is as before, or it was absent and is whole.
fn make_new<D: Store>(
    alloc: Global,
    new: &LogFile<'_>,
    log: &Log,
    store: &mut D,
) -> Result<Ending, RunFault>
    ensures makes { IfOk result (λ ending.
        Makes new.now.name.now (spec.mending_to new.now.name.now new.now.cluster log.now) ending
        (D.files store.old) (D.files store.new)) }
    ensures stays { OnOk result (StaysOnly D.files D.shows store.old store.new) }
    ensures stopped { OnErr result (EachLeft D.files D.shows store.old store.new (λ left.
        StopsMaking new.now.name.now (spec.mending_to new.now.name.now new.now.cluster log.now)
        (D.files store.old) left)) }
    ensures cause { counts 0 0 (D.faults store.new)
        ≡ counts_by result (counts 0 0 (D.faults store.old)) }
{
    // With the limit 0 nothing of the file is read, and an empty file is there, too.
    let Loaded::Absent = store.load(new.name, 0)? else {
        return Ok(Ending::file_there(alloc, new.name)?);
    };
    let text = log_text(alloc, &new.cluster, log)?;
    let ending = Ending::mended(alloc, log.last_epoch())?;
    write_file(new.name, text.as_slice(), store)?;
    Ok(ending)
}

/// Makes the log file of a cluster with the entries in a file of the older format, as `make_new` does; or returns the
/// end at the first line that is refused.
fn mend_from<D: Store>(
    alloc: Global,
    file: &[u8],
    new: &LogFile<'_>,
    store: &mut D,
) -> Result<Ending, RunFault>
    ensures makes { IfOk result (λ ending.
        Makes new.now.name.now (spec.mending_from new.now.name.now new.now.cluster (old_log_of file.now)) ending
        (D.files store.old) (D.files store.new)) }
    ensures stays { OnOk result (StaysOnly D.files D.shows store.old store.new) }
    ensures stopped { OnErr result (EachLeft D.files D.shows store.old store.new (λ left.
        StopsMaking new.now.name.now
        (spec.mending_from new.now.name.now new.now.cluster (old_log_of file.now))
        (D.files store.old) left)) }
    ensures cause { counts 0 0 (D.faults store.new)
        ≡ counts_by result (counts 0 0 (D.faults store.old)) }
{
    match open_old_log(alloc, file) {
        Ok(session) => {
            let ended = make_new(alloc, new, session.log(), store);
            session.close();
            ended
        }
        Err(LogFault::Refused(refused)) => Ok(Ending::refused(alloc, &refused)?),
        Err(LogFault::Memory) => Err(RunFault::Memory),
    }
}

/// Makes the log file of a cluster with the entries in the file `old` of the older format, and returns the end. No
/// other file changes. The file `old` is looked at first. `MENDED` is printed once the new file is there; if that
/// fails, the status is 5, and a second run ends with `FILE-THERE`.
///
/// Cost: the log of `old` is kept in memory, with the bytes of both files.
pub fn mend<D: Store>(
    alloc: Global,
    old: &str,
    new: &LogFile<'_>,
    store: &mut D,
) -> Result<Ending, RunFault>
    ensures mends { IfOk result (λ ending.
        Mends old.now new.now.name.now new.now.cluster ending (D.files store.old) (D.files store.new)) }
    ensures stays { OnOk result (StaysOnly D.files D.shows store.old store.new) }
    ensures stopped { OnErr result (EachLeft D.files D.shows store.old store.new
        (λ left. StopsMending old.now new.now.name.now new.now.cluster (D.files store.old) left)) }
    ensures cause { counts 0 0 (D.faults store.new)
        ≡ counts_by result (counts 0 0 (D.faults store.old)) }
{
    match store.load(old, FILE_LIMIT)? {
        Loaded::Absent => Ok(Ending::absent(alloc, old)?),
        Loaded::TooLarge(_size) => Ok(Ending::too_large(alloc)?),
        Loaded::Bytes(file) => mend_from(alloc, file.as_slice(), new, store),
    }
}
