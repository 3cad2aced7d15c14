//! Runs a script, from an empty log or from the log in a file.

ghost use Rattle.std.specs.Prelude.{◌≡◌, [], length, None, Some, IfOk, OnErr, OnOk};
ghost use Rattle.std.specs.Option.{option_copied};
ghost use Rattle.tcm_edges.specs.Shown.{EachLeft, StaysOnly};
ghost use Rattle.tcm_session.specs.Counts.{counts};
ghost use Rattle.tcm_session.specs.Commit.{commit_outcome, commit_to_outcome, outcome_in, script_outcome};
ghost use Rattle.tcm_session.specs.Left.{LeavesFiles, StopsNext};
ghost use Rattle.tcm_session.specs.Request.{CommitTo};
ghost use Rattle.tcm_session.specs.Run.{told};
ghost use Rattle.tcm_session.specs.code.Endings as spec;
ghost use Rattle.tcm_session.specs.code.Loading.{HoldsFile, IsKeptOrWritten, IsWritten};
ghost use Rattle.tcm_session.specs.code.RunFaults.{counts_by};
ghost use Rattle.tcm_session.specs.code.Runs.{IsEnd, LeavesStore, RunsOn, RunsOnAny, Writes};
ghost use Rattle.tcm_session.specs.code.Stops.{LeavesScript, Stopped};
ghost use Rattle.script_session.specs.LogFiles.{Gains, base_of, entry_lines};
ghost use Rattle.script_session.specs.Lines.{open_line};
ghost use Rattle.script_session.specs.LogFiles as log_file;
ghost use Rattle.script_session.specs.Machine.{entries_added, session_over};

use crate::ending::{Ending, end_with, print_text};
use crate::files::log_file::{LogFault, LogFile, open_log};
use crate::files::written::write_file;
use crate::limits::{FILE_LIMIT, TOO_LARGE};
use crate::run_fault::RunFault;
use crate::scripts::answering::answer_begun;
use crate::scripts::pieces::{ReadEnd, read_script};
use crate::scripts::script::Script;
use crate::status::Status;
use cluster_terms::ByteText;
use script_session::{RefusedLine, Session};
use std::alloc::Global;
use tcm_edges::{Loaded, Sink, Source, Store};
use wire_json::header_line;

/// The status of a run after its script was read.
fn end_status(ending: ReadEnd) -> Status
    ensures { result.0 ≡ spec.ending_status ending }
{
    match ending {
        ReadEnd::AtEnd => Status(0),
        ReadEnd::PastLimit => Status(8),
    }
}

/// Writes the last text of a run, after its script was read: the answer to a last line that lacks its line feed, or the
/// text for an input that is too large.
fn finish<K: Sink, D: Store>(
    alloc: Global,
    script: &mut Script<'_>,
    ending: ReadEnd,
    out: &mut K,
    store: &mut D,
) -> Result<(), RunFault>
    ensures writes { Writes (spec.ending_text ending script.old.session script.old.begun.items)
        (K.written out.old) (K.written out.new)
        (counts 0 (K.faults out.old) (D.faults store.old))
        (counts 0 (K.faults out.new) (D.faults store.new)) result }
    ensures file { OnOk result (Gains (option_copied script.old.log) (entry_lines
        (entries_added script.old.session (spec.ending_lines ending script.old.begun.items)))
        (D.files store.old) (D.files store.new)) }
    ensures stays { OnOk result (StaysOnly D.files D.shows store.old store.new) }
    ensures stopped { OnErr result (EachLeft D.files D.shows store.old store.new (λ left. Stopped
        (StopsNext (spec.ending_text ending script.old.session script.old.begun.items) (entry_lines
        (entries_added script.old.session (spec.ending_lines ending script.old.begun.items))))
        (option_copied script.old.log) (K.written out.old) (K.written out.new)
        (D.files store.old) left)) }
    ensures unnamed { LeavesStore (option_copied script.old.log) store.old store.new result }
{
    match ending {
        ReadEnd::AtEnd if script.begun.is_empty() => Ok(()),
        ReadEnd::AtEnd => answer_begun(alloc, script, store, out),
        ReadEnd::PastLimit => print_text(TOO_LARGE.as_bytes(), out),
    }
}

/// Answers the lines of a script of which nothing was read, and whose session has no followers yet.
fn run_lines<S: Source, K: Sink, D: Store>(
    alloc: Global,
    script: &mut Script<'_>,
    input: &mut S,
    out: &mut K,
    store: &mut D,
) -> Result<Status, RunFault>
    requires session { script.old.session ≡ session_over script.old.session.log }
    requires begun { script.old.begun.items ≡ [] }
    ensures runs { EachLeft D.files D.shows store.old store.new (λ left. RunsOnAny
        (λ all. script_outcome (record {
          log = script.old.session.log;
          file = option_copied script.old.log;
          files = all;
        }))
        (LeavesScript (option_copied script.old.log) (D.files store.old) left) (input.new ≡ input.old)
        (told (S.left input.old) (K.written out.old) (D.files store.old))
        (told (S.left input.new) (K.written out.new) left) (spec.status_by result)) }
    ensures cause { counts (S.faults input.new) (K.faults out.new) (D.faults store.new)
        ≡ counts_by result (counts (S.faults input.old) (K.faults out.old) (D.faults store.old)) }
    ensures ended { IfOk result (λ status. IsEnd status.0) }
    ensures unnamed { LeavesStore (option_copied script.old.log) store.old store.new result }
{
    let ending = read_script(alloc, script, input, out, store)?;
    finish(alloc, script, ending, out, store)?;
    Ok(end_status(ending))
}

/// Runs a script from the log of a session on, which has no followers yet. If a file is named, the lines of new entries
/// are added to it.
fn run_script<S: Source, K: Sink, D: Store>(
    alloc: Global,
    session: Session,
    log: Option<&str>,
    input: &mut S,
    out: &mut K,
    store: &mut D,
) -> Result<Status, RunFault>
    requires { session ≡ session_over session.log }
    ensures runs { EachLeft D.files D.shows store.old store.new (λ left. RunsOnAny
        (λ all. script_outcome
        (record { log = session.log; file = option_copied log.entry; files = all }))
        (LeavesScript (option_copied log.entry) (D.files store.old) left) (input.new ≡ input.old)
        (told (S.left input.old) (K.written out.old) (D.files store.old))
        (told (S.left input.new) (K.written out.new) left) (spec.status_by result)) }
    ensures cause { counts (S.faults input.new) (K.faults out.new) (D.faults store.new)
        ≡ counts_by result (counts (S.faults input.old) (K.faults out.old) (D.faults store.old)) }
    ensures ended { IfOk result (λ status. IsEnd status.0) }
    ensures unnamed { LeavesStore (option_copied log.entry) store.old store.new result }
{
    let mut script = Script {
        session,
        begun: Vec::new(alloc),
        log,
    };
    let result = run_lines(alloc, &mut script, input, out, store);
    script.close();
    result
}

/// Runs a script from an empty log, without a file.
pub fn commit<S: Source, K: Sink, D: Store>(
    alloc: Global,
    input: &mut S,
    out: &mut K,
    store: &mut D,
) -> Result<Status, RunFault>
    ensures runs { EachLeft D.files D.shows store.old store.new (λ left. RunsOnAny commit_outcome
        (LeavesScript None (D.files store.old) left)
        (input.new ≡ input.old) (told (S.left input.old) (K.written out.old) (D.files store.old))
        (told (S.left input.new) (K.written out.new) left) (spec.status_by result)) }
    ensures cause { counts (S.faults input.new) (K.faults out.new) (D.faults store.new)
        ≡ counts_by result (counts (S.faults input.old) (K.faults out.old) (D.faults store.old)) }
    ensures ended { IfOk result (λ status. IsEnd status.0) }
    ensures unnamed { LeavesStore None store.old store.new result }
{
    let session = Session::empty(alloc)?;
    run_script(alloc, session, None, input, out, store)
}

/// Prints the text for a log that is refused, and returns status 3.
fn refuse_log<K: Sink>(
    alloc: Global,
    refused: &RefusedLine,
    out: &mut K,
) -> Result<Status, RunFault>
    ensures writes { Writes (log_file.refused_line_text refused.now) (K.written out.old) (K.written out.new)
        (counts 0 (K.faults out.old) 0) (counts 0 (K.faults out.new) 0) result }
    ensures status { IfOk result (λ ended. ended.0 ≡ 3) }
{
    let ending = Ending::refused(alloc, refused)?;
    ending.print(out)
}

/// Makes a log file ready for a script: cuts off its bytes after the last line feed, or writes the header if it has no
/// whole line; `tail` is the number of these bytes. After a fault, the file is as before or ready.
fn settle_file<D: Store>(
    alloc: Global,
    log: &LogFile<'_>,
    file: ByteText,
    tail: usize,
    store: &mut D,
) -> Result<(), RunFault>
    requires tail { tail ≡ length (open_line file) }
    requires holds { HoldsFile log.now.name.now file (D.files store.old) }
    ensures settled { OnOk result
        (IsWritten log.now.name.now (base_of log.now.cluster file) (D.files store.old) (D.files store.new)) }
    ensures stays { OnOk result (StaysOnly D.files D.shows store.old store.new) }
    ensures stopped { OnErr result (EachLeft D.files D.shows store.old store.new
        (λ left. IsKeptOrWritten log.now.name.now (base_of log.now.cluster file) (D.files store.old) left)) }
    ensures cause { counts 0 0 (D.faults store.new)
        ≡ counts_by result (counts 0 0 (D.faults store.old)) }
{
    let bytes = file.as_slice();
    let size = bytes.len() - tail;
    // A file that is absent, empty or without a whole line gets the header by one replace. An open line is cut off here
    // as anywhere, even if it is a header.
    if size == 0 {
        let header = header_line(alloc, &log.cluster)?;
        return write_file(log.name, header.as_slice(), store);
    }
    if tail == 0 {
        return Ok(());
    }
    write_file(log.name, &bytes[..size], store)
}

/// Runs a script from the log in a file, which is that of its cluster, once the file is ready. If a line of the log is
/// refused, prints this line and its cause instead.
fn commit_from<S: Source, K: Sink, D: Store>(
    alloc: Global,
    log: &LogFile<'_>,
    file: ByteText,
    input: &mut S,
    out: &mut K,
    store: &mut D,
) -> Result<Status, RunFault>
    requires { HoldsFile log.now.name.now file (D.files store.old) }
    ensures runs { EachLeft D.files D.shows store.old store.new (λ left. RunsOnAny
        (λ all. outcome_in log.now.name.now log.now.cluster all file)
        (LeavesFiles (Some (CommitTo log.now.name.now log.now.cluster)) (D.files store.old) left)
        (input.new ≡ input.old) (told (S.left input.old) (K.written out.old) (D.files store.old))
        (told (S.left input.new) (K.written out.new) left) (spec.status_by result)) }
    ensures cause { counts (S.faults input.new) (K.faults out.new) (D.faults store.new)
        ≡ counts_by result (counts (S.faults input.old) (K.faults out.old) (D.faults store.old)) }
    ensures ended { IfOk result (λ status. IsEnd status.0) }
{
    match open_log(alloc, Some(&log.cluster), file.as_slice()) {
        Ok((session, tail)) => {
            if let Err(fault) = settle_file(alloc, log, file, tail, store) {
                session.close();
                return Err(fault);
            }
            run_script(alloc, session, Some(log.name), input, out, store)
        }
        Err(LogFault::Refused(refused)) => refuse_log(alloc, &refused, out),
        Err(LogFault::Memory) => Err(RunFault::Memory),
    }
}

/// Runs a script from a log file. A file that is absent has no line.
pub fn commit_to<S: Source, K: Sink, D: Store>(
    alloc: Global,
    log: &LogFile<'_>,
    input: &mut S,
    out: &mut K,
    store: &mut D,
) -> Result<Status, RunFault>
    ensures runs { EachLeft D.files D.shows store.old store.new (λ left. RunsOn
        (commit_to_outcome log.now.name.now log.now.cluster)
        (LeavesFiles (Some (CommitTo log.now.name.now log.now.cluster)) (D.files store.old) left)
        (input.new ≡ input.old) (told (S.left input.old) (K.written out.old) (D.files store.old))
        (told (S.left input.new) (K.written out.new) left) (spec.status_by result)) }
    ensures cause { counts (S.faults input.new) (K.faults out.new) (D.faults store.new)
        ≡ counts_by result (counts (S.faults input.old) (K.faults out.old) (D.faults store.old)) }
    ensures ended { IfOk result (λ status. IsEnd status.0) }
{
    match store.load(log.name, FILE_LIMIT)? {
        Loaded::Absent => commit_from(alloc, log, ByteText::empty(alloc), input, out, store),
        Loaded::TooLarge(_size) => end_with(TOO_LARGE.as_bytes(), 8, out),
        Loaded::Bytes(file) => commit_from(alloc, log, file, input, out, store),
    }
}
