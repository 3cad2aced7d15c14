//! Answers the lines of a script, and writes the answers.

ghost use Rattle.std.specs.Prelude.{◌≡◌, ◌++◌, [], OnErr, OnOk};
ghost use Rattle.std.specs.Option.{option_copied};
ghost use Rattle.tcm_edges.specs.Shown.{EachLeft, StaysOnly};
ghost use Rattle.tcm_session.specs.Counts.{counts};
ghost use Rattle.tcm_session.specs.code.RunFaults.{counts_by};
ghost use Rattle.tcm_session.specs.Left.{StopsIn, StopsNext};
ghost use Rattle.script_session.specs.Lines.{whole_lines};
ghost use Rattle.script_session.specs.LogFiles.{Gains, entry_lines};
ghost use Rattle.script_session.specs.Machine.{reply, session_next};
ghost use Rattle.tcm_session.specs.code.Runs.{IsBegun, LeavesStore, Takes, Writes, script_at};
ghost use Rattle.tcm_session.specs.code.Stops.{Stopped};

use crate::run_fault::RunFault;
use crate::scripts::lines::{cut_line, keep_begun};
use crate::scripts::script::Script;
use cluster_terms::ByteText;
use script_session::TEXT_ROOM;
use std::alloc::Global;
use tcm_edges::{Sink, Store, write_all};

/// Answers the line that has begun, and writes the answer to `out` at once. At a fault, a prefix of the answer may be
/// written, and a prefix of the line of its entry may be in the file: all of this line, if any byte of the answer is
/// written.
pub fn answer_begun<K: Sink, D: Store>(
    alloc: Global,
    script: &mut Script<'_>,
    store: &mut D,
    out: &mut K,
) -> Result<(), RunFault>
    ensures writes { Writes (reply script.old.session script.old.begun.items).text
        (K.written out.old) (K.written out.new)
        (counts 0 (K.faults out.old) (D.faults store.old))
        (counts 0 (K.faults out.new) (D.faults store.new)) result }
    ensures next { OnOk result
        (script.new.session ≡ session_next script.old.session script.old.begun.items) }
    ensures file { OnOk result (Gains (option_copied script.old.log)
        (entry_lines (reply script.old.session script.old.begun.items).added)
        (D.files store.old) (D.files store.new)) }
    ensures stays { OnOk result (StaysOnly D.files D.shows store.old store.new) }
    ensures stopped { OnErr result (EachLeft D.files D.shows store.old store.new (λ left. Stopped
        (StopsNext (reply script.old.session script.old.begun.items).text
        (entry_lines (reply script.old.session script.old.begun.items).added))
        (option_copied script.old.log) (K.written out.old) (K.written out.new)
        (D.files store.old) left)) }
    ensures unnamed { LeavesStore (option_copied script.old.log) store.old store.new result }
    ensures log { script.new.log ≡ script.old.log }
{
    let mut text = ByteText::with_room(alloc, TEXT_ROOM)?;
    let line = script.begun.as_slice();
    script.session.step(line, script.log, store, &mut text)?;
    write_all(out, text.as_slice())?;
    Ok(())
}

/// Takes the next piece of a script: answers each line that ends in it, and keeps the rest as the start of the next
/// line. At a fault, some of the lines are done, and the next one stopped as in `answer_begun`.
pub fn feed<K: Sink, D: Store>(
    alloc: Global,
    script: &mut Script<'_>,
    piece: &[u8],
    store: &mut D,
    out: &mut K,
) -> Result<(), RunFault>
    requires begun { IsBegun script.old.begun.items }
    ensures ok { OnOk result (Takes (option_copied script.old.log) piece.now
        (script_at script.old (K.written out.old) (D.files store.old))
        (script_at script.new (K.written out.new) (D.files store.new))) }
    ensures stays { OnOk result (StaysOnly D.files D.shows store.old store.new) }
    ensures stopped { OnErr result (EachLeft D.files D.shows store.old store.new (λ left. Stopped
        (StopsIn script.old.session (whole_lines (script.old.begun.items ++ piece.now)) [])
        (option_copied script.old.log) (K.written out.old) (K.written out.new)
        (D.files store.old) left)) }
    ensures cause { counts 0 (K.faults out.new) (D.faults store.new)
        ≡ counts_by result (counts 0 (K.faults out.old) (D.faults store.old)) }
    ensures unnamed { LeavesStore (option_copied script.old.log) store.old store.new result }
    ensures log { script.new.log ≡ script.old.log }
{
    let mut rest = piece;
    while let Some((line, more)) = cut_line(rest) {
        keep_begun(&mut script.begun, line)?;
        answer_begun(alloc, script, store, out)?;
        script.begun.clear();
        rest = more;
    }
    keep_begun(&mut script.begun, rest)?;
    Ok(())
}
