//! The ends of runs that read no input: their statuses and texts.

ghost use Rattle.std.specs.Prelude.{◌≡◌, ◌++◌, codes, decimal, IfOk};
ghost use Rattle.script_lang.specs.AnswerTexts.{line, no_text};
ghost use Rattle.tcm_session.specs.Counts.{counts};
ghost use Rattle.tcm_session.specs.Mend as mend;
ghost use Rattle.tcm_session.specs.Usage.{usage_end};
ghost use Rattle.tcm_session.specs.code.Runs.{Writes};
ghost use Rattle.tcm_session.specs.files.FileEnds as spec;

use crate::limits::TOO_LARGE;
use crate::run_fault::RunFault;
use crate::status::Status;
use cluster_terms::{ByteText, Memory};
use script_lang::{labelled, no_epoch_text};
use script_session::{RefusedLine, refused_line_text};
use std::alloc::Global;
use tcm_edges::{Sink, write_all};

/// The text that is printed for words that name no command.
const USAGE: &str =
    "usage: tcm commit [LOG CLUSTER] | replay FILE.. | snapshot LOG E | gen START N | mend2 OLD NEW CLUSTER | plan LOG NODE KS | cms LOG FROM TO\n";

/// Writes a text to `out`.
pub fn print_text<K: Sink>(text: &[u8], out: &mut K) -> Result<(), RunFault>
    ensures { Writes text.now (K.written out.old) (K.written out.new)
        (counts 0 (K.faults out.old) 0) (counts 0 (K.faults out.new) 0) result }
{
    write_all(out, text)?;
    Ok(())
}

/// Prints a text, and returns a status. No input is read, and no file changes. All texts of such ends are printed here,
/// from the usage line to a report: if the text can't be written, the status is 5, or 1 if the sink runs out of memory.
pub fn end_with<K: Sink>(text: &[u8], status: u8, out: &mut K) -> Result<Status, RunFault>
    ensures writes { Writes text.now (K.written out.old) (K.written out.new)
        (counts 0 (K.faults out.old) 0) (counts 0 (K.faults out.new) 0) result }
    ensures status { IfOk result (λ ended. ended.0 ≡ status) }
{
    print_text(text, out)?;
    Ok(Status(status))
}

/// The end of a run that reads no input: its status, and the text that is printed.
#[derive(Debug, Drop)]
pub struct Ending {
    pub status: u8,
    pub text: ByteText,
}

impl Ending {
    /// The end of words that name no command.
    pub fn usage(alloc: Global) -> Result<Ending, Memory>
        ensures { IfOk result (λ ending. ending ≡ usage_end) }
    {
        let mut text = ByteText::empty(alloc);
        text.extend(USAGE.as_bytes())?;
        Ok(Ending { status: 2, text })
    }

    /// The end with status 7 that shows a name after a label.
    fn naming(alloc: Global, label: &[u8], name: &str) -> Result<Ending, Memory>
        ensures { IfOk result (λ ending. ending ≡ record { status = 7; text = line (label.now ++ name.now) }) }
    {
        let mut text = ByteText::empty(alloc);
        text.extend(label)?;
        text.extend(name.as_bytes())?;
        text.extend(b"\n")?;
        Ok(Ending { status: 7, text })
    }

    /// The end at a file that is absent.
    pub fn absent(alloc: Global, name: &str) -> Result<Ending, Memory>
        ensures { IfOk result (λ ending. ending ≡ spec.absent_end name.now) }
    {
        Ending::naming(alloc, b"NO FILE ", name)
    }

    /// The end at a file that is too large.
    pub fn too_large(alloc: Global) -> Result<Ending, Memory>
        ensures { IfOk result (λ ending. ending ≡ spec.too_large_end) }
    {
        let mut text = ByteText::empty(alloc);
        text.extend(TOO_LARGE.as_bytes())?;
        Ok(Ending { status: 8, text })
    }

    /// The end at an epoch that a log hasn't reached; `last` is its last epoch.
    pub fn past_last(alloc: Global, last: u64) -> Result<Ending, Memory>
        ensures { IfOk result (λ ending. ending
            ≡ record { status = 7; text = no_text (codes "EPOCH " ++ decimal last) }) }
    {
        let mut text = ByteText::empty(alloc);
        no_epoch_text(last, &mut text)?;
        Ok(Ending { status: 7, text })
    }

    /// The end once a log file is made, with the number of its entries.
    pub fn mended(alloc: Global, entries: u64) -> Result<Ending, Memory>
        ensures { IfOk result (λ ending. ending ≡ mend.mended_end entries) }
    {
        let mut text = ByteText::empty(alloc);
        labelled(b"MENDED ", &entries, &mut text)?;
        text.extend(b"\n")?;
        Ok(Ending { status: 0, text })
    }

    /// The end at a file that is to be made, and is there.
    pub fn file_there(alloc: Global, name: &str) -> Result<Ending, Memory>
        ensures { IfOk result (λ ending. ending ≡ mend.file_there_end name.now) }
    {
        Ending::naming(alloc, b"FILE-THERE ", name)
    }

    /// The end at a line that is refused.
    pub fn refused(alloc: Global, refused: &RefusedLine) -> Result<Ending, Memory>
        ensures { IfOk result (λ ending. ending ≡ spec.refused_end refused.now) }
    {
        let mut text = ByteText::empty(alloc);
        refused_line_text(alloc, refused, &mut text)?;
        Ok(Ending { status: 3, text })
    }

    /// Prints the text, and returns the status. No input is read, and no file changes.
    pub fn print<K: Sink>(self, out: &mut K) -> Result<Status, RunFault>
        ensures writes { Writes self.text (K.written out.old) (K.written out.new)
            (counts 0 (K.faults out.old) 0) (counts 0 (K.faults out.new) 0) result }
        ensures status { IfOk result (λ ended. ended.0 ≡ self.status) }
    {
        end_with(self.text.as_slice(), self.status, out)
    }
}
