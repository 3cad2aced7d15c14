//! Taking over the lines of a log file.

ghost use Rattle.std.specs.Prelude.{◌≡◌, Ok, None, OnErr, IfOk, IsTrue};
ghost use Rattle.transformations.specs.History.{empty_image, image_after, is_command};
ghost use Rattle.transformations.specs.Log.{commands_of};
ghost use Rattle.wire_json.specs.Reading as reading;
ghost use Rattle.script_session.specs.LogFiles.{entry_cause, entry_read, next_entry, unless_refused};
ghost use Rattle.script_session.specs.code.StepParts.{IsNextEntry, TakesLine, with_next};

use super::Session;
use crate::refused_line::Cause;
use cluster_metadata::{AdmitFault, Permit};
use cluster_terms::{ByteText, Memory};
use tcm_edges::SureStore;
use transformations::Entry;
use wire_json::{Line, ReadLineFault, read_line};

impl Session {
    /// Takes over a line of a log file: adds its entry to the log, or returns the first cause to refuse the line. Then,
    /// and if memory runs out, the log is unchanged.
    pub fn take_line(&mut self, line: &[u8]) -> Result<Option<Cause>, Memory>
        ensures ok { IfOk result (λ refused.
            TakesLine refused (next_entry self.old.log line.now) self.old self.new) }
        ensures err { OnErr result (self.new ≡ self.old) }
    {
        match read_line(self.alloc, line) {
            Ok(content) => self.take_content(content),
            Err(ReadLineFault::Bad(rule)) => Ok(Some(Cause::Line(rule))),
            Err(ReadLineFault::Memory) => Err(Memory),
        }
    }

    /// Takes over the content of a line of a log file, as `take_line` does.
    fn take_content(&mut self, content: Line) -> Result<Option<Cause>, Memory>
        requires { reading.HasTokens content }
        ensures ok { IfOk result (λ refused.
            TakesLine refused (entry_read self.old.log (Ok content)) self.old self.new) }
        ensures err { OnErr result (self.new ≡ self.old) }
    {
        match content {
            Line::Header(_cluster) => Ok(Some(Cause::Header)),
            Line::Entry(entry) => self.take_entry(entry),
            Line::Snapshot(_image) => Ok(Some(Cause::NotEntry)),
        }
    }

    /// Takes over an entry of a log file, as `take_line` does.
    fn take_entry(&mut self, entry: Entry) -> Result<Option<Cause>, Memory>
        requires { IsTrue (is_command entry.cmd) }
        ensures ok { IfOk result (λ refused.
            TakesLine refused (unless_refused entry (entry_cause self.old.log entry)) self.old self.new) }
        ensures err { OnErr result (self.new ≡ self.old) }
    {
        let next = self.log.last_epoch() + 1;
        if entry.epoch != next {
            return Ok(Some(Cause::Epoch(next, entry.epoch)));
        }
        if let Some(earlier) = self.log.seen(entry.id) {
            return Ok(Some(Cause::Id(entry.id, earlier.epoch)));
        }
        match self.admit(&entry.cmd) {
            Ok(permit) => self.take_over(entry, permit),
            Err(AdmitFault::Refused(refusal)) => Ok(Some(Cause::Command(entry.epoch, refusal))),
            Err(AdmitFault::Memory) => Err(Memory),
        }
    }

    /// Adds the next entry to the log, and enacts its command, as `accept` does. This uses no file, so it fails only if
    /// memory runs out. Returns `None`.
    fn take_over(&mut self, entry: Entry, permit: Permit) -> Result<Option<Cause>, Memory>
        requires next { IsNextEntry self.old.log entry }
        requires permit { permit
            ≡ record { image = image_after empty_image (commands_of self.old.log); command = entry.cmd } }
        ensures ok { IfOk result (λ refused. (refused ≡ None) × (self.new ≡ with_next self.old entry)) }
        ensures err { OnErr result (self.new ≡ self.old) }
    {
        let mut store = SureStore::new(self.alloc);
        let mut answer = ByteText::empty(self.alloc);
        match self.accept(entry, permit, None, &mut store, &mut answer) {
            Ok(()) => Ok(None),
            Err(_fault) => Err(Memory),
        }
    }
}
