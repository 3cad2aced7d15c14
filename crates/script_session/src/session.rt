//! The session: the log of entries, the metadata after it, its followers, the catch-up replies, and the answer to each
//! line.

ghost use Rattle.std.specs.Prelude.{◌≡◌, ◌+◌, ◌≤◌, ◌++◌, [], Ok, codes, decimal, length, take, None, OnOk, IfOk, IfErr, IfSome, IsTrue};
ghost use Rattle.std.specs.Option.{option_copied};
ghost use Rattle.script_lang.specs.Grammar.{IsInRange, line_of};
ghost use Rattle.script_lang.specs.AnswerTexts as spec;
ghost use Rattle.transformations.specs.History.{commit_refusal, empty_image, image_after, is_command, state_after};
ghost use Rattle.transformations.specs.Log.{commands_of, entry_with_id, repeated};
ghost use Rattle.cluster_metadata.specs.Permission.{AdmitsUnless};
ghost use Rattle.script_session.specs.Faults.{count_by};
ghost use Rattle.script_session.specs.LogFiles.{Gains, entry_lines};
ghost use Rattle.script_session.specs.Machine.{commit_reply, commit_text, epoch_of_follower, follower_named, reply, reply_to, session_next, session_over};
ghost use Rattle.script_session.specs.code.StepParts.{accepted_reply};
ghost use Rattle.script_session.specs.StepEnds.{Leaves, LeavesSession, StepCrashes, handed_by};
ghost use Rattle.script_session.specs.code.StepParts.{IsNextEntry, OnlyAnswers, StepEnds, at};

mod deliveries;
pub mod followers;
mod handing_over;
mod kept_images;
pub mod log_entries;
mod log_lines;
pub mod place_text;
pub mod query;
mod query_lines;
pub mod quorum_text;
mod replies;

use crate::fault::StepFault;
use crate::session::followers::{NamedFollower, close_followers, epoch_of};
use crate::session::kept_images::keep_image;
use crate::session::log_entries::note;
use crate::session::query::Query;
use catch_up::Reply;
use cluster_metadata::{AdmitFault, Metadata, Permit};
use cluster_terms::{ByteText, Memory};
use epoch_log::Log;
use script_lang::{ScriptLine, no_epoch_text, no_text, ok_text, parse_line, refused_text};
use snapshot_store::Snapshots;
use std::alloc::Global;
use std::marker::Model;
use tcm_edges::Store;
use transformations::{Command, Entry, Refusal};

/// The most commands that a session accepts; each accepted command makes an epoch.
const MOST_EPOCHS: u64 = 65_536;

/// The log, the metadata after its entries, the image of every 256th epoch before the last, up to 16 followers, and up
/// to 64 replies to followers that asked for what they lack.
///
/// The log's epochs are 1, 2 and so on, no id stands in it twice, and its commands are a history. Each follower shows
/// a state of the log, and the entries that wait in it are distinct entries of the log, above its epoch. Each reply is
/// one from a prefix of the log. A session must be ended by `close`.
pub struct Session {
    alloc: Global,
    log: Log,
    metadata: Metadata,
    snapshots: Snapshots,
    followers: Vec<NamedFollower>,
    replies: Vec<Reply>,
}

impl Model for Session {
    ghost use Rattle.std.specs.Prelude.{◌≡◌, length};
    ghost use Rattle.transformations.specs.History.{empty_image, image_after};
    ghost use Rattle.transformations.specs.Log.{IsLog, commands_of};
    ghost use Rattle.script_session.specs.code.KeptImages.{AreKept};
    ghost use Rattle.script_session.specs.Machine.{SessionState};
    ghost use Rattle.script_session.specs.code.StepParts.{AllFollow, AllFrom};

    ghost Value = { SessionState };

    ghost view = { λ session. record {
      log = session.log;
      followers = session.followers.items;
      replies = session.replies.items;
    } };

    ghost invariant = { λ session.
        (session.metadata ≡ image_after empty_image (commands_of session.log))
        × IsLog session.log × AllFollow session.log session.followers.items
        × AreKept session.log (length session.log) session.snapshots
        × AllFrom session.log session.replies.items };
}

/// Answers a line that is refused for this reason.
fn refuse_line(reason: &[u8], out: &mut ByteText) -> Result<(), StepFault>
    ensures only { OnlyAnswers (spec.no_text reason.now) out.old out.new result }
{
    no_text(reason, out)?;
    Ok(())
}

/// Answers a line that names an epoch that hasn't come; `last` is the last epoch.
fn past_last(last: u64, out: &mut ByteText) -> Result<(), StepFault>
    ensures only { OnlyAnswers
        (spec.no_text (codes "EPOCH " ++ decimal last)) out.old out.new result }
{
    no_epoch_text(last, out)?;
    Ok(())
}

/// Answers a commit that was accepted as this epoch.
fn accepted(epoch: u64, out: &mut ByteText) -> Result<(), StepFault>
    ensures only { OnlyAnswers (spec.ok_text epoch) out.old out.new result }
{
    ok_text(epoch, out)?;
    Ok(())
}

/// Answers a commit that is refused.
fn refuse(refusal: &Refusal, out: &mut ByteText) -> Result<(), StepFault>
    ensures only { OnlyAnswers (spec.no_text (spec.refusal_text refusal.now)) out.old out.new result }
{
    refused_text(refusal, out)?;
    Ok(())
}

/// Answers a commit whose id is in the log, with this entry.
fn answer_again(entry: &Entry, command: &Command, out: &mut ByteText) -> Result<(), StepFault>
    ensures only { OnlyAnswers (commit_text (repeated entry.now command.now).answer) out.old out.new result }
{
    if entry.cmd.same(command) {
        accepted(entry.epoch, out)
    } else {
        refuse(&Refusal::IdReused(entry.epoch), out)
    }
}

impl Session {
    /// The session with an empty log.
    pub fn empty(alloc: Global) -> Result<Session, Memory>
        ensures { IfOk result (λ session. session ≡ session_over []) }
    {
        Ok(Session {
            alloc,
            log: Log::empty(alloc),
            metadata: Metadata::empty(alloc)?,
            snapshots: Snapshots::empty(alloc),
            followers: Vec::new(alloc),
            replies: Vec::new(alloc),
        })
    }

    /// Ends the session. Its log, its followers and the replies to them are forgotten.
    pub fn close(self) {
        let Session {
            alloc: _,
            log: _,
            metadata,
            snapshots: _,
            followers,
            replies: _,
        } = self;
        metadata.close();
        close_followers(followers);
    }

    /// The entries of accepted commits.
    pub fn log(&self) -> &Log
        ensures { result.now ≡ self.now.log }
    {
        &self.log
    }

    /// The metadata in the last state of the log.
    pub fn metadata(&self) -> &Metadata
        ensures { result.now ≡ state_after (commands_of self.now.log) (length self.now.log) }
    {
        &self.metadata
    }

    /// The epoch of the last entry, or 0 if there is none.
    pub fn last_epoch(&self) -> u64
        ensures length { result ≡ length self.now.log }
        ensures most { result ≤ 65536 }
    {
        self.log.last_epoch()
    }

    /// The epoch of the follower with this name, or 0 if there is none.
    pub fn follower_epoch(&self, name: &str) -> u64
        ensures { result ≡ epoch_of_follower (follower_named self.now.followers name.now) }
    {
        epoch_of(&self.followers, name)
    }

    /// Answers a line: adds the answer to `out`, the entry of an accepted commit to the log, a reply that is asked for
    /// to the replies, and moves the follower that the line hands something to. If `log` names a file, the line of the
    /// entry is added to this file, too, before the commit takes effect; from then on the commit can't fail. Without a
    /// name, the store isn't used.
    ///
    /// After a fault, the log and the replies are unchanged, no follower was made, and `out` still begins with its old
    /// content. Fails with `Memory` if memory runs out; then the files are unchanged, and so is each follower, but for
    /// the one that the line hands something to: it follows the log, no further back than before and no further on than
    /// the line would have moved it. Fails with `Store` only if `log` names a file, the line adds an entry, and the
    /// store failed in this step; then the followers are unchanged, and the file may have gained the entry's line or a
    /// prefix of it.
    ///
    /// Cost: a commit costs one look-up of its id, and the cost of `Metadata::admit`. The first one that is accepted
    /// after each 256th epoch also copies the image. A line on a follower costs a comparison with the names of the
    /// followers, and the cost of `Follower::deliver` or `Follower::snapshot`; a follower that lacks this entry alone
    /// may cost a copy of the metadata instead. The image of an earlier epoch costs as `Snapshots::state_at` says, with
    /// at most 255 commands. Asking for a reply costs a copy of its entries, and of its image as that of an earlier
    /// epoch. Giving it costs as handing over its image and each of its entries.
    pub fn step<D: Store>(
        &mut self,
        line: &[u8],
        log: Option<&str>,
        store: &mut D,
        out: &mut ByteText,
    ) -> Result<(), StepFault>
        // Promise: a step that ends well adds the answer to the output, its entry to the log and the entry's line to a
        // named file, and moves the followers. Guards: logs.rt (two registers, a log that goes on), tried.
        // Promise: a line outside the grammar, or of more than 16,384 bytes, is answered `NO BAD-LINE`, and changes
        // nothing. Guards: lines.rt, by `parse_line`'s `meaning`.
        // Promise: a commit's id is looked up first: the same command gets its epoch again, another `NO ID-REUSED` and
        // that epoch, and neither changes anything. Guards: id_acts_twice.edit, ids.rt (entry-ids), tried.
        // Promise: an accepted commit is the next epoch, and takes effect; a refused one is answered with its first
        // refusal, changes nothing, and leaves its id free. Guards: scripts.rt (first-refusals), ids.rt (a refused id
        // comes again), joins.rt, refusals.rt, together.rt, tried.
        // Promise: epochs end at 65,536, and this refusal comes before all others but `ID-REUSED`. Guards: limits.rt,
        // tried.
        // Promise: a query is answered from the image of its epoch, and past the last epoch with `NO EPOCH` and that
        // epoch. Guards: scripts.rt (ids-never-reused, unknown-things), tried.
        // Promise: `place`, `quorum` and `local` show placements and quorums; an unknown keyspace gets `NO KEYSPACE`, a
        // datacenter that its replication doesn't name `NO DC`. Guards: scripts.rt (unknown-things), quorums.rt, tried.
        // Promise: a follower is made at epoch 0; at most 16 are made, and no two of one name. Guards: followers.rt (16
        // followers, names that are alike), tried.
        ensures text { OnOk result (out.new ≡ out.old ++ (reply self.old line.now).text) }
        // Promise: whatever the result, the output begins with what it held. Guards: scripts.
        ensures kept { take (length out.old) out.new ≡ out.old }
        // Promise: a node that is removed is gone, and its id isn't given again; a keyspace is made, gets another
        // replication, or is dropped. Guards: scripts.rt (ids-never-reused), steps.rt.
        // Promise: a movement is prepared, started, brought half way and finished, each by a commit; then its pairs are
        // in the ring, and it isn't in flight. Guards: joins.rt (join-to-finish, steps in another order), steps.rt,
        // racks.rt.
        // Promise: a start adds gaining nodes to the writes, half way they replace the losing ones in the reads, and a
        // finish takes these out of the writes. Guards: joins.rt (join-started, two-joins), steps.rt, tried.
        // Promise: a node that leaves or is replaced has left from the finish on; until then a replaced node is as
        // before. Guards: steps.rt (a node that left), racks.rt (usual-cluster).
        // Promise: a cancel ends a movement that is prepared or has started, and brings one that is half way back to
        // where it had started. Guards: cancels.rt (each kind, join-mid-cancelled).
        // Promise: several movements are in flight at once, and each goes on by itself. Guards: joins.rt (two-joins),
        // together.rt (four kinds at the same time).
        // Promise: a follower is handed the entry or the state of an epoch, and says what it made of it; nothing that
        // is handed to another follower changes it. Guards: followers.rt (follower-out-of-order), limits.rt, logs.rt,
        // tried.
        // Promise: `ask` makes the reply from the follower's epoch, and up to 64 are kept; `give` hands a reply over,
        // image first. Guards: replies.rt (replies-out-of-order, test `reply_with_image`).
        ensures next { OnOk result (self.new ≡ session_next self.old line.now) }
        ensures file { OnOk result (Gains
            (option_copied log.entry) (entry_lines (reply self.old line.now).added)
            (D.files store.old) (D.files store.new)) }
        // Promise: after a fault log, replies and followers are as before, but for one that was handed something
        // without memory, which is between where it was and where the line leads. Guards: enact_before_append.edit, by
        // hand, tried.
        ensures left { IfErr result (λ e. LeavesSession e (handed_by self.old (line_of line.now))
            self.old (reply self.old line.now).followers self.new) }
        // Promise: if memory runs out in a step, the files are as before. Guards: by `Store::append`'s `unchanged`.
        // Promise: a step fails with `Store` only if the store failed to add an entry's line to a named file, which may
        // then have gained a prefix of it, or all. Guards: logs.rt (store-stops), stops.rt.
        ensures fault { IfErr result (λ e. Leaves e (option_copied log.entry) (reply self.old line.now).added
            (D.files store.old) (D.files store.new)) }
        ensures crash { StepCrashes D.files D.shows
            (λ e left. Leaves e (option_copied log.entry) (reply self.old line.now).added (D.files store.old) left)
            store.old store.new result }
        // Promise: the store counts one fault more if the step fails with `Store`, and else none. Guards: tried.
        ensures count { D.faults store.new ≡ count_by result (D.faults store.old) }
        // Promise: if no file is named, the store stays as it was. Guards: none.
        ensures unnamed { option_copied log.entry ≡ None → store.new ≡ store.old }
    {
        let said = parse_line(self.alloc, line)?;
        self.answer(said, log, store, out)
    }

    /// Answers the content of a line, as `step` does. `None` stands for a line that isn't in the grammar.
    fn answer<D: Store>(
        &mut self,
        said: Option<ScriptLine>,
        log: Option<&str>,
        store: &mut D,
        out: &mut ByteText,
    ) -> Result<(), StepFault>
        requires { IfSome said (λ line. IsInRange line) }
        ensures steps { StepEnds (handed_by self.old said) (reply_to self.old said) (option_copied log.entry)
            (at self.old out.old (D.files store.old) (D.faults store.old))
            (at self.new out.new (D.files store.new) (D.faults store.new)) result }
        ensures crash { StepCrashes D.files D.shows
            (λ e left. Leaves e (option_copied log.entry) (reply_to self.old said).added (D.files store.old) left)
            store.old store.new result }
        ensures unnamed { option_copied log.entry ≡ None → store.new ≡ store.old }
    {
        match said {
            None => refuse_line(b"BAD-LINE", out),
            Some(ScriptLine::Commit(id, command)) => self.commit(id, command, log, store, out),
            Some(ScriptLine::Follower(name)) => self.make_follower(name, out),
            Some(ScriptLine::Deliver(name, epoch)) => self.deliver(&name, epoch, out),
            Some(ScriptLine::Snapshot(name, epoch)) => self.snapshot(&name, epoch, out),
            Some(ScriptLine::Ask(name, max)) => self.ask(&name, max, out),
            Some(ScriptLine::Give(name, number)) => self.give(&name, number, out),
            Some(ScriptLine::Place(target, keyspace)) => {
                self.answer_query(target, Query::Place(keyspace), out)
            }
            Some(ScriptLine::Nodes(target)) => self.answer_query(target, Query::Nodes, out),
            Some(ScriptLine::Quorum(target, keyspace, t)) => {
                self.answer_query(target, Query::Quorum(keyspace, t), out)
            }
            Some(ScriptLine::Local(target, keyspace, dc, t)) => {
                self.answer_query(target, Query::Local(keyspace, dc, t), out)
            }
        }
    }

    /// Answers a commit: first its id is looked up.
    fn commit<D: Store>(
        &mut self,
        id: u64,
        command: Command,
        log: Option<&str>,
        store: &mut D,
        out: &mut ByteText,
    ) -> Result<(), StepFault>
        requires { IsTrue (is_command command) }
        ensures steps { StepEnds None (commit_reply self.old id command) (option_copied log.entry)
            (at self.old out.old (D.files store.old) (D.faults store.old))
            (at self.new out.new (D.files store.new) (D.faults store.new)) result }
        ensures crash { StepCrashes D.files D.shows
            (λ e left. Leaves e (option_copied log.entry) (commit_reply self.old id command).added (D.files store.old) left)
            store.old store.new result }
        ensures unnamed { option_copied log.entry ≡ None → store.new ≡ store.old }
    {
        match self.log.seen(id) {
            Some(entry) => answer_again(entry, &command, out),
            None => self.commit_new(id, command, log, store, out),
        }
    }

    /// Answers a commit with a new id: refuses its command, or adds an entry to the log.
    fn commit_new<D: Store>(
        &mut self,
        id: u64,
        command: Command,
        log: Option<&str>,
        store: &mut D,
        out: &mut ByteText,
    ) -> Result<(), StepFault>
        requires formed { IsTrue (is_command command) }
        requires fresh { entry_with_id self.old.log id ≡ None }
        ensures steps { StepEnds None (commit_reply self.old id command) (option_copied log.entry)
            (at self.old out.old (D.files store.old) (D.faults store.old))
            (at self.new out.new (D.files store.new) (D.faults store.new)) result }
        ensures crash { StepCrashes D.files D.shows
            (λ e left. Leaves e (option_copied log.entry) (commit_reply self.old id command).added (D.files store.old) left)
            store.old store.new result }
        ensures unnamed { option_copied log.entry ≡ None → store.new ≡ store.old }
    {
        match self.admit(&command) {
            Ok(permit) => {
                let epoch = self.log.last_epoch() + 1;
                let entry = Entry {
                    id,
                    epoch,
                    cmd: command,
                };
                self.accept(entry, permit, log, store, out)
            }
            Err(AdmitFault::Refused(refusal)) => refuse(&refusal, out),
            Err(AdmitFault::Memory) => Err(StepFault::Memory),
        }
    }

    /// A permit for a command, or its first refusal; the limit of epochs is checked first. Fails with `Memory` if
    /// memory runs out.
    fn admit(&self, command: &Command) -> Result<Permit, AdmitFault>
        requires { IsTrue (is_command command.now) }
        ensures permit { IfOk result (λ permit. permit
            ≡ record { image = image_after empty_image (commands_of self.now.log); command = command.now }) }
        ensures refusal { AdmitsUnless (commit_refusal (commands_of self.now.log) command.now) result }
    {
        if self.log.last_epoch() >= MOST_EPOCHS {
            return Err(AdmitFault::Refused(Refusal::EpochsFull));
        }
        self.metadata.permit(command)
    }

    /// Adds the next entry to the log, and enacts its command. First the image of the last epoch is kept, if it is to
    /// be. After a fault, the log is unchanged.
    fn accept<D: Store>(
        &mut self,
        entry: Entry,
        permit: Permit,
        log: Option<&str>,
        store: &mut D,
        out: &mut ByteText,
    ) -> Result<(), StepFault>
        requires next { IsNextEntry self.old.log entry }
        requires permit { permit
            ≡ record { image = image_after empty_image (commands_of self.old.log); command = entry.cmd } }
        ensures steps { StepEnds None (accepted_reply self.old entry) (option_copied log.entry)
            (at self.old out.old (D.files store.old) (D.faults store.old))
            (at self.new out.new (D.files store.new) (D.faults store.new)) result }
        ensures crash { StepCrashes D.files D.shows
            (λ e left. Leaves e (option_copied log.entry) (accepted_reply self.old entry).added (D.files store.old) left)
            store.old store.new result }
        ensures unnamed { option_copied log.entry ≡ None → store.new ≡ store.old }
    {
        if let Err(memory) = keep_image(&self.log, &self.metadata, &mut self.snapshots) {
            permit.decline();
            return Err(StepFault::from(memory));
        }
        match note(self.alloc, &mut self.log, entry, log, store, out) {
            Ok(()) => {
                let _epoch = self.metadata.enact(permit);
                Ok(())
            }
            Err(fault) => {
                permit.decline();
                Err(fault)
            }
        }
    }
}
