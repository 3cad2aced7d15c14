ghost use Rattle.std.specs.Prelude.{◌≡◌, ◌+◌, ◌<◌, ◌≤◌, ◌↔◌, true, ℕ, List, [], Ok, Some, None, length, IfOk, IsFalse, IsTrue, OnErr};
ghost use Rattle.cluster_terms.specs.Ascending.{put};
ghost use Rattle.transformations.specs.History.{is_command, most_epochs, state_after};
ghost use Rattle.transformations.specs.Log.{IsLog, commands_of};
ghost use Rattle.transformations.specs.declared.entry.Entry.{Entry as LogEntry};
ghost use Rattle.follower_log.specs.Follower.{Performs, FollowerState, IsAdvance, IsCutFrom, advanced, by_epoch, empty_follower, hand_above, hand_entry, hand_image, hand_new, hand_valid, is_next, lacks_only, waiting_at};
ghost use Rattle.follower_log.specs.code.WaitingEntries.{Advances, ComesFirst};
ghost use Rattle.follower_log.specs.declared.took.Took.{Took};
ghost use Rattle.follower_log.specs.Prefix.{IsEntryOf, IsImageOf, StandsAfter, StandsFor, Taken, nothing_taken, with_entry, with_image};

use crate::fault::FollowerFault;
use crate::took::Took;
use crate::waiting::Waiting;
use cluster_metadata::{AdmitFault, ImageFault, Metadata};
use cluster_terms::{Memory, TryCopy};
use std::alloc::Global;
use std::marker::Model;
use std::mem::replace;
use transformations::{Entry, Image};

/// The most entries that wait at a follower.
const MOST_WAITING: usize = 1_024;

/// A follower of a log: the metadata at its epoch, and the entries that wait for those before them. Contracts see it as
/// its image and these entries, which ascend by epoch.
///
/// It is handed entries and images of the log in any order. It applies each entry once all before it are there, so it
/// shows the state of the longest prefix without a gap. The value must be consumed, by `close`.
pub struct Follower {
    alloc: Global,
    metadata: Metadata,
    waiting: Waiting,
}

impl Model for Follower {
    ghost use Rattle.follower_log.specs.Follower.{FollowerState};
    ghost use Rattle.follower_log.specs.code.WaitingEntries.{CanWait};

    ghost Value = { FollowerState };

    ghost view = { λ f. record { image = f.metadata; waiting = f.waiting } };

    ghost invariant = { λ f. CanWait f.metadata.epoch f.waiting };
}

/// Compares an entry that came with the one of its epoch that waits, at a follower of this epoch.
fn compared(held: &Entry, came: &Entry, epoch: u64) -> Result<Took, FollowerFault>
    ensures step { (f : FollowerState) → f.image.epoch ≡ epoch → held.now.epoch ≡ came.now.epoch
        → Performs f (hand_above f came.now (Some held.now)) result f }
    ensures uncut { (least : ℕ) → IsCutFrom least result }
{
    if held.same(came) {
        Ok(Took::Held(epoch))
    } else {
        Err(FollowerFault::Fork(came.epoch, held.copy()?, came.copy()?))
    }
}

impl Follower {
    /// The follower before it is handed anything: at epoch 0, and nothing waits. It stands for every log.
    pub fn empty(alloc: Global) -> Result<Follower, Memory>
        // Promise: a follower begins at epoch 0, and nothing waits. Guards: calls/follower.rt.
        ensures empty { IfOk result (λ follower. follower ≡ empty_follower) }
        // Promise: the follower before it is handed anything stands for every log. Guards: law.
        ensures stands { (log : List LogEntry) → StandsFor log nothing_taken empty_follower }
    {
        Ok(Follower {
            alloc,
            metadata: Metadata::empty(alloc)?,
            waiting: Waiting::empty(alloc),
        })
    }

    /// The epoch of the metadata.
    pub fn epoch(&self) -> u64
        // Promise: it shows its epoch, its metadata and how many entries wait. Guards: calls/follower.rt.
        ensures { result ≡ self.now.image.epoch }
    {
        self.metadata.epoch()
    }

    /// The number of waiting entries.
    pub fn waiting(&self) -> usize
        ensures { result ≡ length self.now.waiting }
    {
        self.waiting.len()
    }

    /// The metadata at the follower's epoch.
    pub fn metadata(&self) -> &Metadata
        ensures { result.now ≡ self.now.image }
    {
        &self.metadata
    }

    /// Hands over an entry, whose epoch is at most 65,536. An entry of the next epoch is applied, and then each waiting
    /// entry that comes to be the next; an entry past a gap waits.
    ///
    /// `Old`, `Held` and `Full` change nothing. Errors: `Fork` if another entry of this epoch waits, which changes
    /// nothing; `Refused` if an entry that came to be the next is refused, then this entry is dropped, the follower is
    /// at the epoch before it, and the others still wait; `Memory` if memory runs out before the entry is taken, which
    /// changes nothing; `MemoryAt` if it runs out later.
    ///
    /// Handed entries of one log and images of its states, the follower shows the state of the longest prefix without a
    /// gap after each `At`, and `Fork` and `Refused` don't come.
    ///
    /// Cost: a search among the waiting entries, and that of `Metadata::apply` for each entry that is applied.
    pub fn deliver(&mut self, entry: &Entry) -> Result<Took, FollowerFault>
        requires formed { IsTrue (is_command entry.now.cmd) }
        requires epoch { entry.now.epoch ≤ most_epochs }
        // Promise: an entry is old, held, a fork, one too many, or taken, and then waiting entries that come next are
        // applied; a refused one is dropped, and the others wait. Guards: full_buffer_skips_gap.edit,
        // a_fork_is_held.edit, calls/follower.rt, tried.
        // Promise: after `Memory` nothing changed; after `MemoryAt` what was handed was taken, the step is cut at that
        // epoch, and the next entry waits. Guards: by `step`.
        ensures step { Performs self.old (hand_entry self.old entry.now) result self.new }
        // Promise: the epoch of `MemoryAt` isn't below the one before the call, and an entry of the next epoch that
        // can't be applied isn't taken. Guards: by `step`.
        ensures next { is_next self.old.image entry.now ≡ true → IsCutFrom (self.old.image.epoch + 1) result }
        ensures least { IsCutFrom self.old.image.epoch result }
        // Promise: handed entries of one log and its images, a follower shows a state reached without a gap, after `At`
        // the longest; no fork, refusal or bad image comes. Guards: by `step`.
        ensures shows { (log : List LogEntry) (taken : Taken) → IsLog log → IsEntryOf log entry.now
            → StandsFor log taken self.old
            → StandsAfter log taken (with_entry taken entry.now.epoch) result self.new }
    {
        self.hand_over(entry)
    }

    /// Hands over an entry, as `deliver` does.
    fn hand_over(&mut self, entry: &Entry) -> Result<Took, FollowerFault>
        requires formed { IsTrue (is_command entry.now.cmd) }
        requires epoch { entry.now.epoch ≤ most_epochs }
        ensures step { Performs self.old (hand_entry self.old entry.now) result self.new }
        ensures next { is_next self.old.image entry.now ≡ true → IsCutFrom (self.old.image.epoch + 1) result }
    {
        let epoch = self.epoch();
        if entry.epoch <= epoch {
            return Ok(Took::Old(epoch));
        }
        match self.waiting.at(entry.epoch) {
            Some(held) => compared(held, entry, epoch),
            None => self.take(entry),
        }
    }

    /// Whether the follower lacks the entry of this epoch alone, of all up to the epoch `last`: it is the next one, it
    /// doesn't wait, and as many entries wait as there are epochs after it. The cost is a search among the waiting
    /// entries, if their number fits.
    pub fn lacks_only(&self, epoch: u64, last: u64) -> bool
        // Promise: it tells whether an entry is all that it lacks up to some epoch. Guards: followers.rt, tried.
        ensures { result ≡ lacks_only self.now epoch last }
    {
        epoch > self.epoch()
            && epoch - self.epoch() == 1
            && last >= epoch
            && last - epoch == self.waiting.len() as u64
            && self.waiting.at(epoch).is_none()
    }

    /// Takes over the metadata of the last epoch of a log, if no movement is in flight in them, and forgets the entries
    /// that wait. Returns whether it did. If the follower lacks one entry of this log, it comes to the same as
    /// `deliver` with this entry, without applying it and those that wait. If memory runs out, nothing changes.
    ///
    /// Cost: that of `Metadata::follow`.
    pub fn end_at(&mut self, last: &Metadata) -> Result<bool, Memory>
        // Promise: it takes over metadata without movements, and forgets what waits; if it lacks one entry of the log
        // that leads there, `deliver` of it comes to the same. Guards: followers.rt, tried.
        ensures state { IfOk result (λ ended. IsTrue ended → self.new ≡ record { image = last.now; waiting = [] }) }
        ensures stays { IfOk result (λ ended. IsFalse ended → self.new ≡ self.old) }
        ensures unchanged { OnErr result (self.new ≡ self.old) }
        ensures idle { IfOk result (λ ended. IsTrue ended ↔ (last.now.sequences ≡ [])) }
        ensures step { IfOk result (λ ended. IsTrue ended → (log : List LogEntry) (taken : Taken) (entry : LogEntry)
            → IsLog log → IsEntryOf log entry
            → StandsFor log taken self.old → lacks_only self.old entry.epoch (length log) ≡ true
            → last.now ≡ state_after (commands_of log) (length log)
            → Performs self.old (hand_entry self.old entry) (Ok (Took.At last.now.epoch)) self.new) }
    {
        if !self.metadata.follow(last)? {
            return Ok(false);
        }
        self.waiting.clear();
        Ok(true)
    }

    /// Takes an entry above the follower's epoch, at whose epoch none waits, unless too many wait.
    fn take(&mut self, entry: &Entry) -> Result<Took, FollowerFault>
        requires formed { IsTrue (is_command entry.now.cmd) }
        requires above { self.old.image.epoch < entry.now.epoch }
        requires epoch { entry.now.epoch ≤ most_epochs }
        requires none { waiting_at self.old.waiting entry.now.epoch ≡ None }
        ensures step { Performs self.old (hand_new self.old entry.now) result self.new }
        ensures next { is_next self.old.image entry.now ≡ true → IsCutFrom (self.old.image.epoch + 1) result }
    {
        let epoch = self.epoch();
        if entry.epoch == epoch + 1 {
            return self.take_next(entry);
        }
        if self.waiting.len() >= MOST_WAITING {
            return Ok(Took::Full(epoch));
        }
        self.waiting.insert(entry)?;
        self.apply_waiting()
    }

    /// Applies the entry of the next epoch, and then the waiting ones that come to be the next.
    fn take_next(&mut self, entry: &Entry) -> Result<Took, FollowerFault>
        requires formed { IsTrue (is_command entry.now.cmd) }
        requires next { entry.now.epoch ≡ self.old.image.epoch + 1 }
        requires epoch { entry.now.epoch ≤ most_epochs }
        requires none { waiting_at self.old.waiting entry.now.epoch ≡ None }
        ensures step { Performs self.old
            (advanced self.old.image (put by_epoch entry.now self.old.waiting)) result self.new }
        ensures past { IsCutFrom (self.old.image.epoch + 1) result }
    {
        match self.metadata.apply(&entry.cmd) {
            Ok(()) => self.apply_waiting(),
            Err(AdmitFault::Refused(refusal)) => Err(FollowerFault::Refused(entry.epoch, refusal)),
            Err(AdmitFault::Memory) => Err(FollowerFault::Memory),
        }
    }

    /// Hands over an image. An image above the follower's epoch replaces the follower's. The waiting entries that it
    /// contains are dropped, and then those that come to be the next are applied.
    ///
    /// `Old` changes nothing. Errors: `BadImage` if the image isn't valid, as `Metadata::from_image` finds; this is
    /// checked first, and changes nothing; `Refused`, `Memory` and `MemoryAt`, as for `deliver`. Handed entries of one
    /// log and images of its states, the follower shows the state of the longest prefix without a gap after each `At`,
    /// and `BadImage` and `Refused` don't come.
    ///
    /// Cost: that of `Metadata::from_image`, and that of `Metadata::apply` for each entry that is applied.
    pub fn snapshot(&mut self, image: Image) -> Result<Took, FollowerFault>
        // Promise: an image that isn't valid is refused with the first rule that it breaks, at any epoch, and nothing
        // changes. Guards: bad_images.rt, replays.rt.
        // Promise: a valid image above the follower's epoch replaces its image, waiting entries that it contains are
        // dropped, and those that come next are applied. Guards: snapshot_keeps_buffering.edit, calls/follower.rt,
        // replays.rt, tried.
        ensures step { Performs self.old (hand_image self.old image) result self.new }
        ensures least { IsCutFrom self.old.image.epoch result }
        ensures shows { (log : List LogEntry) (taken : Taken) → IsLog log → IsImageOf log image
            → StandsFor log taken self.old
            → StandsAfter log taken (with_image taken image.epoch) result self.new }
    {
        self.hand_over_image(image)
    }

    /// Hands over an image, as `snapshot` does. Metadata is made of the image before the epochs are compared.
    fn hand_over_image(&mut self, image: Image) -> Result<Took, FollowerFault>
        ensures { Performs self.old (hand_image self.old image) result self.new }
    {
        match Metadata::from_image(self.alloc, image) {
            Ok(metadata) => self.take_image(metadata),
            Err((_image, fault)) => match fault {
                ImageFault::Bad(bad) => Err(FollowerFault::BadImage(bad)),
                ImageFault::Memory => Err(FollowerFault::Memory),
            },
        }
    }

    /// Hands over the metadata of an image.
    fn take_image(&mut self, metadata: Metadata) -> Result<Took, FollowerFault>
        ensures { Performs self.old (hand_valid self.old metadata) result self.new }
    {
        let epoch = self.epoch();
        if metadata.epoch() <= epoch {
            metadata.close();
            return Ok(Took::Old(epoch));
        }
        self.waiting.drop_to(metadata.epoch());
        replace(&mut self.metadata, metadata).close();
        self.apply_waiting()
    }

    /// Applies the waiting entries, one after another, as long as the first of them is the next one. After memory ran
    /// out, this goes on from where the follower is.
    ///
    /// Errors: `Refused` and `MemoryAt`, as for `deliver`. Cost: that of `Metadata::apply` for each entry.
    pub fn advance(&mut self) -> Result<Took, FollowerFault>
        // Promise: waiting entries are applied as long as the first is the next one; the answer is `At`, `Refused` or
        // `MemoryAt`, and goes no further back. Guards: calls/follower.rt.
        ensures step { Performs self.old (advanced self.old.image self.old.waiting) result self.new }
        ensures alone { IsAdvance self.old.image.epoch result }
        ensures shows { (log : List LogEntry) (taken : Taken) → IsLog log
            → StandsFor log taken self.old → StandsAfter log taken taken result self.new }
    {
        self.apply_waiting()
    }

    /// Applies the waiting entries, as `advance` does.
    fn apply_waiting(&mut self) -> Result<Took, FollowerFault>
        ensures { Advances self.old result self.new }
    {
        loop {
            match self.apply_first() {
                Ok(true) => {}
                Ok(false) => return Ok(Took::At(self.epoch())),
                Err(fault) => return Err(fault),
            }
        }
    }

    /// Applies the first waiting entry if it is the next one, and returns whether it is.
    fn apply_first(&mut self) -> Result<bool, FollowerFault>
        ensures { ComesFirst self.old result self.new }
    {
        let epoch = self.metadata.epoch();
        match self.waiting.first() {
            Some(entry) if entry.epoch - epoch == 1 => match self.metadata.apply(&entry.cmd) {
                Ok(()) => {
                    self.waiting.drop_first();
                    Ok(true)
                }
                Err(AdmitFault::Refused(refusal)) => {
                    self.waiting.drop_first();
                    Err(FollowerFault::Refused(epoch + 1, refusal))
                }
                Err(AdmitFault::Memory) => Err(FollowerFault::MemoryAt(epoch)),
            },
            _ => Ok(false),
        }
    }

    /// Consumes the follower.
    pub fn close(self) {
        let Follower {
            alloc: _,
            metadata,
            waiting: _,
        } = self;
        metadata.close();
    }
}
