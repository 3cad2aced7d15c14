//! The entries that wait, by epoch.

ghost use Rattle.std.specs.Prelude.{◌≡◌, [], drop, filter, length, nat_lt, OnErr, OnOk};
ghost use Rattle.std.specs.Option.{option_copied};
ghost use Rattle.cluster_terms.specs.Ascending.{put};
ghost use Rattle.follower_log.specs.Follower.{by_epoch, waiting_at};
ghost use Rattle.follower_log.specs.code.WaitingEntries.{AreAbove, first_entry};

use cluster_terms::{Memory, TryCopy};
use std::alloc::Global;
use std::collections::BTreeMap;
use std::marker::Model;
use transformations::Entry;

/// Entries that ascend by epoch, no two at one epoch, in an ordered map. At most 1,024 wait. An entry of the next epoch
/// is applied without waiting, so it isn't taken if memory runs out.
#[derive(Drop)]
pub struct Waiting {
    entries: BTreeMap<u64, Entry>,
}

impl Model for Waiting {
    ghost use Rattle.std.specs.Prelude.{List};
    ghost use Rattle.std.specs.BTreeMap.{values};
    ghost use Rattle.transformations.specs.declared.entry.Entry.{Entry};
    ghost use Rattle.follower_log.specs.code.WaitingEntries.{AreKeyed};

    ghost Value = { List Entry };

    ghost view = { λ waiting. values waiting.entries };

    ghost invariant = { λ waiting. AreKeyed waiting.entries.entries };
}

impl Waiting {
    /// No entry. Takes no memory.
    pub fn empty(alloc: Global) -> Waiting
        ensures { result ≡ [] }
    {
        Waiting {
            entries: BTreeMap::new(alloc),
        }
    }

    /// The number of entries.
    pub fn len(&self) -> usize
        ensures { result ≡ length self.now }
    {
        self.entries.len()
    }

    /// The entry of an epoch. The cost is a search among the entries.
    pub fn at(&self, epoch: u64) -> Option<&Entry>
        ensures { option_copied result ≡ waiting_at self.now epoch }
    {
        self.entries.get(&epoch)
    }

    /// The entry of the least epoch.
    pub fn first(&self) -> Option<&Entry>
        ensures { option_copied result ≡ first_entry self.now }
    {
        match self.entries.first_key_value() {
            Some((_epoch, entry)) => Some(entry),
            None => None,
        }
    }

    /// Adds a copy of an entry. An entry of its epoch gives way to it. If memory runs out, nothing is added. The cost is
    /// a search among the entries.
    pub fn insert(&mut self, entry: &Entry) -> Result<(), Memory>
        ensures ok { OnOk result (self.new ≡ put by_epoch entry.now self.old) }
        ensures err { OnErr result (self.new ≡ self.old) }
    {
        let _replaced = self.entries.insert(entry.epoch, entry.copy()?)?;
        Ok(())
    }

    /// Removes the entry of the least epoch, if there is one.
    pub fn drop_first(&mut self)
        ensures others { self.new ≡ drop 1 self.old }
        ensures above { AreAbove (first_entry self.old) self.new }
    {
        let _first = self.entries.pop_first();
    }

    /// Drops the entries whose epoch is at most this one. Takes no memory.
    pub fn drop_to(&mut self, epoch: u64)
        ensures { self.new ≡ filter (λ entry. nat_lt epoch entry.epoch) self.old }
    {
        self.entries.retain(|_, entry| entry.epoch > epoch);
    }

    /// Removes all entries.
    pub fn clear(&mut self)
        ensures { self.new ≡ [] }
    {
        self.entries.clear();
    }
}
