ghost use Rattle.std.specs.Prelude.{◌≡◌, ◌+◌, ◌-◌, ◌<◌, [], ◌∷◌, ◌++◌, length, take, None, OnOk, OnErr, IfErr};
ghost use Rattle.std.specs.Option.{option_copied};
ghost use Rattle.transformations.specs.Log.{AreEntries, entry_with_id};
ghost use Rattle.epoch_log.specs.Epochs.{entry_at};

use cluster_terms::Memory;
use indexmap::IndexMap;
use std::alloc::Global;
use std::marker::Model;
use transformations::Entry;

/// The accepted entries in order of epoch. The epochs are 1, 2 and so on, and no two entries have the same id.
#[derive(Debug, Drop)]
pub struct Log {
    /// The entries by id, in order of epoch.
    entries: IndexMap<u64, Entry>,
    /// No entry has an id above this one, and an id above it isn't looked up. After `pop` it may be too great, which
    /// costs a look-up.
    greatest_id: u64,
}

impl Model for Log {
    ghost use Rattle.std.specs.Prelude.{List};
    ghost use Rattle.std.specs.Map.{values_of};
    ghost use Rattle.transformations.specs.declared.entry.Entry.{Entry};
    ghost use Rattle.epoch_log.specs.Epochs.{AreUpTo, IsStored};

    ghost Value = { List Entry };

    ghost view = { λ log. values_of log.entries.entries };

    ghost invariant = { λ log. IsStored log.entries.entries
        × AreUpTo log.greatest_id (values_of log.entries.entries) };
}

impl Log {
    /// The log without entries. Takes no memory.
    pub fn empty(alloc: Global) -> Log
        // Promise: a log begins without entries. Guards: calls/log.rt.
        ensures { result ≡ [] }
    {
        Log {
            entries: IndexMap::new(alloc),
            greatest_id: 0,
        }
    }

    /// Adds an entry at the end. Its epoch is the next one, and no entry of the log has its id. If memory runs out,
    /// returns the entry and leaves the log unchanged. The cost is an insertion by hash.
    pub fn push(&mut self, entry: Entry) -> Result<(), (Entry, Memory)>
        requires epoch { entry.epoch ≡ length self.old + 1 }
        requires id { entry_with_id self.old entry.id ≡ None }
        // Promise: an entry with the next epoch and an id that no entry has is added at the end. Guards:
        // calls/log.rt.
        ensures ok { OnOk result (self.new ≡ self.old ++ entry ∷ []) }
        // Promise: if memory runs out, nothing changes and the entry is handed back. Guards:
        // an_entry_lost_without_memory.edit.
        ensures err { OnErr result (self.new ≡ self.old) }
        ensures handed_back { IfErr result (λ e. e.0 ≡ entry) }
    {
        let id = entry.id;
        match self.entries.insert(id, entry) {
            Ok(_) => {
                self.greatest_id = self.greatest_id.max(id);
                Ok(())
            }
            Err(failed) => {
                let (_id, entry) = failed.value;
                Err((entry, Memory))
            }
        }
    }

    /// Removes the last entry. The log has an entry. Takes no memory. The cost is a removal by hash.
    pub fn pop(&mut self)
        requires { 0 < length self.old }
        // Promise: the last entry is removed, and the others stay. Guards: calls/log.rt, tried.
        ensures { self.new ≡ take (length self.old - 1) self.old }
    {
        let _last = self.entries.pop();
    }

    /// The entry with this id. Returns `None` if and only if no entry has the id. The cost is a look-up by hash, or one
    /// comparison if the id is above all ids that the log has had.
    pub fn seen(&self, id: u64) -> Option<&Entry>
        // Promise: an entry is found by its id, and no other id is found. Guards: calls/log.rt, tried.
        ensures entry { option_copied result ≡ entry_with_id self.now id }
        // Promise: the entries of a log have the epochs 1, 2 and so on, and no two have the same id. Guards: by the
        // invariant of `Log`.
        ensures entries { AreEntries self.now }
    {
        if id > self.greatest_id {
            return None;
        }
        self.entries.get(&id)
    }

    /// The entry at this epoch. Returns `None` if and only if the epoch is 0 or above the last epoch. The cost is a
    /// read by position.
    pub fn entry(&self, epoch: u64) -> Option<&Entry>
        // Promise: an entry is found by its epoch, and no entry is at epoch 0 or above the last epoch. Guards:
        // calls/log.rt, tried.
        ensures entry { option_copied result ≡ entry_at self.now epoch }
        ensures entries { AreEntries self.now }
    {
        let entries = &self.entries;
        let at = epoch.checked_sub(1)?;
        let (_id, entry) = entries.get_index(at as usize)?;
        Some(entry)
    }

    /// The epoch of the last entry, 0 if the log is empty. This is the number of entries.
    pub fn last_epoch(&self) -> u64
        // Promise: the last epoch is the number of entries. Guards: calls/log.rt.
        ensures last { result ≡ length self.now }
        ensures entries { AreEntries self.now }
    {
        self.entries.len() as u64
    }
}
