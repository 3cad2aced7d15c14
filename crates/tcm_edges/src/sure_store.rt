ghost use Rattle.std.specs.Prelude.{◌≡◌, ◌++◌, Some, IfErr, IfOk, IsOkUnless, MatchOption, None, OnErr, OnOk};
ghost use Rattle.std.specs.FinMap as map;
ghost use Rattle.tcm_edges.specs.Causes.{count_load, count_write, OnFailed};
ghost use Rattle.tcm_edges.specs.Files.{file_of, content, loaded_of, IsLoad, ChangesFile, OthersKept, GainsAll, GainsPart, IsReplaced, IsOldOrNew};
ghost use Rattle.tcm_edges.specs.Shown.{CrashLeaves, ShowsNoMore};
ghost use Rattle.tcm_edges.specs.Writes.{KeptAtMemory, TellsAlike};

use crate::fault::{LoadFault, WriteFault};
use crate::store::{Loaded, Store};
use crate::stored_file::{StoredFile, position_of};
use crate::text::text_of;
use cluster_terms::Memory;
use std::alloc::Global;
use std::marker::Model;

/// Files in memory. A call fails only if memory runs out. Finding a file costs a comparison with each name stored
/// before its own.
#[derive(Debug, Drop)]
pub struct SureStore {
    stored: Vec<StoredFile>,
}

impl Model for SureStore {
    ghost use Rattle.std.specs.Prelude.{List, ℕ};
    ghost use Rattle.std.specs.Coded.{coded_ℕ, coded_list};
    ghost use Rattle.std.specs.FinMap as map;
    ghost use Rattle.tcm_edges.specs.Files.{Files};

    ghost Value = { Files };

    ghost coded = { map.code (coded_list coded_ℕ) (coded_list coded_ℕ) };

    ghost view = { λ store. map.from_entries store.stored.items };
}

impl SureStore {
    /// An empty store.
    pub fn new(alloc: Global) -> SureStore
        ensures { result ≡ map.empty }
    {
        SureStore {
            stored: Vec::new(alloc),
        }
    }

    /// The bytes of a file, or `None` if it is absent.
    pub fn file(&self, name: &str) -> Option<&[u8]>
        // Promise: a file is found by its name alone. Guards: edges.rt, tried.
        ensures { MatchOption result (file_of self.now name.now ≡ None)
            (λ bytes. file_of self.now name.now ≡ Some bytes.now) }
    {
        match position_of(&self.stored, name) {
            Some(place) => {
                let file = &self.stored[place];
                Some(file.bytes.as_slice())
            }
            None => None,
        }
    }

    /// Replaces the contents of a file, and makes the file if it is absent. If memory runs out, changes nothing.
    pub fn put(&mut self, name: &str, bytes: &[u8]) -> Result<(), Memory>
        ensures ok { OnOk result (self.new ≡ map.insert self.old name.now bytes.now) }
        ensures err { OnErr result (self.new ≡ self.old) }
    {
        let alloc = *self.stored.allocator();
        let bytes = Vec::from_slice(alloc, bytes)?;
        match position_of(&self.stored, name) {
            Some(place) => {
                let file = &mut self.stored[place];
                file.bytes = bytes;
            }
            None => {
                let name = String::from_str(alloc, name)?;
                self.stored.push(StoredFile { name, bytes })?;
            }
        }
        Ok(())
    }

    /// Adds bytes at the end of a file, and makes the file if it is absent. If memory runs out, changes nothing.
    pub(crate) fn extend(&mut self, name: &str, bytes: &[u8]) -> Result<(), Memory>
        ensures ok { OnOk result (self.new
            ≡ map.insert self.old name.now (content (file_of self.old name.now) ++ bytes.now)) }
        ensures err { OnErr result (self.new ≡ self.old) }
    {
        match position_of(&self.stored, name) {
            Some(place) => {
                let file = &mut self.stored[place];
                file.bytes.extend_from_slice(bytes)?;
                Ok(())
            }
            None => self.put(name, bytes),
        }
    }
}

impl Store for SureStore {
    ghost files = { λ store. Some store };

    ghost shows = { λ store f. f ≡ store };

    ghost faults = { λ _. 0 };

    /// Returns a copy of the bytes. The only error is `Memory`, and the files never change.
    fn load(&mut self, name: &str, limit: u64) -> Result<Loaded, LoadFault>
        // Promise: a file as large as the limit is loaded. Guards: edges.rt, tried.
        ensures found { IfOk result (λ loaded. IsLoad (Some self.old) name.now limit loaded) }
        ensures kept { Some self.new ≡ Some self.old }
        ensures crash { ShowsNoMore (λ f. f ≡ self.old) (λ f. f ≡ self.new) }
        ensures cause { 0 ≡ count_load result 0 }
        ensures sure { IsOkUnless result LoadFault.Memory }
        ensures answer { IfOk result (λ loaded. loaded ≡ loaded_of (file_of self.old name.now) limit) }
        ensures unchanged { self.new ≡ self.old }
    {
        let Some(bytes) = self.file(name) else {
            return Ok(Loaded::Absent);
        };
        let size = bytes.len() as u64;
        if limit < size {
            return Ok(Loaded::TooLarge(size));
        }
        let text = text_of(*self.stored.allocator(), bytes)?;
        Ok(Loaded::Bytes(text))
    }

    /// Returns `Memory` if memory runs out; then nothing changes. There is no other error.
    fn append(&mut self, name: &str, bytes: &[u8]) -> Result<(), WriteFault>
        // Promise: an append adds at the end. Guards: edges.rt, tried.
        ensures ok { OnOk result
            (ChangesFile (GainsAll bytes.now) (Some self.old) (Some self.new) name.now) }
        ensures failed { IfErr result (λ fault. OnFailed fault
            (ChangesFile (GainsPart bytes.now) (Some self.old) (Some self.new) name.now)) }
        ensures others { OthersKept (Some self.old) (Some self.new) name.now }
        ensures cause { 0 ≡ count_write result 0 }
        ensures memory { KeptAtMemory (Some self.old) (Some self.new) result }
        ensures crash { CrashLeaves (GainsPart bytes.now) (λ f. f ≡ self.old) (λ f. f ≡ self.new) (Some self.new) name.now result }
        ensures told { TellsAlike (Some self.old) (Some self.new) }
        ensures sure { IsOkUnless result WriteFault.Memory }
        ensures after { OnOk result (self.new
            ≡ map.insert self.old name.now (content (file_of self.old name.now) ++ bytes.now)) }
        ensures unchanged { OnErr result (self.new ≡ self.old) }
    {
        self.extend(name, bytes)?;
        Ok(())
    }

    /// Returns `Memory` if memory runs out; then nothing changes. There is no other error.
    fn replace(&mut self, name: &str, bytes: &[u8]) -> Result<(), WriteFault>
        ensures ok { OnOk result
            (ChangesFile (IsReplaced bytes.now) (Some self.old) (Some self.new) name.now) }
        ensures failed { IfErr result (λ fault. OnFailed fault
            (ChangesFile (IsOldOrNew bytes.now) (Some self.old) (Some self.new) name.now)) }
        ensures others { OthersKept (Some self.old) (Some self.new) name.now }
        ensures cause { 0 ≡ count_write result 0 }
        ensures memory { KeptAtMemory (Some self.old) (Some self.new) result }
        ensures crash { CrashLeaves (IsOldOrNew bytes.now) (λ f. f ≡ self.old) (λ f. f ≡ self.new) (Some self.new) name.now result }
        ensures told { TellsAlike (Some self.old) (Some self.new) }
        ensures sure { IsOkUnless result WriteFault.Memory }
        ensures after { OnOk result (self.new ≡ map.insert self.old name.now bytes.now) }
        ensures unchanged { OnErr result (self.new ≡ self.old) }
    {
        self.put(name, bytes)?;
        Ok(())
    }
}
