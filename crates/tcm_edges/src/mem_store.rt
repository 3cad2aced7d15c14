ghost use Rattle.std.specs.Prelude.{◌≡◌, ◌↔◌, Some, IfErr, IfOk, IsErrOf, IsNone, IsSome, IsSomeAnd, MatchOption, None, OnErr, OnOk, take};
ghost use Rattle.std.specs.FinMap as map;
ghost use Rattle.tcm_edges.specs.Calls.{fresh_plan, next_keep, call_passed, failed};
ghost use Rattle.tcm_edges.specs.Causes.{count_load, count_write, OnFailed, OnMemory, OnLoadFailed, OnLoadMemory};
ghost use Rattle.tcm_edges.specs.FailingFiles.{after_append, after_failed_append, after_failed_replace};
ghost use Rattle.tcm_edges.specs.Files.{file_of, loaded_of, IsLoad, ChangesFile, OthersKept, GainsAll, GainsPart, IsReplaced, IsOldOrNew};
ghost use Rattle.tcm_edges.specs.Shown.{CrashLeaves, ShowsNoMore};
ghost use Rattle.tcm_edges.specs.Writes.{KeptAtMemory, TellsAlike};

use crate::calls::Calls;
use crate::fault::{LoadFault, WriteFault};
use crate::store::{Loaded, Store};
use crate::store_fail::{StoreFail, StoreFailList};
use crate::sure_store::SureStore;
use cluster_terms::Memory;
use std::alloc::Global;
use std::marker::Model;

/// Files in memory, with a list of the calls that are to fail. Loads, appends and replaces are counted together, from
/// 1; a call that runs out of memory is not counted. A call fails only if it is listed, or if memory runs out. If a
/// call is listed twice, the first entry counts.
#[derive(Debug, Drop)]
pub struct MemStore {
    store: SureStore,
    calls: Calls<StoreFail>,
}

impl Model for MemStore {
    ghost use Rattle.tcm_edges.specs.FailingFiles.{FailingFiles, failing_files_code};

    ghost Value = { FailingFiles };

    ghost coded = { failing_files_code };

    ghost view = { λ store. record { files = store.store; plan = store.calls } };
}

/// The first `keep` bytes, or all bytes if there are fewer.
fn first_bytes(bytes: &[u8], keep: u64) -> &[u8]
    ensures { result.now ≡ take keep bytes.now }
{
    if keep < bytes.len() as u64 {
        &bytes[..keep as usize]
    } else {
        bytes
    }
}

/// Adds the bytes that a failed append keeps. If there are none, or memory runs out, changes nothing.
fn append_kept(store: &mut SureStore, name: &str, kept: &[u8]) -> Result<(), Memory>
    ensures ok { OnOk result (store.new ≡ after_failed_append store.old name.now kept.now) }
    ensures err { OnErr result (store.new ≡ store.old) }
{
    if kept.is_empty() {
        return Ok(());
    }
    store.extend(name, kept)
}

/// Stores the new contents that a failed replace keeps. If `keep` is 0, or memory runs out, changes nothing.
fn replace_kept(store: &mut SureStore, name: &str, bytes: &[u8], keep: u64) -> Result<(), Memory>
    ensures ok { OnOk result (store.new ≡ after_failed_replace store.old name.now bytes.now keep) }
    ensures err { OnErr result (store.new ≡ store.old) }
{
    if keep == 0 {
        return Ok(());
    }
    store.put(name, bytes)
}

impl MemStore {
    /// An empty store in which these calls fail.
    pub fn new(alloc: Global, fails: StoreFailList) -> MemStore
        ensures files { result.files ≡ map.empty }
        ensures plan { result.plan ≡ fresh_plan fails }
    {
        MemStore {
            store: SureStore::new(alloc),
            calls: Calls::new(fails),
        }
    }

    /// The bytes of a file, or `None` if it is absent. This counts as no call.
    pub fn file(&self, name: &str) -> Option<&[u8]>
        ensures { MatchOption result (file_of self.now.files name.now ≡ None)
            (λ bytes. file_of self.now.files name.now ≡ Some bytes.now) }
    {
        self.store.file(name)
    }

    /// Replaces the contents of a file, and makes the file if it is absent. This counts as no call, and never fails by
    /// the list. If memory runs out, changes nothing.
    pub fn put(&mut self, name: &str, bytes: &[u8]) -> Result<(), Memory>
        ensures ok { OnOk result
            (self.new ≡ record self.old { files = map.insert self.old.files name.now bytes.now }) }
        ensures err { OnErr result (self.new ≡ self.old) }
    {
        self.store.put(name, bytes)
    }
}

impl Store for MemStore {
    ghost files = { λ store. Some store.files };

    ghost shows = { λ store f. f ≡ store.files };

    ghost faults = { λ store. store.plan.faults };

    /// A listed call returns `Failed`, and no other call does.
    fn load(&mut self, name: &str, limit: u64) -> Result<Loaded, LoadFault>
        ensures found { IfOk result (λ loaded. IsLoad (Some self.old.files) name.now limit loaded) }
        ensures kept { Some self.new.files ≡ Some self.old.files }
        ensures crash { ShowsNoMore (λ f. f ≡ self.old.files) (λ f. f ≡ self.new.files) }
        ensures cause { self.new.plan.faults ≡ count_load result self.old.plan.faults }
        ensures fails { IsErrOf result LoadFault.Failed ↔ IsSome (next_keep self.old.plan) }
        ensures answer { IfOk result (λ loaded. loaded ≡ loaded_of (file_of self.old.files name.now) limit) }
        ensures after { OnOk result (self.new ≡ record self.old { plan = call_passed self.old.plan }) }
        ensures after_failed { IfErr result (λ fault. OnLoadFailed fault
            (self.new ≡ record self.old { plan = failed self.old.plan })) }
        ensures unchanged { IfErr result (λ fault. OnLoadMemory fault (self.new ≡ self.old)) }
    {
        if self.calls.next_keep().is_some() {
            self.calls.fail();
            return Err(LoadFault::Failed);
        }
        let loaded = self.store.load(name, limit)?;
        self.calls.pass();
        Ok(loaded)
    }

    /// A listed call returns `Failed`, after the file gained the first `keep` bytes of the piece, or all bytes if there
    /// are fewer. If there are none, an absent file stays absent. If memory runs out while the bytes are stored,
    /// returns `Memory` and changes nothing.
    fn append(&mut self, name: &str, bytes: &[u8]) -> Result<(), WriteFault>
        ensures ok { OnOk result
            (ChangesFile (GainsAll bytes.now) (Some self.old.files) (Some self.new.files) name.now) }
        ensures failed { IfErr result (λ fault. OnFailed fault
            (ChangesFile (GainsPart bytes.now) (Some self.old.files) (Some self.new.files) name.now)) }
        ensures others { OthersKept (Some self.old.files) (Some self.new.files) name.now }
        ensures cause { self.new.plan.faults ≡ count_write result self.old.plan.faults }
        ensures memory { KeptAtMemory (Some self.old.files) (Some self.new.files) result }
        ensures crash { CrashLeaves (GainsPart bytes.now) (λ f. f ≡ self.old.files) (λ f. f ≡ self.new.files) (Some self.new.files) name.now result }
        ensures told { TellsAlike (Some self.old.files) (Some self.new.files) }
        // Promise: a call of a store fails only if it is listed, and a call that succeeds isn't listed; the first entry
        // for a call counts. Guards: edges.rt, tried.
        ensures unlisted { OnOk result (IsNone (next_keep self.old.plan)) }
        // Promise: a failed append keeps the first bytes of its piece, as listed; a failed replacement leaves the old
        // file or the new one, as listed; a failed load changes nothing. Guards: edges.rt, tried.
        ensures listed { IfErr result (λ fault. OnFailed fault (IsSomeAnd (next_keep self.old.plan)
            (λ keep. self.new ≡ record {
              files = after_failed_append self.old.files name.now (take keep bytes.now);
              plan = failed self.old.plan;
            }))) }
        ensures after { OnOk result (self.new ≡ record {
          files = after_append self.old.files name.now bytes.now;
          plan = call_passed self.old.plan;
        }) }
        // Promise: if memory runs out, files and counts are as before. Guards: by memory.
        ensures unchanged { IfErr result (λ fault. OnMemory fault (self.new ≡ self.old)) }
    {
        let Some(keep) = self.calls.next_keep() else {
            self.store.append(name, bytes)?;
            self.calls.pass();
            return Ok(());
        };
        append_kept(&mut self.store, name, first_bytes(bytes, keep))?;
        self.calls.fail();
        Err(WriteFault::Failed)
    }

    /// A listed call returns `Failed`; then the file is as before if `keep` is 0, and otherwise has the new contents.
    /// If memory runs out while these are stored, returns `Memory` and changes nothing.
    fn replace(&mut self, name: &str, bytes: &[u8]) -> Result<(), WriteFault>
        ensures ok { OnOk result
            (ChangesFile (IsReplaced bytes.now) (Some self.old.files) (Some self.new.files) name.now) }
        ensures failed { IfErr result (λ fault. OnFailed fault
            (ChangesFile (IsOldOrNew bytes.now) (Some self.old.files) (Some self.new.files) name.now)) }
        ensures others { OthersKept (Some self.old.files) (Some self.new.files) name.now }
        ensures cause { self.new.plan.faults ≡ count_write result self.old.plan.faults }
        ensures memory { KeptAtMemory (Some self.old.files) (Some self.new.files) result }
        ensures crash { CrashLeaves (IsOldOrNew bytes.now) (λ f. f ≡ self.old.files) (λ f. f ≡ self.new.files) (Some self.new.files) name.now result }
        ensures told { TellsAlike (Some self.old.files) (Some self.new.files) }
        ensures unlisted { OnOk result (IsNone (next_keep self.old.plan)) }
        ensures listed { IfErr result (λ fault. OnFailed fault (IsSomeAnd (next_keep self.old.plan)
            (λ keep. self.new ≡ record {
              files = after_failed_replace self.old.files name.now bytes.now keep;
              plan = failed self.old.plan;
            }))) }
        ensures after { OnOk result (self.new ≡ record {
          files = map.insert self.old.files name.now bytes.now;
          plan = call_passed self.old.plan;
        }) }
        ensures unchanged { IfErr result (λ fault. OnMemory fault (self.new ≡ self.old)) }
    {
        let Some(keep) = self.calls.next_keep() else {
            self.store.replace(name, bytes)?;
            self.calls.pass();
            return Ok(());
        };
        replace_kept(&mut self.store, name, bytes, keep)?;
        self.calls.fail();
        Err(WriteFault::Failed)
    }
}
