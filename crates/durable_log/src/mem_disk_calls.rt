ghost use Rattle.std.specs.Prelude.{◌≡◌, ◌<◌, ◌≤◌, ◌+◌, ◌^◌, ◌++◌, ◌↔◌, ◌⊎◌, Some, length, take, drop, IfOk, IfSome, IsErr, IsTrue, MatchResult, OnErr, OnOk};
ghost use Rattle.std.specs.Io.{ReadsAtMost};
ghost use Rattle.tcm_edges.specs.Calls.{fresh_plan, next_fails, call_passed, failed};
ghost use Rattle.tcm_edges.specs.Causes.{count_read};
ghost use Rattle.durable_log.specs.Disk.{Changes, Only, Passes, ReadsAt, Same, Torn, Written};
ghost use Rattle.durable_log.specs.MemDisk.{bytes_on, counted, half_of, kept_on, plan_of, steps_of, CrashLeaves, OneStep, SameSteps};
ghost use Rattle.durable_log.specs.declared.mem_disk.Done.TheVariants.{Synced, Wrote};

use crate::disk::Disk;
use crate::disk_calls::DiskCalls;
use crate::mem_disk::{Done, MemDisk};
use cluster_terms::{ByteText, Memory, SmallList};
use std::alloc::Global;
use tcm_edges::{CallList, Failed};

/// The bytes with others in their place from there on.
fn overwritten(alloc: Global, old: &[u8], at: u64, bytes: &[u8]) -> Result<ByteText, Memory>
    requires { at ≤ length old.now }
    ensures { IfOk result (λ new. new ≡ take at old.now ++ bytes.now ++ drop (at + length bytes.now) old.now) }
{
    let place = at as usize;
    let mut next = ByteText::empty(alloc);
    next.extend(&old[..place])?;
    next.extend(bytes)?;
    if bytes.len() < old.len() - place {
        next.extend(&old[place + bytes.len()..])?;
    }
    Ok(next)
}

fn copy_of(alloc: Global, bytes: &[u8]) -> Result<ByteText, Memory>
    ensures { IfOk result (λ copy. copy ≡ bytes.now) }
{
    let mut copy = ByteText::empty(alloc);
    copy.extend(bytes)?;
    Ok(copy)
}

impl MemDisk {
    /// A disk with these bytes as its only image, at which the calls with these numbers fail.
    pub fn new(bytes: ByteText, fails: CallList) -> MemDisk
        // Promise: a disk in memory begins with its bytes as the only image. Guards: by the contract.
        ensures bytes { bytes_on result ≡ bytes }
        ensures image { Only (CrashLeaves result (steps_of result)) bytes }
        ensures plan { plan_of result ≡ fresh_plan fails }
    {
        let first = bytes.into_vec();
        let alloc = *first.allocator();
        MemDisk {
            alloc,
            first: ByteText::from_vec(first),
            changed: None,
            done: SmallList::empty(alloc),
            calls: DiskCalls::new(fails),
        }
    }

    /// The bytes on the disk. This counts as no call.
    pub fn bytes(&self) -> &[u8]
        ensures { result.now ≡ bytes_on self.now }
    {
        match &self.changed {
            Some(bytes) => bytes.as_slice(),
            None => self.first.as_slice(),
        }
    }

    /// The bytes after the last sync that succeeded.
    fn kept(&self) -> &[u8]
        ensures { result.now ≡ kept_on self.now }
    {
        let mut kept = self.first.as_slice();
        for step in self.done.as_slice() {
            if let Done::Synced(bytes) = step {
                kept = bytes.as_slice();
            }
        }
        kept
    }

    /// What a crash leaves that loses each write since the last sync that succeeded. This counts as no call.
    pub fn crash(&self) -> Result<ByteText, Memory>
        // Promise: what a disk in memory shows as the bytes after a crash, those after its last successful sync, is one
        // of its images. Guards: stops.rt.
        ensures image { IfOk result (λ bytes. ∥ CrashLeaves self.now (steps_of self.now) bytes ∥₁) }
        ensures kept { IfOk result (λ bytes. bytes ≡ kept_on self.now) }
    {
        copy_of(self.alloc, self.kept())
    }

    /// Writes bytes at a place, as the front of a write of `len` bytes. If memory runs out, or the disk would have more
    /// than 2^62 bytes, changes nothing.
    fn put(&mut self, at: u64, bytes: &[u8], len: u64) -> Result<(), Failed>
        requires place { at ≤ length (bytes_on self.old) }
        requires front { length bytes.now ≤ len }
        ensures bytes { OnOk result (Written at bytes.now (bytes_on self.old) (bytes_on self.new)) }
        ensures images { OnOk result (Passes steps_of CrashLeaves (Torn at len) self.old self.new) }
        ensures bound { OnOk result (at + length bytes.now ≤ 2 ^ 62) }
        ensures steps { OnOk result (OneStep (Wrote at len) self.old self.new) }
        ensures plan { plan_of self.new ≡ plan_of self.old }
        ensures err { OnErr result (self.new ≡ self.old) }
    {
        let Ok(next) = overwritten(self.alloc, self.bytes(), at, bytes) else {
            return Err(Failed);
        };
        if next.as_slice().len() > 1 << 62 {
            return Err(Failed);
        }
        if self.done.push(Done::Wrote(at, len)).is_err() {
            return Err(Failed);
        }
        self.changed = Some(next);
        Ok(())
    }

    /// Notes that all bytes are on the disk. If memory runs out, changes nothing.
    fn keep(&mut self) -> Result<(), Failed>
        ensures bytes { bytes_on self.new ≡ bytes_on self.old }
        ensures only { OnOk result (Only (CrashLeaves self.new (steps_of self.new)) (bytes_on self.new)) }
        ensures images { OnOk result (Passes steps_of CrashLeaves Same self.old self.new) }
        ensures steps { OnOk result (OneStep (Synced (bytes_on self.old)) self.old self.new) }
        ensures plan { plan_of self.new ≡ plan_of self.old }
        ensures err { OnErr result (self.new ≡ self.old) }
    {
        let Ok(copy) = copy_of(self.alloc, self.bytes()) else {
            return Err(Failed);
        };
        if self.done.push(Done::Synced(copy)).is_err() {
            return Err(Failed);
        }
        Ok(())
    }

    fn fail(&mut self) -> Failed
        ensures { self.new ≡ record self.old { calls = failed self.old.calls } }
    {
        self.calls.fail();
        Failed
    }
}

impl Disk for MemDisk {
    ghost content = { λ disk. Some (bytes_on disk) };

    ghost moment = { λ disk. steps_of disk };

    ghost image = { λ disk t c. CrashLeaves disk t c };

    ghost faults = { λ disk. (plan_of disk).faults };

    ghost among = { λ disk. disk.among };

    ghost imageless = { λ _. tt };

    /// Fails if it is listed or if there are more than 2^62 bytes, and otherwise never.
    fn size(&mut self) -> Result<u64, Failed>
        ensures size { IfOk result (λ n. n ≡ length (bytes_on self.old)) }
        ensures bound { IfOk result (λ n. n ≤ 2 ^ 62) }
        ensures kept { Some (bytes_on self.new) ≡ Some (bytes_on self.old) }
        ensures images { Passes steps_of CrashLeaves Same self.old self.new }
        ensures cause { (plan_of self.new).faults ≡ count_read result (plan_of self.old).faults }
        ensures fails { IsErr result ↔ (IsTrue (next_fails (plan_of self.old)) ⊎ (2 ^ 62 < length (bytes_on self.old))) }
        ensures plan { plan_of self.new ≡ counted result (plan_of self.old) }
        // Promise: a disk in memory keeps no more through a crash than its calls promise: a read and a sync that fails
        // add no step, a sync that succeeds adds one, and a write adds one at its place. Guards: tried.
        ensures steps { SameSteps self.old self.new }
    {
        let size = self.bytes().len();
        if self.calls.next_fails() || size > 1 << 62 {
            return Err(self.fail());
        }
        self.calls.pass();
        Ok(size as u64)
    }

    /// Fails if it is listed, and otherwise never. Reads as many bytes as there are and as the buffer has room for.
    fn read_at(&mut self, at: u64, buf: &mut [u8]) -> Result<usize, Failed>
        requires { 0 < length buf.old }
        ensures bound { ReadsAtMost result buf.new }
        ensures bytes { IfOk result (λ n. ReadsAt (bytes_on self.old) at n buf.new) }
        ensures kept { Some (bytes_on self.new) ≡ Some (bytes_on self.old) }
        ensures images { Passes steps_of CrashLeaves Same self.old self.new }
        ensures cause { (plan_of self.new).faults ≡ count_read result (plan_of self.old).faults }
        ensures fails { IsErr result ↔ IsTrue (next_fails (plan_of self.old)) }
        ensures plan { plan_of self.new ≡ counted result (plan_of self.old) }
        ensures steps { SameSteps self.old self.new }
    {
        if self.calls.next_fails() {
            return Err(self.fail());
        }
        self.calls.pass();
        let bytes = self.bytes();
        if at >= bytes.len() as u64 {
            return Ok(0);
        }
        let start = at as usize;
        let rest = bytes.len() - start;
        let n = if rest < buf.len() { rest } else { buf.len() };
        buf[..n].copy_from_slice(&bytes[start..start + n]);
        Ok(n)
    }

    /// Fails if it is listed, if the disk would have more than 2^62 bytes, or if memory runs out. A listed call writes
    /// the first half of the bytes, rounded up, if there is memory for it, so one that is to open a gate opens
    /// it. No other call that fails writes any.
    fn write_at(&mut self, at: u64, bytes: &[u8]) -> Result<(), Failed>
        requires { at ≤ length (bytes_on self.old) }
        ensures ok { OnOk result (Written at bytes.now (bytes_on self.old) (bytes_on self.new)) }
        ensures err { OnErr result (Torn at (length bytes.now) (bytes_on self.old) (bytes_on self.new)) }
        ensures bound { OnOk result (at + length bytes.now ≤ 2 ^ 62) }
        ensures images { Passes steps_of CrashLeaves (Torn at (length bytes.now)) self.old self.new }
        ensures cause { (plan_of self.new).faults ≡ count_read result (plan_of self.old).faults }
        ensures fails { IsTrue (next_fails (plan_of self.old)) → IsErr result }
        ensures plan { plan_of self.new ≡ counted result (plan_of self.old) }
        ensures steps { MatchResult result
            (λ _. OneStep (Wrote at (length bytes.now)) self.old self.new)
            (λ _. SameSteps self.old self.new
            ⊎ (IsTrue (next_fails (plan_of self.old)) × OneStep (Wrote at (length bytes.now)) self.old self.new)) }
        ensures half { OnErr result ((bytes_on self.new ≡ bytes_on self.old)
            ⊎ (IsTrue (next_fails (plan_of self.old)) × Written at (half_of bytes.now) (bytes_on self.old) (bytes_on self.new))) }
    {
        let len = bytes.len() as u64;
        if self.calls.next_fails() {
            let half = bytes.len() - bytes.len() / 2;
            let _ = self.put(at, &bytes[..half], len);
            return Err(self.fail());
        }
        if self.put(at, bytes, len).is_err() {
            return Err(self.fail());
        }
        self.calls.pass();
        Ok(())
    }

    /// Fails if it is listed, or if memory runs out.
    fn sync(&mut self) -> Result<(), Failed>
        ensures durable { OnOk result (Only (CrashLeaves self.new (steps_of self.new)) (bytes_on self.old)) }
        ensures kept { Some (bytes_on self.new) ≡ Some (bytes_on self.old) }
        ensures images { Passes steps_of CrashLeaves Same self.old self.new }
        ensures cause { (plan_of self.new).faults ≡ count_read result (plan_of self.old).faults }
        ensures fails { IsTrue (next_fails (plan_of self.old)) → IsErr result }
        ensures plan { plan_of self.new ≡ counted result (plan_of self.old) }
        ensures steps { MatchResult result
            (λ _. OneStep (Synced (bytes_on self.old)) self.old self.new)
            (λ _. SameSteps self.old self.new) }
    {
        if self.calls.next_fails() || self.keep().is_err() {
            return Err(self.fail());
        }
        self.calls.pass();
        Ok(())
    }
}
