ghost use Rattle.std.specs.Prelude.{◌≡◌, IfErr, IfOk, IsOkUnless, OnErr, OnOk};
ghost use Rattle.tcm_edges.specs.Causes.{count_load, count_write, OnFailed, OnMemory, OnLoadFailed, OnLoadMemory};
ghost use Rattle.tcm_edges.specs.Counted.{with_failure};
ghost use Rattle.tcm_edges.specs.Files.{untold_files, IsLoad, ChangesFile, OthersKept, GainsAll, GainsPart, IsReplaced, IsOldOrNew};
ghost use Rattle.tcm_edges.specs.Shown.{CrashLeaves, ShowsNoMore};
ghost use Rattle.tcm_edges.specs.Writes.{KeptAtMemory, TellsAlike};

use crate::fault::{LoadFault, WriteFault};
use crate::store::{Loaded, Store};
use cluster_terms::{ByteText, Memory};
use std::fs::{self, OpenFile, OpenOptions};
use std::io::{self, ErrorKind, Read, Write};
use std::marker::Model;
use std::rt::Files;

/// A file that is open to be appended to, and its name, if there was memory for it.
#[derive(Drop)]
struct Appended<F> {
    name: Option<String>,
    file: F,
}

impl<F> Appended<F> {
    /// Whether this is known to be the file with this name.
    fn has_name(&self, name: &str) -> bool {
        match &self.name {
            Some(own) => own.as_str() == name,
            None => false,
        }
    }
}

/// The files of the operating system. A name is a path from the current folder. The store tells nothing of the bytes in
/// its files. A file whose name ends in `.new` may be overwritten by `replace`.
///
/// The file of the last append stays open, until another file is appended to, a file is replaced or an append fails. So
/// a commit is one write and opens no file. If such a file is renamed meanwhile, appends still reach it. If there is no
/// memory for the file's name, each append opens it anew.
#[derive(Drop)]
pub struct FileStore<R: Files> {
    rt: R,
    failed: u64,
    appended: Option<Appended<R::File>>,
}

impl<R: Files> Model for FileStore<R> {
    ghost use Rattle.tcm_edges.specs.Counted.{Counted};

    ghost Value = { Counted R };

    ghost view = { λ store. record { inner = store.rt; failures = store.failed } };
}

impl<R: Files> FileStore<R> {
    /// A store over this runtime, with a count of 0 failures.
    pub fn new(rt: R) -> Self
        ensures { result ≡ record { inner = rt; failures = 0 } }
    {
        FileStore {
            rt,
            failed: 0,
            appended: None,
        }
    }

    /// Counts a failure.
    fn fail(&mut self)
        ensures { self.new ≡ with_failure self.old }
    {
        self.failed = self.failed.saturating_add(1);
    }
}

/// Reads a file that has at most `limit` bytes, and no more than one byte past the limit. A folder or a device is an
/// error.
fn load_file<R: Files + AllocGlobal>(rt: &R, name: &str, limit: u64) -> io::Result<Loaded>
    ensures { IfOk result (λ loaded. IsLoad untold_files name.now limit loaded) }
{
    let file = match fs::open(rt, name) {
        Ok(file) => file,
        Err(error) if error.kind() == ErrorKind::NotFound => return Ok(Loaded::Absent),
        Err(error) => return Err(error),
    };
    let about = file.metadata()?;
    if !about.is_file() {
        return Err(io::Error::from(ErrorKind::InvalidInput));
    }
    let size = about.len();
    if limit < size {
        return Ok(Loaded::TooLarge(size));
    }
    let mut bytes = Vec::new(rt.alloc());
    file.take(limit.saturating_add(1)).read_to_end(&mut bytes)?;
    let size = bytes.len() as u64;
    if limit < size {
        return Ok(Loaded::TooLarge(size));
    }
    Ok(Loaded::Bytes(ByteText::from_vec(bytes)))
}

/// Adds bytes at the end of an open file. At `Ok` the operating system has them.
fn write_all<F: Write>(file: &mut F, bytes: &[u8]) -> io::Result<()> {
    file.write_all(bytes)?;
    file.flush()
}

/// Opens a file to be appended to, and makes it if it is absent.
fn open_to_append<R: Files + AllocGlobal>(rt: &R, name: &str) -> io::Result<Appended<R::File>> {
    let file = OpenOptions::new().append(true).create(true).open(rt, name)?;
    let name = String::from_str(rt.alloc(), name).ok();
    Ok(Appended { name, file })
}

/// The file with this name if it is the one that is open, or else opened anew.
fn reopened<R: Files + AllocGlobal>(
    rt: &R,
    appended: Option<Appended<R::File>>,
    name: &str,
) -> io::Result<Appended<R::File>> {
    match appended {
        Some(file) if file.has_name(name) => Ok(file),
        _ => open_to_append(rt, name),
    }
}

/// The name of the file that holds the new contents until they are whole.
fn beside<R: AllocGlobal>(rt: &R, name: &str) -> Result<String, Memory> {
    let mut path = String::from_str(rt.alloc(), name)?;
    path.push_str(".new")?;
    Ok(path)
}

/// Writes the new contents of a file to the path `beside`, and then renames that file to `name`.
fn replace_file<R: Files>(rt: &R, beside: &str, name: &str, bytes: &[u8]) -> io::Result<()> {
    let mut file = fs::create(rt, beside)?;
    file.write_all(bytes)?;
    file.sync_all()?;
    fs::rename(rt, beside, name)
}

impl<R: Files + AllocGlobal> Store for FileStore<R> {
    ghost files = { λ _. untold_files };

    ghost shows = { λ _ _. ⊥ };

    ghost faults = { λ store. store.failures };

    /// Returns `Absent` if nothing has this path, `Memory` if memory runs out, and `Failed`, which it counts, for each
    /// other error of the operating system and for a folder or a device. Does not read a file that is larger than
    /// `limit`. If a file grows during the call, `TooLarge` may have the limit plus one. Opening a named pipe that has no
    /// writer waits for one.
    fn load(&mut self, name: &str, limit: u64) -> Result<Loaded, LoadFault>
        ensures found { IfOk result (λ loaded. IsLoad untold_files name.now limit loaded) }
        ensures kept { untold_files ≡ untold_files }
        ensures crash { ShowsNoMore (λ _. ⊥) (λ _. ⊥) }
        ensures cause { self.new.failures ≡ count_load result self.old.failures }
        ensures counted { IfErr result (λ fault. OnLoadFailed fault (self.new ≡ with_failure self.old)) }
        ensures uncounted { OnOk result (self.new ≡ self.old) }
        ensures unchanged { IfErr result (λ fault. OnLoadMemory fault (self.new ≡ self.old)) }
    {
        match load_file(&self.rt, name, limit) {
            Ok(loaded) => Ok(loaded),
            Err(error) if error.kind() == ErrorKind::OutOfMemory => Err(LoadFault::Memory),
            Err(_) => {
                self.fail();
                Err(LoadFault::Failed)
            }
        }
    }

    /// At `Ok` the operating system has the bytes. Returns `Failed`, which it counts, for each error of the operating
    /// system; then the file may have gained a prefix of the bytes.
    fn append(&mut self, name: &str, bytes: &[u8]) -> Result<(), WriteFault>
        ensures ok { OnOk result (ChangesFile (GainsAll bytes.now) untold_files untold_files name.now) }
        ensures failed { IfErr result (λ fault. OnFailed fault
            (ChangesFile (GainsPart bytes.now) untold_files untold_files name.now)) }
        ensures others { OthersKept untold_files untold_files name.now }
        ensures cause { self.new.failures ≡ count_write result self.old.failures }
        ensures memory { KeptAtMemory untold_files untold_files result }
        ensures crash { CrashLeaves (GainsPart bytes.now) (λ _. ⊥) (λ _. ⊥) untold_files name.now result }
        ensures told { TellsAlike untold_files untold_files }
        ensures sure { IsOkUnless result WriteFault.Failed }
        ensures counted { OnErr result (self.new ≡ with_failure self.old) }
        ensures uncounted { OnOk result (self.new ≡ self.old) }
    {
        let Ok(mut appended) = reopened(&self.rt, self.appended.take(), name) else {
            self.fail();
            return Err(WriteFault::Failed);
        };
        if write_all(&mut appended.file, bytes).is_err() {
            self.fail();
            return Err(WriteFault::Failed);
        }
        self.appended = Some(appended);
        Ok(())
    }

    /// Writes the new contents to a file with this name and `.new` at its end, and renames that file once it is on the
    /// disk. Returns `Failed`, which it counts, for each error of the operating system; then the file is as before, and
    /// the `.new` file may remain. Returns `Memory` if there is no memory for its name.
    fn replace(&mut self, name: &str, bytes: &[u8]) -> Result<(), WriteFault>
        ensures ok { OnOk result (ChangesFile (IsReplaced bytes.now) untold_files untold_files name.now) }
        ensures failed { IfErr result (λ fault. OnFailed fault
            (ChangesFile (IsOldOrNew bytes.now) untold_files untold_files name.now)) }
        ensures others { OthersKept untold_files untold_files name.now }
        ensures cause { self.new.failures ≡ count_write result self.old.failures }
        ensures memory { KeptAtMemory untold_files untold_files result }
        ensures crash { CrashLeaves (IsOldOrNew bytes.now) (λ _. ⊥) (λ _. ⊥) untold_files name.now result }
        ensures told { TellsAlike untold_files untold_files }
        ensures counted { IfErr result (λ fault. OnFailed fault (self.new ≡ with_failure self.old)) }
        ensures uncounted { OnOk result (self.new ≡ self.old) }
        ensures unchanged { IfErr result (λ fault. OnMemory fault (self.new ≡ self.old)) }
    {
        let beside = beside(&self.rt, name)?;
        self.appended = None;
        if replace_file(&self.rt, beside.as_str(), name, bytes).is_err() {
            self.fail();
            return Err(WriteFault::Failed);
        }
        Ok(())
    }
}
