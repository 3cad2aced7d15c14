ghost use Rattle.std.specs.Prelude.{◌≡◌, ◌<◌, ◌≤◌, ◌+◌, ◌^◌, length, IfOk, OnErr, OnOk};
ghost use Rattle.std.specs.Io.{ReadsAtMost};
ghost use Rattle.tcm_edges.specs.Causes.{count_read};
ghost use Rattle.tcm_edges.specs.Counted.{with_failure};
ghost use Rattle.tcm_edges.specs.Writes.{untold};

use crate::disk::Disk;
use std::fs::{self, OpenFile, OpenOptions};
use std::io::{self, ErrorKind, Read, Seek, SeekFrom, Write};
use std::marker::Model;
use std::rt::Files;
use tcm_edges::Failed;

/// The most bytes that a disk has.
const MOST: u64 = 1 << 62;

/// A disk in a file of the operating system. It tells nothing of its bytes. The file is opened at the first call, and
/// made if it is absent; the folder must be there. A failure to do so is a failure of that call.
///
/// When the file is opened, it and its entry in the folder of the path are put on the disk by a sync of each. Entries of
/// the folders above are not, nor is the folder that a link leads to. A sync waits for the bytes of the file and for its
/// length, but not for its times. What a sync is worth depends on the file system and the device: they may answer it
/// while bytes are in a cache that loses them without power. Nothing keeps another process from writing to the file.
///
/// Once the file can't be opened, or a sync fails, each later call fails, too. After a failed sync Linux forgets which
/// bytes aren't on the disk, and answers the next sync at once. So bytes that were read back then might be gone later.
#[derive(Drop)]
pub struct FileDisk<R: Files> {
    rt: R,
    path: String,
    file: Option<R::File>,
    lost: bool,
    failed: u64,
}

impl<R: Files> Model for FileDisk<R> {
    ghost use Rattle.tcm_edges.specs.Counted.{Counted};

    ghost Value = { Counted R };

    ghost view = { λ disk. record { inner = disk.rt; failures = disk.failed } };
}

/// The folder that a file with this path is in.
fn folder_of(path: &str) -> &str {
    match path.rsplit_once('/') {
        None => ".",
        Some(("", _)) => "/",
        Some((folder, _)) => folder,
    }
}

/// Opens a file, makes it if it is absent, and puts it and its entry in its folder on the disk. A folder or a device is
/// an error.
fn open_file<R: Files>(rt: &R, path: &str) -> io::Result<R::File> {
    let file = OpenOptions::new()
        .read(true)
        .write(true)
        .create(true)
        .open(rt, path)?;
    let about = file.metadata()?;
    if !about.is_file() {
        return Err(io::Error::from(ErrorKind::InvalidInput));
    }
    file.sync_all()?;
    let folder = fs::open(rt, folder_of(path))?;
    folder.sync_all()?;
    Ok(file)
}

/// Reads bytes from a place on into the front of a buffer, and returns their number.
fn read_from<F: Read + Seek>(file: &mut F, at: u64, buf: &mut [u8]) -> io::Result<usize>
    ensures { ReadsAtMost result buf.new }
{
    file.seek(SeekFrom::Start(at))?;
    file.read(buf)
}

fn write_to<F: Write + Seek>(file: &mut F, at: u64, bytes: &[u8]) -> io::Result<()> {
    file.seek(SeekFrom::Start(at))?;
    file.write_all(bytes)?;
    file.flush()
}

impl<R: Files> FileDisk<R> {
    /// A disk in the file with this path, with a count of 0 failures. The path is from the current folder.
    pub fn new(rt: R, path: String) -> Self
        ensures { result ≡ record { inner = rt; failures = 0 } }
    {
        FileDisk {
            rt,
            path,
            file: None,
            lost: false,
            failed: 0,
        }
    }

    /// The file, which is opened if it isn't open. It is out of the disk until it is put back.
    fn take_file(&mut self) -> Option<R::File>
        ensures { self.new ≡ self.old }
    {
        if self.lost {
            return None;
        }
        let file = match self.file.take() {
            Some(file) => Some(file),
            None => open_file(&self.rt, self.path.as_str()).ok(),
        };
        self.lost = file.is_none();
        file
    }

    fn fail(&mut self) -> Failed
        ensures { self.new ≡ with_failure self.old }
    {
        self.failed = self.failed.saturating_add(1);
        Failed
    }
}

impl<R: Files> Disk for FileDisk<R> {
    ghost content = { λ _. untold };

    ghost moment = { λ _. 0 };

    ghost image = { λ _ _ _. ⊥ };

    ghost faults = { λ disk. disk.failures };

    ghost among = { λ _. tt };

    ghost imageless = { λ _ _ _ none. none };

    fn size(&mut self) -> Result<u64, Failed> {
        let Some(file) = self.take_file() else {
            return Err(self.fail());
        };
        let about = file.metadata();
        self.file = Some(file);
        match about {
            Ok(about) if about.len() <= MOST => Ok(about.len()),
            _ => Err(self.fail()),
        }
    }

    fn read_at(&mut self, at: u64, buf: &mut [u8]) -> Result<usize, Failed> {
        let Some(mut file) = self.take_file() else {
            return Err(self.fail());
        };
        let read = read_from(&mut file, at, buf);
        self.file = Some(file);
        match read {
            Ok(n) => Ok(n),
            Err(_) => Err(self.fail()),
        }
    }

    fn write_at(&mut self, at: u64, bytes: &[u8]) -> Result<(), Failed> {
        let len = bytes.len() as u64;
        if at > MOST || len > MOST - at {
            return Err(self.fail());
        }
        let Some(mut file) = self.take_file() else {
            return Err(self.fail());
        };
        let written = write_to(&mut file, at, bytes);
        self.file = Some(file);
        match written {
            Ok(()) => Ok(()),
            Err(_) => Err(self.fail()),
        }
    }

    fn sync(&mut self) -> Result<(), Failed> {
        let Some(file) = self.take_file() else {
            return Err(self.fail());
        };
        match file.sync_data() {
            Ok(()) => {
                self.file = Some(file);
                Ok(())
            }
            Err(_) => {
                self.lost = true;
                Err(self.fail())
            }
        }
    }
}
