ghost use Rattle.std.specs.Prelude.{◌≡◌, ◌≢◌, ◌<◌, ◌≤◌, ◌+◌, ◌^◌, ◌++◌, List, ℕ, Option, Some, length, drop, IfOk, IfSome, MatchBool, OnOk};
ghost use Rattle.tcm_edges.specs.Causes.{count_load};
ghost use Rattle.tcm_edges.specs.Files.{Files, IsLoad, content, file_of, loaded_of};
ghost use Rattle.durable_log.specs.Disk.{Passes, Same};
ghost use Rattle.durable_log.specs.Images.{told_files};
ghost use Rattle.durable_log.specs.Records.{change_of, changed};
ghost use Rattle.durable_log.specs.code.Headers.{header_len, whole_header};
ghost use Rattle.durable_log.specs.code.Loads as spec;

use crate::disk::Disk;
use crate::scan::{RecordHeader, read_full, record_at};
use cluster_terms::ByteText;
use std::alloc::Global;
use tcm_edges::{LoadFault, Loaded};

/// Bytes on a disk: their place and their number.
#[derive(Clone, Copy, Debug)]
struct Piece {
    at: u64,
    len: u64,
}

/// Adds a piece, which lies within the disk, at the end of a list of bytes.
fn read_piece<D: Disk>(disk: &mut D, piece: Piece, bytes: &mut Vec<u8>) -> Result<(), LoadFault>
    requires place { piece.at + piece.len ≤ 2 ^ 62 }
    requires room { length bytes.old.items + piece.len ≤ 2 ^ 62 }
    requires within { IfSome (D.content disk.old) (λ on. piece.at + piece.len ≤ length on) }
    ensures len { OnOk result (length bytes.new.items ≡ length bytes.old.items + piece.len) }
    ensures added { OnOk result (IfSome (D.content disk.old)
        (λ on. bytes.new.items ≡ bytes.old.items ++ spec.bytes_at piece.at piece.len on)) }
    ensures kept { D.content disk.new ≡ D.content disk.old }
    ensures images { Passes D.moment D.image Same disk.old disk.new }
    ensures cause { D.faults disk.new ≡ count_load result (D.faults disk.old) }
{
    let start = bytes.as_slice().len();
    if bytes.resize(start + piece.len as usize, 0).is_err() {
        return Err(LoadFault::Memory);
    }
    match read_full(disk, piece.at, &mut bytes[start..]) {
        Ok(_) => Ok(()),
        Err(_) => Err(LoadFault::Failed),
    }
}

/// The number of bytes of a file, which is 0 if it is absent.
fn size_of(loaded: &Loaded) -> u64
    ensures { result ≡ spec.size_of loaded.now }
{
    match loaded {
        Loaded::Bytes(text) => text.as_slice().len() as u64,
        Loaded::Absent => 0,
        Loaded::TooLarge(size) => *size,
    }
}

/// The bytes of a file, as far as they are loaded.
fn bytes_of(alloc: Global, loaded: Loaded) -> Vec<u8>
    ensures { result.items ≡ spec.bytes_of loaded }
{
    match loaded {
        Loaded::Bytes(text) => text.into_vec(),
        Loaded::Absent | Loaded::TooLarge(_) => Vec::new(alloc),
    }
}

/// The part of a file that a record of this kind keeps.
fn front_of(kind: u8, loaded: Loaded) -> Loaded
    ensures { result ≡ spec.front_of kind loaded }
{
    if kind == 0 { loaded } else { Loaded::Absent }
}

/// A file that is to be loaded: its name, and the most bytes that it may have.
#[derive(Drop)]
pub(crate) struct Wanted<'a> {
    pub(crate) alloc: Global,
    pub(crate) name: &'a [u8],
    pub(crate) limit: u64,
}

impl Wanted<'_> {
    /// Whether a piece, which lies within the disk, is the name of the file.
    fn is_name<D: Disk>(&self, disk: &mut D, piece: Piece) -> Result<bool, LoadFault>
        requires place { piece.at + piece.len ≤ 2 ^ 62 }
        requires within { IfSome (D.content disk.old) (λ on. piece.at + piece.len ≤ length on) }
        ensures told { IfOk result (λ is. IfSome (D.content disk.old) (λ on. MatchBool is
            (spec.bytes_at piece.at piece.len on ≡ self.now.name.now)
            (spec.bytes_at piece.at piece.len on ≢ self.now.name.now))) }
        ensures kept { D.content disk.new ≡ D.content disk.old }
        ensures images { Passes D.moment D.image Same disk.old disk.new }
        ensures cause { D.faults disk.new ≡ count_load result (D.faults disk.old) }
    {
        if piece.len != self.name.len() as u64 {
            return Ok(false);
        }
        let mut name = Vec::new(self.alloc);
        read_piece(disk, piece, &mut name)?;
        Ok(name.as_slice() == self.name)
    }

    /// The file with a piece, which lies within the disk, added at its end.
    fn extended<D: Disk>(
        &self,
        disk: &mut D,
        piece: Piece,
        before: Loaded,
    ) -> Result<Loaded, LoadFault>
        requires place { piece.at + piece.len ≤ 2 ^ 62 }
        requires within { IfSome (D.content disk.old) (λ on. piece.at + piece.len ≤ length on) }
        requires fits { spec.FitsLimit self.now.limit before }
        requires room { spec.size_of before + piece.len ≤ 2 ^ 62 }
        ensures fits { IfOk result (λ after. spec.FitsLimit self.now.limit after) }
        ensures size { IfOk result (λ after. spec.size_of after ≡ spec.size_of before + piece.len) }
        ensures told { IfOk result (λ after. IfSome (D.content disk.old) (λ on. (file : Option (List ℕ))
            → before ≡ loaded_of file self.now.limit
            → after ≡ loaded_of (Some (content file ++ spec.bytes_at piece.at piece.len on)) self.now.limit)) }
        ensures kept { D.content disk.new ≡ D.content disk.old }
        ensures images { Passes D.moment D.image Same disk.old disk.new }
        ensures cause { D.faults disk.new ≡ count_load result (D.faults disk.old) }
    {
        let size = size_of(&before) + piece.len;
        if size > self.limit {
            return Ok(Loaded::TooLarge(size));
        }
        let mut bytes = bytes_of(self.alloc, before);
        read_piece(disk, piece, &mut bytes)?;
        Ok(Loaded::Bytes(ByteText::from_vec(bytes)))
    }

    /// The file after the record at a place, which has this header and lies within the disk.
    fn after_record<D: Disk>(
        &self,
        disk: &mut D,
        at: u64,
        header: RecordHeader,
        before: Loaded,
    ) -> Result<Loaded, LoadFault>
        requires place { at + header_len header ≤ 2 ^ 62 }
        requires within { IfSome (D.content disk.old) (λ on. at + header_len header ≤ length on) }
        requires found { IfSome (D.content disk.old) (λ on. Some header ≡ whole_header (drop at on)) }
        requires fits { spec.FitsLimit self.now.limit before }
        requires room { spec.size_of before ≤ at }
        ensures fits { IfOk result (λ after. spec.FitsLimit self.now.limit after) }
        ensures size { IfOk result (λ after. spec.size_of after ≤ at + header_len header) }
        ensures told { IfOk result (λ after. IfSome (D.content disk.old) (λ on. (all : Files)
            → before ≡ loaded_of (file_of all self.now.name.now) self.now.limit
            → after ≡ loaded_of (file_of (changed all (change_of (drop at on))) self.now.name.now) self.now.limit)) }
        ensures kept { D.content disk.new ≡ D.content disk.old }
        ensures images { Passes D.moment D.image Same disk.old disk.new }
        ensures cause { D.faults disk.new ≡ count_load result (D.faults disk.old) }
    {
        let name = Piece {
            at: at + 18,
            len: header.name_len,
        };
        if !self.is_name(disk, name)? {
            return Ok(before);
        }
        let bytes = Piece {
            at: name.at + name.len,
            len: header.bytes_len,
        };
        self.extended(disk, bytes, front_of(header.kind, before))
    }

    /// Loads the file, by one pass over the records. The cost is at most three reads for each record, one of them of
    /// the bytes that the record adds to the file.
    pub(crate) fn load<D: Disk>(&self, disk: &mut D) -> Result<Loaded, LoadFault>
        ensures found { IfOk result (λ loaded.
            IsLoad (told_files (D.content disk.old)) self.now.name.now self.now.limit loaded) }
        ensures kept { D.content disk.new ≡ D.content disk.old }
        ensures images { Passes D.moment D.image Same disk.old disk.new }
        ensures cause { D.faults disk.new ≡ count_load result (D.faults disk.old) }
    {
        let Ok(size) = disk.size() else {
            return Err(LoadFault::Failed);
        };
        let mut at: u64 = 0;
        let mut loaded = Loaded::Absent;
        'records: loop {
            let header = match record_at(disk, at, size) {
                Ok(Some(header)) => header,
                Ok(None) => return Ok(loaded),
                Err(_) => return Err(LoadFault::Failed),
            };
            loaded = self.after_record(disk, at, header, loaded)?;
            at += header.len();
        }
    }
}
