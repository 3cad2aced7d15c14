//! Runs over a disk in memory, and the files that its bytes stand for.

use cluster_terms::ByteText;
use durable_log::{Disk, DurableStore, MemDisk};
use std::alloc::Global;
use std::test::Fail;
use tcm_edges::{CallList, Loaded, MemSource, Store, SureSink};
use tcm_session::{Status, run_durable};

/// The bytes as a text.
pub fn text_of(alloc: Global, bytes: &[u8]) -> Result<ByteText, Fail> {
    Ok(ByteText::from_vec(bytes.to_vec(alloc)?))
}

/// A list of these calls.
pub fn calls_of(alloc: Global, calls: &[u64]) -> Result<CallList, Fail> {
    let mut list = CallList::empty(alloc);
    for call in calls {
        list.push(*call).map_err(|_| "memory")?;
    }
    Ok(list)
}

/// A disk with these bytes, on which these calls fail.
pub fn disk_of(alloc: Global, bytes: &[u8], fails: &[u64]) -> Result<MemDisk, Fail> {
    Ok(MemDisk::new(text_of(alloc, bytes)?, calls_of(alloc, fails)?))
}

/// The words of a run.
fn words_from(alloc: Global, words: &[&str]) -> Result<Vec<String>, Fail> {
    let mut list = Vec::new(alloc);
    for word in words {
        list.push(String::from_str(alloc, word)?)?;
    }
    Ok(list)
}

/// What a run came to: its status, what it printed, and the disk.
#[derive(Drop)]
pub struct Ran {
    pub status: Status,
    pub out: SureSink,
    pub disk: MemDisk,
}

/// Runs a script with these words over a disk.
pub fn run_on(alloc: Global, words: &[&str], script: &str, disk: MemDisk) -> Result<Ran, Fail> {
    let words = words_from(alloc, words)?;
    let script = text_of(alloc, script.as_bytes())?;
    let mut input = MemSource::new(script, 64, CallList::empty(alloc));
    let mut out = SureSink::new(alloc);
    let (status, disk) = run_durable(alloc, &words, &mut input, &mut out, disk);
    Ok(Ran { status, out, disk })
}

/// A store on a disk.
pub fn store_on<D: Disk + Drop>(alloc: Global, disk: D) -> Result<DurableStore<D>, Fail> {
    match DurableStore::open(alloc, disk) {
        Ok(store) => Ok(store),
        Err(_) => Err(Fail::from("the store isn't opened")),
    }
}

/// The bytes of a file of a store, or `None` if it is absent.
pub fn file_of<D: Store>(store: &mut D, name: &str) -> Result<Option<ByteText>, Fail> {
    match store.load(name, 1 << 20)? {
        Loaded::Bytes(bytes) => Ok(Some(bytes)),
        Loaded::Absent => Ok(None),
        Loaded::TooLarge(_) => Err(Fail::from("the file is too large")),
    }
}

/// The bytes of the file `x` on a disk with these bytes, or `None` if it is absent.
pub fn file_in(alloc: Global, bytes: &[u8]) -> Result<Option<ByteText>, Fail> {
    let mut store = store_on(alloc, disk_of(alloc, bytes, &[])?)?;
    file_of(&mut store, "x")
}
