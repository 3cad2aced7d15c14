//! Sources, sinks and stores: those in memory, and those over readers, writers and files.

use cluster_terms::ByteText;
use std::alloc::Global;
use std::fs;
use std::io::{Error, ErrorKind, Read, Write};
use std::process::Abort;
use std::rt::Files;
use std::test::Fail;
use tcm_edges::{
    CallList, Failed, FileStore, InputSource, LoadFault, Loaded, MemSink, MemSource, MemStore,
    OutputSink, Sink, Source, Store, StoreFail, StoreFailList, SureSink, SureSource, SureStore,
    WriteFault, write_all,
};

/// A list of one call.
fn calls_of(alloc: Global, call: u64) -> Result<CallList, Fail> {
    let mut calls = CallList::empty(alloc);
    calls.push(call).map_err(|_| "memory")?;
    Ok(calls)
}

/// A reader of two bytes that fails at every read after the first.
#[derive(Drop)]
struct Broken {
    read: bool,
}

impl Read for Broken {
    fn read(&mut self, buf: &mut [u8]) -> std::io::Result<usize> {
        if self.read || buf.len() < 2 {
            return Err(Error::from(ErrorKind::BrokenPipe));
        }
        self.read = true;
        buf[0] = b'o';
        buf[1] = b'k';
        Ok(2)
    }
}

/// A writer that counts the bytes that it holds and the bytes that it has passed on. It passes bytes on only at a
/// flush.
#[derive(Drop)]
struct Holding {
    held: usize,
    passed: usize,
}

impl Write for Holding {
    fn write(&mut self, buf: &[u8]) -> std::io::Result<usize> {
        self.held = self.held.saturating_add(buf.len());
        Ok(buf.len())
    }

    fn flush(&mut self) -> std::io::Result<()> {
        self.passed = self.passed.saturating_add(self.held);
        self.held = 0;
        Ok(())
    }
}

/// Reads at most two bytes at a time, once for each wanted result, and returns the buffer.
fn reads<A: Abort, S: Source>(rt: &A, source: &mut S, wanted: &[Result<usize, Failed>]) -> [u8; 2] {
    let mut buf = [0; 2];
    for want in wanted {
        assert_eq!(rt; source.read(&mut buf), *want);
    }
    buf
}

fn sources<A: Abort>(rt: &A, alloc: Global) -> Result<(), Fail> {
    let mut sure = SureSource::new(ByteText::from_vec(b"hello".to_vec(alloc)?), 1);
    assert_eq!(rt; reads(rt, &mut sure, &[Ok(1), Ok(1)]), *b"e\0");
    let mut listed = MemSource::new(
        ByteText::from_vec(b"abc".to_vec(alloc)?),
        9,
        calls_of(alloc, 2)?,
    );
    let wanted = [Ok(2), Err(Failed), Ok(1), Ok(0)];
    assert_eq!(rt; reads(rt, &mut listed, &wanted), *b"cb");
    let mut input = InputSource::new(b"abc".as_slice());
    assert_eq!(rt; reads(rt, &mut input, &[Ok(2), Ok(1), Ok(0)]), *b"cb");
    let mut broken = InputSource::new(Broken { read: false });
    let wanted = [Ok(2), Err(Failed), Err(Failed)];
    assert_eq!(rt; reads(rt, &mut broken, &wanted), *b"ok");
    Ok(())
}

fn sinks<A: Abort>(rt: &A, alloc: Global) -> Result<(), Fail> {
    let mut sure = SureSink::new(alloc);
    assert_eq!(rt; sure.write(b"ab"), Ok(2));
    write_all(&mut sure, b"")?;
    write_all(&mut sure, b"cde")?;
    assert_eq!(rt; sure.bytes(), b"abcde".as_slice());
    Ok(())
}

/// Writes to a sink whose second write fails.
fn failing_sinks<A: Abort>(rt: &A, alloc: Global) -> Result<(), Fail> {
    let mut listed = MemSink::new(alloc, calls_of(alloc, 2)?);
    for want in &[Ok(2), Err(WriteFault::Failed), Ok(2)] {
        assert_eq!(rt; listed.write(b"ab"), *want);
    }
    assert_eq!(rt; listed.bytes(), b"abab".as_slice());
    Ok(())
}

/// Writes to a writer that has too little room, and to one that holds its bytes until it is flushed.
fn writers<A: Abort>(rt: &A) -> Result<(), Fail> {
    let mut room = [0; 3];
    let mut full = OutputSink::new(room.as_mut_slice());
    assert_eq!(rt; write_all(&mut full, b"abcde"), Err(WriteFault::Failed));
    assert_eq!(rt; room, *b"abc");
    let mut holding = Holding { held: 0, passed: 0 };
    write_all(&mut OutputSink::new(&mut holding), b"abcde")?;
    assert_eq!(rt; (holding.held, holding.passed), (0, 5));
    Ok(())
}

/// Files of a store, and their bytes.
const STORED: [(&str, &str); 3] = [("log", "abc"), ("snapshot", "z"), ("empty", "")];

fn stores<A: Abort>(rt: &A, alloc: Global) -> Result<(), Fail> {
    let mut store = SureStore::new(alloc);
    store.append("log", b"ab")?;
    store.append("log", b"c")?;
    store.replace("snapshot", b"xy")?;
    store.replace("snapshot", b"z")?;
    store.put("empty", b"")?;
    for row in &STORED {
        let (name, want) = *row;
        assert!(rt; store.file(name) == Some(want.as_bytes()), "{name}");
    }
    assert!(rt; store.file("other").is_none());
    loads(rt, &mut store)
}

/// Loads a file that is absent, one that is too large and one that isn't.
fn loads<A: Abort>(rt: &A, store: &mut SureStore) -> Result<(), Fail> {
    assert!(rt; matches!(store.load("other", 9)?, Loaded::Absent));
    assert!(rt; matches!(store.load("log", 2)?, Loaded::TooLarge(3)));
    let loaded = store.load("log", 3)?;
    assert!(rt; matches!(&loaded, Loaded::Bytes(text) if text.as_slice() == b"abc".as_slice()));
    Ok(())
}

/// A list of calls that are to fail, each with the number of bytes that it keeps.
fn fails_of(alloc: Global, fails: &[(u64, u64)]) -> Result<StoreFailList, Fail> {
    let mut list = StoreFailList::empty(alloc);
    for (call, keep) in fails {
        let fail = StoreFail {
            call: *call,
            keep: *keep,
        };
        list.push(fail).map_err(|_| "memory")?;
    }
    Ok(list)
}

/// What an append or a replacement comes to.
const FAILED: Result<(), WriteFault> = Err(WriteFault::Failed);

/// Appends: the file, the bytes, what the call comes to, and the bytes of the file then, unless it is absent.
const APPENDS: [(&str, &str, Result<(), WriteFault>, Option<&str>); 4] = [
    ("log", "b", Ok(()), Some("ab")),
    ("log", "cde", FAILED, Some("abcd")),
    ("new", "x", FAILED, None),
    ("new", "xy", FAILED, Some("xy")),
];

/// Replacements of the file `log` by `z`: what the call comes to, and the bytes of the file then.
const REPLACEMENTS: [(Result<(), WriteFault>, &str); 3] = [
    (FAILED, "abcd"),
    (FAILED, "z"),
    (Ok(()), "z"),
];

/// Whether a file has these bytes, or is absent.
fn has(store: &MemStore, name: &str, wanted: Option<&str>) -> bool {
    match wanted {
        Some(text) => store.file(name) == Some(text.as_bytes()),
        None => store.file(name).is_none(),
    }
}

fn failing_stores<A: Abort>(rt: &A, alloc: Global) -> Result<(), Fail> {
    let fails = fails_of(
        alloc,
        &[(2, 2), (3, 0), (4, 9), (5, 0), (6, 1), (6, 0), (8, 1)],
    )?;
    let mut store = MemStore::new(alloc, fails);
    store.put("log", b"a")?;
    for row in &APPENDS {
        let (name, text, wanted, after) = *row;
        assert_eq!(rt; store.append(name, text.as_bytes()), wanted);
        assert!(rt; has(&store, name, after), "{name}");
    }
    for row in &REPLACEMENTS {
        let (wanted, after) = *row;
        assert_eq!(rt; store.replace("log", b"z"), wanted);
        assert!(rt; has(&store, "log", Some(after)));
    }
    assert!(rt; matches!(store.load("log", 1), Err(LoadFault::Failed)));
    assert!(rt; matches!(store.load("log", 0)?, Loaded::TooLarge(1)));
    Ok(())
}

/// Makes a folder for temporary files, and returns its path.
fn new_folder<R: AllocGlobal + Files>(rt: &R) -> Result<String, Fail> {
    for number in 0..1000 {
        let folder = format!(in rt.alloc(); "/tmp/tcm-{number}")?;
        if fs::create_dir(rt, folder.as_str()).is_ok() {
            return Ok(folder);
        }
    }
    Err(Fail::from("no folder for temporary files"))
}

/// Stores two files in a folder.
fn real_files<R: Abort + AllocGlobal + Files>(rt: &R, folder: &str) -> Result<(), Fail> {
    let path = format!(in rt.alloc(); "{folder}/log")?;
    let other_path = format!(in rt.alloc(); "{folder}/other")?;
    let (name, other) = (path.as_str(), other_path.as_str());
    let mut store = FileStore::new(rt);
    assert!(rt; matches!(store.load(name, 9)?, Loaded::Absent));
    for text in &["ab", "c"] {
        store.append(name, text.as_bytes())?;
        store.append(other, text.as_bytes())?;
    }
    assert!(rt; matches!(store.load(name, 2)?, Loaded::TooLarge(3)));
    has_bytes(rt, &mut store, other, "abc")?;
    for text in &["abcd", "xyz"] {
        store.replace(other, text.as_bytes())?;
        has_bytes(rt, &mut store, other, text)?;
    }
    store.append(other, b"!")?;
    has_bytes(rt, &mut store, other, "xyz!")?;
    is_no_file(rt, &mut store, folder);
    is_no_file(rt, &mut store, "/dev/null/log");
    assert_eq!(rt; store.replace("/dev/null/log", b"ab"), FAILED);
    Ok(())
}

/// Loads a file, which has this text.
fn has_bytes<A: Abort, D: Store>(
    rt: &A,
    store: &mut D,
    name: &str,
    text: &str,
) -> Result<(), Fail> {
    let loaded = store.load(name, 4)?;
    assert!(rt; matches!(&loaded, Loaded::Bytes(bytes) if bytes.as_slice() == text.as_bytes()));
    Ok(())
}

/// Loads and appends, where there can't be a file.
fn is_no_file<A: Abort, D: Store>(rt: &A, store: &mut D, name: &str) {
    assert!(rt;
        matches!(store.load(name, 9), Err(LoadFault::Failed)),
        "{name}"
    );
    assert_eq!(rt; store.append(name, b"ab"), FAILED, "{name}");
}

#[test]
fn objects_of_the_outside(rt: HostRuntime) -> Result<(), Fail> {
    sources(&rt, rt.alloc())?;
    sinks(&rt, rt.alloc())?;
    failing_sinks(&rt, rt.alloc())?;
    writers(&rt)?;
    stores(&rt, rt.alloc())?;
    failing_stores(&rt, rt.alloc())
}

#[test]
fn files_of_the_operating_system(rt: HostRuntime) -> Result<(), Fail> {
    let folder = new_folder(&rt)?;
    let stored = real_files(&rt, folder.as_str());
    let removed = fs::remove_dir_all(&rt, folder.as_str());
    stored?;
    Ok(removed?)
}
