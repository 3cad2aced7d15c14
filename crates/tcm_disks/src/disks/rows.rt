//! Worked disks: their bytes after a run, and after a store is opened.

use crate::disks::running::{disk_of, file_of, run_on, store_on};
use std::alloc::Global;
use std::process::Abort;
use std::test::Fail;
use tcm_session::{Status, durable_words};

/// The lines of the log file of a run with one commit.
const HEADER: &[u8] = b"{\"cluster\":\"c1\",\"format\":2}\n";

const ENTRY: &[u8] =
    b"{\"command\":{\"dc\":\"dc1\",\"kind\":\"register\",\"name\":\"a\",\"rack\":\"r1\"},\"entry\":1,\"epoch\":1}\n";

/// Adds a record of a file with a name of one byte, and of fewer than 256 bytes.
fn add_record(record: &mut Vec<u8>, kind: u8, name: u8, bytes: &[u8]) -> Result<(), Fail> {
    let gate_and_kind = [1, kind];
    record.extend_from_slice(&gate_and_kind)?;
    record.extend_from_slice(&[0, 0, 0, 0, 0, 0, 0, 1])?;
    let size = u8::try_from(bytes.len()).map_err(|_| "too many bytes")?;
    record.extend_from_slice(&[0, 0, 0, 0, 0, 0, 0, size])?;
    record.push(name)?;
    record.extend_from_slice(bytes)?;
    Ok(())
}

/// The header of the file is put in its place, the line of the entry is added, and a closed gate stands behind both.
fn one_commit<A: Abort>(rt: &A, alloc: Global) -> Result<(), Fail> {
    let script = "commit 1 register a dc1 r1\n";
    let ran = run_on(
        alloc,
        &["commit", "x", "c1"],
        script,
        disk_of(alloc, b"", &[])?,
    )?;
    assert_eq!(rt; ran.status, Status(0));
    assert_eq!(rt; ran.out.bytes(), b"OK 1\n".as_slice());
    let mut wanted = Vec::new(alloc);
    add_record(&mut wanted, 1, b'x', HEADER)?;
    assert_eq!(rt; wanted.len(), 47);
    add_record(&mut wanted, 0, b'x', ENTRY)?;
    assert_eq!(rt; wanted.len(), 152);
    wanted.push(0)?;
    assert!(rt; ran.disk.bytes() == wanted.as_slice());
    Ok(())
}

/// A disk of one open gate, behind which nothing stands.
fn stray_gate<A: Abort>(rt: &A, alloc: Global) -> Result<(), Fail> {
    let mut store = store_on(alloc, disk_of(alloc, &[1], &[])?)?;
    assert!(rt; file_of(&mut store, "x")?.is_none());
    assert_eq!(rt; store.close().bytes(), [0].as_slice());
    Ok(())
}

/// Two logs on one disk.
fn two_files<A: Abort>(rt: &A, alloc: Global) -> Result<(), Fail> {
    let mut disk = disk_of(alloc, b"", &[])?;
    for name in ["x", "y"] {
        let script = "commit 1 register a dc1 r1\n";
        let ran = run_on(alloc, &["commit", name, "c1"], script, disk)?;
        assert_eq!(rt; ran.status, Status(0), "{name}");
        disk = ran.disk;
    }
    let mut store = store_on(alloc, disk)?;
    let mut wanted = HEADER.to_vec(alloc)?;
    wanted.extend_from_slice(ENTRY)?;
    for name in ["x", "y"] {
        let file = file_of(&mut store, name)?;
        assert!(rt;
            matches!(&file, Some(text) if text.as_slice() == wanted.as_slice()),
            "{name}"
        );
    }
    Ok(())
}

/// Words that name no file, on a disk that fails at its first call: nothing is read or printed.
fn not_opened<A: Abort>(rt: &A, alloc: Global) -> Result<(), Fail> {
    let ran = run_on(alloc, &["commit"], "place ks\n", disk_of(alloc, b"", &[1])?)?;
    assert_eq!(rt; ran.status, Status(6));
    assert!(rt; ran.out.bytes().is_empty());
    Ok(())
}

/// Words, and the number of words after the path of the disk `d`, if they name it.
const WORDS: [(&[&str], Option<usize>); 6] = [
    (&["on", "d", "commit", "x", "c1"], Some(3)),
    (&["on", "d"], Some(0)),
    (&["on", ""], None),
    (&["on"], None),
    (&["commit", "on", "d"], None),
    (&[], None),
];

/// Whether the words name the disk `d`, with so many words after it.
fn names_disk(words: &[String], wanted: Option<usize>) -> bool {
    match durable_words(words) {
        Some((path, rest)) => path == "d" && wanted == Some(rest.len()),
        None => wanted.is_none(),
    }
}

fn words_of_disks<A: Abort>(rt: &A, alloc: Global) -> Result<(), Fail> {
    for row in &WORDS {
        let (words, wanted) = *row;
        let mut list = Vec::new(alloc);
        for word in words {
            list.push(String::from_str(alloc, word)?)?;
        }
        assert!(rt; names_disk(&list, wanted));
    }
    Ok(())
}

#[test]
fn disks_have_their_bytes(rt: HostRuntime) -> Result<(), Fail> {
    one_commit(&rt, rt.alloc())?;
    stray_gate(&rt, rt.alloc())?;
    two_files(&rt, rt.alloc())?;
    not_opened(&rt, rt.alloc())?;
    words_of_disks(&rt, rt.alloc())
}
