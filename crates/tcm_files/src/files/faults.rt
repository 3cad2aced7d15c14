//! Runs whose source or sink fails at one of its calls.

use cluster_terms::ByteText;
use file_runs::{calls_of, status_of, words_from};
use std::alloc::Global;
use std::test::Fail;
use tcm_edges::{MemSink, MemSource, SureSink, SureSource, SureStore};
use tcm_session::Status;

const SCRIPT: &str =
    "commit 1 register a dc1 r1\ncommit 2 unsafe-join 1 0 100\n\nnodes @2\ncommit 3 keyspace ks simple 1\nplace @3 ks\ncommit 4 unregister 9\n";

/// The answers to the lines of the script.
const ANSWERS: [&str; 7] = [
    "OK 1\n",
    "OK 2\n",
    "NO BAD-LINE\n",
    "NODES 2 1 0\n1 a dc1 r1 JOINED 0,100\n",
    "OK 3\n",
    "PLACE 3 ks 3\n(min,0] read 1 write 1\n(0,100] read 1 write 1\n(100,max] read 1 write 1\n",
    "NO NO-NODE\n",
];

/// The most bytes that a read gives.
const PIECE: usize = 13;

/// The answers to the first `lines` lines of the script.
fn first_answers(alloc: Global, lines: usize) -> Result<String, Fail> {
    let mut text = String::new(alloc);
    for answer in ANSWERS.iter().take(lines) {
        text.push_str(answer)?;
    }
    Ok(text)
}

/// The number of lines that end among the first `bytes` bytes of the script.
fn lines_among(bytes: usize) -> usize {
    SCRIPT
        .as_bytes()
        .iter()
        .take(bytes)
        .filter(|byte| **byte == b'\n')
        .count()
}

#[test]
fn a_failed_read_leaves_the_answers_to_what_was_read(rt: HostRuntime) -> Result<(), Fail> {
    let alloc = rt.alloc();
    let words = words_from(alloc, &["commit"])?;
    let reads = SCRIPT.len().div_ceil(PIECE) + 1;
    for call in 1..=reads + 1 {
        let mut input = MemSource::new(
            ByteText::from_vec(SCRIPT.as_bytes().to_vec(alloc)?),
            PIECE,
            calls_of(alloc, call as u64)?,
        );
        let mut out = SureSink::new(alloc);
        let mut store = SureStore::new(alloc);
        let status = status_of(alloc, &words, &mut input, &mut out, &mut store);
        let failed = call <= reads;
        let want = first_answers(alloc, lines_among((call - 1) * PIECE))?;
        assert_eq!(rt;
            status,
            if failed { Status(4) } else { Status(0) },
            "at read {call}"
        );
        assert_eq!(rt; out.bytes(), want.as_bytes(), "at read {call}");
    }
    Ok(())
}

#[test]
fn a_failed_write_leaves_the_answers_before_it(rt: HostRuntime) -> Result<(), Fail> {
    let alloc = rt.alloc();
    let words = words_from(alloc, &["commit"])?;
    for call in 1..=ANSWERS.len() + 1 {
        let mut input = SureSource::new(
            ByteText::from_vec(SCRIPT.as_bytes().to_vec(alloc)?),
            PIECE,
        );
        let mut out = MemSink::new(alloc, calls_of(alloc, call as u64)?);
        let mut store = SureStore::new(alloc);
        let status = status_of(alloc, &words, &mut input, &mut out, &mut store);
        let failed = call <= ANSWERS.len();
        let want = first_answers(alloc, call - 1)?;
        assert_eq!(rt;
            status,
            if failed { Status(5) } else { Status(0) },
            "at write {call}"
        );
        assert_eq!(rt; out.bytes(), want.as_bytes(), "at write {call}");
    }
    Ok(())
}
