//! Runs of `commit x c1` that stop at a call of the outside, each followed by a run of the same script over what it
//! left.

use cluster_terms::ByteText;
use file_runs::{
    File, bytes_of, calls_of, fail_of, keeps_other, status_of, store_of, sure_store_of, words_from,
};
use std::alloc::Global;
use std::process::Abort;
use std::test::Fail;
use tcm_edges::{CallList, MemSink, MemSource, MemStore};
use tcm_session::Status;

/// The script of each run: two commits.
const SCRIPT: &str = "commit 1 register a dc1 r1\ncommit 2 register b dc1 r1\n";

/// The answers to both commits, and the bytes of one answer.
const ANSWERS: &str = "OK 1\nOK 2\n";

const ANSWER: usize = 5;

/// The file with both entries, the bytes of its header, and those of the line of one entry.
const BOTH: &str = "H1b";

const HEADER: usize = 28;

const LINE: usize = 86;

/// The bytes of a line of the script, and the most bytes that a read gives.
const COMMIT: usize = 27;

const PIECE: usize = 7;

/// What a run leaves: its status, the number of answers, and how many bytes of the whole file the file has.
#[derive(Clone, Copy)]
struct Left {
    status: u8,
    answers: usize,
    file: usize,
}

/// What a run leaves that added this many bytes to the header.
fn leaves(status: u8, answers: usize, added: usize) -> Left {
    Left {
        status,
        answers,
        file: HEADER.saturating_add(added),
    }
}

/// The words of each run.
const WORDS: [&str; 3] = ["commit", "x", "c1"];

/// The script as a source whose read of this number fails; none does at 0.
fn source(alloc: Global, call: u64) -> Result<MemSource, Fail> {
    let script = ByteText::from_vec(SCRIPT.as_bytes().to_vec(alloc)?);
    Ok(MemSource::new(script, PIECE, calls_of(alloc, call)?))
}

/// Whether the file `x` is the first bytes of the whole file, as many as are wanted, and the other file is unchanged.
fn is_front(alloc: Global, store: &MemStore, wanted: usize) -> Result<bool, Fail> {
    let whole = bytes_of(alloc, BOTH)?;
    let front = whole.as_slice().get(..wanted);
    Ok(keeps_other(store) && store.file("x") == front)
}

/// Runs the script over these objects, and compares what it leaves.
fn stops<A: Abort>(
    rt: &A,
    alloc: Global,
    mut input: MemSource,
    mut out: MemSink,
    store: &mut MemStore,
    wanted: Left,
) -> Result<(), Fail> {
    let words = words_from(alloc, &WORDS)?;
    let status = status_of(alloc, &words, &mut input, &mut out, store);
    assert_eq!(rt; status, Status(wanted.status));
    let answers = ANSWERS
        .as_bytes()
        .get(..wanted.answers.saturating_mul(ANSWER));
    assert!(rt; Some(out.bytes()) == answers);
    assert!(rt; is_front(alloc, store, wanted.file)?);
    Ok(())
}

/// Runs the script without faults: both commits are answered, and the file has both entries.
fn is_done<A: Abort>(rt: &A, alloc: Global, store: &mut MemStore) -> Result<(), Fail> {
    let words = words_from(alloc, &WORDS)?;
    let mut input = source(alloc, 0)?;
    let mut out = MemSink::new(alloc, CallList::empty(alloc));
    let status = status_of(alloc, &words, &mut input, &mut out, store);
    assert_eq!(rt; status, Status(0));
    assert_eq!(rt; out.bytes(), ANSWERS.as_bytes());
    assert!(rt; is_front(alloc, store, HEADER + 2 * LINE)?);
    Ok(())
}

/// Runs the script over these objects, and compares what it leaves. Then runs it again without faults.
fn goes_on<A: Abort>(
    rt: &A,
    alloc: Global,
    input: MemSource,
    out: MemSink,
    mut store: MemStore,
    wanted: Left,
) -> Result<(), Fail> {
    stops(rt, alloc, input, out, &mut store, wanted)?;
    is_done(rt, alloc, &mut store)
}

/// Stops a run at a read, and goes on.
fn read_fails<A: Abort>(rt: &A, alloc: Global, call: usize) -> Result<(), Fail> {
    let lines = call.saturating_sub(1).saturating_mul(PIECE) / COMMIT;
    let input = source(alloc, call as u64)?;
    let out = MemSink::new(alloc, CallList::empty(alloc));
    let store = sure_store_of(alloc, None)?;
    goes_on(
        rt,
        alloc,
        input,
        out,
        store,
        leaves(4, lines, lines.saturating_mul(LINE)),
    )
}

/// Stops a run at a write, and goes on. The entry whose answer isn't written is in the file.
fn write_fails<A: Abort>(rt: &A, alloc: Global, call: usize) -> Result<(), Fail> {
    let input = source(alloc, 0)?;
    let out = MemSink::new(alloc, calls_of(alloc, call as u64)?);
    let store = sure_store_of(alloc, None)?;
    goes_on(
        rt,
        alloc,
        input,
        out,
        store,
        leaves(5, call.saturating_sub(1), call.saturating_mul(LINE)),
    )
}

/// A file without entries, and the call of the store that appends the first one.
type Start = (File, u64);

/// The first call loads the file, and the next one writes the header unless it is there.
const STARTS: [Start; 3] = [(None, 3), (Some("|H"), 3), (Some("H"), 2)];

/// Stops a run at an append that keeps some bytes of its line, and goes on.
fn append_fails<A: Abort>(
    rt: &A,
    alloc: Global,
    start: Start,
    lines: usize,
    kept: usize,
) -> Result<(), Fail> {
    let (file, first) = start;
    let input = source(alloc, 0)?;
    let out = MemSink::new(alloc, CallList::empty(alloc));
    let fails = fail_of(alloc, (first.saturating_add(lines as u64), kept as u64))?;
    let store = store_of(alloc, fails, file)?;
    goes_on(
        rt,
        alloc,
        input,
        out,
        store,
        leaves(6, lines, lines.saturating_mul(LINE).saturating_add(kept)),
    )
}

/// Stops runs at the first and at the second append.
fn appends_fail<A: Abort>(rt: &A, alloc: Global, kept: usize) -> Result<(), Fail> {
    for start in &STARTS {
        append_fails(rt, alloc, *start, 0, kept)?;
        append_fails(rt, alloc, *start, 1, kept)?;
    }
    Ok(())
}

#[test]
fn reads_and_writes_stop_a_run(rt: HostRuntime) -> Result<(), Fail> {
    let reads = SCRIPT.len().div_ceil(PIECE) + 1;
    for call in 1..=reads {
        read_fails(&rt, rt.alloc(), call)?;
    }
    write_fails(&rt, rt.alloc(), 1)?;
    write_fails(&rt, rt.alloc(), 2)
}

#[test]
fn appends_stop_a_run(rt: HostRuntime) -> Result<(), Fail> {
    for kept in 0..=LINE {
        appends_fail(&rt, rt.alloc(), kept)?;
    }
    Ok(())
}
