//! Runs of `commit` with a log file: logs that go on, logs that are refused, and stores that fail.

use file_runs::{
    ENTRY_1, ENTRY_2, ENTRY_3, File, bytes_of, fail_of, holds, is_run, is_too_large, keeps_other,
    store_of, sure_store_of,
};
use std::alloc::Global;
use std::process::Abort;
use std::test::Fail;
use tcm_edges::MemStore;

/// The name of a run, the file before it, its script, the answers, and the file after it.
type LogRun = (&'static str, File, &'static str, &'static str, File);

/// Runs over a log that is taken over, with status 0.
const RUNS: [LogRun; 26] = [
    ("header-line", None, "", "", Some("H")),
    (
        "no file and no entry",
        None,
        "commit 1 unregister 1\n\
            \n\
            nodes @0\n",
        "NO NO-NODE\n\
            NO BAD-LINE\n\
            NODES 0 0 0\n",
        Some("H"),
    ),
    (
        "two registers",
        None,
        "commit 1 register a dc1 r1\n\
            commit 2 register b dc1 r1\n",
        "OK 1\n\
            OK 2\n",
        Some("H1b"),
    ),
    (
        "an empty file",
        Some(""),
        "commit 1 register a dc1 r1\n",
        "OK 1\n",
        Some("H1"),
    ),
    ("an empty file and no line", Some(""), "", "", Some("H")),
    (
        "a log that goes on",
        Some("H12"),
        "nodes @2\n\
            commit 3 keyspace ks simple 1\n\
            place @3 ks\n\
            place @2 ks\n\
            nodes @4\n",
        "NODES 2 1 0\n\
            1 a dc1 r1 JOINED 0\n\
            OK 3\n\
            PLACE 3 ks 2\n\
            (min,0] read 1 write 1\n\
            (0,max] read 1 write 1\n\
            NO KEYSPACE\n\
            NO EPOCH 3\n",
        Some("H123"),
    ),
    (
        "a last line without its line feed",
        Some("H1"),
        "commit 7 unregister 2\ncommit 2 unsafe-join 1 0",
        "NO NO-NODE\n\
            OK 2\n",
        Some("H12"),
    ),
    (
        "ids of the log",
        Some("H12"),
        "commit 1 register a dc1 r1\n\
            commit 2 unsafe-join 1 1\n\
            commit 2 unsafe-join 1 0\n\
            commit 1 unsafe-join 77 0\n\
            commit 3 keyspace ks simple 1\n\
            commit 3 keyspace ks simple 1\n\
            commit 1 register a dc1 r1\n",
        "OK 1\n\
            NO ID-REUSED 2\n\
            OK 2\n\
            NO ID-REUSED 1\n\
            OK 3\n\
            OK 3\n\
            OK 1\n",
        Some("H123"),
    ),
    (
        "another spelling stays",
        Some("Hsp"),
        "commit 1 register a dc1 r1\n\
            commit 2 unsafe-join 1 0\n\
            commit 7 register a dc1 r1\n\
            commit 3 keyspace ks simple 1\n",
        "OK 1\n\
            OK 2\n\
            NO NAME-TAKEN 1\n\
            OK 3\n",
        Some("Hsp3"),
    ),
    (
        "tokens and datacenters ascend in the file",
        Some("H1"),
        "commit 18446744073709551615 unsafe-join 1 5 -9223372036854775808 -5\n\
            commit 0 keyspace kt topology dc2:1 dc1:3\n",
        "OK 2\n\
            OK 3\n",
        Some("H1td"),
    ),
    (
        "a join that goes on",
        Some("H123456"),
        "quorum @6 ks 50\n\
            commit 5 prepare-join 2 100\n\
            commit 7 register b dc1 r1\n\
            commit 7 mid-join 2\n\
            quorum @7 ks 50\n\
            place @5 ks\n",
        "QUORUM 6 read 1 of 1 write 2 of 1,2\n\
            OK 5\n\
            NO NAME-TAKEN 2\n\
            OK 7\n\
            QUORUM 7 read 1 of 2 write 2 of 1,2\n\
            PLACE 5 ks 3\n\
            (min,0] read 1 write 1\n\
            (0,100] read 1 write 1\n\
            (100,max] read 1 write 1\n",
        Some("H1234567"),
    ),
    (
        "a follower and no entry",
        None,
        "follower f\n\
            deliver f 1\n\
            snapshot f 0\n",
        "AT 0\n\
            NO EPOCH 0\n\
            OLD 0\n",
        Some("H"),
    ),
    (
        "followers of the log in a file",
        Some("H12"),
        "follower f\n\
            deliver f 2\n\
            nodes f\n\
            commit 3 keyspace ks simple 1\n\
            deliver f 1\n\
            snapshot f 3\n\
            place f ks\n",
        "AT 0\n\
            AT 0\n\
            NODES 0 0 0\n\
            OK 3\n\
            AT 2\n\
            AT 3\n\
            PLACE 3 ks 2\n\
            (min,0] read 1 write 1\n\
            (0,max] read 1 write 1\n",
        Some("H123"),
    ),
    (
        "followers aren't in the file",
        Some("H123"),
        "nodes f\nfollower f\n",
        "NO FOLLOWER\nAT 0\n",
        Some("H123"),
    ),
    ("cut-tail", Some("H1|f"), "", "", Some("H1")),
    (
        "a cut tail and a new entry",
        Some("H1|f"),
        "commit 2 unsafe-join 1 0\n",
        "OK 2\n",
        Some("H12"),
    ),
    (
        "a cut tail that is a whole line",
        Some("H1|2"),
        "nodes @1\n\
            nodes @2\n",
        "NODES 1 1 0\n\
            1 a dc1 r1 REGISTERED -\n\
            NO EPOCH 1\n",
        Some("H1"),
    ),
    (
        "a cut tail that is sent again",
        Some("H1|2"),
        "commit 2 unsafe-join 1 0\n",
        "OK 2\n",
        Some("H12"),
    ),
    (
        "a cut tail that is no text",
        Some("H1|x"),
        "",
        "",
        Some("H1"),
    ),
    ("a cut tail and no line", Some("|f"), "", "", Some("H")),
    (
        "a cut tail before the first entry",
        Some("|f"),
        "commit 1 register a dc1 r1\n",
        "OK 1\n",
        Some("H1"),
    ),
    ("a header alone", Some("H"), "", "", Some("H")),
    (
        "a header and a cut tail",
        Some("H|f"),
        "commit 1 register a dc1 r1\n",
        "OK 1\n",
        Some("H1"),
    ),
    (
        "a header without its line feed",
        Some("|H"),
        "",
        "",
        Some("H"),
    ),
    (
        "the header of another cluster without its line feed",
        Some("|I"),
        "",
        "",
        Some("H"),
    ),
    (
        "another spelling of the header stays",
        Some("h1|H"),
        "commit 2 unsafe-join 1 0\n",
        "OK 2\n",
        Some("h12"),
    ),
];

/// The name of a refused log, the lines between its header and the line that is refused, told as those of a file, this
/// line, and the text that is printed.
type Refused = (&'static str, &'static str, &'static str, &'static str);

/// The bytes after each refused line: another line to refuse, and the front of a line.
const REST: &str = "\n{\n{\"comman";

/// Logs that are refused, with status 3.
const REFUSED: [Refused; 14] = [
    ("no JSON", "1", "{", "REFUSED 1 3 LINE 2\n"),
    ("no text", "1x", "", "REFUSED 1 3 LINE 2\n"),
    (
        "the line before its place in the log",
        "1",
        r#"{"command":{"kind":"join","node":1},"entry":1,"epoch":3}"#,
        "REFUSED 1 3 LINE 5\n",
    ),
    ("fork-and-gap", "1", ENTRY_3, "REFUSED 1 3 EPOCH 2 3\n"),
    (
        "a log without its first entry",
        "",
        ENTRY_2,
        "REFUSED 1 2 EPOCH 1 2\n",
    ),
    (
        "the epoch before the id",
        "12",
        ENTRY_1,
        "REFUSED 1 4 EPOCH 3 1\n",
    ),
    (
        "the epoch before the command",
        "1",
        r#"{"command":{"kind":"cancel","node":7},"entry":2,"epoch":65536}"#,
        "REFUSED 1 3 EPOCH 2 65536\n",
    ),
    (
        "an id twice",
        "12",
        r#"{"command":{"kind":"keyspace","name":"ks","replication":"simple 1"},"entry":1,"epoch":3}"#,
        "REFUSED 1 4 ID 1 1\n",
    ),
    (
        "an id and its command twice",
        "12",
        r#"{"command":{"kind":"unsafe-join","node":1,"tokens":[0]},"entry":2,"epoch":3}"#,
        "REFUSED 1 4 ID 2 2\n",
    ),
    (
        "the id before the command",
        "12",
        r#"{"command":{"kind":"cancel","node":7},"entry":2,"epoch":3}"#,
        "REFUSED 1 4 ID 2 2\n",
    ),
    (
        "no node",
        "1",
        r#"{"command":{"kind":"unsafe-join","node":7,"tokens":[0]},"entry":2,"epoch":2}"#,
        "REFUSED 1 3 COMMAND 2 NO-NODE\n",
    ),
    (
        "a name that is taken",
        "1",
        r#"{"command":{"dc":"dc1","kind":"register","name":"a","rack":"r1"},"entry":2,"epoch":2}"#,
        "REFUSED 1 3 COMMAND 2 NAME-TAKEN 1\n",
    ),
    (
        "a node that is joined",
        "12",
        r#"{"command":{"kind":"unsafe-join","node":1,"tokens":[7]},"entry":3,"epoch":3}"#,
        "REFUSED 1 4 COMMAND 3 NODE-STATE JOINED\n",
    ),
    (
        "no keyspace",
        "",
        r#"{"command":{"kind":"drop-keyspace","name":"ks"},"entry":18446744073709551615,"epoch":1}"#,
        "REFUSED 1 2 COMMAND 1 NO-KEYSPACE\n",
    ),
];

/// The name of a run in which the store fails, the file before it, the call of the store that fails and the bytes that
/// it keeps, the answers, and the file after the run. The first call loads the file. If there is no whole line, the next
/// one writes the header; if there is one and a cut tail, it cuts the tail.
type Stop = (&'static str, File, (u64, u64), &'static str, File);

/// The script of each run in which the store fails.
const REGISTERS: &str = "commit 1 register a dc1 r1\ncommit 2 register b dc1 r1\n";

/// The file once both registers are in it.
const BOTH: File = Some("H1b");

/// Runs that end with status 6.
const STOPS: [Stop; 15] = [
    ("store-stops", None, (4, 0), "OK 1\n", Some("H1")),
    ("a load", Some("H1|f"), (1, 9), "", Some("H1|f")),
    ("a load of no file", None, (1, 0), "", None),
    (
        "an append after a cut",
        Some("H1|f"),
        (3, 0),
        "OK 1\n",
        Some("H1"),
    ),
    (
        "an append after no cut",
        Some("H1"),
        (2, 0),
        "OK 1\n",
        Some("H1"),
    ),
    ("a header that isn't written", None, (2, 0), "", None),
    ("a header that is written", None, (2, 1), "", Some("H")),
    (
        "a header that an empty file doesn't get",
        Some(""),
        (2, 0),
        "",
        Some(""),
    ),
    (
        "a header that an empty file gets",
        Some(""),
        (2, 1),
        "",
        Some("H"),
    ),
    (
        "a header that a front of a line stays for",
        Some("|f"),
        (2, 0),
        "",
        Some("|f"),
    ),
    (
        "a header in the place of a front of a line",
        Some("|f"),
        (2, 1),
        "",
        Some("H"),
    ),
    (
        "a cut that isn't done",
        Some("H1|f"),
        (2, 0),
        "",
        Some("H1|f"),
    ),
    ("a cut that is done", Some("H1|f"), (2, 1), "", Some("H1")),
    (
        "a cut of a whole line that isn't done",
        Some("H1|b"),
        (2, 0),
        "",
        Some("H1|b"),
    ),
    (
        "a cut of a whole line that is done",
        Some("H1|b"),
        (2, 1),
        "",
        Some("H1"),
    ),
];

/// The words of a run over the log file `x`.
const WORDS: [&str; 3] = ["commit", "x", "c1"];

/// Runs a script over the log of a store, and compares the status, the answers and the file with those that are wanted.
fn leaves<A: Abort>(
    rt: &A,
    alloc: Global,
    name: &str,
    script: &str,
    mut store: MemStore,
    wanted: (u8, &str, File),
) -> Result<(), Fail> {
    is_run(
        alloc,
        name,
        &WORDS,
        script,
        &mut store,
        (wanted.0, wanted.1),
    )?;
    assert!(rt; holds(alloc, &store, wanted.2)?, "{name}");
    Ok(())
}

/// Runs each script over its log.
fn goes_on<A: Abort>(rt: &A, alloc: Global) -> Result<(), Fail> {
    for run in &RUNS {
        let (name, before, script, answers, after) = *run;
        let store = sure_store_of(alloc, before)?;
        leaves(rt, alloc, name, script, store, (0, answers, after))?;
    }
    Ok(())
}

/// Runs a script over a log that is refused, and compares the printed text with the one that is wanted. The file is
/// unchanged.
fn is_refused<A: Abort>(
    rt: &A,
    alloc: Global,
    name: &str,
    file: &[u8],
    text: &str,
) -> Result<(), Fail> {
    let mut store = sure_store_of(alloc, None)?;
    store.put("x", file)?;
    let script = "commit 9 register z dc1 r1\n";
    is_run(alloc, name, &WORDS, script, &mut store, (3, text))?;
    assert!(rt; store.file("x") == Some(file), "{name}");
    assert!(rt; keeps_other(&store), "{name}");
    Ok(())
}

/// The bytes of a log that is refused: its header, the lines before the one that is refused, this line and the rest.
fn refused_bytes(alloc: Global, lines: &str, line: &str) -> Result<Vec<u8>, Fail> {
    let mut file = bytes_of(alloc, "H")?;
    file.extend_from_slice(bytes_of(alloc, lines)?.as_slice())?;
    file.extend_from_slice(line.as_bytes())?;
    file.extend_from_slice(REST.as_bytes())?;
    Ok(file)
}

/// Runs a script over each log that is refused.
fn refuses<A: Abort>(rt: &A, alloc: Global) -> Result<(), Fail> {
    for refused in &REFUSED {
        let (name, lines, line, text) = *refused;
        let file = refused_bytes(alloc, lines, line)?;
        is_refused(rt, alloc, name, file.as_slice(), text)?;
    }
    Ok(())
}

#[test]
fn logs_go_on_or_are_refused(rt: HostRuntime) -> Result<(), Fail> {
    goes_on(&rt, rt.alloc())?;
    refuses(&rt, rt.alloc())
}

/// Runs in which the store fails, each followed by a run of the same script over the file that it left.
fn stops<A: Abort>(rt: &A, alloc: Global) -> Result<(), Fail> {
    for stop in &STOPS {
        let (name, before, fail, answers, after) = *stop;
        let store = store_of(alloc, fail_of(alloc, fail)?, before)?;
        leaves(rt, alloc, name, REGISTERS, store, (6, answers, after))?;
        let store = sure_store_of(alloc, after)?;
        leaves(rt, alloc, name, REGISTERS, store, (0, "OK 1\nOK 2\n", BOTH))?;
    }
    Ok(())
}

#[test]
fn stores_stop_runs(rt: HostRuntime) -> Result<(), Fail> {
    stops(&rt, rt.alloc())?;
    is_too_large(rt.alloc(), &WORDS)
}
