//! Runs of `replay` over entries and states: reports, lines that are refused, files that are absent or too large, and
//! stores that fail.

use file_runs::{
    AT_0, AT_2, AT_3, File, REPLAY, Replayed, USAGE, fail_of, holds, is_shown, is_too_large,
    put_file, replays, sure_store_of,
};
use std::alloc::Global;
use std::process::Abort;
use std::test::Fail;
use tcm_edges::MemStore;

/// What reports show of the epochs 1 and 6 of the first log.
const AT_1: &str = "NODES 1 1 0\n\
    1 a dc1 r1 REGISTERED -\n";

const AT_6: &str = "NODES 6 2 1\n\
    1 a dc1 r1 JOINED 0\n\
    2 b dc1 r1 BOOTSTRAPPING -\n\
    SEQ 2 join STARTED out - in 100@2\n\
    PLACE 6 ks 3\n\
    (min,0] read 1 write 1\n\
    (0,100] read 1 write 1,2\n\
    (100,max] read 1 write 1\n";

/// Runs of `replay x y`.
const REPLAYS: [Replayed; 15] = [
    (
        "lines out of order and a cut tail",
        Some("351|2"),
        Some("2146"),
        0,
        "REPLAY 7 at 6 waiting 0 full 0\n",
        AT_6,
    ),
    (
        "each line twice",
        Some("12"),
        Some("21"),
        0,
        "REPLAY 4 at 2 waiting 0 full 0\n",
        AT_2,
    ),
    (
        "an entry that waits, twice",
        Some("12"),
        Some("44"),
        0,
        "REPLAY 4 at 2 waiting 1 full 0\n",
        AT_2,
    ),
    (
        "keyspaces ascend by name",
        Some("312"),
        Some("k"),
        0,
        "REPLAY 4 at 4 waiting 0 full 0\n",
        "NODES 4 1 0\n\
            1 a dc1 r1 JOINED 0\n\
            PLACE 4 ka 2\n\
            (min,0] read 1 write 1\n\
            (0,max] read 1 write 1\n\
            PLACE 4 ks 2\n\
            (min,0] read 1 write 1\n\
            (0,max] read 1 write 1\n",
    ),
    (
        "another spelling",
        Some("s"),
        Some("1"),
        0,
        "REPLAY 2 at 1 waiting 0 full 0\n",
        AT_1,
    ),
    (
        "no line",
        Some(""),
        Some("|1"),
        0,
        "REPLAY 0 at 0 waiting 0 full 0\n",
        AT_0,
    ),
    (
        "another old entry is no fork",
        Some("1b"),
        Some("2"),
        0,
        "REPLAY 3 at 2 waiting 0 full 0\n",
        "NODES 2 2 0\n\
            1 a dc1 r1 REGISTERED -\n\
            2 b dc1 r1 REGISTERED -\n",
    ),
    (
        "a fork",
        Some("3"),
        Some("1d2"),
        3,
        "REFUSED 2 2 FORK 3\n\
            {\"command\":{\"kind\":\"keyspace\",\"name\":\"ks\",\"replication\":\"simple 1\"},\"entry\":3,\"epoch\":3}\n\
            {\"command\":{\"kind\":\"keyspace\",\"name\":\"kt\",\"replication\":\"topology dc1:3 dc2:1\"},\"entry\":0,\"epoch\":3}\n",
        "",
    ),
    (
        "a command that comes to be refused",
        Some("41"),
        Some("3b"),
        3,
        "REFUSED 2 2 COMMAND 4 NAME-TAKEN 2\n",
        "",
    ),
    (
        "a line that breaks a rule",
        Some("1"),
        Some("2x"),
        3,
        "REFUSED 2 2 LINE 2\n",
        "",
    ),
    (
        "a refused line before an absent file",
        Some("12x"),
        None,
        3,
        "REFUSED 1 3 LINE 2\n",
        "",
    ),
    ("no second file", Some("1"), None, 7, "NO FILE y\n", ""),
    ("no first file", None, Some("x"), 7, "NO FILE x\n", ""),
    ("no file", None, None, 7, "NO FILE x\n", ""),
    (
        "the second file first",
        Some("2"),
        Some("|x"),
        0,
        "REPLAY 1 at 0 waiting 1 full 0\n",
        AT_0,
    ),
];

/// Runs of `replay x y` over files with states.
const STATES: [Replayed; 15] = [
    (
        "a state that the entries contain",
        Some("A"),
        Some("123"),
        0,
        "REPLAY 4 at 3 waiting 0 full 0\n",
        AT_3,
    ),
    (
        "older states after a newer one",
        Some("J"),
        Some("JAKO"),
        0,
        "REPLAY 5 at 6 waiting 0 full 0\n",
        AT_6,
    ),
    (
        "a state before the entries that wait",
        Some("43"),
        Some("A"),
        0,
        "REPLAY 3 at 4 waiting 0 full 0\n",
        "NODES 4 2 0\n\
            1 a dc1 r1 JOINED 0\n\
            2 b dc1 r1 REGISTERED -\n\
            PLACE 4 ks 2\n\
            (min,0] read 1 write 1\n\
            (0,max] read 1 write 1\n",
    ),
    (
        "a state drops an entry that waits, and another waits on",
        Some("26"),
        Some("K"),
        0,
        "REPLAY 3 at 3 waiting 1 full 0\n",
        AT_3,
    ),
    (
        "a movement of a state that entries end",
        Some("8J"),
        Some("7"),
        0,
        "REPLAY 3 at 8 waiting 0 full 0\n",
        "NODES 8 2 0\n\
            1 a dc1 r1 JOINED 0\n\
            2 b dc1 r1 JOINED 100\n\
            PLACE 8 ks 3\n\
            (min,0] read 1 write 1\n\
            (0,100] read 2 write 2\n\
            (100,max] read 1 write 1\n",
    ),
    (
        "another spelling of a state, and a cut tail",
        Some("S"),
        Some("|J"),
        0,
        "REPLAY 1 at 2 waiting 0 full 0\n",
        AT_2,
    ),
    (
        "another state of the same epoch",
        Some("12"),
        Some("T"),
        0,
        "REPLAY 3 at 2 waiting 0 full 0\n",
        AT_2,
    ),
    (
        "a state at epoch 0",
        Some("O"),
        Some("3"),
        0,
        "REPLAY 2 at 0 waiting 1 full 0\n",
        AT_0,
    ),
    (
        "a state at the greatest epoch",
        Some("L"),
        Some("1"),
        0,
        "REPLAY 2 at 65536 waiting 0 full 0\n",
        "NODES 65536 0 0\n",
    ),
    (
        "a fork after a state",
        Some("A"),
        Some("4k"),
        3,
        "REFUSED 2 2 FORK 4\n\
            {\"command\":{\"dc\":\"dc1\",\"kind\":\"register\",\"name\":\"b\",\"rack\":\"r1\"},\"entry\":4,\"epoch\":4}\n\
            {\"command\":{\"kind\":\"keyspace\",\"name\":\"ka\",\"replication\":\"simple 1\"},\"entry\":9,\"epoch\":4}\n",
        "",
    ),
    (
        "an entry after a state of another history",
        Some("T"),
        Some("34"),
        3,
        "REFUSED 2 2 COMMAND 4 NAME-TAKEN 2\n",
        "",
    ),
    (
        "an entry that waits for a state of another history",
        Some("43"),
        Some("1T"),
        3,
        "REFUSED 2 2 COMMAND 4 NAME-TAKEN 2\n",
        "",
    ),
    (
        "a join that a state has already",
        Some("J"),
        Some("74"),
        0,
        "REPLAY 3 at 7 waiting 0 full 0\n",
        "NODES 7 2 1\n\
            1 a dc1 r1 JOINED 0\n\
            2 b dc1 r1 BOOTSTRAPPING -\n\
            SEQ 2 join MID out - in 100@2\n\
            PLACE 7 ks 3\n\
            (min,0] read 1 write 1\n\
            (0,100] read 2 write 1,2\n\
            (100,max] read 1 write 1\n",
    ),
    (
        "an old state that is not valid",
        Some("12"),
        Some("N"),
        3,
        "REFUSED 2 1 IMAGE 6 3\n",
        "",
    ),
    (
        "the first state that is not valid",
        Some("12N"),
        Some("J"),
        3,
        "REFUSED 1 3 IMAGE 6 3\n",
        "",
    ),
];

/// Replays of one file: the name of the run, that of the file, what it holds, the status, and what is printed.
const ALONE: [(&str, &str, File, u8, &str); 3] = [
    (
        "replay-cut-line",
        "x",
        Some("12|c"),
        0,
        "REPLAY 2 at 2 waiting 0 full 0\n\
            NODES 2 1 0\n\
            1 a dc1 r1 JOINED 0\n",
    ),
    (
        "fork-and-gap",
        "x",
        Some("13r"),
        3,
        "REFUSED 1 3 FORK 3\n\
            {\"command\":{\"kind\":\"keyspace\",\"name\":\"ks\",\"replication\":\"simple 1\"},\"entry\":3,\"epoch\":3}\n\
            {\"command\":{\"kind\":\"keyspace\",\"name\":\"ks\",\"replication\":\"simple 2\"},\"entry\":3,\"epoch\":3}\n",
    ),
    ("unknown-things", "nofile", None, 7, "NO FILE nofile\n"),
];

/// Replays each file alone. It is unchanged.
fn replays_alone<A: Abort>(rt: &A, alloc: Global) -> Result<(), Fail> {
    for row in &ALONE {
        let (name, named, file, status, text) = *row;
        let mut store = sure_store_of(alloc, file)?;
        let words = ["replay", named];
        is_shown(alloc, name, &words, &mut store, (status, text))?;
        assert!(rt; holds(alloc, &store, file)?, "{name}");
    }
    Ok(())
}

/// A file of 1,025 entries, of the epochs from 3 on.
fn many_entries(alloc: Global) -> Result<Vec<u8>, Fail> {
    let mut bytes = Vec::new(alloc);
    for epoch in 3..1_028 {
        let line = format!(in alloc;
            "{{\"command\":{{\"kind\":\"cancel\",\"node\":1}},\"entry\":{epoch},\"epoch\":{epoch}}}\n"
        )?;
        bytes.extend_from_slice(line.as_bytes())?;
    }
    Ok(bytes)
}

/// Of 1,025 entries past the next epoch one doesn't wait.
fn fills(alloc: Global) -> Result<(), Fail> {
    let mut store = sure_store_of(alloc, None)?;
    store.put("x", many_entries(alloc)?.as_slice())?;
    put_file(alloc, &mut store, "y", Some("1"))?;
    let text = "REPLAY 1026 at 1 waiting 1024 full 1\n\
        NODES 1 1 0\n\
        1 a dc1 r1 REGISTERED -\n";
    is_shown(alloc, "1,025 entries", &REPLAY, &mut store, (0, text))
}

/// The words of a replay of the file `x`, this many times.
fn times(alloc: Global, count: usize) -> Result<Vec<&'static str>, Fail> {
    let mut words = vec![in alloc; "x"; count]?;
    words.insert(0, "replay")?;
    Ok(words)
}

/// How many files are replayed, the status, and what is printed.
const COUNTS: [(usize, u8, &str); 2] = [
    (
        64,
        0,
        "REPLAY 64 at 1 waiting 0 full 0\n\
            NODES 1 1 0\n\
            1 a dc1 r1 REGISTERED -\n",
    ),
    (65, 2, USAGE),
];

/// A replay has at most 64 files.
fn limits_files(alloc: Global) -> Result<(), Fail> {
    for row in &COUNTS {
        let (count, status, text) = *row;
        let mut store = sure_store_of(alloc, Some("1"))?;
        let words = times(alloc, count)?;
        is_shown(alloc, "64 or 65 files", &words, &mut store, (status, text))?;
    }
    Ok(())
}

#[test]
fn files_are_replayed(rt: HostRuntime) -> Result<(), Fail> {
    replays(rt.alloc(), &REPLAYS)?;
    replays(rt.alloc(), &STATES)?;
    fills(rt.alloc())?;
    limits_files(rt.alloc())
}

#[test]
fn single_files_are_replayed(rt: HostRuntime) -> Result<(), Fail> {
    replays_alone(&rt, rt.alloc())
}

/// A store that fails at its second load ends a replay of two files, and nothing is printed.
fn stops(alloc: Global) -> Result<(), Fail> {
    let mut store = MemStore::new(alloc, fail_of(alloc, (2, 0))?);
    put_file(alloc, &mut store, "x", Some("1"))?;
    put_file(alloc, &mut store, "y", Some("2"))?;
    is_shown(alloc, "a load that fails", &REPLAY, &mut store, (6, ""))
}

#[test]
fn replays_stop(rt: HostRuntime) -> Result<(), Fail> {
    stops(rt.alloc())?;
    is_too_large(rt.alloc(), &REPLAY)
}
