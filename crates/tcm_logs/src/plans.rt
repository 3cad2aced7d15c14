//! Runs of `plan`: stream plans of movements, nodes and keyspaces that have none, logs that are refused, words that are no
//! request, and calls of the outside that fail.

use cluster_terms::ByteText;
use file_runs::{
    File, USAGE, calls_of, fail_of, holds, is_shown, is_too_large, status_of, store_of,
    sure_store_of, words_from,
};
use std::alloc::Global;
use std::process::Abort;
use std::test::Fail;
use tcm_edges::{CallList, MemSink, MemSource, MemStore, StoreFailList, SureSink};
use tcm_session::Status;

/// A join at 150 on four nodes, beside a keyspace with three replicas.
const JOIN: &str = "commit 1 register a dc1 r1\n\
    commit 2 register b dc1 r1\n\
    commit 3 register c dc1 r1\n\
    commit 4 register d dc1 r1\n\
    commit 5 unsafe-join 1 0\n\
    commit 6 unsafe-join 2 100\n\
    commit 7 unsafe-join 3 200\n\
    commit 8 unsafe-join 4 300\n\
    commit 9 keyspace ks simple 3\n\
    commit 10 register e dc1 r1\n\
    commit 11 register f dc1 r1\n\
    commit 12 prepare-join 5 150\n";

/// A join on the empty ring.
const EMPTY_RING: &str = "commit 1 register a dc1 r1\n\
    commit 2 register b dc1 r1\n\
    commit 3 keyspace ks simple 1\n\
    commit 4 prepare-join 1 0\n";

/// A join in the first of two datacenters, of which the first has fewer nodes than a keyspace asks for.
const TWO_DATACENTERS: &str = "commit 1 register a dc1 r1\n\
    commit 2 register b dc1 r2\n\
    commit 3 register c dc2 r1\n\
    commit 4 register d dc2 r1\n\
    commit 5 register e dc1 r1\n\
    commit 6 unsafe-join 1 0\n\
    commit 7 unsafe-join 2 100\n\
    commit 8 unsafe-join 3 50\n\
    commit 9 unsafe-join 4 150\n\
    commit 10 keyspace kb topology dc1:3 dc2:1\n\
    commit 11 keyspace kl topology dc2:1\n\
    commit 12 prepare-join 5 120\n";

/// The name of a run, the script of its log, a node and a keyspace, the status, and the text that is printed.
type Planned = (
    &'static str,
    &'static str,
    &'static str,
    &'static str,
    u8,
    &'static str,
);

/// Plans of movements.
const PLANS: [Planned; 8] = [
    (
        "plan-of-join",
        JOIN,
        "5",
        "ks",
        0,
        "PLAN 12 5 ks 4\n\
            (min,0] to 5 from 3\n\
            (0,100] to 5 from 4\n\
            (100,150] to 5 from 1\n\
            (300,max] to 5 from 3\n",
    ),
    (
        "plan-on-empty-ring",
        EMPTY_RING,
        "1",
        "ks",
        0,
        "PLAN 4 1 ks 2\n\
            (min,0] to 1 any -\n\
            (0,max] to 1 any -\n",
    ),
    (
        "fewer nodes than replicas",
        TWO_DATACENTERS,
        "5",
        "kb",
        0,
        "PLAN 12 5 kb 6\n\
            (min,0] to 5 any 1,2,3\n\
            (0,50] to 5 any 1,2,3\n\
            (50,100] to 5 any 1,2,4\n\
            (100,120] to 5 any 1,2,4\n\
            (120,150] to 5 any 1,2,4\n\
            (150,max] to 5 any 1,2,3\n",
    ),
    (
        "another datacenter",
        TWO_DATACENTERS,
        "5",
        "kl",
        0,
        "PLAN 12 5 kl 0\n",
    ),
    ("no movement", EMPTY_RING, "2", "ks", 7, "NO SEQUENCE\n"),
    ("no node", EMPTY_RING, "77", "ks", 7, "NO SEQUENCE\n"),
    ("no keyspace", EMPTY_RING, "1", "kt", 7, "NO KEYSPACE\n"),
    ("neither", EMPTY_RING, "2", "kt", 7, "NO SEQUENCE\n"),
];

/// A store with the log that a script makes as the file `x`.
fn store_after<A: Abort>(rt: &A, alloc: Global, script: &str) -> Result<MemStore, Fail> {
    let words = words_from(alloc, &["commit", "x", "c1"])?;
    let script = ByteText::from_vec(script.as_bytes().to_vec(alloc)?);
    let mut input = MemSource::new(script, 64, CallList::empty(alloc));
    let mut out = SureSink::new(alloc);
    let mut store = MemStore::new(alloc, StoreFailList::empty(alloc));
    let status = status_of(alloc, &words, &mut input, &mut out, &mut store);
    assert_eq!(rt; status, Status(0));
    assert!(rt; !out.bytes().contains(&b'N'));
    Ok(store)
}

/// Prints the plan of a row.
fn is_planned<A: Abort>(rt: &A, alloc: Global, row: &Planned) -> Result<(), Fail> {
    let (name, script, node, keyspace, status, text) = *row;
    let mut store = store_after(rt, alloc, script)?;
    let words = ["plan", "x", node, keyspace];
    is_shown(alloc, name, &words, &mut store, (status, text))
}

#[test]
fn plans_are_printed(rt: HostRuntime) -> Result<(), Fail> {
    for row in &PLANS {
        is_planned(&rt, rt.alloc(), row)?;
    }
    Ok(())
}

/// The name of a run, the file `x`, the status, and the text that is printed.
type InLog = (&'static str, File, u8, &'static str);

/// The plan of node 2 under `ks`, by other logs.
const LOGS: [InLog; 13] = [
    ("no file", None, 7, "NO FILE x\n"),
    ("an empty file", Some(""), 7, "NO SEQUENCE\n"),
    ("an empty log", Some("H"), 7, "NO SEQUENCE\n"),
    ("no whole line", Some("|12"), 7, "NO SEQUENCE\n"),
    (
        "a join that is prepared",
        Some("H12345"),
        0,
        "PLAN 5 2 ks 1\n(0,100] to 2 from 1\n",
    ),
    (
        "a join half way",
        Some("H1234567"),
        0,
        "PLAN 7 2 ks 1\n(0,100] to 2 from 1\n",
    ),
    (
        "a node that has joined",
        Some("H12345678"),
        7,
        "NO SEQUENCE\n",
    ),
    (
        "a cut tail",
        Some("H1234567|8"),
        0,
        "PLAN 7 2 ks 1\n(0,100] to 2 from 1\n",
    ),
    (
        "another cluster",
        Some("I123456"),
        0,
        "PLAN 6 2 ks 1\n(0,100] to 2 from 1\n",
    ),
    ("no header", Some("12"), 3, "REFUSED 1 1 FORMAT\n"),
    ("a gap", Some("H13"), 3, "REFUSED 1 3 EPOCH 2 3\n"),
    (
        "a command that is refused",
        Some("H1b34"),
        3,
        "REFUSED 1 5 COMMAND 4 NAME-TAKEN 2\n",
    ),
    (
        "snapshot-in-log",
        Some("H12A"),
        3,
        "REFUSED 1 4 NOT-ENTRY\n",
    ),
];

/// The words of a run.
const WORDS: [&str; 4] = ["plan", "x", "2", "ks"];

/// Asks by each of the logs. The file is unchanged.
fn by_logs<A: Abort>(rt: &A, alloc: Global) -> Result<(), Fail> {
    for row in &LOGS {
        let (name, file, status, text) = *row;
        let mut store = sure_store_of(alloc, file)?;
        is_shown(alloc, name, &WORDS, &mut store, (status, text))?;
        assert!(rt; holds(alloc, &store, file)?, "{name}");
    }
    Ok(())
}

/// Words that name no command.
const OTHER_WORDS: [&[&str]; 17] = [
    &["plan"],
    &["plan", "x"],
    &["plan", "x", "1"],
    &["plan", "x", "1", "ks", "1"],
    &["plan", "", "1", "ks"],
    &["Plan", "x", "1", "ks"],
    &["plans", "x", "1", "ks"],
    &["plan", "x", "ks", "1"],
    &["plan", "x", "", "ks"],
    &["plan", "x", "01", "ks"],
    &["plan", "x", "-1", "ks"],
    &["plan", "x", "1 ", "ks"],
    &["plan", "x", "4294967296", "ks"],
    &["plan", "x", "1", ""],
    &["plan", "x", "1", "k s"],
    &["plan", "x", "1", "ks\n"],
    &["plan", "x", "1", "k23456789012345678901234567890123"],
];

#[test]
fn plans_are_refused(rt: HostRuntime) -> Result<(), Fail> {
    by_logs(&rt, rt.alloc())?;
    for words in &OTHER_WORDS {
        let mut store = store_of(rt.alloc(), fail_of(rt.alloc(), (1, 0))?, Some("H1"))?;
        is_shown(rt.alloc(), "no plan", words, &mut store, (2, USAGE))?;
    }
    Ok(())
}

/// The plan isn't printed if the write fails.
fn is_unwritten<A: Abort>(rt: &A, alloc: Global) -> Result<(), Fail> {
    let words = words_from(alloc, &WORDS)?;
    let mut input = MemSource::new(ByteText::empty(alloc), 64, calls_of(alloc, 1)?);
    let mut out = MemSink::new(alloc, calls_of(alloc, 1)?);
    let mut store = sure_store_of(alloc, Some("H12345"))?;
    let status = status_of(alloc, &words, &mut input, &mut out, &mut store);
    assert_eq!(rt; status, Status(5));
    assert!(rt; holds(alloc, &store, Some("H12345"))?);
    Ok(())
}

#[test]
fn plans_are_not_printed(rt: HostRuntime) -> Result<(), Fail> {
    let mut store = store_of(rt.alloc(), fail_of(rt.alloc(), (1, 0))?, Some("H12345"))?;
    let name = "a load that fails";
    is_shown(rt.alloc(), name, &WORDS, &mut store, (6, ""))?;
    assert!(rt; holds(rt.alloc(), &store, Some("H12345"))?);
    is_unwritten(&rt, rt.alloc())?;
    is_too_large(rt.alloc(), &WORDS)
}
