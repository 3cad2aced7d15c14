//! Runs of `mend2`: logs that get a header, logs that don't, files that are there, and calls of the outside that fail.

use cluster_terms::ByteText;
use file_runs::{
    AT_3, File, bytes_of, calls_of, fail_of, holds, holds_second, is_run, is_shown, is_too_large,
    put_file, status_of, store_of, sure_store_of, words_from, words_in,
};
use std::alloc::Global;
use std::process::Abort;
use std::str::from_utf8;
use std::test::Fail;
use tcm_edges::{CallList, MemSink, MemSource, MemStore};
use tcm_session::Status;

/// The name of a run, the files `x` and `y`, the status, the text that is printed, and the file `y` after the run.
type Mended = (&'static str, File, File, u8, &'static str, File);

/// Logs that get a header.
const MENDED: [Mended; 9] = [
    (
        "mend-format",
        Some("123"),
        None,
        0,
        "MENDED 3\n",
        Some("H123"),
    ),
    ("no line", Some(""), None, 0, "MENDED 0\n", Some("H")),
    (
        "no whole line",
        Some("|1"),
        None,
        0,
        "MENDED 0\n",
        Some("H"),
    ),
    (
        "a cut tail is left out",
        Some("12|f"),
        None,
        0,
        "MENDED 2\n",
        Some("H12"),
    ),
    (
        "a cut tail that is a whole line",
        Some("12|3"),
        None,
        0,
        "MENDED 2\n",
        Some("H12"),
    ),
    (
        "a cut tail that is a header",
        Some("1|H"),
        None,
        0,
        "MENDED 1\n",
        Some("H1"),
    ),
    (
        "another spelling",
        Some("sp"),
        None,
        0,
        "MENDED 2\n",
        Some("H12"),
    ),
    (
        "tokens and datacenters",
        Some("1td"),
        None,
        0,
        "MENDED 3\n",
        Some("H1td"),
    ),
    (
        "a join",
        Some("12345678"),
        None,
        0,
        "MENDED 8\n",
        Some("H12345678"),
    ),
];

/// Runs that change nothing, and say why.
const NOT_MENDED: [Mended; 23] = [
    ("no log", None, None, 7, "NO FILE x\n", None),
    (
        "a header",
        Some("H123"),
        None,
        3,
        "REFUSED 1 1 HEADER\n",
        None,
    ),
    (
        "a header alone",
        Some("h"),
        None,
        3,
        "REFUSED 1 1 HEADER\n",
        None,
    ),
    (
        "the header of another cluster",
        Some("I"),
        None,
        3,
        "REFUSED 1 1 HEADER\n",
        None,
    ),
    (
        "a header past the first line",
        Some("12H3"),
        None,
        3,
        "REFUSED 1 3 HEADER\n",
        None,
    ),
    (
        "the header of another format",
        Some("F1"),
        None,
        3,
        "REFUSED 1 1 LINE 7\n",
        None,
    ),
    (
        "a line that breaks a rule",
        Some("12x"),
        None,
        3,
        "REFUSED 1 3 LINE 2\n",
        None,
    ),
    (
        "snapshot-in-log",
        Some("1A"),
        None,
        3,
        "REFUSED 1 2 NOT-ENTRY\n",
        None,
    ),
    (
        "a state on the first line",
        Some("A3"),
        None,
        3,
        "REFUSED 1 1 NOT-ENTRY\n",
        None,
    ),
    (
        "a gap",
        Some("13"),
        None,
        3,
        "REFUSED 1 2 EPOCH 2 3\n",
        None,
    ),
    (
        "a log without its first entry",
        Some("2"),
        None,
        3,
        "REFUSED 1 1 EPOCH 1 2\n",
        None,
    ),
    (
        "an entry twice",
        Some("122"),
        None,
        3,
        "REFUSED 1 3 EPOCH 3 2\n",
        None,
    ),
    (
        "an id twice",
        Some("1i"),
        None,
        3,
        "REFUSED 1 2 ID 1 1\n",
        None,
    ),
    (
        "a command that is refused",
        Some("1b34"),
        None,
        3,
        "REFUSED 1 4 COMMAND 4 NAME-TAKEN 2\n",
        None,
    ),
    (
        "the same again",
        Some("123"),
        Some("H123"),
        7,
        "FILE-THERE y\n",
        Some("H123"),
    ),
    (
        "an empty file",
        Some("123"),
        Some(""),
        7,
        "FILE-THERE y\n",
        Some(""),
    ),
    (
        "a front of a line",
        Some("123"),
        Some("|f"),
        7,
        "FILE-THERE y\n",
        Some("|f"),
    ),
    (
        "the log itself",
        Some("123"),
        Some("123"),
        7,
        "FILE-THERE y\n",
        Some("123"),
    ),
    (
        "another log",
        Some(""),
        Some("I1"),
        7,
        "FILE-THERE y\n",
        Some("I1"),
    ),
    (
        "no log before a file that is there",
        None,
        Some("H"),
        7,
        "NO FILE x\n",
        Some("H"),
    ),
    (
        "a gap before a file that is there",
        Some("13"),
        Some("H"),
        3,
        "REFUSED 1 2 EPOCH 2 3\n",
        Some("H"),
    ),
    (
        "a header before a file that is there",
        Some("H1"),
        Some("H1"),
        3,
        "REFUSED 1 1 HEADER\n",
        Some("H1"),
    ),
    (
        "a state before a file that is there",
        Some("K"),
        Some("|f"),
        3,
        "REFUSED 1 1 NOT-ENTRY\n",
        Some("|f"),
    ),
];

/// The words of a run over the files `x` and `y`.
const WORDS: [&str; 4] = ["mend2", "x", "y", "c1"];

/// A store with the files `x` and `y`, in which no call fails.
fn both(alloc: Global, first: File, second: File) -> Result<MemStore, Fail> {
    let mut store = sure_store_of(alloc, first)?;
    put_file(alloc, &mut store, "y", second)?;
    Ok(store)
}

/// Runs the words over the files of each row. The file `x` is unchanged.
fn mends<A: Abort>(rt: &A, alloc: Global, rows: &[Mended]) -> Result<(), Fail> {
    for row in rows {
        let (name, first, second, status, text, after) = *row;
        let mut store = both(alloc, first, second)?;
        is_shown(alloc, name, &WORDS, &mut store, (status, text))?;
        assert!(rt; holds(alloc, &store, first)?, "{name}");
        assert!(rt; holds_second(alloc, &store, after)?, "{name}");
    }
    Ok(())
}

/// The log and the new file under one name: the log, the status and the text.
const SAME: [(File, u8, &str); 5] = [
    (Some("123"), 7, "FILE-THERE x\n"),
    (Some(""), 7, "FILE-THERE x\n"),
    (None, 7, "NO FILE x\n"),
    (Some("13"), 3, "REFUSED 1 2 EPOCH 2 3\n"),
    (Some("H1"), 3, "REFUSED 1 1 HEADER\n"),
];

/// A log isn't mended in its place.
fn mends_no_log_in_place<A: Abort>(rt: &A, alloc: Global) -> Result<(), Fail> {
    for row in &SAME {
        let (log, status, text) = *row;
        let words = ["mend2", "x", "x", "c1"];
        let mut store = sure_store_of(alloc, log)?;
        is_shown(alloc, text, &words, &mut store, (status, text))?;
        assert!(rt; holds(alloc, &store, log)?, "{text}");
    }
    Ok(())
}

#[test]
fn logs_are_mended(rt: HostRuntime) -> Result<(), Fail> {
    mends(&rt, rt.alloc(), &MENDED)?;
    mends(&rt, rt.alloc(), &NOT_MENDED)?;
    mends_no_log_in_place(&rt, rt.alloc())?;
    is_too_large(rt.alloc(), &WORDS)
}

/// The file `y` before a run in which the store fails, the call of the store that fails and the bytes that it keeps, and
/// the file `y` after the run. The calls load the log, look for `y`, and write it.
type Stop = (File, (u64, u64), File);

/// Runs that end with status 6. Where the new file is written, it is whole.
const STOPS: [Stop; 7] = [
    (None, (1, 0), None),
    (None, (2, 9), None),
    (None, (3, 0), None),
    (None, (3, 1), Some("H123")),
    (Some("|f"), (1, 0), Some("|f")),
    (Some("|f"), (2, 0), Some("|f")),
    (Some("H123"), (2, 1), Some("H123")),
];

/// What a run of the same words prints over what a stopped run left.
fn said_next(left: File) -> (u8, &'static str) {
    match left {
        Some(_) => (7, "FILE-THERE y\n"),
        None => (0, "MENDED 3\n"),
    }
}

/// Stops a run, and runs the same words over what it left.
fn stops<A: Abort>(rt: &A, alloc: Global) -> Result<(), Fail> {
    for stop in &STOPS {
        let (before, fail, after) = *stop;
        let mut store = store_of(alloc, fail_of(alloc, fail)?, Some("123"))?;
        put_file(alloc, &mut store, "y", before)?;
        is_shown(alloc, "a stop", &WORDS, &mut store, (6, ""))?;
        assert!(rt; holds(alloc, &store, Some("123"))?);
        assert!(rt; holds_second(alloc, &store, after)?);
        is_shown(alloc, "a next run", &WORDS, &mut store, said_next(after))?;
        assert!(rt; holds(alloc, &store, Some("123"))?);
    }
    Ok(())
}

/// The files `x` and `y` before a run whose first write fails, and the file `y` after it.
const UNSAID: [(File, File, File); 4] = [
    (Some("123"), None, Some("H123")),
    (Some("123"), Some(""), Some("")),
    (Some("13"), None, None),
    (None, None, None),
];

/// A run whose first write fails ends with status 5. The new file is whole.
fn writes_fail<A: Abort>(rt: &A, alloc: Global) -> Result<(), Fail> {
    for row in &UNSAID {
        let (first, second, after) = *row;
        let mut store = both(alloc, first, second)?;
        let words = words_from(alloc, &WORDS)?;
        let mut input = MemSource::new(ByteText::empty(alloc), 64, CallList::empty(alloc));
        let mut out = MemSink::new(alloc, calls_of(alloc, 1)?);
        let status = status_of(alloc, &words, &mut input, &mut out, &mut store);
        assert_eq!(rt; status, Status(5));
        assert!(rt; out.bytes().is_empty());
        assert!(rt; holds(alloc, &store, first)?);
        assert!(rt; holds_second(alloc, &store, after)?);
    }
    Ok(())
}

#[test]
fn mends_stop(rt: HostRuntime) -> Result<(), Fail> {
    stops(&rt, rt.alloc())?;
    writes_fail(&rt, rt.alloc())
}

/// Words over the files `x` and `y` once `y` is mended, the status, and the first and the further lines that are
/// printed.
type Next = (&'static str, u8, &'static str, &'static str);

/// The new file goes on, and the old one doesn't. Both are replayed.
const NEXT: [Next; 6] = [
    ("snapshot x 3", 3, "REFUSED 1 1 FORMAT\n", ""),
    ("replay x", 0, "REPLAY 3 at 3 waiting 0 full 0\n", AT_3),
    ("replay y", 0, "REPLAY 4 at 3 waiting 0 full 0\n", AT_3),
    ("replay x y", 0, "REPLAY 7 at 3 waiting 0 full 0\n", AT_3),
    ("mend2 x y c2", 7, "FILE-THERE y\n", ""),
    ("mend2 y z c1", 3, "REFUSED 1 1 HEADER\n", ""),
];

/// Shows both files of a store in which `y` is mended.
fn shows(alloc: Global, store: &mut MemStore) -> Result<(), Fail> {
    for row in &NEXT {
        let (line, status, first, more) = *row;
        let words = words_in(alloc, line)?;
        let text = format!(in alloc; "{first}{more}")?;
        is_shown(alloc, line, &words, store, (status, text.as_str()))?;
    }
    let state = bytes_of(alloc, "K")?;
    let line = from_utf8(state.as_slice()).map_err(|_| "no text")?;
    let words = ["snapshot", "y", "3"];
    is_shown(alloc, "a state", &words, store, (0, line))
}

/// A script that sends an entry again and adds one, and its answers.
const SCRIPT: &str = "commit 2 unsafe-join 1 0\ncommit 4 register b dc1 r1\n";

const ANSWERS: &str = "OK 2\nOK 4\n";

/// Commits to the new file, and not to the old one.
fn goes_on(alloc: Global, store: &mut MemStore) -> Result<(), Fail> {
    let old = ["commit", "x", "c1"];
    let text = "REFUSED 1 1 FORMAT\n";
    is_run(alloc, "the old log", &old, SCRIPT, store, (3, text))?;
    let other = ["commit", "y", "c2"];
    let text = "REFUSED 1 1 CLUSTER c2 c1\n";
    is_run(alloc, "a cluster", &other, SCRIPT, store, (3, text))?;
    let new = ["commit", "y", "c1"];
    is_run(alloc, "the log", &new, SCRIPT, store, (0, ANSWERS))
}

#[test]
fn mended_logs_go_on(rt: HostRuntime) -> Result<(), Fail> {
    let alloc = rt.alloc();
    let mut store = sure_store_of(alloc, Some("123"))?;
    is_shown(alloc, "a log", &WORDS, &mut store, (0, "MENDED 3\n"))?;
    shows(alloc, &mut store)?;
    goes_on(alloc, &mut store)?;
    assert!(rt; holds(alloc, &store, Some("123"))?);
    assert!(rt; holds_second(alloc, &store, Some("H1234"))?);
    Ok(())
}
