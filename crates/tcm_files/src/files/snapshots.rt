//! Runs of `snapshot`: the state of a log at an epoch, logs that are refused, and logs that have a state in them.

use file_runs::{
    File, bytes_of, fail_of, holds, is_run, is_shown, is_too_large, store_of, sure_store_of,
};
use std::alloc::Global;
use std::process::Abort;
use std::str::from_utf8;
use std::test::Fail;

/// The name of a run, the file `x`, the epoch, the status, and the text that is printed.
type Shown = (&'static str, File, &'static str, u8, &'static str);

/// Runs of `snapshot x E` that don't print a state.
const OTHERS: [Shown; 19] = [
    ("past the last epoch", Some("H123"), "4", 7, "NO EPOCH 3\n"),
    (
        "the greatest number",
        Some("H123"),
        "18446744073709551615",
        7,
        "NO EPOCH 3\n",
    ),
    ("past no line", Some(""), "1", 7, "NO EPOCH 0\n"),
    ("past no entry", Some("H"), "1", 7, "NO EPOCH 0\n"),
    ("past no whole line", Some("|1"), "1", 7, "NO EPOCH 0\n"),
    ("past a cut tail", Some("H1|2"), "2", 7, "NO EPOCH 1\n"),
    ("an absent file", None, "0", 7, "NO FILE x\n"),
    (
        "a gap before the epoch that is asked",
        Some("H13"),
        "3",
        3,
        "REFUSED 1 3 EPOCH 2 3\n",
    ),
    (
        "a gap after the epoch that is asked",
        Some("H13"),
        "0",
        3,
        "REFUSED 1 3 EPOCH 2 3\n",
    ),
    (
        "a gap before an epoch past the last",
        Some("H13"),
        "9",
        3,
        "REFUSED 1 3 EPOCH 2 3\n",
    ),
    (
        "a line that breaks a rule",
        Some("H12x"),
        "2",
        3,
        "REFUSED 1 4 LINE 2\n",
    ),
    (
        "an entry twice",
        Some("H1234563"),
        "6",
        3,
        "REFUSED 1 8 EPOCH 7 3\n",
    ),
    (
        "a command that is refused",
        Some("H1b34"),
        "1",
        3,
        "REFUSED 1 5 COMMAND 4 NAME-TAKEN 2\n",
    ),
    (
        "snapshot-in-log",
        Some("H1A"),
        "0",
        3,
        "REFUSED 1 3 NOT-ENTRY\n",
    ),
    (
        "the state of the log's last entry",
        Some("H12A"),
        "2",
        3,
        "REFUSED 1 4 NOT-ENTRY\n",
    ),
    (
        "a state that the log goes on from",
        Some("HA3"),
        "2",
        3,
        "REFUSED 1 2 NOT-ENTRY\n",
    ),
    (
        "a state that is not valid",
        Some("H1N"),
        "0",
        3,
        "REFUSED 1 3 NOT-ENTRY\n",
    ),
    (
        "a state before a gap",
        Some("H1A3"),
        "0",
        3,
        "REFUSED 1 3 NOT-ENTRY\n",
    ),
    (
        "a state in the cut tail",
        Some("H1|A"),
        "2",
        7,
        "NO EPOCH 1\n",
    ),
];

/// Runs `snapshot x E`, and compares the status and the text. The file is unchanged.
fn is_asked<A: Abort>(
    rt: &A,
    alloc: Global,
    name: &str,
    file: File,
    epoch: &str,
    wanted: (u8, &str),
) -> Result<(), Fail> {
    let mut store = sure_store_of(alloc, file)?;
    let words = ["snapshot", "x", epoch];
    is_shown(alloc, name, &words, &mut store, wanted)?;
    assert!(rt; holds(alloc, &store, file)?, "{name}");
    Ok(())
}

/// Asks for each of the epochs.
fn others<A: Abort>(rt: &A, alloc: Global) -> Result<(), Fail> {
    for row in &OTHERS {
        let (name, file, epoch, status, text) = *row;
        is_asked(rt, alloc, name, file, epoch, (status, text))?;
    }
    Ok(())
}

/// A log, an epoch, and the letter of the state that is printed.
const STATES: [(&str, &str, &str); 16] = [
    ("H123456", "0", "O"),
    ("H123456", "2", "A"),
    ("H123456", "3", "K"),
    ("H123456", "6", "J"),
    ("H12345678", "6", "J"),
    ("H123", "3", "K"),
    ("H12", "2", "A"),
    ("H", "0", "O"),
    ("I123", "3", "K"),
    ("h12", "2", "A"),
    ("", "0", "O"),
    ("|H", "0", "O"),
    ("|1", "0", "O"),
    ("H123|4", "3", "K"),
    ("Hsp", "2", "A"),
    ("H1b", "2", "T"),
];

/// Asks for each of the states.
fn states<A: Abort>(rt: &A, alloc: Global) -> Result<(), Fail> {
    for row in &STATES {
        let (log, epoch, state) = *row;
        let bytes = bytes_of(alloc, state)?;
        let line = from_utf8(bytes.as_slice()).map_err(|_| "no text")?;
        is_asked(rt, alloc, log, Some(log), epoch, (0, line))?;
    }
    Ok(())
}

/// Logs with a state in them, and why they are refused.
const REFUSED: [(&str, &str); 3] = [
    ("H1A", "REFUSED 1 3 NOT-ENTRY\n"),
    ("HT4", "REFUSED 1 2 NOT-ENTRY\n"),
    ("H12NA", "REFUSED 1 4 NOT-ENTRY\n"),
];

/// Goes on with a log that is refused. The file is unchanged.
fn is_refused<A: Abort>(rt: &A, alloc: Global, log: &'static str, text: &str) -> Result<(), Fail> {
    let mut store = sure_store_of(alloc, Some(log))?;
    let words = ["commit", "x", "c1"];
    let script = "commit 9 register z dc1 r1\n";
    is_run(alloc, log, &words, script, &mut store, (3, text))?;
    assert!(rt; holds(alloc, &store, Some(log))?, "{log}");
    Ok(())
}

/// A log with a state in it can't go on.
fn refuses_states<A: Abort>(rt: &A, alloc: Global) -> Result<(), Fail> {
    for row in &REFUSED {
        let (log, text) = *row;
        is_refused(rt, alloc, log, text)?;
    }
    Ok(())
}

#[test]
fn states_of_logs_are_shown(rt: HostRuntime) -> Result<(), Fail> {
    others(&rt, rt.alloc())?;
    states(&rt, rt.alloc())?;
    refuses_states(&rt, rt.alloc())
}

/// The words of a run that is stopped.
const WORDS: [&str; 3] = ["snapshot", "x", "1"];

#[test]
fn states_are_not_shown(rt: HostRuntime) -> Result<(), Fail> {
    let fails = fail_of(rt.alloc(), (1, 0))?;
    let mut store = store_of(rt.alloc(), fails, Some("H1"))?;
    let name = "a load that fails";
    is_shown(rt.alloc(), name, &WORDS, &mut store, (6, ""))?;
    assert!(rt; holds(rt.alloc(), &store, Some("H1"))?);
    is_too_large(rt.alloc(), &WORDS)
}
