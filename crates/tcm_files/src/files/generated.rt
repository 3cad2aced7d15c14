//! Runs of `gen`: the summaries of generated scripts.

use file_runs::{is_shown, sure_store_of};
use std::alloc::Global;
use std::process::Abort;
use std::test::Fail;

/// The words of a run, and the summary that it prints.
type Generated = ([&'static str; 3], &'static str);

/// Scripts with and without refusals.
const SUMMARIES: [Generated; 4] = [
    (
        ["gen", "0", "0"],
        "GEN 0 0\n\
            LINES 101\n\
            OK 50\n\
            EPOCH 50\n\
            FOLLOWER 50\n",
    ),
    (
        ["gen", "0", "1"],
        "GEN 0 1\n\
            LINES 141\n\
            OK 70\n\
            EPOCH 70\n\
            FOLLOWER 70\n",
    ),
    (
        ["gen", "7", "3"],
        "GEN 7 3\n\
            LINES 213\n\
            OK 102\n\
            REFUSED 4 1\n\
            REFUSED 6 6\n\
            REFUSED 17 1\n\
            EPOCH 102\n\
            FOLLOWER 102\n",
    ),
    (
        ["gen", "18446744073709551615", "2"],
        "GEN 18446744073709551615 2\n\
            LINES 181\n\
            OK 90\n\
            EPOCH 90\n\
            FOLLOWER 90\n",
    ),
];

/// No input is read and no file is made, so the words alone decide what is printed.
fn summarizes<A: Abort>(rt: &A, alloc: Global) -> Result<(), Fail> {
    for row in &SUMMARIES {
        let (words, text) = *row;
        let mut store = sure_store_of(alloc, None)?;
        is_shown(alloc, "a generated script", &words, &mut store, (0, text))?;
        assert!(rt; store.file("x").is_none());
    }
    Ok(())
}

/// The START and the N of scripts, and how many of their joins are locked.
const LOCKED: [(&str, u16, u64); 6] = [
    ("0", 12, 4),
    ("2", 12, 8),
    ("2147483650", 12, 8),
    ("2147483647", 12, 3),
    ("5", 12, 1),
    ("7", 3_000, 773),
];

/// The summary of a script in which some joins are locked. Once a join is locked, its three steps and those of its leave
/// find no movement, and the leave itself finds a node that hasn't joined. Each other commit is an epoch, and the
/// follower has them all. The lines are those of the opening, the commits of the rounds, and a delivery for each of
/// their epochs.
fn summary_by(alloc: Global, start: &str, rounds: u16, locked: u64) -> Result<String, Fail> {
    let commits = 50 + 20 * u64::from(rounds);
    let lost = locked.saturating_mul(6);
    let epoch = commits.saturating_sub(locked.saturating_mul(8));
    let lines = epoch + commits + 1;
    let text = format!(in alloc;
        "GEN {start} {rounds}\n\
            LINES {lines}\n\
            OK {epoch}\n\
            REFUSED 4 {locked}\n\
            REFUSED 6 {lost}\n\
            REFUSED 17 {locked}\n\
            EPOCH {epoch}\n\
            FOLLOWER {epoch}\n"
    )?;
    Ok(text)
}

/// Compares what a run prints with a summary.
fn is_summary(alloc: Global, start: &str, rounds: u16, summary: &str) -> Result<(), Fail> {
    let rounds = format!(in alloc; "{rounds}")?;
    let words = ["gen", start, rounds.as_str()];
    let mut store = sure_store_of(alloc, None)?;
    is_shown(alloc, "locked joins", &words, &mut store, (0, summary))
}

/// Summaries add up, and a second run prints the same bytes.
fn adds_up(alloc: Global) -> Result<(), Fail> {
    for row in &LOCKED {
        let (start, rounds, locked) = *row;
        let summary = summary_by(alloc, start, rounds, locked)?;
        for _run in 0..2 {
            is_summary(alloc, start, rounds, summary.as_str())?;
        }
    }
    Ok(())
}

#[test]
fn generated_scripts_are_counted(rt: HostRuntime) -> Result<(), Fail> {
    summarizes(&rt, rt.alloc())?;
    adds_up(rt.alloc())
}
