//! Words that name no command.

use file_runs::{USAGE, holds, is_shown, sure_store_of};
use std::test::Fail;

/// Words that name no command.
const OTHER_WORDS: [&[&str]; 51] = [
    &["commit", ""],
    &["commit", "x"],
    &["commit", "x", ""],
    &["commit", "", "c1"],
    &["commit", "x", "c1", ""],
    &["commit", "x", "c1", "c1"],
    &["commit", "x", "c/1"],
    &["commit", "x", "c1 "],
    &["commit", "x", "c\n"],
    &["commit", "x", "\u{e9}"],
    &["commit", "x", "c23456789012345678901234567890123"],
    &["Commit", "x", "c1"],
    &["replay"],
    &["replay", ""],
    &["replay", "x", ""],
    &["replays", "x"],
    &["snapshot"],
    &["snapshot", "x"],
    &["snapshot", "", "1"],
    &["snapshot", "x", "1", "1"],
    &["snapshot", "x", ""],
    &["snapshot", "x", "01"],
    &["snapshot", "x", "+1"],
    &["snapshot", "x", "-1"],
    &["snapshot", "x", "@1"],
    &["snapshot", "x", "18446744073709551616"],
    &["snapshot", "1", "x"],
    &["Snapshot", "x", "1"],
    &["gen"],
    &["gen", "0"],
    &["gen", "0", "0", "0"],
    &["gen", "0", "3001"],
    &["gen", "01", "0"],
    &["gen", "0", "00"],
    &["gen", "+1", "0"],
    &["gen", "-1", "0"],
    &["gen", "", "0"],
    &["gen", "18446744073709551616", "0"],
    &["Gen", "0", "0"],
    &["mend2"],
    &["mend2", "x"],
    &["mend2", "x", "y"],
    &["mend2", "", "y", "c1"],
    &["mend2", "x", "", "c1"],
    &["mend2", "x", "y", ""],
    &["mend2", "x", "y", "c/1"],
    &["mend2", "x", "y", "c 1"],
    &["mend2", "x", "y", "c23456789012345678901234567890123"],
    &["mend2", "x", "y", "c1", "c1"],
    &["Mend2", "x", "y", "c1"],
    &["mend", "x", "y", "c1"],
];

#[test]
fn other_words_are_answered_by_the_usage(rt: HostRuntime) -> Result<(), Fail> {
    for words in &OTHER_WORDS {
        let mut store = sure_store_of(rt.alloc(), Some("1"))?;
        is_shown(rt.alloc(), "other words", words, &mut store, (2, USAGE))?;
        assert!(rt; holds(rt.alloc(), &store, Some("1"))?);
    }
    Ok(())
}
