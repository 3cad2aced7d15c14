//! Runs of scripts over objects in memory.

ghost use Rattle.std.specs.Prelude.{◌≤◌};

use cluster_terms::ByteText;
use std::alloc::Global;
use std::process::Abort;
use std::test::Fail;
use tcm_edges::{SureSink, SureSource, SureStore};
use tcm_session::{Status, run_surely};

/// The name of a script, its lines, and their answers.
pub type Script = (&'static str, &'static str, &'static str);

/// The words of a run: this word, or no words if it is empty.
fn words_of(alloc: Global, word: &str) -> Result<Vec<String>, Fail> {
    let mut words = Vec::new(alloc);
    if !word.is_empty() {
        words.push(String::from_str(alloc, word)?)?;
    }
    Ok(words)
}

/// The status of a run, and the bytes that it printed. The script is read in pieces of `piece` bytes.
pub fn ran(
    alloc: Global,
    word: &str,
    script: &[u8],
    piece: usize,
) -> Result<(Status, Vec<u8>), Fail>
    requires { 1 ≤ piece }
{
    let words = words_of(alloc, word)?;
    let mut input = SureSource::new(ByteText::from_vec(script.to_vec(alloc)?), piece);
    let mut out = SureSink::new(alloc);
    let mut store = SureStore::new(alloc);
    let status = run_surely(alloc, &words, &mut input, &mut out, &mut store);
    let printed = out.bytes().to_vec(alloc)?;
    Ok((status, printed))
}

/// Runs a script, and compares the printed bytes with the answers.
pub fn is_answered<A: Abort>(
    rt: &A,
    alloc: Global,
    script: &String,
    answers: &String,
) -> Result<(), Fail> {
    let (status, printed) = ran(alloc, "commit", script.as_bytes(), 65_536)?;
    assert_eq!(rt; status, Status(0));
    assert_eq!(rt; printed.as_slice(), answers.as_bytes());
    Ok(())
}

/// The answers to commits that are accepted as the epochs from `first` to `last`.
pub fn accepted(alloc: Global, first: u64, last: u64) -> Result<String, Fail> {
    let mut text = String::new(alloc);
    for epoch in first..=last {
        text.push_str(&format!(in alloc; "OK {epoch}\n")?)?;
    }
    Ok(text)
}

/// The number of lines that end among the bytes.
pub fn lines_in(bytes: &[u8]) -> usize {
    bytes.iter().filter(|byte| **byte == b'\n').count()
}

/// One text after another.
fn joined(alloc: Global, first: &str, second: &str) -> Result<String, Fail> {
    let mut text = String::from_str(alloc, first)?;
    text.push_str(second)?;
    Ok(text)
}

/// Runs each script after an opening whose lines are all accepted, read in pieces of `piece` bytes, and compares the
/// printed bytes with the answers.
pub fn go_on<A: Abort>(
    rt: &A,
    alloc: Global,
    opening: &str,
    scripts: &[Script],
    piece: usize,
) -> Result<(), Fail>
    requires { 1 ≤ piece }
{
    let opened = accepted(alloc, 1, lines_in(opening.as_bytes()) as u64)?;
    for script in scripts {
        let (name, lines, answers) = *script;
        let lines = joined(alloc, opening, lines)?;
        let answers = joined(alloc, opened.as_str(), answers)?;
        let (status, printed) = ran(alloc, "commit", lines.as_bytes(), piece)?;
        assert_eq!(rt; status, Status(0), "{name} in pieces of {piece}");
        assert_eq!(rt;
            printed.as_slice(),
            answers.as_bytes(),
            "{name} in pieces of {piece}"
        );
    }
    Ok(())
}
