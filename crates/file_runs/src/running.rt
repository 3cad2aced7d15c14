//! Runs over objects in memory, with the words and the faults that a test names.

use crate::comparing::{ends, prints};
use cluster_terms::ByteText;
use std::alloc::Global;
use std::test::Fail;
use tcm_edges::{
    CallList, MemSource, MemStore, Sink, Source, Store, StoreFail, StoreFailList, SureSink,
};
use tcm_session::{Status, run};

/// The line that is printed for words that name no command.
pub const USAGE: &str =
    "usage: tcm commit [LOG CLUSTER] | replay FILE.. | snapshot LOG E | gen START N | mend2 OLD NEW CLUSTER | plan LOG NODE KS | cms LOG FROM TO\n";

/// The words of a run.
pub fn words_from(alloc: Global, words: &[&str]) -> Result<Vec<String>, Fail> {
    let mut list = Vec::new(alloc);
    for word in words {
        list.push(String::from_str(alloc, word)?)?;
    }
    Ok(list)
}

/// The words that single spaces part in a text.
pub fn words_in(alloc: Global, text: &str) -> Result<Vec<&str>, Fail> {
    let mut words = Vec::new(alloc);
    for word in text.split(' ') {
        words.push(word)?;
    }
    Ok(words)
}

/// A list of one call.
pub fn calls_of(alloc: Global, call: u64) -> Result<CallList, Fail> {
    let mut calls = CallList::empty(alloc);
    calls.push(call).map_err(|_| "memory")?;
    Ok(calls)
}

/// A list of one call that fails, and the bytes that it keeps.
pub fn fail_of(alloc: Global, fail: (u64, u64)) -> Result<StoreFailList, Fail> {
    let mut list = StoreFailList::empty(alloc);
    let fail = StoreFail {
        call: fail.0,
        keep: fail.1,
    };
    list.push(fail).map_err(|_| "memory")?;
    Ok(list)
}

/// The status of a run of these words over these objects. Its callers know nothing more of it, so what they do with the
/// objects is proved without its contract.
pub fn status_of<S: Source, K: Sink, D: Store>(
    alloc: Global,
    words: &[String],
    input: &mut S,
    out: &mut K,
    store: &mut D,
) -> Status {
    run(alloc, words, input, out, store)
}

/// Runs these words, and compares the status and the printed bytes with those that are wanted.
fn is_answered<D: Store>(
    alloc: Global,
    name: &str,
    words: &[&str],
    mut input: MemSource,
    store: &mut D,
    wanted: (u8, &str),
) -> Result<(), Fail> {
    let words = words_from(alloc, words)?;
    let mut out = SureSink::new(alloc);
    let status = status_of(alloc, &words, &mut input, &mut out, store);
    ends(alloc, name, status, wanted.0)?;
    prints(alloc, name, out.bytes(), wanted.1)
}

/// Runs a script with these words, as `is_answered` does.
pub fn is_run(
    alloc: Global,
    name: &str,
    words: &[&str],
    script: &str,
    store: &mut MemStore,
    wanted: (u8, &str),
) -> Result<(), Fail> {
    let script = ByteText::from_vec(script.as_bytes().to_vec(alloc)?);
    let input = MemSource::new(script, 64, CallList::empty(alloc));
    is_answered(alloc, name, words, input, store, wanted)
}

/// Runs words that read no input, as `is_answered` does: a read would fail, and the status would be 4.
pub fn is_shown<D: Store>(
    alloc: Global,
    name: &str,
    words: &[&str],
    store: &mut D,
    wanted: (u8, &str),
) -> Result<(), Fail> {
    let input = MemSource::new(ByteText::empty(alloc), 64, calls_of(alloc, 1)?);
    is_answered(alloc, name, words, input, store, wanted)
}
