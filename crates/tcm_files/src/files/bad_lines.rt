//! Lines that break a rule, in a log, in a log without a header and in a file that is replayed.

use file_runs::{
    ENTRY_1, HEADER, STATE_0, add_item, bytes_of, is_shown, keeps_other, sure_store_of, words_in,
};
use std::alloc::Global;
use std::process::Abort;
use std::test::Fail;

/// A line, and the first rule that it breaks.
type BadLine = (&'static str, u8);

/// Lines that are no header, no entry and no state.
const NEITHER: [BadLine; 27] = [
    ("", 2),
    ("{", 2),
    ("{} {}", 2),
    ("{\"entry\":1,}", 2),
    ("{\"entry\":01}", 2),
    ("{\"entry\":1e999}", 2),
    ("{\"entry\":\"\\x\"}", 2),
    ("[]", 3),
    ("null", 3),
    ("\"snapshot\"", 3),
    ("{}", 3),
    (r#"{"command":{"kind":"cancel","node":1},"entry":3}"#, 3),
    (
        r#"{"command":{"kind":"cancel","node":1},"entry":2,"epoch":2,"more":1}"#,
        3,
    ),
    (
        r#"{"Command":{"kind":"cancel","node":1},"entry":2,"epoch":2}"#,
        3,
    ),
    (
        r#"{"snapshot":{"epoch":0,"keyspaces":[],"next":1,"nodes":[],"sequences":[],"tokens":[]},"more":1}"#,
        3,
    ),
    (
        r#"{"command":{"kind":"cancel","node":1},"entry":2,"epoch":2,"snapshot":{"epoch":0,"keyspaces":[],"next":1,"nodes":[],"sequences":[],"tokens":[]}}"#,
        3,
    ),
    (
        r#"{"entry":2,"epoch":2,"snapshot":{"epoch":0,"keyspaces":[],"next":1,"nodes":[],"sequences":[],"tokens":[]}}"#,
        3,
    ),
    (r#"{"Snapshot":[]}"#, 3),
    (r#"{"snapshots":[]}"#, 3),
    (r#"{"snapshot":null}"#, 6),
    (r#"{"snapshot":[]}"#, 6),
    (r#"{"snapshot":{}}"#, 6),
    (
        r#"{"snapshot":{"epoch":0,"keyspaces":[],"next":1,"nodes":[],"sequences":[]}}"#,
        6,
    ),
    (
        r#"{"snapshot":{"epoch":0,"keyspaces":[],"more":[],"next":1,"nodes":[],"sequences":[],"tokens":[]}}"#,
        6,
    ),
    (
        r#"{"snapshot":{"epoch":0,"keyspaces":[],"next":1,"nodes":[],"sequences":[],"ring":[]}}"#,
        6,
    ),
    (
        r#"{"snapshot":{"Epoch":0,"keyspaces":[],"next":1,"nodes":[],"sequences":[],"tokens":[]}}"#,
        6,
    ),
    (
        r#"{"snapshot":{"epoch":0,"keyspaces":[],"next":1,"nodes":[],"sequences":[],"tokens":[]},"snapshot":{}}"#,
        6,
    ),
];

/// Lines with keys of a header that are no header.
const HEADERS: [BadLine; 36] = [
    (r#"{"cluster":"c1"}"#, 3),
    (r#"{"format":2}"#, 3),
    (r#"{"cluster":"c1","format":2,"more":1}"#, 3),
    (r#"{"Cluster":"c1","format":2}"#, 3),
    (r#"{"cluster":"c1","Format":2}"#, 3),
    (r#"{"cluster":"c1","epoch":1,"format":2}"#, 3),
    (
        r#"{"cluster":"c1","command":{"kind":"cancel","node":1},"entry":2,"epoch":2,"format":2}"#,
        3,
    ),
    (
        r#"{"cluster":"c1","format":2,"snapshot":{"epoch":0,"keyspaces":[],"next":1,"nodes":[],"sequences":[],"tokens":[]}}"#,
        3,
    ),
    (r#"["c1",2]"#, 3),
    (r#"{"cluster":"c1","format":2"#, 2),
    (r#"{"cluster":"c1","format":2}}"#, 2),
    (r#"{"cluster":"c1","format":02}"#, 2),
    (r#"{"cluster":1,"format":2}"#, 7),
    (r#"{"cluster":null,"format":2}"#, 7),
    (r#"{"cluster":["c1"],"format":2}"#, 7),
    (r#"{"cluster":"","format":2}"#, 7),
    (r#"{"cluster":"c 1","format":2}"#, 7),
    (r#"{"cluster":"c/1","format":2}"#, 7),
    (r#"{"cluster":"c\u00e9","format":2}"#, 7),
    (
        r#"{"cluster":"c23456789012345678901234567890123","format":2}"#,
        7,
    ),
    (r#"{"cluster":"c1","cluster":"","format":2}"#, 7),
    (r#"{"cluster":"c1","format":0}"#, 7),
    (r#"{"cluster":"c1","format":1}"#, 7),
    (r#"{"cluster":"c1","format":3}"#, 7),
    (r#"{"cluster":"c1","format":-2}"#, 7),
    (r#"{"cluster":"c1","format":2.0}"#, 7),
    (r#"{"cluster":"c1","format":2.5}"#, 7),
    (r#"{"cluster":"c1","format":2e0}"#, 7),
    (r#"{"cluster":"c1","format":18446744073709551618}"#, 7),
    (r#"{"cluster":"c1","format":"2"}"#, 7),
    (r#"{"cluster":"c1","format":true}"#, 7),
    (r#"{"cluster":"c1","format":null}"#, 7),
    (r#"{"cluster":"c1","format":[2]}"#, 7),
    (r#"{"cluster":"c1","format":2,"format":1}"#, 7),
    (r#"{"format":2,"cluster":2}"#, 7),
    (r#"{"cluster":"","format":1}"#, 7),
];

/// The numbers of an entry line, the rest of which is as it should be.
const NUMBERS: [&str; 10] = [
    r#""entry":2,"epoch":0"#,
    r#""entry":2,"epoch":65537"#,
    r#""entry":2,"epoch":1.5"#,
    r#""entry":2,"epoch":2.0"#,
    r#""entry":2,"epoch":"1""#,
    r#""entry":2,"epoch":null"#,
    r#""entry":18446744073709551616,"epoch":2"#,
    r#""entry":-1,"epoch":2"#,
    r#""entry":"2","epoch":2"#,
    r#""entry":[2],"epoch":2"#,
];

/// Commands that aren't of their form.
const COMMANDS: [&str; 37] = [
    "[]",
    r#""cancel""#,
    r#"{}"#,
    r#"{"node":1}"#,
    r#"{"kind":"join","node":1}"#,
    r#"{"kind":"Cancel","node":1}"#,
    r#"{"kind":1,"node":1}"#,
    r#"{"kind":"cancel"}"#,
    r#"{"kind":"cancel","more":1,"node":1}"#,
    r#"{"kind":"cancel","gone":1}"#,
    r#"{"kind":"cancel","node":4294967296}"#,
    r#"{"kind":"cancel","node":-1}"#,
    r#"{"kind":"cancel","node":1.0}"#,
    r#"{"kind":"cancel","node":"1"}"#,
    r#"{"dc":"dc1","kind":"register","name":"a"}"#,
    r#"{"dc":"dc1","kind":"register","name":"","rack":"r1"}"#,
    r#"{"dc":"dc1","kind":"register","name":"a b","rack":"r1"}"#,
    r#"{"dc":"dc1","kind":"register","name":1,"rack":"r1"}"#,
    r#"{"dc":"dc1","kind":"register","name":"a23456789012345678901234567890123","rack":"r1"}"#,
    r#"{"dc":"d\u00e91","kind":"register","name":"a","rack":"r1"}"#,
    r#"{"kind":"unsafe-join","node":1,"tokens":[]}"#,
    r#"{"kind":"unsafe-join","node":1,"tokens":[5,0]}"#,
    r#"{"kind":"unsafe-join","node":1,"tokens":[0,0]}"#,
    r#"{"kind":"unsafe-join","node":1,"tokens":0}"#,
    r#"{"kind":"unsafe-join","node":1,"tokens":["0"]}"#,
    r#"{"kind":"unsafe-join","node":1,"tokens":[9223372036854775808]}"#,
    r#"{"kind":"prepare-join","node":1,"tokens":[-1,-2]}"#,
    r#"{"kind":"prepare-move","node":1,"token":-9223372036854775809}"#,
    r#"{"kind":"prepare-move","node":1,"token":0.5}"#,
    r#"{"kind":"prepare-replace","gone":4294967296,"node":1}"#,
    r#"{"kind":"keyspace","name":"ks","replication":"simple 17"}"#,
    r#"{"kind":"keyspace","name":"ks","replication":"simple 0"}"#,
    r#"{"kind":"keyspace","name":"ks","replication":"simple 01"}"#,
    r#"{"kind":"keyspace","name":"ks","replication":"topology"}"#,
    r#"{"kind":"keyspace","name":"ks","replication":"topology dc1:1 dc1:2"}"#,
    r#"{"kind":"keyspace","name":"ks","replication":1}"#,
    r#"{"kind":"drop-keyspace","name":"ks","node":1}"#,
];

/// A part of a state, by its key, and a value that isn't of its form. The other parts are as they should be.
const PARTS: [(&str, &str); 62] = [
    ("epoch", "-1"),
    ("epoch", "1.0"),
    ("epoch", r#""1""#),
    ("epoch", "18446744073709551616"),
    ("epoch", "null"),
    ("next", "4294967296"),
    ("next", "-1"),
    ("next", "true"),
    ("keyspaces", "{}"),
    ("keyspaces", "null"),
    ("keyspaces", r#"["ks"]"#),
    ("keyspaces", r#"[{"name":"ks"}]"#),
    (
        "keyspaces",
        r#"[{"more":1,"name":"ks","replication":"simple 1"}]"#,
    ),
    ("keyspaces", r#"[{"name":"ks","replication":"simple 17"}]"#),
    ("keyspaces", r#"[{"name":"ks","replication":"simple"}]"#),
    (
        "keyspaces",
        r#"[{"name":"ks","replication":"topology dc1:1 dc1:2"}]"#,
    ),
    ("keyspaces", r#"[{"name":"ks","replication":[1]}]"#),
    (
        "keyspaces",
        r#"[{"name":"k23456789012345678901234567890123","replication":"simple 1"}]"#,
    ),
    (
        "keyspaces",
        r#"[{"name":"ks","replication":"simple 1"},{"name":"k s","replication":"simple 1"}]"#,
    ),
    ("nodes", "{}"),
    ("nodes", "null"),
    ("nodes", "[1]"),
    ("nodes", "[[]]"),
    ("nodes", r#"[{"dc":"dc1","id":1,"name":"a","rack":"r1"}]"#),
    (
        "nodes",
        r#"[{"dc":"dc1","id":1,"left":0,"name":"a","rack":"r1"}]"#,
    ),
    (
        "nodes",
        r#"[{"dc":"dc1","id":1,"left":"false","name":"a","rack":"r1"}]"#,
    ),
    (
        "nodes",
        r#"[{"dc":"dc1","id":1,"left":null,"name":"a","rack":"r1"}]"#,
    ),
    (
        "nodes",
        r#"[{"dc":"dc1","id":1,"left":false,"more":1,"name":"a","rack":"r1"}]"#,
    ),
    (
        "nodes",
        r#"[{"dc":"dc1","id":4294967296,"left":false,"name":"a","rack":"r1"}]"#,
    ),
    (
        "nodes",
        r#"[{"dc":"dc1","id":"1","left":false,"name":"a","rack":"r1"}]"#,
    ),
    (
        "nodes",
        r#"[{"dc":"dc1","id":1,"left":false,"name":"a23456789012345678901234567890123","rack":"r1"}]"#,
    ),
    (
        "nodes",
        r#"[{"dc":"","id":1,"left":false,"name":"a","rack":"r1"}]"#,
    ),
    (
        "nodes",
        r#"[{"dc":"dc1","id":1,"left":false,"name":"a","rack":"r 1"}]"#,
    ),
    (
        "nodes",
        r#"[{"dc":"dc1","id":1,"left":false,"name":"a","rack":1}]"#,
    ),
    (
        "nodes",
        r#"[{"dc":"dc1","id":1,"left":false,"name":"a","rack":"r1"},{}]"#,
    ),
    ("sequences", "{}"),
    ("sequences", r#""""#),
    ("sequences", "[0]"),
    (
        "sequences",
        r#"[{"in":[],"kind":"leave","node":1,"out":[]}]"#,
    ),
    (
        "sequences",
        r#"[{"in":[],"kind":"leave","node":1,"out":[],"phase":"FINISHED"}]"#,
    ),
    (
        "sequences",
        r#"[{"in":[],"kind":"leave","node":1,"out":[],"phase":"mid"}]"#,
    ),
    (
        "sequences",
        r#"[{"in":[],"kind":"leave","node":1,"out":[],"phase":1}]"#,
    ),
    (
        "sequences",
        r#"[{"in":[],"kind":"Leave","node":1,"out":[],"phase":"MID"}]"#,
    ),
    (
        "sequences",
        r#"[{"in":[],"kind":"unsafe-join","node":1,"out":[],"phase":"MID"}]"#,
    ),
    (
        "sequences",
        r#"[{"in":[],"kind":null,"node":1,"out":[],"phase":"MID"}]"#,
    ),
    (
        "sequences",
        r#"[{"in":[],"kind":"leave","node":4294967296,"out":[],"phase":"MID"}]"#,
    ),
    (
        "sequences",
        r#"[{"in":{},"kind":"leave","node":1,"out":[],"phase":"MID"}]"#,
    ),
    (
        "sequences",
        r#"[{"in":[],"kind":"leave","node":1,"out":[0,1],"phase":"MID"}]"#,
    ),
    (
        "sequences",
        r#"[{"in":[[0,1],[0]],"kind":"leave","node":1,"out":[],"phase":"MID"}]"#,
    ),
    (
        "sequences",
        r#"[{"in":[],"kind":"leave","more":1,"node":1,"out":[],"phase":"MID"}]"#,
    ),
    ("tokens", "{}"),
    ("tokens", "null"),
    ("tokens", "[0,1]"),
    ("tokens", "[[]]"),
    ("tokens", "[[0]]"),
    ("tokens", "[[0,1,2]]"),
    ("tokens", r#"[{"node":1,"token":0}]"#),
    ("tokens", "[[9223372036854775808,1]]"),
    ("tokens", "[[-9223372036854775809,1]]"),
    ("tokens", "[[0.5,1]]"),
    ("tokens", "[[0,4294967296]]"),
    ("tokens", r#"[[0,1],["1",1]]"#),
];

/// The words of a run over the file `x`, and its lines before the one that breaks a rule.
const RUNS: [(&str, &str); 9] = [
    ("commit x c1", ""),
    ("commit x c1", "H"),
    ("snapshot x 0", ""),
    ("snapshot x 0", "H"),
    ("replay x", ""),
    ("replay x", "H"),
    ("replay x", "1"),
    ("mend2 x y c1", ""),
    ("mend2 x y c1", "1"),
];

/// Runs the words over a file. It is unchanged, and no file `y` is made.
fn is_kept<A: Abort>(
    rt: &A,
    alloc: Global,
    name: &str,
    words: &[&str],
    file: &[u8],
    wanted: (u8, &str),
) -> Result<(), Fail> {
    let mut store = sure_store_of(alloc, None)?;
    store.put("x", file)?;
    is_shown(alloc, name, words, &mut store, wanted)?;
    assert!(rt; store.file("x") == Some(file), "{name}");
    assert!(rt; store.file("y").is_none() && keeps_other(&store), "{name}");
    Ok(())
}

/// The bytes of a file whose last line is this one.
fn ended_by(alloc: Global, before: &str, line: &str) -> Result<Vec<u8>, Fail> {
    let mut file = bytes_of(alloc, before)?;
    file.extend_from_slice(line.as_bytes())?;
    file.push(b'\n')?;
    Ok(file)
}

/// Runs words over a file whose last line breaks a rule, and no lesser rule.
fn breaks<A: Abort>(rt: &A, alloc: Global, line: &str, rule: u8) -> Result<(), Fail> {
    for run in &RUNS {
        let (words, before) = *run;
        let number = before.len().saturating_add(1);
        let text = format!(in alloc; "REFUSED 1 {number} LINE {rule}\n")?;
        let words = words_in(alloc, words)?;
        let file = ended_by(alloc, before, line)?;
        is_kept(rt, alloc, line, &words, file.as_slice(), (3, text.as_str()))?;
    }
    Ok(())
}

/// Lines that break these rules.
fn rules<A: Abort>(rt: &A, alloc: Global, rows: &[BadLine]) -> Result<(), Fail> {
    for row in rows {
        let (line, rule) = *row;
        breaks(rt, alloc, line, rule)?;
    }
    Ok(())
}

/// Entry lines with a number out of its range. Their commands are not of their form either.
fn numbers<A: Abort>(rt: &A, alloc: Global) -> Result<(), Fail> {
    for numbers in &NUMBERS {
        let line = format!(in alloc; "{{\"command\":{{}},{numbers}}}")?;
        breaks(rt, alloc, line.as_str(), 4)?;
    }
    Ok(())
}

/// Entry lines with a command that isn't of its form.
fn commands<A: Abort>(rt: &A, alloc: Global) -> Result<(), Fail> {
    for command in &COMMANDS {
        let line = format!(in alloc; "{{\"command\":{command},\"entry\":2,\"epoch\":2}}")?;
        breaks(rt, alloc, line.as_str(), 5)?;
    }
    Ok(())
}

/// The parts of a state by key, with values that are of their form.
const STATE: [(&str, &str); 6] = [
    ("epoch", "0"),
    ("keyspaces", "[]"),
    ("next", "1"),
    ("nodes", "[]"),
    ("sequences", "[]"),
    ("tokens", "[]"),
];

/// The snapshot line of this state, with another value at a key.
fn state_with(alloc: Global, changed: &str, value: &str) -> Result<String, Fail> {
    let mut list = String::new(alloc);
    for part in &STATE {
        let (key, usual) = *part;
        let value = if key == changed { value } else { usual };
        let member = format!(in alloc; "\"{key}\":{value}")?;
        add_item(&mut list, member.as_str())?;
    }
    let line = format!(in alloc; "{{\"snapshot\":{{{list}}}}}")?;
    Ok(line)
}

/// Snapshot lines with a part that isn't of its form.
fn parts<A: Abort>(rt: &A, alloc: Global) -> Result<(), Fail> {
    for part in &PARTS {
        let (key, value) = *part;
        let line = state_with(alloc, key, value)?;
        breaks(rt, alloc, line.as_str(), 6)?;
    }
    Ok(())
}

#[test]
fn lines_break_rules(rt: HostRuntime) -> Result<(), Fail> {
    rules(&rt, rt.alloc(), &NEITHER)?;
    rules(&rt, rt.alloc(), &HEADERS)?;
    numbers(&rt, rt.alloc())?;
    commands(&rt, rt.alloc())?;
    parts(&rt, rt.alloc())
}

/// A line after spaces, `size` bytes, and a line feed.
fn padded(alloc: Global, line: &str, size: usize) -> Result<Vec<u8>, Fail> {
    let mut bytes = vec![in alloc; b' '; size.saturating_sub(line.len())]?;
    bytes.extend_from_slice(line.as_bytes())?;
    bytes.push(b'\n')?;
    Ok(bytes)
}

/// Words, the line of the file `x` without the spaces before it, its size, the status, and the text that is printed.
type Long = (
    &'static [&'static str],
    &'static str,
    usize,
    u8,
    &'static str,
);

/// Lines of one byte too many.
const TOO_LONG: [Long; 4] = [
    (
        &["commit", "x", "c1"],
        HEADER,
        4_194_305,
        3,
        "REFUSED 1 1 LINE 1\n",
    ),
    (
        &["mend2", "x", "y", "c1"],
        ENTRY_1,
        4_194_305,
        3,
        "REFUSED 1 1 LINE 1\n",
    ),
    (
        &["snapshot", "x", "0"],
        STATE_0,
        4_194_305,
        3,
        "REFUSED 1 1 LINE 1\n",
    ),
    (&["replay", "x"], "{", 4_194_305, 3, "REFUSED 1 1 LINE 1\n"),
];

/// Lines of the greatest size.
const LONGEST: [Long; 4] = [
    (
        &["replay", "x"],
        HEADER,
        4_194_304,
        0,
        "REPLAY 1 at 0 waiting 0 full 0\n\
            NODES 0 0 0\n",
    ),
    (
        &["snapshot", "x", "0"],
        HEADER,
        4_194_304,
        0,
        "{\"snapshot\":{\"epoch\":0,\"keyspaces\":[],\"next\":1,\"nodes\":[],\"sequences\":[],\"tokens\":[]}}\n",
    ),
    (
        &["replay", "x"],
        ENTRY_1,
        4_194_304,
        0,
        "REPLAY 1 at 1 waiting 0 full 0\n\
            NODES 1 1 0\n\
            1 a dc1 r1 REGISTERED -\n",
    ),
    (
        &["replay", "x"],
        STATE_0,
        4_194_304,
        0,
        "REPLAY 1 at 0 waiting 0 full 0\n\
            NODES 0 0 0\n",
    ),
];

/// Runs the words of each row over its line.
fn long<A: Abort>(rt: &A, alloc: Global, rows: &[Long]) -> Result<(), Fail> {
    for row in rows {
        let (words, line, size, status, text) = *row;
        let file = padded(alloc, line, size)?;
        is_kept(rt, alloc, line, words, file.as_slice(), (status, text))?;
    }
    Ok(())
}

#[test]
fn lines_are_too_long(rt: HostRuntime) -> Result<(), Fail> {
    long(&rt, rt.alloc(), &TOO_LONG)
}

#[test]
fn long_lines_are_read(rt: HostRuntime) -> Result<(), Fail> {
    long(&rt, rt.alloc(), &LONGEST)
}
