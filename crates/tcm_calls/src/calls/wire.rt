//! Lines of files: headers and entries both ways, and lines that break a rule.

use crate::calls::name_of;
use cluster_terms::{Name, TryCopy};
use script_lang::{ScriptLine, parse_line};
use std::alloc::Global;
use std::process::Abort;
use std::test::Fail;
use transformations::{Command, Entry};
use wire_json::{Line, ReadLineFault, entry_line, header_line, read_line};

/// A command as scripts write it, and as lines of log files write it.
const COMMANDS: [(&str, &str); 25] = [
    (
        "register a dc1 r1",
        r#"{"dc":"dc1","kind":"register","name":"a","rack":"r1"}"#,
    ),
    (
        "register A-z_0.9 d r",
        r#"{"dc":"d","kind":"register","name":"A-z_0.9","rack":"r"}"#,
    ),
    ("unregister 7", r#"{"kind":"unregister","node":7}"#),
    (
        "unsafe-join 1 0",
        r#"{"kind":"unsafe-join","node":1,"tokens":[0]}"#,
    ),
    (
        "unsafe-join 2 9223372036854775807 -9223372036854775808",
        r#"{"kind":"unsafe-join","node":2,"tokens":[-9223372036854775808,9223372036854775807]}"#,
    ),
    (
        "keyspace ks simple 16",
        r#"{"kind":"keyspace","name":"ks","replication":"simple 16"}"#,
    ),
    (
        "keyspace ks topology dc2:1 dc1:3",
        r#"{"kind":"keyspace","name":"ks","replication":"topology dc1:3 dc2:1"}"#,
    ),
    (
        "drop-keyspace ks",
        r#"{"kind":"drop-keyspace","name":"ks"}"#,
    ),
    (
        "prepare-join 3 5 -5",
        r#"{"kind":"prepare-join","node":3,"tokens":[-5,5]}"#,
    ),
    (
        "prepare-move 3 -9223372036854775808",
        r#"{"kind":"prepare-move","node":3,"token":-9223372036854775808}"#,
    ),
    ("prepare-leave 0", r#"{"kind":"prepare-leave","node":0}"#),
    (
        "prepare-replace 4294967295 8",
        r#"{"gone":8,"kind":"prepare-replace","node":4294967295}"#,
    ),
    ("cancel 4", r#"{"kind":"cancel","node":4}"#),
    ("start-join 4", r#"{"kind":"start-join","node":4}"#),
    ("mid-join 4", r#"{"kind":"mid-join","node":4}"#),
    ("finish-join 4", r#"{"kind":"finish-join","node":4}"#),
    ("start-move 4", r#"{"kind":"start-move","node":4}"#),
    ("mid-move 4", r#"{"kind":"mid-move","node":4}"#),
    ("finish-move 4", r#"{"kind":"finish-move","node":4}"#),
    ("start-leave 4", r#"{"kind":"start-leave","node":4}"#),
    ("mid-leave 4", r#"{"kind":"mid-leave","node":4}"#),
    ("finish-leave 4", r#"{"kind":"finish-leave","node":4}"#),
    ("start-replace 4", r#"{"kind":"start-replace","node":4}"#),
    ("mid-replace 4", r#"{"kind":"mid-replace","node":4}"#),
    ("finish-replace 4", r#"{"kind":"finish-replace","node":4}"#),
];

/// A command as scripts write it, and another spelling of its line, for entry 1 at epoch 2.
const SPELLINGS: [(&str, &str); 10] = [
    (
        "cancel 4",
        r#"{"command":{"kind":"cancel","node":4},"entry":1,"epoch":2}"#,
    ),
    (
        "cancel 4",
        r#"{"epoch":2,"entry":1,"command":{"node":4,"kind":"cancel"}}"#,
    ),
    (
        "cancel 4",
        " {\t\"command\" : {\"kind\":\"cancel\" ,\"node\":4} , \"entry\":1,\"epoch\":2 }\r",
    ),
    (
        "cancel 4",
        r#"{"command":{"kind":"cancel","node":9,"node":4},"entry":1,"epoch":2}"#,
    ),
    (
        "cancel 4",
        r#"{"command":{"kind":"register","kind":"cancel","node":4},"entry":1,"epoch":2}"#,
    ),
    (
        "cancel 4",
        r#"{"command":{"kind":"cancel","node":4},"entry":"x","epoch":0,"entry":1,"epoch":2}"#,
    ),
    (
        "cancel 4",
        r#"{"command":5,"command":{"kind":"cancel","node":4},"entry":1,"epoch":2}"#,
    ),
    (
        "cancel 4",
        r#"{"command":{"\u006bind":"canc\u0065l","node":4},"entry":1,"epoch":2}"#,
    ),
    (
        "cancel 4",
        r#"{"command":{"kind":"cancel","node":4},"\u0065ntry":1,"epoch":2}"#,
    ),
    (
        "drop-keyspace a1",
        r#"{"command":{"kind":"drop-keyspace","name":"a\u0031"},"entry":1,"epoch":2}"#,
    ),
];

/// A rule, and a line of which it is the first broken rule.
const BROKEN: [(u8, &[u8]); 34] = [
    (2, b""),
    (2, b" "),
    (2, b"{"),
    (
        2,
        br#"{"command":{"kind":"cancel","node":4},"entry":1,"epoch":2"#,
    ),
    (
        2,
        br#"{"command":{"kind":"cancel","node":4},"entry":1,"epoch":2}}"#,
    ),
    (
        2,
        br#"{"command":{"kind":"cancel","node":4},"entry":1,"epoch":2}{}"#,
    ),
    (
        2,
        br#"{"command":{"kind":"cancel","node":4},"entry":01,"epoch":2}"#,
    ),
    (
        2,
        br#"{"command":{"kind":"cancel","node":4},"entry":+1,"epoch":2}"#,
    ),
    (
        2,
        br#"{'command':{"kind":"cancel","node":4},"entry":1,"epoch":2}"#,
    ),
    (
        2,
        b"{\"command\":{\"kind\":\"cancel\n\",\"node\":4},\"entry\":1,\"epoch\":2}",
    ),
    (
        2,
        b"{\"command\":{\"kind\":\"\xff\",\"node\":4},\"entry\":1,\"epoch\":2}",
    ),
    (2, b"\xef\xbb\xbf{}"),
    (3, b"{}"),
    (3, b"[]"),
    (3, b"null"),
    (3, b"1"),
    (3, br#""entry""#),
    (3, br#"{"entry":1,"epoch":2}"#),
    (3, br#"{"command":{"kind":"cancel","node":4},"epoch":2}"#),
    (3, br#"{"command":{"kind":"cancel","node":4},"entry":1}"#),
    (
        3,
        br#"{"command":{"kind":"cancel","node":4},"entry":1,"epochs":2}"#,
    ),
    (
        3,
        br#"{"Command":{"kind":"cancel","node":4},"entry":1,"epoch":2}"#,
    ),
    (3, br#"{"a":0,"command":5,"entry":-1,"epoch":0}"#),
    (4, br#"{"command":5,"entry":-1,"epoch":0}"#),
    (5, br#"{"command":5,"entry":1,"epoch":2}"#),
    (6, br#"{"snapshot":{}}"#),
    (2, br#"{"cluster":"c1","format":2"#),
    (2, b"{\"cluster\":\"c\n\",\"format\":2}"),
    (3, br#"{"cluster":"c1"}"#),
    (3, br#"{"format":2}"#),
    (3, br#"{"Cluster":"c1","format":2}"#),
    (3, br#"{"cluster":"c1","format":2,"more":0}"#),
    (3, br#"{"cluster":"c1","epoch":1,"entry":1,"format":2}"#),
    (7, br#"{"cluster":5,"format":0}"#),
];

/// Names of clusters: the shortest and the longest ones among them.
const CLUSTERS: [&str; 6] = [
    "c1",
    "0",
    "-",
    "._-",
    "Test_Cluster-1.b",
    "abcdefghijklmnopqrstuvwxyzABCDEF",
];

/// Other spellings of the header of `c1`.
const HEADERS: [&str; 7] = [
    r#"{"cluster":"c1","format":2}"#,
    r#"{"format":2,"cluster":"c1"}"#,
    " {\t\"cluster\" : \"c1\" , \"format\":2 }\r",
    r#"{"cluster":"\u00631","format":2}"#,
    r#"{"cl\u0075ster":"c1","\u0066ormat":2}"#,
    r#"{"cluster":"c2","format":2,"cluster":"c1"}"#,
    r#"{"cluster":"c1","format":1,"format":2}"#,
];

/// JSON texts that aren't the name of a cluster.
const NO_CLUSTERS: [&str; 12] = [
    "1",
    "null",
    "true",
    "{}",
    r#"["c1"]"#,
    r#""""#,
    r#"" ""#,
    r#""c 1""#,
    r#""c/1""#,
    r#""c1\n""#,
    r#""c\u00e9""#,
    r#""abcdefghijklmnopqrstuvwxyzABCDEFG""#,
];

/// JSON texts that aren't the format.
const NO_FORMATS: [&str; 14] = [
    "0",
    "1",
    "3",
    "-2",
    "-0",
    "2.0",
    "2.5",
    "2e0",
    "18446744073709551618",
    "\"2\"",
    "null",
    "true",
    "[2]",
    "{}",
];

/// JSON texts that aren't the id of an entry.
const NO_IDS: [&str; 9] = [
    "18446744073709551616",
    "-1",
    "-0",
    "0.0",
    "1e0",
    "1.5",
    "\"1\"",
    "null",
    "[1]",
];

/// JSON texts that aren't an epoch.
const NO_EPOCHS: [&str; 10] = [
    "0",
    "65537",
    "18446744073709551617",
    "-1",
    "-0",
    "1.0",
    "1.5",
    "1e0",
    "\"1\"",
    "{}",
];

/// JSON texts that aren't the tokens of a command.
const NO_TOKENS: [&str; 14] = [
    "[]",
    "0",
    "{}",
    "null",
    "\"0\"",
    "[1,0]",
    "[0,0]",
    "[-1,-2]",
    "[9223372036854775808]",
    "[-9223372036854775809]",
    "[1.0]",
    "[-0]",
    "[\"0\"]",
    "[0,null]",
];

/// JSON texts that aren't a command.
const NO_COMMANDS: [&str; 36] = [
    "null",
    "\"cancel\"",
    "[]",
    "{}",
    r#"{"node":4}"#,
    r#"{"kind":"cancel"}"#,
    r#"{"kind":"cancel","node":4,"x":0}"#,
    r#"{"kind":"cancel","name":"a"}"#,
    r#"{"kind":"cancel","node":-1}"#,
    r#"{"kind":"cancel","node":4294967296}"#,
    r#"{"kind":"cancel","node":4.0}"#,
    r#"{"kind":"cancel","node":"4"}"#,
    r#"{"kind":"Cancel","node":4}"#,
    r#"{"kind":"cancel ","node":4}"#,
    r#"{"kind":"","node":4}"#,
    r#"{"kind":5,"node":4}"#,
    r#"{"kind":"start","node":4}"#,
    r#"{"kind":"finish-cancel","node":4}"#,
    r#"{"kind":"prepare-join","node":4}"#,
    r#"{"kind":"prepare-join","node":4,"token":4}"#,
    r#"{"kind":"prepare-move","node":4,"tokens":[4]}"#,
    r#"{"kind":"prepare-move","node":4,"token":9223372036854775808}"#,
    r#"{"kind":"prepare-move","node":4,"token":1e3}"#,
    r#"{"kind":"prepare-replace","node":4}"#,
    r#"{"kind":"prepare-replace","gone":-4,"node":4}"#,
    r#"{"kind":"register","name":"a"}"#,
    r#"{"kind":"register","name":"a","rack":"r","dc":"","x":0}"#,
    r#"{"kind":"register","name":"a","rack":"r","dc":""}"#,
    r#"{"kind":"register","name":"a","rack":"r","dc":"d d"}"#,
    r#"{"kind":"register","name":"a","rack":5,"dc":"d"}"#,
    r#"{"kind":"register","name":"a\u00e9","rack":"r","dc":"d"}"#,
    r#"{"kind":"drop-keyspace","name":"a12345678901234567890123456789012"}"#,
    r#"{"kind":"drop-keyspace","node":4}"#,
    r#"{"kind":"keyspace","name":"ks","replication":"simple 17"}"#,
    r#"{"kind":"keyspace","name":"ks","replication":"topology a:1 a:2"}"#,
    r#"{"kind":"keyspace","name":"ks","replication":{"simple":1}}"#,
];

/// The command in the words of a script.
fn command_of(alloc: Global, words: &str) -> Result<Command, Fail> {
    let line = format!(in alloc; "commit 1 {words}")?;
    match parse_line(alloc, line.as_bytes())? {
        Some(ScriptLine::Commit(_, command)) => Ok(command),
        _ => Err("no command")?,
    }
}

/// The line of an entry, from the texts of its parts.
fn line_of(alloc: Global, command: &str, id: &str, epoch: &str) -> Result<String, Fail> {
    Ok(format!(in alloc; "{{\"command\":{command},\"entry\":{id},\"epoch\":{epoch}}}")?)
}

/// The entry in a line, or `None` if the line is a header or an image or breaks a rule.
fn read(alloc: Global, line: &[u8]) -> Result<Option<Entry>, Fail> {
    match read_line(alloc, line) {
        Ok(Line::Entry(entry)) => Ok(Some(entry)),
        Ok(Line::Snapshot(_)) => Ok(None),
        Ok(Line::Header(_)) => Ok(None),
        Err(ReadLineFault::Bad(_)) => Ok(None),
        Err(ReadLineFault::Memory) => Err("memory")?,
    }
}

/// The first rule that a line breaks, or 0.
fn rule_of(alloc: Global, line: &[u8]) -> Result<u8, Fail> {
    match read_line(alloc, line) {
        Ok(_) => Ok(0),
        Err(ReadLineFault::Bad(rule)) => Ok(rule),
        Err(ReadLineFault::Memory) => Err("memory")?,
    }
}

/// Reads the line of a command, and writes the command again.
fn goes_both_ways<A: Abort>(rt: &A, alloc: Global, words: &str, text: &str) -> Result<(), Fail> {
    let entry = Entry {
        id: u64::MAX,
        epoch: 65_536,
        cmd: command_of(alloc, words)?,
    };
    let mut expected = line_of(alloc, text, "18446744073709551615", "65536")?;
    let found = read(alloc, expected.as_bytes())?.ok_or("no entry")?;
    assert!(rt; found.same(&entry) && found.copy()?.same(&entry), "{words}");
    expected.push_str("\n")?;
    assert_eq!(rt; entry_line(alloc, &entry)?.as_slice(), expected.as_bytes());
    Ok(())
}

/// The line of a header, from the texts of its parts.
fn header_of(alloc: Global, cluster: &str, format: &str) -> Result<String, Fail> {
    Ok(format!(in alloc; "{{\"cluster\":{cluster},\"format\":{format}}}")?)
}

/// The cluster that a header names, or `None` for another line.
fn cluster_of(content: Line) -> Option<Name> {
    match content {
        Line::Header(cluster) => Some(cluster),
        Line::Entry(_) => None,
        Line::Snapshot(_) => None,
    }
}

/// The cluster that a line names, or `None` if the line is an entry or an image or breaks a rule.
fn cluster_in(alloc: Global, line: &[u8]) -> Result<Option<Name>, Fail> {
    match read_line(alloc, line) {
        Ok(content) => Ok(cluster_of(content)),
        Err(ReadLineFault::Bad(_)) => Ok(None),
        Err(ReadLineFault::Memory) => Err("memory")?,
    }
}

/// Writes the header of a cluster, reads it, and writes it again.
fn goes_both_ways_as_header<A: Abort>(rt: &A, alloc: Global, cluster: &str) -> Result<(), Fail> {
    let quoted = format!(in alloc; "\"{cluster}\"")?;
    let mut expected = header_of(alloc, &quoted, "2")?;
    let found = cluster_in(alloc, expected.as_bytes())?.ok_or("no header")?;
    expected.push_str("\n")?;
    let name = name_of(alloc, cluster)?;
    assert_eq!(rt; header_line(alloc, &name)?.as_slice(), expected.as_bytes());
    assert_eq!(rt; header_line(alloc, &found)?.as_slice(), expected.as_bytes());
    Ok(())
}

/// Parts of a header that break a rule.
fn headers_break_rules<A: Abort>(rt: &A, alloc: Global) -> Result<(), Fail> {
    for row in &NO_CLUSTERS {
        let cluster = *row;
        let line = header_of(alloc, cluster, "2")?;
        assert_eq!(rt; rule_of(alloc, line.as_bytes())?, 7, "{cluster}");
    }
    for row in &NO_FORMATS {
        let format = *row;
        let line = header_of(alloc, "\"c1\"", format)?;
        assert_eq!(rt; rule_of(alloc, line.as_bytes())?, 7, "{format}");
    }
    Ok(())
}

#[test]
fn header_lines(rt: HostRuntime) -> Result<(), Fail> {
    let alloc = rt.alloc();
    for row in &CLUSTERS {
        let cluster = *row;
        goes_both_ways_as_header(&rt, alloc, cluster)?;
    }
    let mut expected = header_of(alloc, "\"c1\"", "2")?;
    expected.push_str("\n")?;
    for row in &HEADERS {
        let line = *row;
        let found = cluster_in(alloc, line.as_bytes())?.ok_or("no header")?;
        assert_eq!(rt;
            header_line(alloc, &found)?.as_slice(),
            expected.as_bytes(),
            "{line}"
        );
    }
    headers_break_rules(&rt, alloc)
}

/// A list of `count` tokens that ascend.
fn tokens_text(alloc: Global, count: u32) -> Result<String, Fail> {
    let mut text = String::from_str(alloc, "[0")?;
    for token in 1..count {
        text.push_str(&format!(in alloc; ",{token}")?)?;
    }
    text.push_str("]")?;
    Ok(text)
}

/// The first rule that a line with these tokens breaks, or 0.
fn rule_of_tokens(alloc: Global, tokens: &str) -> Result<u8, Fail> {
    let command = format!(in alloc;
        "{{\"kind\":\"prepare-join\",\"node\":1,\"tokens\":{tokens}}}"
    )?;
    rule_of(alloc, line_of(alloc, &command, "1", "1")?.as_bytes())
}

/// A line of `size` bytes, which ends in spaces.
fn padded(alloc: Global, size: usize) -> Result<Vec<u8>, Fail> {
    let line = line_of(alloc, "{\"kind\":\"cancel\",\"node\":4}", "1", "2")?;
    let mut bytes = line.as_bytes().to_vec(alloc)?;
    for _ in bytes.len()..size {
        bytes.push(b' ')?;
    }
    Ok(bytes)
}

/// Nested arrays, `count` deep.
fn nested(alloc: Global, count: usize) -> Result<Vec<u8>, Fail> {
    let mut bytes = Vec::new(alloc);
    for _ in 0..count {
        bytes.push(b'[')?;
    }
    for _ in 0..count {
        bytes.push(b']')?;
    }
    Ok(bytes)
}

/// Parts of a line that break a rule.
fn parts_break_rules<A: Abort>(rt: &A, alloc: Global) -> Result<(), Fail> {
    let cancel = "{\"kind\":\"cancel\",\"node\":4}";
    for row in &NO_IDS {
        let id = *row;
        let line = line_of(alloc, cancel, id, "1")?;
        assert_eq!(rt; rule_of(alloc, line.as_bytes())?, 4, "{id}");
    }
    for row in &NO_EPOCHS {
        let epoch = *row;
        let line = line_of(alloc, cancel, "0", epoch)?;
        assert_eq!(rt; rule_of(alloc, line.as_bytes())?, 4, "{epoch}");
    }
    for row in &NO_COMMANDS {
        let command = *row;
        let line = line_of(alloc, command, "0", "1")?;
        assert_eq!(rt; rule_of(alloc, line.as_bytes())?, 5, "{command}");
    }
    for row in &NO_TOKENS {
        let tokens = *row;
        assert_eq!(rt; rule_of_tokens(alloc, tokens)?, 5, "{tokens}");
    }
    Ok(())
}

/// Lines at the limits.
fn limits_hold<A: Abort>(rt: &A, alloc: Global) -> Result<(), Fail> {
    assert_eq!(rt; rule_of_tokens(alloc, &tokens_text(alloc, 256)?)?, 0);
    assert_eq!(rt; rule_of_tokens(alloc, &tokens_text(alloc, 257)?)?, 5);
    assert_eq!(rt; rule_of(alloc, &padded(alloc, 4_194_304)?)?, 0);
    assert_eq!(rt; rule_of(alloc, &padded(alloc, 4_194_305)?)?, 1);
    assert_eq!(rt; rule_of(alloc, &nested(alloc, 127)?)?, 3);
    assert_eq!(rt; rule_of(alloc, &nested(alloc, 128)?)?, 2);
    Ok(())
}

#[test]
fn entry_lines(rt: HostRuntime) -> Result<(), Fail> {
    let alloc = rt.alloc();
    for row in &COMMANDS {
        let (words, text) = *row;
        goes_both_ways(&rt, alloc, words, text)?;
    }
    for row in &SPELLINGS {
        let (words, line) = *row;
        let entry = Entry {
            id: 1,
            epoch: 2,
            cmd: command_of(alloc, words)?,
        };
        let found = read(alloc, line.as_bytes())?.ok_or(line)?;
        assert!(rt; found.same(&entry), "{line}");
    }
    for row in &BROKEN {
        let (rule, line) = *row;
        assert_eq!(rt; rule_of(alloc, line)?, rule);
    }
    parts_break_rules(&rt, alloc)?;
    limits_hold(&rt, alloc)
}
