//! Replays of a state that isn't valid: states that break each rule, some at two places, and some two rules.
//!
//! A row tells a state in parts between bars: the first rule that it breaks, with the value; its name; its epoch, its
//! next id, its nodes and keyspaces, told by letters, with the pairs of its ring between them; and its movements, if it
//! has any. A movement is told by its kind, its node, the pairs that it takes in, those that it takes out, and its
//! phase, if it isn't PREPARED. A dash stands for nothing.

use file_runs::{add_item, is_shown, sure_store_of};
use std::alloc::Global;
use std::test::Fail;

/// States that break a rule on nodes or on numbers.
const NODES: &str = "\
2 0 | an id that is 0 | 9 7 za - -
2 2 | an id twice | 9 7 aby - -
2 2 | ids that fall | 9 7 acb - -
2 3 | ids that fall twice | 9 7 dcb - -
3 2 | the next id | 9 2 ab - -
3 2 | two ids from the next on | 9 2 abc - -
4 3 | a name twice | 9 7 abo - -
4 2 | a name three times | 9 7 ano - -
4 2 | the name of a node that left | 9 7 An - -
5 65537 | a great epoch | 65537 1 - - -
5 18446744073709551615 | the greatest epoch of a line | 18446744073709551615 1 - - -
6 0 | the next id is 0 | 9 0 - - -
6 11 | a great next id | 9 11 abcdef - -
6 2 | a next id at epoch 0 | 0 2 - - -
6 4294967295 | the greatest next id of a line | 65536 4294967295 - - -
";

/// States that break a rule on tokens or keyspaces.
const RINGS: &str = "\
7 5 | a token twice | 9 7 a [5,1],[5,1] -
7 -5 | tokens that fall | 9 7 ab [5,1],[-5,2] -
7 3 | tokens that fall twice | 9 7 a [5,1],[3,1],[1,1] -
8 5 | a token of no node | 9 7 a [1,1],[5,2] -
8 -3 | a token of node 0 | 9 7 a [-3,0] -
8 100 | a token of a node that left | 9 7 aB TWO -
8 -9223372036854775808 | two tokens of no node | 9 7 a [-9223372036854775808,9],[9223372036854775807,8] -
11 1 | a keyspace twice | 9 7 - - KK
11 2 | keyspaces that fall | 9 7 - - JKJ
11 1 | keyspaces that fall twice | 9 7 - - KJKJ
11 1 | a small letter before a capital | 9 7 - - JZ
";

/// States that break two or three of these rules.
const FIRST_RULES: &str = "\
2 2 | rules 2 and 4 | 9 7 abon - -
3 1 | rules 3, 4 and 6 | 9 0 an - -
4 2 | rules 4 and 5 | 65537 7 an - -
5 65537 | rules 5 and 6 | 65537 0 - - -
6 11 | rules 6 and 7 | 9 11 a [3,1],[1,1] -
7 3 | rules 7, 8 and 11 | 9 7 a [5,9],[3,1] KK
8 5 | rules 8 and 11 | 9 7 a [5,9] KK
";

/// States with movements out of order, or of nodes that aren't there.
const MOVERS: &str = "\
12 2 | movements that fall | 9 7 abcdef SIX - | leave 4 - [300,4]; leave 2 - [100,2]
12 2 | a movement twice | 9 7 abcdef SIX - | leave 2 - [100,2]; leave 2 - [100,2]
12 3 | movements that fall twice | 9 7 abcdef SIX - | leave 4 - [300,4]; leave 3 - [200,3]; leave 2 - [100,2]
13 2 | a movement of no node | 9 7 a [0,1] - | join 2 [5,2] -
13 0 | a movement of node 0 | 9 7 a [0,1] - | join 0 [5,0] -
13 2 | a movement of a node that left | 9 7 aB [0,1] - | join 2 [5,2] -
13 8 | two movements of no node | 9 7 a [0,1] - | join 8 [5,8] -; join 9 [6,9] -
";

/// States with a join whose pairs don't fit.
const JOINS: &str = "\
14 6 | a join that takes a pair out | 9 7 abcdef FIVE - | join 6 [50,6] [0,1]
14 6 | a join with no pair | 9 7 abcdef FIVE - | join 6 - -
14 6 | a join of another node | 9 7 abcdef FIVE - | join 6 [50,6],[60,5] -
14 6 | a join whose tokens fall | 9 7 abcdef FIVE - | join 6 [60,6],[50,6] -
14 6 | a join with a token twice | 9 7 abcdef FIVE - | join 6 [50,6],[50,6] -
14 5 | a join of a joined node | 9 7 abcdef FIVE - | join 5 [450,5] -
";

/// States with a move whose pairs don't fit.
const MOVES: &str = "\
14 2 | a move from a token of another node | 9 7 abcdef SIX - | move 2 [150,2] [0,1]
14 2 | a move from another token | 9 7 abcdef SIX - | move 2 [150,2] [101,2]
14 2 | a move from no token | 9 7 abcdef SIX - | move 2 [150,2] -
14 2 | a move to no token | 9 7 abcdef SIX - | move 2 - [100,2]
14 2 | a move to two tokens | 9 7 abcdef SIX - | move 2 [150,2],[160,2] [100,2]
14 2 | a move of another node | 9 7 abcdef SIX - | move 2 [150,3] [100,2]
14 1 | a move from two tokens | 9 7 ab THREE - | move 1 [20,1] [0,1],[50,1]
14 1 | a move from one of two tokens | 9 7 ab THREE - | move 1 [20,1] [0,1]
14 3 | a move of a node that has not joined | 9 7 abc THREE - | move 3 [20,3] -
";

/// States with a leave whose pairs don't fit.
const LEAVES: &str = "\
14 1 | a leave from one of two tokens | 9 7 ab THREE - | leave 1 - [0,1]
14 1 | a leave whose tokens fall | 9 7 ab THREE - | leave 1 - [50,1],[0,1]
14 2 | a leave from a token of another node | 9 7 abcdef SIX - | leave 2 - [100,2],[200,3]
14 6 | a leave from no token | 9 7 abcdef FIVE - | leave 6 - -
14 2 | a leave to a token | 9 7 abcdef SIX - | leave 2 [150,2] [100,2]
";

/// States with a replace whose pairs don't fit.
const REPLACES: &str = "\
14 2 | a replace of itself | 9 7 abcdef SIX - | replace 2 [100,2] [100,2]
14 3 | a replace of one of two tokens | 9 7 abc THREE - | replace 3 [0,3] [0,1]
14 3 | a replace of two nodes | 9 7 abc TWO - | replace 3 [0,3],[100,3] [0,1],[100,2]
14 3 | a replace at another token | 9 7 abc TWO - | replace 3 [1,3] [0,1]
14 3 | a replace by another node | 9 7 abc TWO - | replace 3 [0,2] [0,1]
14 3 | a replace by one of two tokens | 9 7 abc THREE - | replace 3 [0,3] [0,1],[50,1]
14 3 | a replace of no node | 9 7 abc TWO - | replace 3 - -
14 5 | a replace by a joined node | 9 7 abcdef SIX - | replace 5 [0,5] [0,1]
14 6 | a replace in another rack | 9 7 abcder FIVE - | replace 6 [0,6] [0,1]
14 6 | a replace in another datacenter | 9 7 abcdeq FIVE - | replace 6 [0,6] [0,1]
";

/// States with movements that don't go together.
const TOGETHER: &str = "\
14 2 | two movements that don't fit | 9 7 abcdef SIX - | leave 2 - -; leave 4 - -
15 6 | a leave of a replaced node | 9 7 abcdef FIVE - | leave 1 - [0,1]; replace 6 [0,6] [0,1]
15 3 | a node that is replaced by a lesser one, and leaves | 9 7 abcdef [100,2],[200,3] - | replace 1 [200,1] [200,3]; leave 3 - [200,3]
15 5 | a node that is replaced twice | 9 7 abcdef TWO - | replace 4 [0,4] [0,1]; replace 5 [0,5] [0,1]; replace 6 [0,6] [0,1]
16 200 | a join at a token of the ring | 9 7 abcdef FIVE - | join 6 [-5,6],[200,6],[300,6] -
16 100 | a move to its own token | 9 7 abcdef SIX - | move 2 [100,2] [100,2]
16 60 | two joins at a token | 9 8 abcdefg FIVE - | join 6 [50,6],[60,6] -; join 7 [40,7],[60,7] -
16 150 | a join at the token of a move | 9 7 abcdef FIVE - | move 2 [150,2] [100,2]; join 6 [150,6] -
16 100 | a join at the token of a leave | 9 7 abcdef FIVE - | leave 2 - [100,2] MID; join 6 [100,6] -
18 4 | overlapping-image | 15 7 abcdef SIX K | leave 2 - [100,2]; leave 4 - [300,4]
18 4 | three leaves that overlap | 15 7 abcdef SIX K | leave 2 - [100,2]; leave 4 - [300,4] MID; leave 6 - [500,6]
18 5 | two leaves that don't overlap, and a third | 15 7 abcdef SIX R | leave 1 - [0,1] STARTED; leave 4 - [300,4]; leave 5 - [400,5]
";

/// States that break two rules, one of them a rule on movements.
const LATER_RULES: &str = "\
11 1 | rules 11 and 12 | 9 7 abcdef SIX KK | leave 4 - [300,4]; leave 2 - [100,2]
12 3 | rules 12 and 13 | 9 7 ab TWO - | join 4 [50,4] -; join 3 [60,3] -
13 3 | rules 13 and 14 | 9 7 ab TWO - | leave 1 - [1,1]; join 3 [60,3] -
14 1 | rules 14 and 15 | 9 7 abcdef FIVE - | leave 1 - -; replace 6 [0,6] [0,1]
15 6 | rules 15 and 16 | 9 7 abcdef FIVE - | move 1 [100,1] [0,1]; replace 6 [0,6] [0,1]
16 400 | rules 16 and 18 | 15 7 abcdef FIVE K | leave 2 - [100,2]; leave 4 - [300,4]; join 6 [400,6] -
";

/// What a word of a row stands for: a dash for nothing, and the names of rings for their pairs. In a ring of three
/// pairs the first of two nodes has two tokens.
fn told(word: &str) -> &str {
    match word {
        "-" => "",
        "SIX" => "[0,1],[100,2],[200,3],[300,4],[400,5],[500,6]",
        "FIVE" => "[0,1],[100,2],[200,3],[300,4],[400,5]",
        "TWO" => "[0,1],[100,2]",
        "THREE" => "[0,1],[50,1],[100,2]",
        _ => word,
    }
}

/// The node or the keyspace that a letter stands for.
fn part_of(letter: u8) -> &'static str {
    match letter {
        b'a' => r#"{"dc":"dc1","id":1,"left":false,"name":"a","rack":"r1"}"#,
        b'b' => r#"{"dc":"dc1","id":2,"left":false,"name":"b","rack":"r1"}"#,
        b'c' => r#"{"dc":"dc1","id":3,"left":false,"name":"c","rack":"r1"}"#,
        b'd' => r#"{"dc":"dc1","id":4,"left":false,"name":"d","rack":"r1"}"#,
        b'e' => r#"{"dc":"dc1","id":5,"left":false,"name":"e","rack":"r1"}"#,
        b'f' => r#"{"dc":"dc1","id":6,"left":false,"name":"f","rack":"r1"}"#,
        b'g' => r#"{"dc":"dc1","id":7,"left":false,"name":"g","rack":"r1"}"#,
        b'A' => r#"{"dc":"dc1","id":1,"left":true,"name":"a","rack":"r1"}"#,
        b'B' => r#"{"dc":"dc1","id":2,"left":true,"name":"b","rack":"r1"}"#,
        b'n' => r#"{"dc":"dc1","id":2,"left":false,"name":"a","rack":"r1"}"#,
        b'o' => r#"{"dc":"dc1","id":3,"left":false,"name":"a","rack":"r1"}"#,
        b'q' => r#"{"dc":"dc2","id":6,"left":false,"name":"f","rack":"r1"}"#,
        b'r' => r#"{"dc":"dc1","id":6,"left":false,"name":"f","rack":"r2"}"#,
        b'y' => r#"{"dc":"dc1","id":2,"left":false,"name":"y","rack":"r1"}"#,
        b'z' => r#"{"dc":"dc1","id":0,"left":false,"name":"z","rack":"r1"}"#,
        b'J' => r#"{"name":"ka","replication":"simple 1"}"#,
        b'K' => r#"{"name":"ks","replication":"simple 2"}"#,
        b'R' => r#"{"name":"ks","replication":"simple 1"}"#,
        _ => r#"{"name":"kZ","replication":"simple 1"}"#,
    }
}

/// The nodes or the keyspaces that letters stand for.
fn parts_of(alloc: Global, letters: &str) -> Result<String, Fail> {
    let mut list = String::new(alloc);
    for letter in letters.as_bytes() {
        add_item(&mut list, part_of(*letter))?;
    }
    Ok(list)
}

/// The object of a movement that a row tells.
fn movement_of(alloc: Global, text: &str) -> Result<String, Fail> {
    let mut words = text.split_whitespace();
    let kind = words.next().ok_or("a kind")?;
    let node = words.next().ok_or("a node")?;
    let taken = told(words.next().ok_or("the pairs in")?);
    let given = told(words.next().ok_or("the pairs out")?);
    let phase = words.next().unwrap_or("PREPARED");
    let head = format!(in alloc; "{{\"in\":[{taken}],\"kind\":\"{kind}\",\"node\":{node}")?;
    let object = format!(in alloc; "{head},\"out\":[{given}],\"phase\":\"{phase}\"}}")?;
    Ok(object)
}

/// The movements that a row tells.
fn movements_of(alloc: Global, text: &str) -> Result<String, Fail> {
    let mut list = String::new(alloc);
    if !text.is_empty() {
        for movement in text.split(';') {
            add_item(&mut list, movement_of(alloc, movement)?.as_str())?;
        }
    }
    Ok(list)
}

/// The snapshot line of a state with this epoch and this next id.
fn state_of(
    alloc: Global,
    numbers: (&str, &str),
    nodes: &str,
    tokens: &str,
    keyspaces: &str,
    movements: &str,
) -> Result<String, Fail> {
    let (epoch, next) = numbers;
    let head = format!(in alloc; "{{\"snapshot\":{{\"epoch\":{epoch},\"keyspaces\":[{keyspaces}]")?;
    let text = format!(in alloc;
        "{head},\"next\":{next},\"nodes\":[{nodes}],\"sequences\":[{movements}],\"tokens\":[{tokens}]}}}}\n"
    )?;
    Ok(text)
}

/// Replays the line of a state, which breaks this rule first.
fn is_bad(alloc: Global, name: &str, line: &str, broken: &str) -> Result<(), Fail> {
    let mut store = sure_store_of(alloc, None)?;
    store.put("x", line.as_bytes())?;
    let text = format!(in alloc; "REFUSED 1 1 IMAGE {broken}\n")?;
    is_shown(
        alloc,
        name,
        &["replay", "x"],
        &mut store,
        (3, text.as_str()),
    )
}

/// The snapshot line of the state that a row tells in words, with these movements.
fn line_told(alloc: Global, state: &str, movements: &str) -> Result<String, Fail> {
    let mut words = state.split_whitespace();
    let epoch = words.next().ok_or("an epoch")?;
    let next = words.next().ok_or("a next id")?;
    let nodes = parts_of(alloc, told(words.next().ok_or("nodes")?))?;
    let tokens = told(words.next().ok_or("a ring")?);
    let keyspaces = parts_of(alloc, told(words.next().ok_or("keyspaces")?))?;
    let movements = movements_of(alloc, movements)?;
    state_of(
        alloc,
        (epoch, next),
        nodes.as_str(),
        tokens,
        keyspaces.as_str(),
        movements.as_str(),
    )
}

/// Replays the state of a row.
fn is_bad_row(alloc: Global, row: &str) -> Result<(), Fail> {
    let (broken, rest) = row.split_once(" | ").ok_or("a rule")?;
    let (name, rest) = rest.split_once(" | ").ok_or("a name")?;
    let (state, movements) = rest.split_once(" | ").unwrap_or((rest, ""));
    let line = line_told(alloc, state, movements)?;
    is_bad(alloc, name, line.as_str(), broken)
}

/// Replays the state of each of these rows.
fn are_bad(alloc: Global, rows: &str) -> Result<(), Fail> {
    for row in rows.lines() {
        is_bad_row(alloc, row)?;
    }
    Ok(())
}

#[test]
fn nodes_are_not_valid(rt: HostRuntime) -> Result<(), Fail> {
    are_bad(rt.alloc(), NODES)
}

#[test]
fn rings_are_not_valid(rt: HostRuntime) -> Result<(), Fail> {
    are_bad(rt.alloc(), RINGS)?;
    are_bad(rt.alloc(), FIRST_RULES)
}

#[test]
fn joins_are_not_valid(rt: HostRuntime) -> Result<(), Fail> {
    are_bad(rt.alloc(), MOVERS)?;
    are_bad(rt.alloc(), JOINS)
}

#[test]
fn moves_are_not_valid(rt: HostRuntime) -> Result<(), Fail> {
    are_bad(rt.alloc(), MOVES)?;
    are_bad(rt.alloc(), LEAVES)
}

#[test]
fn replaces_are_not_valid(rt: HostRuntime) -> Result<(), Fail> {
    are_bad(rt.alloc(), REPLACES)?;
    are_bad(rt.alloc(), LATER_RULES)
}

#[test]
fn movements_together_are_not_valid(rt: HostRuntime) -> Result<(), Fail> {
    are_bad(rt.alloc(), TOGETHER)
}

/// The name of a large state; the numbers of its nodes and its keyspaces; the number of the pairs of its ring, and how
/// many of them a node has; its movements; and the first rule that it breaks, with the value.
type Large = (
    &'static str,
    (u32, u32),
    (u32, u32),
    &'static str,
    &'static str,
);

/// A join of a node that isn't there, and one of node 65.
const NO_NODE: &str = r#"{"in":[[-1,1999]],"kind":"join","node":1999,"out":[],"phase":"PREPARED"}"#;

const JOIN: &str = r#"{"in":[[-1,65]],"kind":"join","node":65,"out":[],"phase":"PREPARED"}"#;

/// States at limits and past them. Those at a limit break a later rule.
const LIMITS: [Large; 9] = [
    ("1,025 nodes", (1025, 0), (0, 1), "", "1 1025"),
    ("1,024 nodes", (1024, 0), (0, 1), NO_NODE, "13 1999"),
    (
        "257 tokens of each node",
        (2, 0),
        (514, 257),
        NO_NODE,
        "9 1",
    ),
    (
        "256 tokens of each node",
        (2, 0),
        (512, 256),
        NO_NODE,
        "13 1999",
    ),
    ("65 keyspaces", (0, 65), (0, 1), NO_NODE, "10 65"),
    ("64 keyspaces", (0, 64), (0, 1), NO_NODE, "13 1999"),
    (
        "1,025 nodes and 65 keyspaces",
        (1025, 65),
        (0, 1),
        NO_NODE,
        "1 1025",
    ),
    ("16,385 tokens", (65, 0), (16385, 256), "", "17 16385"),
    (
        "16,384 tokens and that of a join",
        (65, 0),
        (16384, 256),
        JOIN,
        "17 16385",
    ),
];

/// This many nodes.
fn many_nodes(alloc: Global, count: u32) -> Result<String, Fail> {
    let mut list = String::new(alloc);
    for id in 1..=count {
        let node = format!(in alloc;
            "{{\"dc\":\"dc1\",\"id\":{id},\"left\":false,\"name\":\"n{id}\",\"rack\":\"r1\"}}"
        )?;
        add_item(&mut list, node.as_str())?;
    }
    Ok(list)
}

/// This many keyspaces, at most 900.
fn many_keyspaces(alloc: Global, count: u32) -> Result<String, Fail> {
    let mut list = String::new(alloc);
    for number in 0..count {
        let number = number.saturating_add(100);
        let row = format!(in alloc; "{{\"name\":\"k{number}\",\"replication\":\"simple 1\"}}")?;
        add_item(&mut list, row.as_str())?;
    }
    Ok(list)
}

/// This many pairs, of which each node from 1 on has `each`.
fn many_pairs(alloc: Global, count: u32, each: u32) -> Result<String, Fail> {
    let mut list = String::new(alloc);
    for token in 0..count {
        let node = token.checked_div(each).unwrap_or(0).saturating_add(1);
        add_item(&mut list, format!(in alloc; "[{token},{node}]")?.as_str())?;
    }
    Ok(list)
}

/// Replays each large state.
fn limits(alloc: Global) -> Result<(), Fail> {
    for row in &LIMITS {
        let (name, (nodes, keyspaces), (pairs, each), movements, broken) = *row;
        let nodes = many_nodes(alloc, nodes)?;
        let keyspaces = many_keyspaces(alloc, keyspaces)?;
        let pairs = many_pairs(alloc, pairs, each)?;
        let line = state_of(
            alloc,
            ("2000", "2000"),
            nodes.as_str(),
            pairs.as_str(),
            keyspaces.as_str(),
            movements,
        )?;
        is_bad(alloc, name, line.as_str(), broken)?;
    }
    Ok(())
}

/// Replays the join of a node with 257 tokens.
fn limits_a_join(alloc: Global) -> Result<(), Fail> {
    let pairs = many_pairs(alloc, 257, 257)?;
    let join = format!(in alloc;
        "{{\"in\":[{pairs}],\"kind\":\"join\",\"node\":1,\"out\":[],\"phase\":\"PREPARED\"}}"
    )?;
    let line = state_of(alloc, ("9", "2"), part_of(b'a'), "", "", join.as_str())?;
    is_bad(alloc, "257 tokens of a join", line.as_str(), "14 1")
}

#[test]
fn states_are_limited(rt: HostRuntime) -> Result<(), Fail> {
    limits(rt.alloc())?;
    limits_a_join(rt.alloc())
}
