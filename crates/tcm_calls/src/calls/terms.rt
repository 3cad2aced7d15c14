//! Replications and their texts, factors, and tokens in order.

use crate::calls::name_of;
use cluster_terms::{ByteText, Factors, Name, Replication, Rf, Token, TokenList, TryCopy};
use std::alloc::Global;
use std::process::Abort;
use std::test::Fail;

/// A text of a replication, the text that is written for it, and its number of replicas.
const TEXTS: [(&str, &str, u32); 7] = [
    ("simple 1", "simple 1", 1),
    ("simple 9", "simple 9", 9),
    ("simple 10", "simple 10", 10),
    ("simple 16", "simple 16", 16),
    ("topology dc1:3", "topology dc1:3", 3),
    (
        "topology dc2:1 dc10:16 Dc2:12 dc:2",
        "topology Dc2:12 dc:2 dc10:16 dc2:1",
        31,
    ),
    (
        "topology p:1 o:1 n:1 m:1 l:1 k:1 j:1 i:1 h:1 g:1 f:1 e:1 d:1 c:1 b:1 a:16",
        "topology a:16 b:1 c:1 d:1 e:1 f:1 g:1 h:1 i:1 j:1 k:1 l:1 m:1 n:1 o:1 p:1",
        31,
    ),
];

/// Texts that aren't a replication.
const NO_TEXTS: [&str; 29] = [
    "",
    " ",
    "simple",
    "simple ",
    "simple 0",
    "simple 17",
    "simple 01",
    "simple +1",
    "simple -1",
    "simple 100",
    "simple x",
    "simple 1 ",
    " simple 1",
    "simple  1",
    "simple 1 2",
    "Simple 1",
    "topology",
    "topology ",
    "topology a",
    "topology a:",
    "topology :1",
    "topology a:0",
    "topology a:17",
    "topology a:1:2",
    "topology a/b:1",
    "topology a:1  b:1",
    "topology a:1 b:1 ",
    "topology a:1 b:2 a:3",
    "topology a:1 b:1 c:1 d:1 e:1 f:1 g:1 h:1 i:1 j:1 k:1 l:1 m:1 n:1 o:1 p:1 q:1",
];

/// Two texts, and whether their replications are the same.
const PAIRS: [(&str, &str, bool); 8] = [
    ("simple 3", "simple 3", true),
    ("simple 3", "simple 2", false),
    ("simple 3", "topology dc1:3", false),
    ("topology dc1:3", "simple 3", false),
    ("topology dc1:3 dc2:2", "topology dc2:2 dc1:3", true),
    ("topology dc1:3 dc2:2", "topology dc1:3", false),
    ("topology dc1:3 dc2:2", "topology dc1:3 dc2:3", false),
    ("topology dc1:3 dc2:2", "topology dc1:3 dc3:2", false),
];

/// Names of datacenters, and whether rows with them make factors.
const FACTORS: [(&[&str], bool); 4] = [
    (&["dc2", "dc10", "DC2"], true),
    (&["a"], true),
    (&[], false),
    (&["a", "b", "a"], false),
];

fn rows_of(alloc: Global, names: &[&str]) -> Result<Vec<(Name, Rf)>, Fail> {
    let mut rows = Vec::new(alloc);
    for name in names {
        rows.push((name_of(alloc, name)?, Rf::new(3).ok_or("no factor")?))?;
    }
    Ok(rows)
}

/// Reads a text, and writes it again.
fn written_again(alloc: Global, text: &str) -> Result<(ByteText, u32), Fail> {
    let replication = Replication::parse(alloc, text)?.ok_or("no replication")?;
    let mut out = ByteText::empty(alloc);
    replication.copy()?.write(&mut out)?;
    Ok((out, replication.total()))
}

fn texts_are_written_in_one_way<A: Abort>(rt: &A, alloc: Global) -> Result<(), Fail> {
    for row in &TEXTS {
        let (text, written, total) = *row;
        let (out, found) = written_again(alloc, text)?;
        assert_eq!(rt; out.as_slice(), written.as_bytes());
        assert_eq!(rt; found, total, "{text}");
    }
    Ok(())
}

fn other_texts_say_nothing<A: Abort>(rt: &A, alloc: Global) -> Result<(), Fail> {
    for row in &NO_TEXTS {
        let text = *row;
        let found = Replication::parse(alloc, text)?;
        assert!(rt; found.is_none(), "{text} is a replication");
    }
    Ok(())
}

/// Whether two texts write the same replication.
fn are_same(alloc: Global, text: &str, other: &str) -> Result<bool, Fail> {
    let one = Replication::parse(alloc, text)?.ok_or("no replication")?;
    let two = Replication::parse(alloc, other)?.ok_or("no replication")?;
    Ok(one.same(&two))
}

fn some_are_the_same<A: Abort>(rt: &A, alloc: Global) -> Result<(), Fail> {
    for row in &PAIRS {
        let (text, other, same) = *row;
        assert_eq!(rt; are_same(alloc, text, other)?, same, "{text}, {other}");
    }
    Ok(())
}

/// Whether the names make factors, in ascending order.
fn make_factors(alloc: Global, names: &[&str]) -> Result<bool, Fail> {
    let rows = rows_of(alloc, names)?;
    let Some(factors) = Factors::from_rows(alloc, &rows)? else {
        return Ok(false);
    };
    let rows = factors.rows();
    Ok(rows.len() == names.len() && rows.is_sorted_by(|a, b| a.0.as_str() < b.0.as_str()))
}

fn factors_ascend<A: Abort>(rt: &A, alloc: Global) -> Result<(), Fail> {
    for row in &FACTORS {
        let (names, good) = *row;
        assert_eq!(rt; make_factors(alloc, names)?, good);
    }
    Ok(())
}

fn tokens_ascend<A: Abort>(rt: &A, alloc: Global) -> Result<(), Fail> {
    let some = [Token::new(7), Token::new(-1), Token::new(7), Token::new(3)];
    let tokens = TokenList::ascending(alloc, &some)?.copy()?;
    let ascending = [Token::new(-1), Token::new(3), Token::new(7)];
    assert_eq!(rt; tokens.as_slice(), ascending.as_slice());
    Ok(())
}

#[test]
fn replications_and_tokens(rt: HostRuntime) -> Result<(), Fail> {
    texts_are_written_in_one_way(&rt, rt.alloc())?;
    other_texts_say_nothing(&rt, rt.alloc())?;
    some_are_the_same(&rt, rt.alloc())?;
    factors_ascend(&rt, rt.alloc())?;
    tokens_ascend(&rt, rt.alloc())
}
