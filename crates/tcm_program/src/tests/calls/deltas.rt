//! Deltas between sets of nodes: their rows, what they show at tokens, their sides and their inverse.

use crate::tests::calls::rings::cuts_of;
use crate::tests::calls::sets::set_of;
use cluster_terms::{RightEnd, Token, TryCopy, rows_between};
use node_sets::NodeSet;
use placement_deltas::{Delta, Side, Unchanged};
use std::alloc::Global;
use std::process::Abort;
use std::test::Fail;

/// Cuts, the sets before and after in the rows between them, the rows of the delta, and what it shows at some tokens.
type Case = (
    &'static [i64],
    &'static [&'static [u32]],
    &'static [&'static [u32]],
    &'static str,
    &'static [(i64, &'static str)],
);

/// A change in the middle; the ends of the ring; no cut; and cuts at which both sets change, or the nodes gained alone,
/// the nodes lost alone, or neither.
const CASES: [Case; 5] = [
    (
        &[0, 100],
        &[&[1], &[1, 4], &[1]],
        &[&[1], &[1, 5], &[1]],
        "0 + -\n100 +5 -4\nmax + -\n",
        &[(0, "+ -"), (1, "+5 -4"), (100, "+5 -4"), (101, "+ -")],
    ),
    (
        &[i64::MIN, i64::MAX],
        &[&[1, 2], &[1]],
        &[&[1, 3], &[2]],
        "-9223372036854775808 +3 -2\nmax +2 -1\n",
        &[
            (i64::MIN, "+3 -2"),
            (i64::MIN + 1, "+2 -1"),
            (i64::MAX, "+2 -1"),
        ],
    ),
    (
        &[],
        &[&[2, 1]],
        &[&[3, 4, 2]],
        "max +3,4 -1\n",
        &[(i64::MIN, "+3,4 -1"), (0, "+3,4 -1"), (i64::MAX, "+3,4 -1")],
    ),
    (
        &[0, 10, 20, 30, 40],
        &[&[1], &[1, 2], &[1, 2], &[1, 4], &[4, 5], &[1, 4]],
        &[&[1], &[1, 3], &[1, 6], &[1, 6], &[5, 6], &[1, 4]],
        "0 + -\n10 +3 -2\n20 +6 -2\n40 +6 -4\nmax + -\n",
        &[(10, "+3 -2"), (11, "+6 -2"), (21, "+6 -4"), (40, "+6 -4")],
    ),
    (
        &[0, 10],
        &[&[1], &[2], &[]],
        &[&[1], &[2], &[]],
        "max + -\n",
        &[(5, "+ -")],
    ),
];

/// The ids of a set.
fn ids_text(alloc: Global, set: &NodeSet) -> Result<String, Fail> {
    let mut text = String::new(alloc);
    for id in set.ids() {
        if !text.is_empty() {
            text.push_str(",")?;
        }
        text.push_str(&format!(in alloc; "{}", id.0)?)?;
    }
    Ok(text)
}

/// The nodes gained, and the nodes lost.
fn change_text(alloc: Global, gained: &NodeSet, lost: &NodeSet) -> Result<String, Fail> {
    let gained = ids_text(alloc, gained)?;
    let lost = ids_text(alloc, lost)?;
    Ok(format!(in alloc; "+{gained} -{lost}")?)
}

fn end_text(alloc: Global, right: RightEnd) -> Result<String, Fail> {
    match right {
        RightEnd::At(token) => Ok(format!(in alloc; "{}", token.value())?),
        RightEnd::Max => Ok(String::from_str(alloc, "max")?),
    }
}

/// A line for each row of a delta: its right end, the nodes gained and the nodes lost.
pub fn delta_text(alloc: Global, delta: &Delta) -> Result<String, Fail> {
    let mut text = String::new(alloc);
    for row in delta.rows() {
        let right = end_text(alloc, row.right)?;
        let change = change_text(alloc, &row.gained, &row.lost)?;
        text.push_str(&format!(in alloc; "{right} {change}\n")?)?;
    }
    Ok(text)
}

fn sets_of(alloc: Global, sets: &[&[u32]]) -> Result<Vec<NodeSet>, Fail> {
    let mut list = Vec::new(alloc);
    for ids in sets {
        list.push(set_of(alloc, ids)?)?;
    }
    Ok(list)
}

pub fn delta_of(
    alloc: Global,
    cuts: &[i64],
    before: &[&[u32]],
    after: &[&[u32]],
) -> Result<Delta, Fail> {
    let cuts = cuts_of(alloc, cuts)?;
    let before = sets_of(alloc, before)?;
    let after = sets_of(alloc, after)?;
    let rows = rows_between(alloc, cuts.as_slice())?;
    let count = rows.as_slice().len();
    if before.len() != count || after.len() != count {
        return Err("another number of rows")?;
    }
    Ok(Delta::between(alloc, cuts.as_slice(), &before, &after)?)
}

fn shown_at(alloc: Global, delta: &Delta, t: i64) -> Result<String, Fail> {
    let (gained, lost) = delta.at(Token::new(t));
    change_text(alloc, gained, lost)
}

fn rows_are<A: Abort>(rt: &A, alloc: Global, delta: &Delta, rows: &str) -> Result<(), Fail> {
    let text = delta_text(alloc, delta)?;
    assert_eq!(rt; text.as_str(), rows);
    Ok(())
}

fn exchanges<A: Abort>(rt: &A, alloc: Global) -> Result<(), Fail> {
    let (cuts, before, after, rows, _) = CASES[0];
    let delta = delta_of(alloc, cuts, before, after)?;
    let inverse = delta.inverse()?;
    rows_are(rt, alloc, &inverse, "0 + -\n100 +4 -5\nmax + -\n")?;
    rows_are(rt, alloc, &inverse.inverse()?.copy()?, rows)
}

/// Rows are joined where one side is the same.
#[test]
fn sides_of_a_delta(rt: HostRuntime) -> Result<(), Fail> {
    let alloc = rt.alloc();
    let (cuts, before, after, ..) = CASES[3];
    let delta = delta_of(alloc, cuts, before, after)?;
    let gained = delta.only(Side::Gained)?;
    let lost = delta.only(Side::Lost)?;
    rows_are(&rt, alloc, &gained, "0 + -\n10 +3 -\n40 +6 -\nmax + -\n")?;
    rows_are(&rt, alloc, &lost, "0 + -\n20 + -2\n40 + -4\nmax + -\n")
}

#[test]
fn deltas_between_sets(rt: HostRuntime) -> Result<(), Fail> {
    let alloc = rt.alloc();
    for case in &CASES {
        let (cuts, before, after, rows, tokens) = *case;
        let delta = delta_of(alloc, cuts, before, after)?;
        rows_are(&rt, alloc, &delta, rows)?;
        for token in tokens {
            let (t, wanted) = *token;
            let shown = shown_at(alloc, &delta, t)?;
            assert_eq!(rt; shown.as_str(), wanted, "at {t} of {rows}");
        }
    }
    exchanges(&rt, alloc)
}

/// The last of the tokens from `t` on at which a delta changes nothing.
fn last_unchanged(delta: &Delta, t: i64, hint: &mut usize) -> Option<i64> {
    let tokens = delta.unchanged_from(Token::new(t), hint)?;
    Some(tokens.last.value())
}

/// Whether a token is one of those from `first` up to `last`.
fn is_in(first: i64, last: i64, t: i64) -> bool {
    let tokens = Unchanged {
        first: Token::new(first),
        last: Token::new(last),
    };
    tokens.has(Token::new(t))
}

#[test]
fn tokens_at_which_a_delta_changes_nothing(rt: HostRuntime) -> Result<(), Fail> {
    let alloc = rt.alloc();
    let (cuts, before, after, _, _) = CASES[0];
    let delta = delta_of(alloc, cuts, before, after)?;
    let mut hint = 0;
    assert_eq!(rt; last_unchanged(&delta, -5, &mut hint), Some(0));
    assert_eq!(rt; last_unchanged(&delta, 0, &mut hint), Some(0));
    assert_eq!(rt; last_unchanged(&delta, 1, &mut hint), None);
    assert_eq!(rt; last_unchanged(&delta, 100, &mut hint), None);
    assert_eq!(rt; last_unchanged(&delta, 101, &mut hint), Some(i64::MAX));
    assert_eq!(rt; last_unchanged(&delta, -5, &mut hint), Some(0));
    assert_eq!(rt; is_in(1, 3, 0), false);
    assert_eq!(rt; is_in(1, 3, 1), true);
    assert_eq!(rt; is_in(1, 3, 3), true);
    assert_eq!(rt; is_in(1, 3, 4), false);
    Ok(())
}
