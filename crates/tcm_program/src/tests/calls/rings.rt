//! Rings of pairs, ranges between few cuts, and locks.

ghost use Rattle.std.specs.Prelude.{◌≡◌, IfOk};
ghost use Rattle.std.specs.List.Sorted.{IsStrictlySortedBy};
ghost use Rattle.std.specs.Ordering.{int_cmp};
ghost use Rattle.token_ring.specs.TokenRanges.{AreCutOut};

use cluster_terms::{
    NodeId, Pair, Replication, Rf, RightEnd, Token, TokenList, TryCopy, rows_between,
};
use locked_ranges::LockTable;
use std::alloc::Global;
use std::process::Abort;
use std::test::Fail;
use token_ring::{LockRow, RangeBook, RangeList, RangeRow, Ring, TokenRange};

fn pair(token: i64, node: u32) -> Pair
    ensures token { result.token ≡ token }
    ensures node { result.node ≡ node }
{
    Pair {
        token: Token::new(token),
        node: NodeId(node),
    }
}

/// A token, the position of the first token at or after it, and the node of that first token.
const OWNERS: [(i64, usize, u32); 4] = [(i64::MIN, 0, 1), (-1, 1, 2), (i64::MAX, 2, 3), (1, 2, 3)];

fn owners<A: Abort>(rt: &A, alloc: Global) -> Result<(), Fail> {
    let pairs = [pair(i64::MAX, 3), pair(i64::MIN, 1), pair(0, 2)];
    let ring = Ring::from_pairs(alloc, &pairs)?.ok_or("a token comes twice")?;
    for row in &OWNERS {
        let (t, first, owner) = *row;
        assert_eq!(rt; ring.first_at(Token::new(t)), Some(first), "at {t}");
        assert_eq!(rt; ring.owner(Token::new(t)), Some(NodeId(owner)), "at {t}");
    }
    let empty = Ring::empty(alloc);
    assert_eq!(rt; empty.first_at(Token::new(0)), None);
    assert_eq!(rt; empty.owner(Token::new(0)), None);
    let twice = [pair(10, 1), pair(20, 2), pair(10, 3)];
    assert!(rt; Ring::from_pairs(alloc, &twice)?.is_none());
    Ok(())
}

fn added_and_gone<A: Abort>(rt: &A, alloc: Global) -> Result<(), Fail> {
    let ring = Ring::empty(alloc).with_added(&[pair(10, 2), pair(0, 1)])?;
    let grown = ring.with_added(&[pair(5, 3), pair(-5, 4)])?;
    let all = [pair(-5, 4), pair(0, 1), pair(5, 3), pair(10, 2)];
    assert_eq!(rt; grown.pairs(), all.as_slice());
    let left = grown.without(&[pair(0, 1), pair(5, 9)])?.copy()?;
    let rest = [pair(-5, 4), pair(5, 3), pair(10, 2)];
    assert_eq!(rt; left.pairs(), rest.as_slice());
    Ok(())
}

/// The ends of a range. Without a left end it begins at the least token; without a right end it ends at the greatest
/// token.
type Ends = (Option<i64>, Option<i64>);

/// Cuts, which of the rows between them are chosen, and the ranges of the chosen rows.
const CHOSEN: [(&[i64], &[bool], &[Ends]); 7] = [
    (
        &[0, 10, 20],
        &[false, true, true, false],
        &[(Some(0), Some(20))],
    ),
    (
        &[0, 10, 20],
        &[true, false, false, true],
        &[(None, Some(0)), (Some(20), None)],
    ),
    (&[0, 10, 20], &[true, true, true, true], &[(None, None)]),
    (&[0, 10, 20], &[false, false, false, false], &[]),
    (&[0, i64::MAX], &[false, true], &[(Some(0), None)]),
    (&[i64::MIN], &[true, false], &[(None, Some(i64::MIN))]),
    (&[], &[true], &[(None, None)]),
];

/// Two pairs of cuts, and the union of the middle rows between them.
const UNIONS: [(&[i64], &[i64], &[Ends]); 4] = [
    (&[0, 10], &[10, 20], &[(Some(0), Some(20))]),
    (&[0, 10], &[5, 20], &[(Some(0), Some(20))]),
    (
        &[0, 10],
        &[11, 20],
        &[(Some(0), Some(10)), (Some(11), Some(20))],
    ),
    (&[i64::MIN, 0], &[0, 7], &[(Some(i64::MIN), Some(7))]),
];

pub fn cuts_of(alloc: Global, cuts: &[i64]) -> Result<TokenList, Fail>
    ensures { IfOk result (λ cuts. IsStrictlySortedBy int_cmp cuts) }
{
    let mut tokens = TokenList::empty(alloc);
    for cut in cuts {
        tokens.push(Token::new(*cut)).map_err(|_| "memory")?;
    }
    Ok(TokenList::ascending(alloc, tokens.as_slice())?)
}

fn is_chosen(rows: &[TokenRange], chosen: &[bool], t: Token) -> bool {
    rows.iter()
        .zip(chosen)
        .any(|(row, is_chosen)| row.last_token() == t && *is_chosen)
}

fn chosen_of(alloc: Global, cuts: &[Token], chosen: &[bool]) -> Result<RangeList, Fail>
    requires { IsStrictlySortedBy int_cmp cuts.now }
    ensures { IfOk result (λ ranges. AreCutOut cuts.now ranges) }
{
    let rows = rows_between(alloc, cuts)?;
    let rows = rows.as_slice();
    Ok(RangeList::of_rows(alloc, cuts, |t| is_chosen(rows, chosen, t))?)
}

fn ranges_of(alloc: Global, cuts: &[i64], chosen: &[bool]) -> Result<RangeList, Fail> {
    let cuts = cuts_of(alloc, cuts)?;
    chosen_of(alloc, cuts.as_slice(), chosen)
}

fn range_of(ends: &Ends) -> TokenRange {
    TokenRange {
        left: ends.0.map(Token::new),
        right: ends
            .1
            .map_or(RightEnd::Max, |right| RightEnd::At(Token::new(right))),
    }
}

fn shows(ranges: &RangeList, ends: &[Ends]) -> bool {
    ranges
        .as_slice()
        .iter()
        .copied()
        .eq(ends.iter().map(range_of))
}

fn ranges_of_tokens<A: Abort>(rt: &A, alloc: Global) -> Result<(), Fail> {
    for row in &CHOSEN {
        let (cuts, chosen, ends) = *row;
        assert!(rt; shows(&ranges_of(alloc, cuts, chosen)?, ends));
    }
    for row in &UNIONS {
        let (one, other, ends) = *row;
        let one = ranges_of(alloc, one, &[false, true, false])?;
        let other = ranges_of(alloc, other, &[false, true, false])?;
        assert!(rt; shows(&one.union(&other)?, ends));
        assert!(rt; shows(&other.union(&one)?.copy()?, ends));
    }
    let ranges = ranges_of(alloc, &[0, 10], &[false, true, false])?;
    for (token, found) in [(0, false), (1, true), (10, true), (11, false)] {
        assert_eq!(rt; ranges.contains(Token::new(token)), found, "at {token}");
    }
    Ok(())
}

/// The ranges of node 7 under one replication.
fn locks(alloc: Global) -> Result<LockRow, Fail> {
    let replication = Replication::Simple(Rf::new(3).ok_or("no factor")?);
    let row = RangeRow {
        replication,
        ranges: ranges_of(alloc, &[0, 5], &[false, true, false])?,
    };
    let mut book = RangeBook::empty(alloc);
    match book.push(row) {
        Ok(()) => Ok(LockRow {
            node: NodeId(7),
            ranges: book,
        }),
        Err(_) => Err(Fail::from("memory")),
    }
}

/// Compares a row with the ranges of node 7.
fn is_of_node_7<A: Abort>(rt: &A, row: &LockRow) {
    assert_eq!(rt; row.node, NodeId(7));
    assert_eq!(rt; row.ranges.as_slice().len(), 1);
    assert!(rt; shows(&row.ranges.as_slice()[0].ranges, &[(Some(0), Some(5))]));
}

/// A table is copied, and unlocked with its one key. The copy stays.
fn a_table_is_copied<A: Abort>(rt: &A, alloc: Global) -> Result<(), Fail> {
    let LockRow { node, ranges } = locks(alloc)?.copy()?;
    let mut table = LockTable::empty(alloc);
    let Ok(key) = table.lock(node, ranges) else {
        return Err("memory")?;
    };
    let copied = table.copy();
    table.unlock(key);
    assert!(rt; table.rows().is_empty());
    let copied = copied?;
    assert_eq!(rt; copied.rows().len(), 1);
    is_of_node_7(rt, &copied.rows()[0]);
    Ok(())
}

#[test]
fn rings_and_ranges(rt: HostRuntime) -> Result<(), Fail> {
    owners(&rt, rt.alloc())?;
    added_and_gone(&rt, rt.alloc())?;
    ranges_of_tokens(&rt, rt.alloc())?;
    a_table_is_copied(&rt, rt.alloc())
}
