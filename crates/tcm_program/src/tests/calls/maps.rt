//! Placement maps: reads and writes that deltas change, and cuts that come and go.

ghost use Rattle.std.specs.Prelude.{◌≡◌, ◌∷◌, [], IsTrue};
ghost use Rattle.std.specs.List.{list_any};
ghost use Rattle.std.specs.Ordering.{int_eq};
ghost use Rattle.std.specs.Set.{is_member};
ghost use Rattle.placement_deltas.specs.Deltas.{EndAtCuts};
ghost use Rattle.range_placements.specs.Placements.{HasSameSides, cuts_of, is_cut_of};
ghost use Rattle.token_ring.specs.TokenRanges.{is_cut_right};

use crate::tests::calls::deltas::delta_of;
use crate::tests::calls::sets::set_of;
use cluster_terms::{ByteText, Name, RightEnd, Token, TryCopy};
use node_sets::NodeSet;
use placement_deltas::Delta;
use range_placements::{PlacementMap, PlacementRow};
use script_lang::place_text;
use std::alloc::Global;
use std::process::Abort;
use std::test::Fail;

/// Whether a delta changes the writes or the reads, its nodes before and after in the middle row, and the map with these
/// changes. In turn, node 5 is written too, it is read in the place of node 2, and node 2 is no longer written.
const TURNS: [(bool, &[u32], &[u32], &str); 3] = [
    (
        true,
        &[2],
        &[2, 5],
        "PLACE 0 ks 3\n\
            (min,0] read 1,2,3 write 1,2,3\n\
            (0,100] read 1,2,3 write 1,2,3,5\n\
            (100,max] read 1,2,3 write 1,2,3\n",
    ),
    (
        false,
        &[2],
        &[5],
        "PLACE 0 ks 3\n\
            (min,0] read 1,2,3 write 1,2,3\n\
            (0,100] read 1,3,5 write 1,2,3,5\n\
            (100,max] read 1,2,3 write 1,2,3\n",
    ),
    (
        true,
        &[2, 5],
        &[5],
        "PLACE 0 ks 3\n\
            (min,0] read 1,2,3 write 1,2,3\n\
            (0,100] read 1,3,5 write 1,3,5\n\
            (100,max] read 1,2,3 write 1,2,3\n",
    ),
];

/// Whether a cut comes or goes, its token, and the map with it or without it.
const CUTS: [(bool, i64, &str); 7] = [
    (
        true,
        50,
        "PLACE 0 ks 4\n\
            (min,0] read 1,2,3 write 1,2,3\n\
            (0,50] read 1,3,5 write 1,3,5\n\
            (50,100] read 1,3,5 write 1,3,5\n\
            (100,max] read 1,2,3 write 1,2,3\n",
    ),
    (
        true,
        100,
        "PLACE 0 ks 4\n\
            (min,0] read 1,2,3 write 1,2,3\n\
            (0,50] read 1,3,5 write 1,3,5\n\
            (50,100] read 1,3,5 write 1,3,5\n\
            (100,max] read 1,2,3 write 1,2,3\n",
    ),
    (
        true,
        i64::MAX,
        "PLACE 0 ks 4\n\
            (min,0] read 1,2,3 write 1,2,3\n\
            (0,50] read 1,3,5 write 1,3,5\n\
            (50,100] read 1,3,5 write 1,3,5\n\
            (100,9223372036854775807] read 1,2,3 write 1,2,3\n",
    ),
    (
        true,
        i64::MIN,
        "PLACE 0 ks 5\n\
            (min,-9223372036854775808] read 1,2,3 write 1,2,3\n\
            (-9223372036854775808,0] read 1,2,3 write 1,2,3\n\
            (0,50] read 1,3,5 write 1,3,5\n\
            (50,100] read 1,3,5 write 1,3,5\n\
            (100,9223372036854775807] read 1,2,3 write 1,2,3\n",
    ),
    (
        false,
        50,
        "PLACE 0 ks 4\n\
            (min,-9223372036854775808] read 1,2,3 write 1,2,3\n\
            (-9223372036854775808,0] read 1,2,3 write 1,2,3\n\
            (0,100] read 1,3,5 write 1,3,5\n\
            (100,9223372036854775807] read 1,2,3 write 1,2,3\n",
    ),
    (
        false,
        i64::MIN,
        "PLACE 0 ks 3\n\
            (min,0] read 1,2,3 write 1,2,3\n\
            (0,100] read 1,3,5 write 1,3,5\n\
            (100,9223372036854775807] read 1,2,3 write 1,2,3\n",
    ),
    (
        false,
        i64::MAX,
        "PLACE 0 ks 3\n\
            (min,0] read 1,2,3 write 1,2,3\n\
            (0,100] read 1,3,5 write 1,3,5\n\
            (100,max] read 1,2,3 write 1,2,3\n",
    ),
];

/// The map of three rows with the same nodes.
fn three_rows(alloc: Global) -> Result<PlacementMap, Fail> {
    let mut rows = Vec::new(alloc);
    rows.push(PlacementRow {
        right: RightEnd::Max,
        reads: set_of(alloc, &[1, 2, 3])?,
        writes: set_of(alloc, &[1, 2, 3])?,
    })?;
    let mut map = PlacementMap::from_rows(rows);
    map.split_at(Token::new(100))?;
    map.split_at(Token::new(0))?;
    Ok(map)
}

/// Compares the rows of a map with those wanted.
fn shows<A: Abort>(rt: &A, alloc: Global, map: &PlacementMap, wanted: &str) -> Result<(), Fail> {
    let name = Name::from_text(alloc, "ks")?.ok_or("no name")?;
    let mut text = ByteText::empty(alloc);
    place_text(0, &name, map, &mut text)?;
    assert_eq!(rt; text.as_slice(), wanted.as_bytes());
    Ok(())
}

/// Whether a row ends at a token.
fn ends_at(row: &PlacementRow, t: Token) -> bool
    ensures { result ≡ is_member int_eq (cuts_of (row.now ∷ [])) t }
{
    match row.right {
        RightEnd::At(end) => end == t,
        RightEnd::Max => false,
    }
}

/// Whether one of some rows ends at a token.
fn end_at(rows: &[PlacementRow], t: Token) -> bool
    ensures { result ≡ list_any (λ row. is_member int_eq (cuts_of (row ∷ [])) t) rows.now }
{
    rows.iter().any(|row| ends_at(row, t))
}

/// Whether a token is a cut of a map.
fn is_cut(map: &PlacementMap, t: Token) -> bool
    ensures { result ≡ is_cut_of map.now t }
{
    end_at(map.rows(), t)
}

/// Whether a right end is a cut of a map, or `Max`.
fn is_right_end(map: &PlacementMap, right: RightEnd) -> bool
    ensures { result ≡ is_cut_right (cuts_of map.now) right }
{
    match right {
        RightEnd::At(t) => is_cut(map, t),
        RightEnd::Max => true,
    }
}

/// Whether each cut of a delta is a cut of a map.
fn ends_at_cuts(map: &PlacementMap, delta: &Delta) -> bool
    ensures { IsTrue result → EndAtCuts (cuts_of map.now) delta.now }
{
    delta.rows().iter().all(|row| is_right_end(map, row.right))
}

/// Whether two sets are equal.
fn are_equal(set: &NodeSet, other: &NodeSet) -> bool
    ensures { IsTrue result → set.now ≡ other.now }
{
    set.ids() == other.ids()
}

/// Whether a token and the token after it, if there is one, have the same reads and the same writes.
fn has_same_sides(map: &PlacementMap, t: Token) -> bool
    ensures { IsTrue result → HasSameSides map.now t }
{
    let Some(next) = t.value().checked_add(1) else {
        return true;
    };
    let mut hint = 0;
    let (reads, writes) = map.at_by_hint(t, &mut hint);
    let (next_reads, next_writes) = map.at_by_hint(Token::new(next), &mut hint);
    are_equal(reads, next_reads) && are_equal(writes, next_writes)
}

/// The map with its writes or its reads changed by a delta that changes the middle row.
fn turned<A: Abort>(
    rt: &A,
    map: &PlacementMap,
    writes: bool,
    delta: &Delta,
) -> Result<PlacementMap, Fail> {
    let fits = ends_at_cuts(map, delta);
    assert!(rt; fits);
    if writes {
        Ok(map.with_writes(delta)?)
    } else {
        Ok(map.with_reads(delta)?)
    }
}

/// Removes a cut whose two sides are the same.
fn merge<A: Abort>(rt: &A, map: &mut PlacementMap, t: Token) {
    let cut = is_cut(map, t);
    assert!(rt; cut);
    let same = has_same_sides(map, t);
    assert!(rt; same);
    map.merge_at(t);
}

fn turns<A: Abort>(rt: &A, alloc: Global, map: &mut PlacementMap) -> Result<(), Fail> {
    for turn in &TURNS {
        let (writes, before, after, wanted) = *turn;
        let delta = delta_of(alloc, &[0, 100], &[&[], before, &[]], &[&[], after, &[]])?;
        *map = turned(rt, map, writes, &delta)?;
        shows(rt, alloc, map, wanted)?;
    }
    Ok(())
}

fn cuts<A: Abort>(rt: &A, alloc: Global, map: &mut PlacementMap) -> Result<(), Fail> {
    for cut in &CUTS {
        let (comes, t, wanted) = *cut;
        if comes {
            map.split_at(Token::new(t))?;
        } else {
            merge(rt, map, Token::new(t));
        }
        shows(rt, alloc, &map.copy()?, wanted)?;
    }
    Ok(())
}

#[test]
fn maps_are_changed(rt: HostRuntime) -> Result<(), Fail> {
    let mut map = three_rows(rt.alloc())?;
    turns(&rt, rt.alloc(), &mut map)?;
    cuts(&rt, rt.alloc(), &mut map)
}
