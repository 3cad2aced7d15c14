//! The rules of an image's movements.

ghost use Rattle.std.specs.Prelude.{◌≡◌, ◌||◌, ℤ, [], None, find, map, not, option_map, pos, IfOk, OnOk};
ghost use Rattle.std.specs.BTreeSet.{contains};
ghost use Rattle.std.specs.List.{list_any, AllByRecursion};
ghost use Rattle.std.specs.List.Sorted.{IsStrictlyIncreasing, IsStrictlySortedBy};
ghost use Rattle.std.specs.Ordering.{int_cmp, int_eq};
ghost use Rattle.transformations.specs.ImageRules.{first_bad, fits, node_repeats, rule_7, rule_12, rule_13, rule_14, rule_15, rule_16, token_repeats};
ghost use Rattle.transformations.specs.code.OneNode.{IsOfOneNode, is_in, meets};
ghost use Rattle.transformations.specs.Orders.{by_token};
ghost use Rattle.transformations.specs.Valid.{brought_by};

use crate::image::Image;
use crate::movement_fit::{first_node, fits};
use crate::node_search::is_standing;
use crate::pair_search::finds;
use crate::rule_search::first_fall;
use crate::sequence::{Kind, SeqRow};
use cluster_terms::{Memory, NodeId, Pair, Token};
use std::alloc::Global;
use std::collections::BTreeSet;

/// The first node of a movement that isn't above the one before it.
pub(crate) fn node_falls(image: &Image) -> Option<i128>
    ensures { result ≡ rule_12 image.now }
{
    first_fall(image.sequences.as_slice()).map(|found| {
        let row: &SeqRow = found.1;
        i128::from(row.node.0)
    })
}

/// The first node of a movement that isn't registered, or has left.
pub(crate) fn mover_missing(image: &Image) -> Option<i128>
    requires { IsStrictlyIncreasing (map (λ row. row.id) image.now.nodes) }
    ensures { result ≡ rule_13 image.now }
{
    let nodes = image.nodes.as_slice();
    image
        .sequences
        .as_slice()
        .iter()
        .find(|row| !is_standing(nodes, row.node))
        .map(|row| i128::from(row.node.0))
}

/// The first movement whose pairs don't fit its kind, or whose pairs to put in don't ascend.
fn first_unfit(alloc: Global, image: &Image) -> Result<Option<NodeId>, Memory>
    requires { IsStrictlyIncreasing (map (λ row. row.id) image.now.nodes) }
    ensures { IfOk result (λ found. option_map (λ n. pos n) found ≡ rule_14 image.now) }
{
    let rows = image.sequences.as_slice();
    for row in rows {
        if !fits(alloc, image, row)? {
            return Ok(Some(row.node));
        }
    }
    Ok(None)
}

/// The node of the first movement whose pairs don't fit its kind, or whose pairs to put in don't ascend.
pub(crate) fn unfit(alloc: Global, image: &Image) -> Result<Option<i128>, Memory>
    requires { IsStrictlyIncreasing (map (λ row. row.id) image.now.nodes) }
    ensures { IfOk result (λ found. found ≡ rule_14 image.now) }
{
    Ok(first_unfit(alloc, image)?.map(|n| i128::from(n.0)))
}

/// Whether a node is the node of a movement, or the node of the first pair that the movement takes out.
fn is_in(row: &SeqRow, n: NodeId) -> bool
    ensures { result ≡ is_in row.now n }
{
    match first_node(row.out_pairs.as_slice()) {
        Some(gone) => row.node == n || gone == n,
        None => row.node == n,
    }
}

/// Whether a node of a movement is a node of another movement.
#[tactic(auto, using(crate::proofs::images::LoopLemmas::or_false))]
fn meets(row: &SeqRow, other: &SeqRow) -> bool
    ensures { result ≡ meets row.now other.now }
{
    match first_node(row.out_pairs.as_slice()) {
        Some(gone) => is_in(other, row.node) || is_in(other, gone),
        None => is_in(other, row.node),
    }
}

/// Whether a node of a movement is a node of any of these movements.
fn meets_any(row: &SeqRow, others: &[SeqRow]) -> bool
    ensures { result ≡ list_any (meets row.now) others.now }
{
    others.iter().any(|other| meets(row, other))
}

/// The first movement with a node of an earlier one. All pairs that a movement takes out must be of one node.
fn first_node_repeat(rows: &[SeqRow]) -> Option<NodeId>
    requires { AllByRecursion IsOfOneNode rows.now }
    ensures { option_map (λ n. pos n) result ≡ first_bad node_repeats [] rows.now }
{
    for at in 0..rows.len() {
        let row = &rows[at];
        if meets_any(row, &rows[..at]) {
            return Some(row.node);
        }
    }
    None
}

/// The node of the first movement with a node of an earlier one.
pub(crate) fn node_repeats(image: &Image) -> Option<i128>
    requires { rule_14 image.now ≡ None }
    ensures { result ≡ rule_15 image.now }
{
    first_node_repeat(image.sequences.as_slice()).map(|n| i128::from(n.0))
}

/// The pairs that a movement brings at tokens of its own; a replace brings none.
fn brought(row: &SeqRow) -> &[Pair]
    ensures { result.now ≡ brought_by row.now.kind row.now.in_pairs }
{
    match row.kind {
        Kind::Replace => &[],
        Kind::Join | Kind::Move | Kind::Leave => row.in_pairs.as_slice(),
    }
}

/// The first of these pairs whose token is in the ring or in a set.
fn first_known(ring: &[Pair], seen: &BTreeSet<i64>, pairs: &[Pair]) -> Option<Token>
    requires { IsStrictlySortedBy by_token ring.now }
    ensures { result ≡ option_map (λ p. p.token)
        (find (λ p. list_any (λ q. int_eq q.token p.token) ring.now
        || contains int_cmp seen.now p.token) pairs.now) }
{
    pairs
        .iter()
        .find(|pair| finds(ring, pair.token) || seen.contains(&pair.token.value()))
        .map(|pair| pair.token)
}

fn add_tokens(seen: &mut BTreeSet<i64>, pairs: &[Pair]) -> Result<(), Memory>
    ensures { OnOk result ((t : ℤ) → contains int_cmp seen.new t
        ≡ (contains int_cmp seen.old t || list_any (λ q. int_eq q.token t) pairs.now)) }
{
    for pair in pairs {
        seen.insert(pair.token.value())?;
    }
    Ok(())
}

/// The first token that a movement brings and that is in the ring, or that an earlier movement puts in.
fn first_token_repeat(
    alloc: Global,
    ring: &[Pair],
    rows: &[SeqRow],
) -> Result<Option<Token>, Memory>
    requires { IsStrictlySortedBy by_token ring.now }
    ensures { IfOk result (λ found. found ≡ first_bad (token_repeats ring.now) [] rows.now) }
{
    let mut seen = BTreeSet::new(alloc);
    for row in rows {
        if let Some(token) = first_known(ring, &seen, brought(row)) {
            return Ok(Some(token));
        }
        add_tokens(&mut seen, row.in_pairs.as_slice())?;
    }
    Ok(None)
}

/// The first token that a movement brings and that is in the ring, or that an earlier movement puts in.
pub(crate) fn token_repeats(alloc: Global, image: &Image) -> Result<Option<i128>, Memory>
    requires { rule_7 image.now ≡ None }
    ensures { IfOk result (λ found. found ≡ rule_16 image.now) }
{
    let tokens = image.tokens.as_slice();
    let rows = image.sequences.as_slice();
    Ok(first_token_repeat(alloc, tokens, rows)?.map(|token| i128::from(token.value())))
}
