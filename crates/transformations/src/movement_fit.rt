//! Whether the pairs of a movement fit its kind.

ghost use Rattle.std.specs.Prelude.{◌≡◌, ◌==◌, is_none, map, IfOk};
ghost use Rattle.std.specs.Cmp.Lexicographic.{pointwise};
ghost use Rattle.std.specs.List.{list_all};
ghost use Rattle.std.specs.List.Sorted.{IsStrictlyIncreasing};
ghost use Rattle.cluster_terms.specs.Pair.{same_pair, tokens_of};
ghost use Rattle.transformations.specs.ImageRules.{fits, fits_join, fits_kind, fits_leave, fits_move, fits_replace};
ghost use Rattle.transformations.specs.Refusals.{other_rack};
ghost use Rattle.transformations.specs.Movements.{first_node, owned, pairs_of};

use crate::image::Image;
use crate::node_search::row_among;
use crate::rule_search::first_fall;
use crate::sequence::{Kind, SeqRow};
use crate::state::has_pair;
use cluster_terms::{Memory, NodeId, Pair};
use std::alloc::Global;

/// The greatest number of tokens of a node.
const MOST_OF_NODE: usize = 256;

fn are_pairs_of(pairs: &[Pair], n: NodeId) -> bool
    ensures { result ≡ list_all (λ p. p.node == n) pairs.now }
{
    pairs.iter().all(|pair| pair.node == n)
}

/// Whether pairs are those of a node in the ring, in order.
fn are_owned(alloc: Global, ring: &[Pair], pairs: &[Pair], n: NodeId) -> Result<bool, Memory>
    ensures { IfOk result (λ same. same ≡ pointwise same_pair pairs.now (owned ring.now n)) }
{
    let owned: Vec<Pair> = ring
        .iter()
        .copied()
        .filter(|pair| pair.node == n)
        .collect(alloc)?;
    Ok(pairs == owned.as_slice())
}

/// Whether pairs have the tokens of other pairs, in order, with this node.
fn are_handed_over(alloc: Global, out: &[Pair], pairs: &[Pair], n: NodeId) -> Result<bool, Memory>
    ensures { IfOk result (λ same. same ≡ pointwise same_pair pairs.now (pairs_of n (tokens_of out.now))) }
{
    let mut given = Vec::with_capacity(alloc, out.len())?;
    for pair in out {
        given.push(Pair {
            token: pair.token,
            node: n,
        })?;
    }
    Ok(pairs == given.as_slice())
}

/// The node of the first pair.
pub(crate) fn first_node(pairs: &[Pair]) -> Option<NodeId>
    ensures { result ≡ first_node pairs.now }
{
    match pairs.first() {
        Some(pair) => Some(pair.node),
        None => None,
    }
}

/// Whether two nodes are in the same datacenter and rack, or one of them isn't registered.
fn are_near(image: &Image, n: NodeId, gone: NodeId) -> bool
    requires { IsStrictlyIncreasing (map (λ row. row.id) image.now.nodes) }
    ensures { result ≡ is_none (other_rack image.now n gone) }
{
    let nodes = image.nodes.as_slice();
    let Some(left) = row_among(nodes, gone) else {
        return true;
    };
    let Some(row) = row_among(nodes, n) else {
        return true;
    };
    row.dc.as_str() == left.dc.as_str() && row.rack.as_str() == left.rack.as_str()
}

fn fits_join(image: &Image, row: &SeqRow) -> bool
    ensures { result ≡ fits_join image.now row.now }
{
    let in_pairs = row.in_pairs.as_slice();
    row.out_pairs.as_slice().len() == 0
        && 1 <= in_pairs.len()
        && in_pairs.len() <= MOST_OF_NODE
        && are_pairs_of(in_pairs, row.node)
        && !has_pair(image.tokens.as_slice(), row.node)
}

fn fits_move(alloc: Global, image: &Image, row: &SeqRow) -> Result<bool, Memory>
    ensures { IfOk result (λ answer. answer ≡ fits_move image.now row.now) }
{
    let out_pairs = row.out_pairs.as_slice();
    let in_pairs = row.in_pairs.as_slice();
    let owned = are_owned(alloc, image.tokens.as_slice(), out_pairs, row.node)?;
    Ok(owned && out_pairs.len() == 1 && in_pairs.len() == 1 && are_pairs_of(in_pairs, row.node))
}

fn fits_leave(alloc: Global, image: &Image, row: &SeqRow) -> Result<bool, Memory>
    ensures { IfOk result (λ answer. answer ≡ fits_leave image.now row.now) }
{
    let out_pairs = row.out_pairs.as_slice();
    let owned = are_owned(alloc, image.tokens.as_slice(), out_pairs, row.node)?;
    Ok(owned && 1 <= out_pairs.len() && row.in_pairs.as_slice().len() == 0)
}

fn fits_replace(alloc: Global, image: &Image, row: &SeqRow) -> Result<bool, Memory>
    requires { IsStrictlyIncreasing (map (λ row. row.id) image.now.nodes) }
    ensures { IfOk result (λ answer. answer ≡ fits_replace image.now row.now (first_node row.now.out_pairs)) }
{
    let out_pairs = row.out_pairs.as_slice();
    let Some(gone) = first_node(out_pairs) else {
        return Ok(false);
    };
    let tokens = image.tokens.as_slice();
    let owned = are_owned(alloc, tokens, out_pairs, gone)?;
    let handed_over = are_handed_over(alloc, out_pairs, row.in_pairs.as_slice(), row.node)?;
    Ok(owned && handed_over && !has_pair(tokens, row.node) && are_near(image, row.node, gone))
}

fn fits_kind(alloc: Global, image: &Image, row: &SeqRow) -> Result<bool, Memory>
    requires { IsStrictlyIncreasing (map (λ row. row.id) image.now.nodes) }
    ensures { IfOk result (λ answer. answer ≡ fits_kind row.now.kind image.now row.now) }
{
    match row.kind {
        Kind::Join => Ok(fits_join(image, row)),
        Kind::Move => fits_move(alloc, image, row),
        Kind::Leave => fits_leave(alloc, image, row),
        Kind::Replace => fits_replace(alloc, image, row),
    }
}

/// Whether the pairs of a movement fit its kind, and those that it puts in ascend. The cost is at most two passes over
/// the ring.
pub(crate) fn fits(alloc: Global, image: &Image, row: &SeqRow) -> Result<bool, Memory>
    requires { IsStrictlyIncreasing (map (λ row. row.id) image.now.nodes) }
    ensures { IfOk result (λ answer. answer ≡ fits image.now row.now) }
{
    if first_fall(row.in_pairs.as_slice()).is_some() {
        return Ok(false);
    }
    fits_kind(alloc, image, row)
}
