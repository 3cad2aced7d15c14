//! The rules of an image's ring and keyspaces.

ghost use Rattle.std.specs.Prelude.{◌≡◌, ◌<◌, ℕ, None, find, get_or, length, map, nat_lt, option_map, pos, IfOk};
ghost use Rattle.std.specs.List.Sorted.{IsStrictlyIncreasing};
ghost use Rattle.transformations.specs.ImageRules.{rule_3, rule_7, rule_8, rule_9, rule_10, rule_11, rule_17};
ghost use Rattle.transformations.specs.Movements.{owned};

use crate::image::Image;
use crate::node_search::is_standing;
use crate::rule_search::{above, first_fall};
use crate::token_count::{count_all, tokens_with};
use cluster_terms::{Memory, NodeId, NodeRow, Pair};
use std::alloc::Global;

/// The greatest number of tokens of a node.
const MOST_OF_NODE: usize = 256;

/// The greatest number of tokens in a cluster.
const MOST_TOKENS: usize = 16_384;

/// The greatest number of keyspaces.
const MOST_KEYSPACES: usize = 64;

/// The first token that isn't above the one before it.
pub(crate) fn token_falls(image: &Image) -> Option<i128>
    ensures { result ≡ rule_7 image.now }
{
    first_fall(image.tokens.as_slice()).map(|found| i128::from(found.1.token.value()))
}

/// The first token whose node isn't registered, or has left. The cost is a binary search for each pair.
pub(crate) fn owner_missing(image: &Image) -> Option<i128>
    requires { IsStrictlyIncreasing (map (λ row. row.id) image.now.nodes) }
    ensures { result ≡ rule_8 image.now }
{
    let nodes = image.nodes.as_slice();
    image
        .tokens
        .as_slice()
        .iter()
        .find(|pair| !is_standing(nodes, pair.node))
        .map(|pair| i128::from(pair.token.value()))
}

/// The number of pairs of each node, by id, for the ids below a limit.
fn count_pairs(alloc: Global, ids: usize, pairs: &[Pair]) -> Result<Vec<usize>, Memory>
    ensures length { IfOk result (λ counts. length counts.items ≡ ids) }
    ensures counts { IfOk result
        (λ counts. (n : ℕ) → n < ids → get_or counts.items n 0 ≡ length (owned pairs.now n)) }
{
    let mut counts = vec![in alloc; 0usize; ids]?;
    for pair in pairs {
        let at = pair.node.0 as usize;
        if at < ids {
            counts[at] += 1;
        }
    }
    Ok(counts)
}

/// Whether a node has too many pairs, by the counts of nodes.
fn is_over(counts: &[usize], n: NodeId) -> bool
    ensures { result ≡ nat_lt 256 (get_or counts.now n 0) }
{
    match counts.get(n.0 as usize) {
        Some(count) => MOST_OF_NODE < *count,
        None => false,
    }
}

/// The first node with too many pairs, by the counts of nodes.
fn first_over(nodes: &[NodeRow], counts: &[usize]) -> Option<i128>
    ensures { result ≡ option_map (λ row. pos row.id)
        (find (λ row. nat_lt 256 (get_or counts.now row.id 0)) nodes.now) }
{
    nodes
        .iter()
        .find(|row| is_over(counts, row.id))
        .map(|row| i128::from(row.id.0))
}

/// The first node with too many tokens.
pub(crate) fn too_many_of_node(alloc: Global, image: &Image) -> Result<Option<i128>, Memory>
    requires { rule_3 image.now ≡ None }
    ensures { IfOk result (λ found. found ≡ rule_9 image.now) }
{
    let counts = count_pairs(alloc, image.next as usize, image.tokens.as_slice())?;
    Ok(first_over(image.nodes.as_slice(), &counts))
}

/// The number of keyspaces, if there are too many.
pub(crate) fn too_many_keyspaces(image: &Image) -> Option<i128>
    ensures { result ≡ rule_10 image.now }
{
    above(MOST_KEYSPACES, image.keyspaces.as_slice().len())
}

/// The position of the first keyspace whose name isn't above the one before it.
pub(crate) fn name_falls(image: &Image) -> Option<i128>
    ensures { result ≡ rule_11 image.now }
{
    first_fall(image.keyspaces.as_slice()).map(|found| found.0 as i128)
}

/// The number of different tokens in the ring and among the pairs that movements put in, if there are too many. They
/// are sorted and counted only if the pairs are too many.
#[tactic(auto, using(crate::proofs::commands::RefusalLemmas::few_tokens))]
pub(crate) fn too_many_tokens(alloc: Global, image: &Image) -> Result<Option<i128>, Memory>
    ensures { IfOk result (λ found. found ≡ rule_17 image.now) }
{
    if count_all(image, &[]) <= MOST_TOKENS {
        return Ok(None);
    }
    Ok(above(MOST_TOKENS, tokens_with(alloc, image, &[])?))
}
