//! The first rule that an image breaks.

ghost use Rattle.std.specs.Prelude.{◌≡◌, None, IfOk};
ghost use Rattle.transformations.specs.ImageRules.{broken, broken_rule, rule_2, rule_3, rule_7, rule_14};
ghost use Rattle.transformations.specs.code.RuleGroups.{keyspaces_broken, movements_broken, nodes_broken, numbers_broken, repeats_broken, ring_broken};

use crate::image::Image;
use crate::movement_rules::{mover_missing, node_falls, node_repeats, token_repeats, unfit};
use crate::node_rules::{
    epoch_too_great, id_falls, id_past_next, name_repeats, next_out_of_range, too_many_nodes,
};
use crate::ring_rules::{
    name_falls, owner_missing, token_falls, too_many_keyspaces, too_many_of_node, too_many_tokens,
};
use cluster_terms::Memory;
use std::alloc::Global;

/// A rule that an image breaks, and the value at the first place that breaks it.
#[derive(Clone, Copy, Debug, PartialEq, Eq)]
pub struct BadImage {
    pub rule: u8,
    pub value: i128,
}

fn broken(rule: u8, found: Option<i128>) -> Option<BadImage>
    ensures { result ≡ broken rule found }
{
    found.map(|value| BadImage { rule, value })
}

/// The first of rules 1 to 4 that an image breaks.
fn bad_nodes(alloc: Global, image: &Image) -> Result<Option<BadImage>, Memory>
    ensures { IfOk result (λ found. found ≡ nodes_broken image.now) }
{
    let early = broken(1, too_many_nodes(image))
        .or_else(|| broken(2, id_falls(image)))
        .or_else(|| broken(3, id_past_next(image)));
    if early.is_some() {
        return Ok(early);
    }
    Ok(broken(4, name_repeats(alloc, image)?))
}

/// The first of rules 5 and 6 that an image breaks.
fn bad_numbers(image: &Image) -> Option<BadImage>
    ensures { result ≡ numbers_broken image.now }
{
    broken(5, epoch_too_great(image)).or_else(|| broken(6, next_out_of_range(image)))
}

/// The first of rules 7 to 9 that an image breaks.
fn bad_ring(alloc: Global, image: &Image) -> Result<Option<BadImage>, Memory>
    requires ascending { rule_2 image.now ≡ None }
    requires below { rule_3 image.now ≡ None }
    ensures { IfOk result (λ found. found ≡ ring_broken image.now) }
{
    if let Some(value) = token_falls(image) {
        return Ok(Some(BadImage { rule: 7, value }));
    }
    if let Some(value) = owner_missing(image) {
        return Ok(Some(BadImage { rule: 8, value }));
    }
    Ok(broken(9, too_many_of_node(alloc, image)?))
}

/// The first of rules 10 and 11 that an image breaks.
fn bad_keyspaces(image: &Image) -> Option<BadImage>
    ensures { result ≡ keyspaces_broken image.now }
{
    broken(10, too_many_keyspaces(image)).or_else(|| broken(11, name_falls(image)))
}

/// The first of rules 12 to 14 that an image breaks.
fn bad_movements(alloc: Global, image: &Image) -> Result<Option<BadImage>, Memory>
    requires { rule_2 image.now ≡ None }
    ensures { IfOk result (λ found. found ≡ movements_broken image.now) }
{
    if let Some(value) = node_falls(image) {
        return Ok(Some(BadImage { rule: 12, value }));
    }
    if let Some(value) = mover_missing(image) {
        return Ok(Some(BadImage { rule: 13, value }));
    }
    Ok(broken(14, unfit(alloc, image)?))
}

/// The first of rules 15 to 17 that an image breaks.
fn bad_repeats(alloc: Global, image: &Image) -> Result<Option<BadImage>, Memory>
    requires ascending { rule_7 image.now ≡ None }
    requires fit { rule_14 image.now ≡ None }
    ensures { IfOk result (λ found. found ≡ repeats_broken image.now) }
{
    if let Some(value) = node_repeats(image) {
        return Ok(Some(BadImage { rule: 15, value }));
    }
    if let Some(value) = token_repeats(alloc, image)? {
        return Ok(Some(BadImage { rule: 16, value }));
    }
    Ok(broken(17, too_many_tokens(alloc, image)?))
}

/// The first of these rules that an image breaks, and the value at the first place that breaks it, in the order of the
/// lists. A further rule, that no two movements overlap, is left to the caller.
///
/// | rule | broken where | value |
/// |---|---|---|
/// | 1 | there are more than 1,024 nodes | their number |
/// | 2 | a node's id is 0 or not above the one before it | the id |
/// | 3 | a node's id isn't below `next` | the id |
/// | 4 | a node has the name of an earlier one | the later id |
/// | 5 | the epoch is above 65,536 | the epoch |
/// | 6 | `next` is 0 or above the epoch plus 1 | `next` |
/// | 7 | a pair's token in `tokens` isn't above the one before it | the token |
/// | 8 | a pair's node in `tokens` isn't registered, or has left | the token |
/// | 9 | a node has more than 256 pairs in `tokens` | the id |
/// | 10 | there are more than 64 keyspaces | their number |
/// | 11 | a keyspace's name isn't above the one before it by bytes | its position, from 0 |
/// | 12 | a movement's node isn't above the one before it | the node |
/// | 13 | a movement's node isn't registered, or has left | the node |
/// | 14 | a movement's pairs don't fit its kind, or those that it puts in don't ascend | the node |
/// | 15 | a node takes part in two movements | the node of the later movement |
/// | 16 | a movement brings a token of `tokens`, or one that an earlier movement puts in | the token |
/// | 17 | there are more than 16,384 tokens, with those that movements put in | their number |
///
/// The cost is about n log n for n pairs, nodes and movements together, a table by id up to `next`, at most two passes
/// over `tokens` for each movement, and a comparison of every two movements. A rule is tried only in an image that
/// keeps the rules before it, so there are then at most 1,024 nodes and 1,024 movements.
pub fn bad_image(alloc: Global, image: &Image) -> Result<Option<BadImage>, Memory>
    // Promise: of the first 17 rules of valid images, which need no ranges, the first that an image breaks, with its
    // value, and no rule if and only if it breaks none. Guards: rules_out_of_order.edit, ImageRows.antt, tried.
    ensures { IfOk result (λ found. found ≡ broken_rule image.now) }
{
    let early = bad_nodes(alloc, image)?;
    if early.is_some() {
        return Ok(early);
    }
    let early = bad_numbers(image);
    if early.is_some() {
        return Ok(early);
    }
    let early = bad_ring(alloc, image)?;
    if early.is_some() {
        return Ok(early);
    }
    let early = bad_keyspaces(image);
    if early.is_some() {
        return Ok(early);
    }
    let early = bad_movements(alloc, image)?;
    if early.is_some() {
        return Ok(early);
    }
    bad_repeats(alloc, image)
}
