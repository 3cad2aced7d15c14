//! The rules of an image's nodes, its epoch and its next id.

ghost use Rattle.std.specs.Prelude.{◌≡◌, ◌||◌, ◌==◌, ◌<◌, [], None, length, nat_le, nat_lt, find, option_map, pos, IfOk};
ghost use Rattle.transformations.specs.ImageRules.{first_bad, id_falls, name_repeats, rule_1, rule_2, rule_3, rule_4, rule_5, rule_6};

use crate::image::Image;
use crate::rule_search::above;
use cluster_terms::{Memory, NodeId, NodeRow};
use std::alloc::Global;
use std::collections::BTreeSet;

/// The greatest number of nodes in a cluster.
const MOST_NODES: usize = 1_024;

/// The greatest epoch.
const MOST_EPOCHS: u64 = 65_536;

/// The number of nodes, if there are too many.
pub(crate) fn too_many_nodes(image: &Image) -> Option<i128>
    ensures { result ≡ rule_1 image.now }
{
    above(MOST_NODES, image.nodes.as_slice().len())
}

/// The first node whose id is 0 or not above the one before it.
fn first_id_fall(nodes: &[NodeRow]) -> Option<NodeId>
    ensures { option_map (λ n. pos n) result ≡ first_bad id_falls [] nodes.now }
{
    let mut last = 0;
    for row in nodes {
        if row.id.0 <= last {
            return Some(row.id);
        }
        last = row.id.0;
    }
    None
}

/// The first id that is 0 or not above the one before it.
pub(crate) fn id_falls(image: &Image) -> Option<i128>
    ensures { result ≡ rule_2 image.now }
{
    first_id_fall(image.nodes.as_slice()).map(|n| i128::from(n.0))
}

/// The first id that isn't below the next id.
pub(crate) fn id_past_next(image: &Image) -> Option<i128>
    ensures { result ≡ rule_3 image.now }
{
    let next = image.next;
    image
        .nodes
        .as_slice()
        .iter()
        .find(|row| next <= row.id.0)
        .map(|row| i128::from(row.id.0))
}

/// The first node with the name of an earlier one.
fn first_name_repeat(alloc: Global, nodes: &[NodeRow]) -> Result<Option<NodeId>, Memory>
    ensures { IfOk result (λ found. option_map (λ n. pos n) found ≡ first_bad name_repeats [] nodes.now) }
{
    let mut names = BTreeSet::new(alloc);
    for row in nodes {
        if !names.insert(row.name.as_str())? {
            return Ok(Some(row.id));
        }
    }
    Ok(None)
}

/// The first id of a node with the name of an earlier one.
pub(crate) fn name_repeats(alloc: Global, image: &Image) -> Result<Option<i128>, Memory>
    ensures { IfOk result (λ found. found ≡ rule_4 image.now) }
{
    Ok(first_name_repeat(alloc, image.nodes.as_slice())?.map(|n| i128::from(n.0)))
}

/// The epoch, if it is too great.
pub(crate) fn epoch_too_great(image: &Image) -> Option<i128>
    ensures { result ≡ rule_5 image.now }
{
    if MOST_EPOCHS < image.epoch {
        Some(i128::from(image.epoch))
    } else {
        None
    }
}

/// The next id, if it is 0 or above the epoch plus 1.
pub(crate) fn next_out_of_range(image: &Image) -> Option<i128>
    ensures { result ≡ rule_6 image.now }
{
    if image.next == 0 || image.epoch < u64::from(image.next) - 1 {
        Some(i128::from(image.next))
    } else {
        None
    }
}
