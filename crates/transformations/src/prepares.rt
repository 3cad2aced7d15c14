//! Refusals of commands that prepare movements.

ghost use Rattle.std.specs.Prelude.{◌≡◌, ◌≤◌, ◌==◌, Some, filter, find, length, map, nat_eq, nat_lt, IfOk};
ghost use Rattle.std.specs.List.{list_any};
ghost use Rattle.std.specs.List.Sorted.{IsStrictlyIncreasing};
ghost use Rattle.std.specs.Option.{option_copied};
ghost use Rattle.std.specs.Set.{is_member};
ghost use Rattle.cluster_terms.specs.Group.{nodes_of};
ghost use Rattle.transformations.specs.code.DatacenterGroups.{different_in, is_in_group, is_short_at};
ghost use Rattle.transformations.specs.Refusals.{is_left_short, is_too_few, keyspace_row, no_tokens, not_one_token, other_rack, same_place, too_few_left, too_few_nodes};
ghost use Rattle.transformations.specs.Valid.{IsSound};

use crate::image::Image;
use crate::keyspace::KeyspaceRow;
use crate::node_search::row_among;
use crate::refusal::Refusal;
use crate::refusals::refused_if;
use crate::sequence::{Kind, SeqRow};
use crate::state::{has_pair, row_of};
use cluster_terms::{Few, Memory, Name, NodeId, NodeRow, Pair, Replication, Rf, TryCopy};

/// `NoTokens` if the node that is to be replaced has no token.
pub(crate) fn no_tokens(image: &Image, gone: NodeId) -> Option<Refusal>
    ensures { result ≡ no_tokens image.now gone }
{
    refused_if(!has_pair(image.tokens.as_slice(), gone), Refusal::NoTokens)
}

/// The number of a node's tokens in the ring.
fn count_tokens(image: &Image, n: NodeId) -> usize
    ensures { result ≡ length (filter (λ p. p.node == n) image.now.tokens) }
{
    image
        .tokens
        .as_slice()
        .iter()
        .filter(|pair| pair.node == n)
        .count()
}

/// `NotOneToken` with the number of the node's tokens, if it isn't 1. Returns `Err` if and only if it is 2^32 or more,
/// as the refusal holds a `u32`. No sound image has such a node.
#[tactic(auto, using(crate::proofs::commands::DatacenterGroupLemmas::not_one_counted))]
pub(crate) fn not_one_token(image: &Image, n: NodeId) -> Result<Option<Refusal>, Memory>
    ensures { IfOk result (λ found. found ≡ not_one_token image.now n) }
{
    let Ok(count) = u32::try_from(count_tokens(image, n)) else {
        return Err(Memory);
    };
    Ok(refused_if(count != 1, Refusal::NotOneToken(count)))
}

/// Whether two nodes are in the same datacenter and rack.
fn same_place(row: &NodeRow, gone: &NodeRow) -> bool
    ensures { result ≡ same_place row.now gone.now }
{
    row.dc.as_str() == gone.dc.as_str() && row.rack.as_str() == gone.rack.as_str()
}

/// `OtherRack` with the datacenter and rack of the node that is to be replaced, if the new node isn't in them.
pub(crate) fn other_rack(image: &Image, n: NodeId, gone: NodeId) -> Result<Option<Refusal>, Memory>
    ensures { IfOk result (λ found. found ≡ other_rack image.now n gone) }
{
    let Some(left) = row_of(image.nodes.as_slice(), gone) else {
        return Ok(None);
    };
    let Some(row) = row_of(image.nodes.as_slice(), n) else {
        return Ok(None);
    };
    if same_place(row, left) {
        return Ok(None);
    }
    let dc = left.dc.copy()?;
    let rack = left.rack.copy()?;
    Ok(Some(Refusal::OtherRack(dc, rack)))
}

/// Whether a node is in a group: that of the nodes registered in this datacenter, or that of all nodes if it is `None`.
/// The cost is a binary search.
fn is_in(nodes: &[NodeRow], dc: Option<&Name>, n: NodeId) -> bool
    requires { IsStrictlyIncreasing (map (λ row. row.id) nodes.now) }
    ensures { result ≡ is_in_group nodes.now (option_copied dc.entry) n }
{
    match dc {
        None => true,
        Some(dc) => { row_among(nodes, n).is_some_and(|row| row.dc.as_str() == dc.as_str()) }
    }
}

fn has_node(found: &[NodeId], n: NodeId) -> bool
    ensures { result ≡ is_member nat_eq found.now n }
{
    found.iter().any(|other| n == *other)
}

/// Whether more than `most` nodes of a group have tokens; `most` is at most 16. Ends at the pair that shows it, and
/// takes no memory: the different nodes stand in an array of 16. The cost is a binary search for each pair before,
/// unless its node is found already.
fn has_more_in(nodes: &[NodeRow], dc: Option<&Name>, pairs: &[Pair], most: usize) -> bool
    requires nodes { IsStrictlyIncreasing (map (λ row. row.id) nodes.now) }
    requires most { most ≤ 16 }
    ensures { result ≡ nat_lt most (different_in nodes.now (option_copied dc.entry) (nodes_of pairs.now)) }
{
    let mut found: Few<NodeId, 16> = Few::of(NodeId(0));
    for pair in pairs {
        if has_node(found.as_slice(), pair.node) || !is_in(nodes, dc, pair.node) {
            continue;
        }
        if found.len() == most {
            return true;
        }
        found.push(pair.node);
    }
    false
}

/// Whether node `n` is in a group that has no more nodes with tokens than it is to have replicas.
fn is_short_in(image: &Image, n: NodeId, dc: Option<&Name>, rf: Rf) -> bool
    requires { IsSound image.now }
    ensures { result ≡ is_short_at image.now n (option_copied dc.entry) rf }
{
    let nodes = image.nodes.as_slice();
    is_in(nodes, dc, n) && !has_more_in(nodes, dc, image.tokens.as_slice(), usize::from(rf.value()))
}

/// Whether `is_short_in` holds for any of these datacenters.
fn is_short_in_any(image: &Image, n: NodeId, rows: &[(Name, Rf)]) -> bool
    requires { IsSound image.now }
    ensures { result ≡ list_any (λ row. is_short_at image.now n (Some row.0) row.1) rows.now }
{
    rows.iter()
        .any(|row| is_short_in(image, n, Some(&row.0), row.1))
}

/// Whether, under a replication, `is_short_in` holds for any of its groups.
#[tactic(auto, using(crate::proofs::commands::DatacenterGroupLemmas::few_simple, crate::proofs::commands::DatacenterGroupLemmas::few_topology))]
fn is_too_few(image: &Image, n: NodeId, replication: &Replication) -> bool
    requires { IsSound image.now }
    ensures { result ≡ is_too_few image.now n replication.now }
{
    match replication {
        Replication::Simple(rf) => is_short_in(image, n, None, *rf),
        Replication::Topology(factors) => is_short_in_any(image, n, factors.rows()),
    }
}

/// The first keyspace for which `is_too_few` holds.
fn first_too_few(image: &Image, n: NodeId) -> Option<&KeyspaceRow>
    requires { IsSound image.now }
    ensures { option_copied result ≡ find (λ k. is_too_few image.now n k.replication) image.now.keyspaces }
{
    let keyspaces = image.keyspaces.as_slice();
    keyspaces
        .iter()
        .find(|row| is_too_few(image, n, &row.replication))
}

/// `TooFewNodes` with the first keyspace under which a group of the node has no more nodes with tokens than it is to
/// have replicas. For each group of the node, the cost is a binary search for each pair of the ring up to the one that
/// shows that it has more, unless the pair's node is found already.
#[tactic(auto, using(crate::proofs::commands::DatacenterGroupLemmas::too_few_found, crate::proofs::commands::DatacenterGroupLemmas::too_few_none))]
pub(crate) fn too_few_nodes(image: &Image, n: NodeId) -> Result<Option<Refusal>, Memory>
    requires { IsSound image.now }
    ensures { IfOk result (λ found. found ≡ too_few_nodes image.now n) }
{
    let Some(row) = first_too_few(image, n) else {
        return Ok(None);
    };
    Ok(Some(Refusal::TooFewNodes(row.name.copy()?)))
}

/// Whether a movement is a leave, and `is_too_few` holds for its node under a replication.
fn is_left_short(image: &Image, replication: &Replication, row: &SeqRow) -> bool
    requires { IsSound image.now }
    ensures { result ≡ is_left_short image.now replication.now row.now }
{
    row.kind == Kind::Leave && is_too_few(image, row.node, replication)
}

/// Whether `is_left_short` holds for any movement in flight.
fn is_any_left_short(image: &Image, replication: &Replication) -> bool
    requires { IsSound image.now }
    ensures { result ≡ list_any (is_left_short image.now replication.now) image.now.sequences }
{
    image
        .sequences
        .as_slice()
        .iter()
        .any(|row| is_left_short(image, replication, row))
}

/// `TooFewNodes` with this name, if a leave is in flight under whose node a group of this replication has no more nodes
/// with tokens than it is to have replicas. The cost is that of `too_few_nodes` for one keyspace, for each leave.
pub(crate) fn too_few_left(
    image: &Image,
    name: &Name,
    replication: &Replication,
) -> Result<Option<Refusal>, Memory>
    requires { IsSound image.now }
    ensures { IfOk result (λ found. found ≡ too_few_left image.now (keyspace_row name.now replication.now)) }
{
    if !is_any_left_short(image, replication) {
        return Ok(None);
    }
    Ok(Some(Refusal::TooFewNodes(name.copy()?)))
}
