ghost use Rattle.std.specs.Prelude.{◌≡◌, ◌≤◌, ◌++◌, length, map, flat_map, min, IfOk, OnOk};
ghost use Rattle.cms_members.specs.Accepted.{Arrives, IsShortest, NeverFewer};
ghost use Rattle.cms_members.specs.Route.{changes_to_join, route_of};
ghost use Rattle.cms_members.specs.Service.{service_of};
ghost use Rattle.cms_members.specs.declared.change.Change.TheVariants as change;

use crate::change::{Change, ChangeList};
use cluster_terms::{Memory, NodeId};
use node_sets::NodeSet;
use std::alloc::Global;

fn push_joins(changes: &mut ChangeList, nodes: &[NodeId]) -> Result<(), Memory>
    ensures { OnOk result (changes.new ≡ changes.old ++ flat_map changes_to_join nodes.now) }
{
    for n in nodes {
        changes.push(Change::Start(*n))?;
        changes.push(Change::Finish(*n))?;
    }
    Ok(())
}

fn push_removals(changes: &mut ChangeList, nodes: &[NodeId]) -> Result<(), Memory>
    ensures { OnOk result (changes.new ≡ changes.old ++ map change.Remove nodes.now) }
{
    for n in nodes {
        changes.push(Change::Remove(*n))?;
    }
    Ok(())
}

/// The changes from one set of members to another, each of 1 to 16 nodes. First the nodes of `to` that are not in `from`
/// start and finish, then the nodes of `from` that are not in `to` are removed, each in ascending order.
///
/// All changes are accepted, and there are never fewer voting members than the lesser of the two counts. No accepted
/// list of changes from `from` to `to` is shorter: the lists compared begin and end with no node started. The cost is a
/// binary search in one set for each node of the other.
#[tactic(auto, using(crate::proofs::RouteLemmas::route_arrives, crate::proofs::RouteLemmas::route_never_fewer, crate::proofs::ShortestLemmas::route_shortest))]
pub fn route(alloc: Global, from: &NodeSet, to: &NodeSet) -> Result<ChangeList, Memory>
    requires from { (1 ≤ length from.now) × (length from.now ≤ 16) }
    requires to { (1 ≤ length to.now) × (length to.now ≤ 16) }
    // Promise: a route has the start and the finish of each node that has to join, ascending, and then the removal of
    // each that has to leave, ascending. Guards: route_starts_and_stops_a_node.edit, calls/members.rt.
    ensures route { IfOk result (λ changes. changes ≡ route_of from.now to.now) }
    // Promise: from the first set all changes of a route are accepted, and they lead to the second set. Guards:
    // route_starts_and_stops_a_node.edit, calls/members.rt.
    ensures arrives { IfOk result (λ changes. Arrives from.now changes to.now) }
    // Promise: on a route there are never fewer voting members than the lesser of the two counts. Guards:
    // calls/members.rt, tried.
    ensures never_fewer { IfOk result (λ changes.
        NeverFewer (min (length from.now) (length to.now)) (service_of from.now) changes) }
    // Promise: no list of accepted changes between the two sets is shorter than their route. Guards:
    // route_starts_and_stops_a_node.edit.
    ensures shortest { IfOk result (λ changes. IsShortest from.now changes to.now) }
{
    let mut changes = ChangeList::with_room(alloc, 2 * to.len() + from.len())?;
    let (leaving, joining) = from.differences(to)?;
    push_joins(&mut changes, joining.ids())?;
    push_removals(&mut changes, leaving.ids())?;
    Ok(changes)
}
