//! The route from one set of members of the metadata service to another, in the last state of a log.

ghost use Rattle.std.specs.Prelude.{◌≡◌, ◌++◌, ◌≤◌, IfOk, IsSome, IsTrue, OnOk, codes, decimal, length};
ghost use Rattle.std.specs.Option.{option_copied};
ghost use Rattle.cms_members.specs.Accepted.{service_after_all};
ghost use Rattle.cms_members.specs.Service.{service_of};
ghost use Rattle.script_lang.specs.AnswerTexts as texts;
ghost use Rattle.transformations.specs.States as states;
ghost use Rattle.tcm_session.specs.Request.{are_nodes};
ghost use Rattle.tcm_session.specs.files.MemberRoute as spec;

use crate::ending::Ending;
use crate::files::member_walk::walk_along;
use crate::node_list::NodeList;
use cluster_terms::{ByteText, Memory, NodeId};
use cms_members::{Change, Members, route};
use node_sets::NodeSet;
use script_lang::labelled;
use script_session::Session;
use std::alloc::Global;
use transformations::{Image, NodeState, node_state};

/// The set of the nodes of a list, 1 to 16.
#[tactic(auto, using(crate::proofs::members::ListedNodes::listed_set, crate::proofs::members::ListedNodes::listed_count))]
fn set_of(alloc: Global, nodes: &NodeList) -> Result<NodeSet, Memory>
    requires { IsTrue (are_nodes nodes.now) }
    ensures set { IfOk result (λ set. set ≡ nodes.now) }
    ensures count { IfOk result (λ set. (1 ≤ length set) × (length set ≤ 16)) }
{
    NodeSet::from_ids(alloc, nodes.as_slice())
}

/// Adds the number of changes of a route from a set, all of which are accepted, and their lines.
fn route_text(from: NodeSet, changes: &[Change], out: &mut ByteText) -> Result<(), Memory>
    requires from { (1 ≤ length from) × (length from ≤ 16) }
    requires accepted { IsSome (service_after_all (service_of from) changes.now) }
    ensures { OnOk result (out.new ≡ out.old
        ++ (spec.route_head changes.now ++ spec.change_lines (service_of from) changes.now)) }
{
    let count = changes.len() as u64;
    labelled(b"CMS ", &count, out)?;
    out.extend(b"\n")?;
    match Members::from_set(from) {
        Ok(members) => walk_along(members, changes, out),
        Err(_) => unreachable!(),
    }
}

/// The end with the route from one set to another.
#[tactic(auto, unfolding(crate::specs::files::MemberRoute::route_text))]
fn routed(alloc: Global, from: NodeSet, to: &NodeSet) -> Result<Ending, Memory>
    requires from { (1 ≤ length from) × (length from ≤ 16) }
    requires to { (1 ≤ length to.now) × (length to.now ≤ 16) }
    ensures { IfOk result (λ ending. ending ≡ record { status = 0; text = spec.route_text from to.now }) }
{
    let changes = route(alloc, &from, to)?;
    let mut text = ByteText::empty(alloc);
    route_text(from, changes.as_slice(), &mut text)?;
    Ok(Ending { status: 0, text })
}

/// Whether a node is JOINED.
fn is_joined(image: &Image, n: NodeId) -> bool
    ensures { result ≡ spec.is_joined (states.node_state image.now n) }
{
    matches!(node_state(image, n), Some(NodeState::Joined))
}

/// The first of some nodes that isn't JOINED.
fn first_unjoined<'a>(image: &Image, nodes: &'a [NodeId]) -> Option<&'a NodeId>
    ensures { option_copied result ≡ spec.first_unjoined image.now nodes.now }
{
    nodes.iter().find(|n| !is_joined(image, **n))
}

/// Adds the state of a node that isn't JOINED.
fn state_text(n: NodeId, state: NodeState, out: &mut ByteText) -> Result<(), Memory>
    ensures { OnOk result (out.new ≡ out.old
        ++ (codes "NO NODE-STATE " ++ decimal n ++ codes " " ++ texts.state_text state)) }
{
    labelled(b"NO NODE-STATE ", &n, out)?;
    labelled(b" ", &state, out)
}

/// Adds why a node that isn't JOINED doesn't join the members: it isn't registered, or it is in this state.
fn unjoined_text(n: NodeId, state: Option<NodeState>, out: &mut ByteText) -> Result<(), Memory>
    ensures { OnOk result (out.new ≡ out.old ++ spec.unjoined_text n state) }
{
    match state {
        None => {
            labelled(b"NO NO-NODE ", &n, out)?;
            out.extend(b"\n")
        }
        Some(state) => {
            state_text(n, state, out)?;
            out.extend(b"\n")
        }
    }
}

/// The end at a node that isn't JOINED.
fn unjoined(alloc: Global, image: &Image, n: NodeId) -> Result<Ending, Memory>
    ensures { IfOk result (λ ending. ending
        ≡ record { status = 7; text = spec.unjoined_text n (states.node_state image.now n) }) }
{
    let mut text = ByteText::empty(alloc);
    unjoined_text(n, node_state(image, n), &mut text)?;
    Ok(Ending { status: 7, text })
}

/// The end with the route from one set to another, or at the first node that joins and isn't JOINED.
fn in_image(alloc: Global, image: &Image, from: &NodeList, to: &NodeList) -> Result<Ending, Memory>
    requires from { IsTrue (are_nodes from.now) }
    requires to { IsTrue (are_nodes to.now) }
    ensures { IfOk result (λ ending. ending ≡ spec.route_in from.now to.now image.now) }
{
    let from = set_of(alloc, from)?;
    let to = set_of(alloc, to)?;
    let joining = to.minus(&from)?;
    match first_unjoined(image, joining.ids()) {
        Some(n) => unjoined(alloc, image, *n),
        None => routed(alloc, from, &to),
    }
}

/// The end with the route from one set of members to another, or at the first node that joins and isn't JOINED in the
/// last state of the session's log.
///
/// Cost: the image of the last epoch is copied.
pub fn show_route(
    alloc: Global,
    session: &Session,
    from: &NodeList,
    to: &NodeList,
) -> Result<Ending, Memory>
    requires from { IsTrue (are_nodes from.now) }
    requires to { IsTrue (are_nodes to.now) }
    ensures { IfOk result (λ ending. ending ≡ spec.log_route from.now to.now session.now.log) }
{
    let image = session.image_at(session.last_epoch())?;
    in_image(alloc, &image, from, to)
}
