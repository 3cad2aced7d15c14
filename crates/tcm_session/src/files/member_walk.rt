//! Walks along a route between two sets of members of the metadata service, and the lines of its changes.

ghost use Rattle.std.specs.Prelude.{◌≡◌, ◌++◌, IfOk, IsSome, OnOk, Some};
ghost use Rattle.cms_members.specs.Accepted.{service_after_all};
ghost use Rattle.cms_members.specs.Majority.{majority_of};
ghost use Rattle.cms_members.specs.Service.{growing_service, service_after, service_of};
ghost use Rattle.cms_members.specs.declared.change.Change.TheVariants as change;
ghost use Rattle.tcm_session.specs.code.Walks.{service_at};
ghost use Rattle.tcm_session.specs.files.MemberRoute as spec;

use cluster_terms::{ByteText, Memory, NodeId};
use cms_members::{Change, Growing, Members};
use node_sets::NodeSet;
use script_lang::{labelled, list_text};

/// The members of the metadata service between two changes. The value must be spent.
pub enum Walk {
    /// No node has started to join.
    Settled(Members),
    /// A node has started to join.
    Joining(Growing),
}

impl Walk {
    /// The voting members.
    fn voting(&self) -> &NodeSet
        ensures { result.now ≡ (service_at self.now).voting }
    {
        match self {
            Walk::Settled(members) => members.set(),
            Walk::Joining(growing) => growing.set(),
        }
    }

    /// How many of the voting members are a majority.
    fn needs(&self) -> u32
        ensures { result ≡ majority_of (service_at self.now).voting }
    {
        match self {
            Walk::Settled(members) => members.needs(),
            Walk::Joining(growing) => growing.needs(),
        }
    }

    /// The walk after a change that is accepted.
    fn after(self, change: Change) -> Result<Walk, Memory>
        requires { IsSome (service_after (service_at self) change) }
        ensures { IfOk result (λ next. service_after (service_at self) change ≡ Some (service_at next)) }
    {
        match (self, change) {
            (Walk::Settled(members), Change::Start(n)) => start(members, n),
            (Walk::Settled(members), Change::Remove(n)) => remove(members, n),
            (Walk::Joining(growing), Change::Finish(n)) => finish(growing, n),
            (Walk::Joining(growing), Change::Stop(n)) => Ok(Walk::Settled(stop(growing, n))),
            _ => unreachable!(),
        }
    }

    /// Ends the walk.
    fn close(self) {
        match self {
            Walk::Settled(members) => members.close(),
            Walk::Joining(growing) => growing.stop().close(),
        };
    }
}

/// The walk once a node has started to join.
fn start(members: Members, n: NodeId) -> Result<Walk, Memory>
    requires { IsSome (service_after (service_of members) (change.Start n)) }
    ensures { IfOk result (λ walk.
        service_after (service_of members) (change.Start n) ≡ Some (service_at walk)) }
{
    match members.start(n) {
        Ok(growing) => Ok(Walk::Joining(growing)),
        Err(_) => unreachable!(),
    }
}

/// The walk once a member has left.
fn remove(members: Members, n: NodeId) -> Result<Walk, Memory>
    requires { IsSome (service_after (service_of members) (change.Remove n)) }
    ensures { IfOk result (λ walk.
        service_after (service_of members) (change.Remove n) ≡ Some (service_at walk)) }
{
    match members.remove(n) {
        Ok(members) => Ok(Walk::Settled(members)),
        Err((members, _)) => {
            members.close();
            Err(Memory)
        }
    }
}

/// The walk once the node that has started is a member.
#[tactic(auto, using(crate::proofs::members::WalkLemmas::finishes))]
fn finish(growing: Growing, n: NodeId) -> Result<Walk, Memory>
    requires { IsSome (service_after (growing_service growing) (change.Finish n)) }
    ensures { IfOk result (λ walk.
        service_after (growing_service growing) (change.Finish n) ≡ Some (service_at walk)) }
{
    match growing.finish() {
        Ok(members) => Ok(Walk::Settled(members)),
        Err((growing, memory)) => {
            growing.stop().close();
            Err(memory)
        }
    }
}

/// The members once the node that has started has given up.
#[tactic(auto, using(crate::proofs::members::WalkLemmas::stops))]
fn stop(growing: Growing, n: NodeId) -> Members
    requires { IsSome (service_after (growing_service growing) (change.Stop n)) }
    ensures { service_after (growing_service growing) (change.Stop n) ≡ Some (service_of result) }
{
    growing.stop()
}

fn change_text(change: &Change, out: &mut ByteText) -> Result<(), Memory>
    ensures { OnOk result (out.new ≡ out.old ++ spec.change_text change.now) }
{
    match change {
        Change::Start(n) => labelled(b"START ", n, out),
        Change::Finish(n) => labelled(b"FINISH ", n, out),
        Change::Stop(n) => labelled(b"STOP ", n, out),
        Change::Remove(n) => labelled(b"REMOVE ", n, out),
    }
}

/// Adds how many of the voting members are a majority, and these members.
fn needs_text(walk: &Walk, out: &mut ByteText) -> Result<(), Memory>
    ensures { OnOk result (out.new ≡ out.old ++ spec.needs_text (service_at walk.now).voting) }
{
    labelled(b" needs ", &walk.needs(), out)?;
    out.extend(b" of ")?;
    list_text(walk.voting().ids(), out)
}

/// Adds the line of a change, with the voting members after it.
fn change_line(change: &Change, after: &Walk, out: &mut ByteText) -> Result<(), Memory>
    ensures { OnOk result (out.new ≡ out.old ++ spec.change_line change.now (service_at after.now)) }
{
    change_text(change, out)?;
    needs_text(after, out)?;
    out.extend(b"\n")
}

/// Makes a change that is accepted, and adds its line.
fn step(walk: Walk, change: &Change, out: &mut ByteText) -> Result<Walk, Memory>
    requires { IsSome (service_after (service_at walk) change.now) }
    ensures next { IfOk result (λ next. service_after (service_at walk) change.now ≡ Some (service_at next)) }
    ensures line { IfOk result (λ next. out.new ≡ out.old ++ spec.change_line change.now (service_at next)) }
{
    let next = walk.after(*change)?;
    match change_line(change, &next, out) {
        Ok(()) => Ok(next),
        Err(memory) => {
            next.close();
            Err(memory)
        }
    }
}

/// Makes changes that are all accepted, and adds the line of each.
pub fn walk_along(members: Members, changes: &[Change], out: &mut ByteText) -> Result<(), Memory>
    requires { IsSome (service_after_all (service_of members) changes.now) }
    ensures { OnOk result (out.new ≡ out.old ++ spec.change_lines (service_of members) changes.now) }
{
    let mut walk = Walk::Settled(members);
    let mut rest = changes;
    while let Some((change, more)) = rest.split_first() {
        walk = step(walk, change, out)?;
        rest = more;
    }
    walk.close();
    Ok(())
}
