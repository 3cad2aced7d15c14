ghost use Rattle.std.specs.Prelude.{◌≡◌, ◌≤◌, Some, length, unwrap_or, is_ok, IfOk, IfErr, MatchResult};
ghost use Rattle.cms_members.specs.Majority.{MajoritiesMeet, majority_of};
ghost use Rattle.cms_members.specs.Service.{are_members, growing_service, remove_fault, service_after, service_of, start_fault};
ghost use Rattle.cms_members.specs.declared.change.Change.TheVariants as change;
ghost use Rattle.cms_members.specs.declared.fault.MemberFault.TheVariants as fault;

use crate::fault::{MemberFault, StartFault};
use crate::growing::Growing;
use cluster_terms::NodeId;
use node_sets::NodeSet;
use std::marker::Model;

/// The greatest number of members.
const MOST_MEMBERS: u32 = 32;

/// The voting members of the metadata service: 1 to 32 nodes. Contracts see their ids, ascending.
///
/// Only `Members` has `start` and `remove`, and only `Growing` has `finish` and `stop`. `Members` of `node_directory`
/// is another type.
///
/// The value must be spent. Code doesn't compile if it drops the members or uses them twice.
pub struct Members {
    pub(crate) set: NodeSet,
}

impl Model for Members {
    ghost use Rattle.std.specs.Prelude.{List, ℕ, ◌≤◌, length};

    ghost Value = { List ℕ };

    ghost view = { λ members. members.set };

    ghost invariant = { λ members. (1 ≤ length members.set) × (length members.set ≤ 32) };
}

/// How many of 1 to 32 voting members are a majority.
pub(crate) fn majority_of(set: &NodeSet) -> u32
    requires { length set.now ≤ 32 }
    ensures { result ≡ majority_of set.now }
{
    set.len() as u32 / 2 + 1
}

impl Members {
    /// The members that are the nodes of a set. Takes no memory.
    ///
    /// Returns the set if it has no node or more than 32.
    pub fn from_set(set: NodeSet) -> Result<Members, NodeSet>
        // Promise: a set of 1 to 32 nodes becomes members, and no other set does. Guards: calls/members.rt.
        ensures accepted { is_ok result ≡ are_members set }
        ensures set { MatchResult result (λ members. members ≡ set) (λ back. back ≡ set) }
    {
        if set.is_empty() || set.len() > MOST_MEMBERS as usize {
            Err(set)
        } else {
            Ok(Members { set })
        }
    }

    /// The voting members, 1 to 32. Takes no memory.
    pub fn set(&self) -> &NodeSet
        // Promise: the voting members are 1 to 32, or 1 to 31 while a node joins. Guards: calls/members.rt.
        ensures members { result.now ≡ self.now }
        ensures some { 1 ≤ length self.now }
        ensures few { length self.now ≤ 32 }
    {
        &self.set
    }

    /// How many voting members are a majority: 1 to 17. Takes no memory.
    pub fn needs(&self) -> u32
        // Promise: a majority is half of the voting members, rounded down, plus one, and a node that has started
        // doesn't count. Guards: calls/members.rt.
        ensures { result ≡ majority_of self.now }
    {
        majority_of(&self.set)
    }

    /// Starts the join of a node. The node takes commits from now on, and doesn't vote yet. Takes no memory. The cost is a
    /// binary search.
    ///
    /// Returns the members as they were with `Member` if the node is a member, and with `Full(32)` if it isn't and there
    /// are 32 members.
    #[tactic(auto, using(crate::proofs::MajorityLemmas::meet_same))]
    pub fn start(self, n: NodeId) -> Result<Growing, (Members, StartFault)>
        // Promise: a node starts if and only if it isn't a member and there are fewer than 32, and the voting members
        // stay. Guards: calls/members.rt, tried.
        ensures start { IfOk result (λ g. service_after (service_of self) (change.Start n) ≡ Some (growing_service g)) }
        // Promise: a refusal gives the members back as they were. Guards: calls/members.rt.
        ensures refused { IfErr result (λ e. (e.0 ≡ self) × (start_fault self n ≡ Some e.1)) }
        ensures meet { IfOk result (λ g. MajoritiesMeet self g.voting) }
    {
        if self.set.has(n) {
            return Err((self, StartFault::Member));
        }
        if self.set.len() >= MOST_MEMBERS as usize {
            return Err((self, StartFault::Full(MOST_MEMBERS)));
        }
        let Members { set } = self;
        Ok(Growing { set, node: n })
    }

    /// Removes a member. The cost is a pass over the members.
    ///
    /// Returns the members as they were with `NotMember` if the node isn't a member, with `Last` if it is the only member,
    /// and with `Memory` if memory runs out. Takes memory only if more than 7 members stay.
    /// This and `Growing::finish` make a new set, so without memory the members are as before.
    #[tactic(auto, using(crate::proofs::MajorityLemmas::meet_less, crate::proofs::SetSteps::less_bounds))]
    pub fn remove(self, n: NodeId) -> Result<Members, (Members, MemberFault)>
        // Promise: one member is removed, if it is a member and not the only one, unless memory runs out. Guards:
        // remove_takes_two_members.edit, calls/members.rt.
        ensures remove { IfOk result (λ members.
            service_after (service_of self) (change.Remove n) ≡ Some (service_of members)) }
        ensures refused { IfErr result (λ e. (e.0 ≡ self) × (e.1 ≡ unwrap_or (remove_fault self n) fault.Memory)) }
        // Promise: each majority of the voting members before a change has a member in common with each majority of
        // those after it. Guards: remove_takes_two_members.edit.
        ensures meet { IfOk result (λ members. MajoritiesMeet self members) }
    {
        if !self.set.has(n) {
            return Err((self, MemberFault::NotMember));
        }
        if self.set.len() == 1 {
            return Err((self, MemberFault::Last));
        }
        match self.set.without_node(n) {
            Ok(set) => {
                let Members { set: _ } = self;
                Ok(Members { set })
            }
            Err(_) => Err((self, MemberFault::Memory)),
        }
    }

    /// The set of the members. Takes no memory.
    pub fn close(self) -> NodeSet
        // Promise: the set of the members is given back. Guards: calls/members.rt.
        ensures { result ≡ self }
    {
        let Members { set } = self;
        set
    }
}
