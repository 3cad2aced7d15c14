ghost use Rattle.std.specs.Prelude.{◌≡◌, ◌≤◌, ◌<◌, Some, length, IfOk, MatchResult};
ghost use Rattle.cms_members.specs.Majority.{MajoritiesMeet, majority_of};
ghost use Rattle.cms_members.specs.Service.{growing_service, service_after, service_of};
ghost use Rattle.cms_members.specs.declared.change.Change.TheVariants as change;

use crate::members::{Members, majority_of};
use cluster_terms::{Memory, NodeId};
use node_sets::NodeSet;
use std::marker::Model;

/// The voting members of the metadata service, 1 to 31, and a node that has started to join them. The node takes commits
/// and doesn't vote yet. Contracts see the ids of the voting members and of the node.
///
/// The value must be spent, by `finish` or `stop`. Code doesn't compile if it drops the value or uses it twice.
pub struct Growing {
    pub(crate) set: NodeSet,
    pub(crate) node: NodeId,
}

impl Model for Growing {
    ghost use Rattle.std.specs.Prelude.{◌≤◌, ◌<◌, length};
    ghost use Rattle.cms_members.specs.Service.{Growth};

    ghost Value = { Growth };

    ghost view = { λ g. record { voting = g.set; node = g.node } };

    ghost invariant = { λ g. (1 ≤ length g.set) × (length g.set < 32) };
}

impl Growing {
    /// The voting members, 1 to 31, without the node that has started. Takes no memory.
    pub fn set(&self) -> &NodeSet
        ensures members { result.now ≡ self.now.voting }
        ensures some { 1 ≤ length self.now.voting }
        ensures few { length self.now.voting < 32 }
    {
        &self.set
    }

    /// How many voting members are a majority: 1 to 16. The node that has started doesn't count. Takes no memory.
    pub fn needs(&self) -> u32
        ensures { result ≡ majority_of self.now.voting }
    {
        majority_of(&self.set)
    }

    /// Finishes the join: the node becomes a voting member. The cost is a pass over the members.
    ///
    /// Returns the value as it was if memory runs out. Takes memory only for more than 7 members.
    #[tactic(auto, using(crate::proofs::MajorityLemmas::meet_put, crate::proofs::SetSteps::put_length, crate::proofs::SetSteps::put_some))]
    pub fn finish(self) -> Result<Members, (Growing, Memory)>
        // Promise: the node that has started, and no other, becomes a voting member, or gives up and the voting members
        // stay. Guards: calls/members.rt.
        ensures finish { MatchResult result
            (λ members. service_after (growing_service self) (change.Finish self.node) ≡ Some (service_of members))
            (λ e. e.0 ≡ self) }
        ensures meet { IfOk result (λ members. MajoritiesMeet self.voting members) }
    {
        match self.set.with_all(&[self.node]) {
            Ok(set) => {
                let Growing { set: _, node: _ } = self;
                Ok(Members { set })
            }
            Err(memory) => Err((self, memory)),
        }
    }

    /// Gives the join up. The voting members stay as they are. Takes no memory.
    #[tactic(auto, using(crate::proofs::MajorityLemmas::meet_same))]
    pub fn stop(self) -> Members
        ensures stop { service_after (growing_service self) (change.Stop self.node) ≡ Some (service_of result) }
        ensures meet { MajoritiesMeet self.voting result }
    {
        let Growing { set, node: _ } = self;
        Members { set }
    }
}
