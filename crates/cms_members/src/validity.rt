//! What accepted changes mean for the majorities of the members.

ghost use Rattle.std.specs.Prelude.{List};
ghost use Rattle.node_sets.specs.NodeSets.{IsNodeSet};
ghost use Rattle.cms_members.specs.Accepted.{AllMeet};
ghost use Rattle.cms_members.specs.Service.{Service};
ghost use Rattle.cms_members.specs.declared.change.Change.{Change};

/// For every list of accepted changes, each majority of the voting members before a change has a member in common with
/// each majority of those after it.
#[tactic(auto, using(crate::proofs::MajorityLemmas::all_meet))]
pub fn changes_meet()
    // Promise: at each change of every list of accepted changes, each majority of the voting members before it meets
    // each majority of those after it. Guards: law.
    ensures { (s : Service) (changes : List Change) → IsNodeSet s.voting → AllMeet s changes }
{}
