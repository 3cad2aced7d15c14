//! The texts of refusals.

ghost use Rattle.std.specs.Prelude.{◌≡◌, ◌++◌, codes, decimal, take, length, OnOk};
ghost use Rattle.script_lang.specs.AnswerTexts as spec;

use crate::shown::labelled;
use cluster_terms::{ByteText, Memory, Name, NodeId, RightEnd};
use transformations::Refusal;

/// Adds the text of a refusal: its word, and the values that explain it. If memory runs out, `out` still begins with
/// its old content.
#[tactic(auto, unfolding(crate::specs::AnswerTexts::refusal_text))]
pub fn refusal_text(refusal: &Refusal, out: &mut ByteText) -> Result<(), Memory>
    // Promise: commits and refused lines get their answers, each refusal with its text, and lines on followers get a
    // word and an epoch. Guards: refusals.rt, tried.
    ensures added { OnOk result (out.new ≡ out.old ++ spec.refusal_text refusal.now) }
    ensures kept { take (length out.old) out.new ≡ out.old }
{
    match refusal {
        Refusal::NameTaken(node) => labelled(b"NAME-TAKEN ", node, out),
        Refusal::NodesFull => out.extend(b"NODES-FULL"),
        Refusal::NoNode => out.extend(b"NO-NODE"),
        Refusal::WrongState(state) => labelled(b"NODE-STATE ", state, out),
        Refusal::InSequence(node) => labelled(b"IN-SEQUENCE ", node, out),
        Refusal::NoSequence => out.extend(b"NO-SEQUENCE"),
        Refusal::WrongStep(kind, phase) => labelled(b"WRONG-STEP ", &(*kind, *phase), out),
        Refusal::TokenTaken(token) => labelled(b"TOKEN-TAKEN ", token, out),
        Refusal::NoTokens => out.extend(b"NO-TOKENS"),
        Refusal::TokensFull => out.extend(b"TOKENS-FULL"),
        Refusal::NotOneToken(count) => labelled(b"NOT-ONE-TOKEN ", count, out),
        Refusal::OtherRack(dc, rack) => other_rack_text(dc, rack, out),
        Refusal::NotIdle(node) => labelled(b"NOT-IDLE ", node, out),
        Refusal::NoKeyspace => out.extend(b"NO-KEYSPACE"),
        Refusal::KeyspacesFull => out.extend(b"KEYSPACES-FULL"),
        Refusal::TooFewNodes(keyspace) => labelled(b"TOO-FEW-NODES ", keyspace, out),
        Refusal::Locked(node, end) => labelled(b"LOCKED ", &(*node, *end), out),
        Refusal::IdReused(epoch) => labelled(b"ID-REUSED ", epoch, out),
        Refusal::EpochsFull => out.extend(b"EPOCHS-FULL"),
        Refusal::KeyspaceLocked(node, other, end) => keyspace_locked_text(*node, *other, *end, out),
    }
}

/// Adds `KEYSPACE-LOCKED`, with the nodes of two movements and the right end of the first row that they would share.
fn keyspace_locked_text(
    node: NodeId,
    other: NodeId,
    end: RightEnd,
    out: &mut ByteText,
) -> Result<(), Memory>
    ensures added { OnOk result (out.new ≡ out.old
        ++ (codes "KEYSPACE-LOCKED " ++ decimal node ++ codes " " ++ spec.locked_text (other, end))) }
    ensures kept { take (length out.old) out.new ≡ out.old }
{
    labelled(b"KEYSPACE-LOCKED ", &node, out)?;
    labelled(b" ", &(other, end), out)
}

/// Adds `OTHER-RACK`, with the datacenter and the rack of the node to be replaced.
fn other_rack_text(dc: &Name, rack: &Name, out: &mut ByteText) -> Result<(), Memory>
    ensures added { OnOk result (out.new ≡ out.old
        ++ (codes "OTHER-RACK " ++ dc.now ++ codes " " ++ rack.now)) }
    ensures kept { take (length out.old) out.new ≡ out.old }
{
    labelled(b"OTHER-RACK ", dc, out)?;
    labelled(b" ", rack, out)
}
