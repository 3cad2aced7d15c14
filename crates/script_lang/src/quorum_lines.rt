//! Answers to quorum queries.

ghost use Rattle.std.specs.Prelude.{◌≡◌, ◌++◌, codes, decimal, take, length, OnOk};
ghost use Rattle.script_lang.specs.AnswerTexts as spec;

use crate::answer_lists::list_text;
use crate::shown::labelled;
use cluster_terms::{ByteText, Memory};
use node_sets::NodeSet;
use quorum_sets::Quorum;

/// The read replicas and the write replicas that a quorum query is answered with, and how many of each are needed.
#[derive(Clone, Copy, Debug)]
pub struct QuorumSets<'a> {
    pub reads: &'a NodeSet,
    pub writes: &'a NodeSet,
    pub needs: Quorum,
}

/// Adds the answer to a quorum query: `word`, the epoch, how many replicas a read needs, the read replicas, and the
/// same for writes. If memory runs out, `out` still begins with its old content.
#[tactic(auto, unfolding(crate::specs::AnswerTexts::sets_text))]
pub fn sets_text(
    word: &str,
    epoch: u64,
    sets: &QuorumSets,
    out: &mut ByteText,
) -> Result<(), Memory>
    // Promise: how many of the reads and of the writes a quorum needs is shown, each with its nodes. Guards:
    // quorums.rt, tried.
    ensures added { OnOk result (out.new ≡ out.old
        ++ spec.sets_text word.now epoch
        (sets.now.needs.read_need, sets.now.reads.now) (sets.now.needs.write_need, sets.now.writes.now)) }
    ensures kept { take (length out.old) out.new ≡ out.old }
{
    add_reads(word, epoch, sets.needs.read_need, sets.reads, out)?;
    add_writes(sets.needs.write_need, sets.writes, out)
}

/// Adds the first word, the epoch, how many replicas a read needs, and the read replicas.
fn add_reads(
    word: &str,
    epoch: u64,
    need: u32,
    reads: &NodeSet,
    out: &mut ByteText,
) -> Result<(), Memory>
    ensures added { OnOk result (out.new ≡ out.old
        ++ (word.now ++ codes " " ++ decimal epoch
        ++ codes " read " ++ decimal need ++ codes " of " ++ spec.list_text reads.now)) }
    ensures kept { take (length out.old) out.new ≡ out.old }
{
    add_head(word, epoch, out)?;
    add_needed(b" read ", need, reads, out)
}

/// Adds how many replicas a write needs and the write replicas, and ends the line.
fn add_writes(need: u32, writes: &NodeSet, out: &mut ByteText) -> Result<(), Memory>
    ensures added { OnOk result (out.new ≡ out.old
        ++ spec.line (codes " write " ++ decimal need ++ codes " of " ++ spec.list_text writes.now)) }
    ensures kept { take (length out.old) out.new ≡ out.old }
{
    add_needed(b" write ", need, writes, out)?;
    out.extend(b"\n")
}

fn add_head(word: &str, epoch: u64, out: &mut ByteText) -> Result<(), Memory>
    ensures added { OnOk result (out.new ≡ out.old ++ (word.now ++ codes " " ++ decimal epoch)) }
    ensures kept { take (length out.old) out.new ≡ out.old }
{
    out.extend(word.as_bytes())?;
    labelled(b" ", &epoch, out)
}

/// Adds a label, how many of the nodes are needed, and the nodes.
fn add_needed(label: &[u8], need: u32, nodes: &NodeSet, out: &mut ByteText) -> Result<(), Memory>
    ensures added { OnOk result (out.new ≡ out.old
        ++ (label.now ++ decimal need ++ codes " of " ++ spec.list_text nodes.now)) }
    ensures kept { take (length out.old) out.new ≡ out.old }
{
    labelled(label, &need, out)?;
    out.extend(b" of ")?;
    list_text(nodes.ids(), out)
}
