//! The nodes of a cluster: a head, a line for each node, and a line for each movement in flight.

ghost use Rattle.std.specs.Prelude.{◌≡◌, ◌++◌, codes, take, length, IfOk, OnOk};
ghost use Rattle.std.specs.List.{flat_map};
ghost use Rattle.transformations.specs.States as states;
ghost use Rattle.script_lang.specs.AnswerTexts as spec;

use crate::answer_lists::list_text;
use crate::shown::{Shown, labelled};
use cluster_terms::{ByteText, Memory, NodeId, NodeRow, Token};
use std::alloc::Global;
use transformations::{Image, SeqRow, state_of};

/// Adds the nodes of a cluster, each with its state and its tokens, and the movements in flight. If memory runs out,
/// `out` still begins with its old content. The cost is a pass over the movements and the ring for each node.
#[tactic(auto, unfolding(crate::specs::AnswerTexts::nodes_text))]
pub fn nodes_text(alloc: Global, image: &Image, out: &mut ByteText) -> Result<(), Memory>
    // Promise: each node is shown with its state and its tokens, and each movement. Guards: steps.rt, tried.
    ensures added { OnOk result (out.new ≡ out.old ++ spec.nodes_text image.now) }
    ensures kept { take (length out.old) out.new ≡ out.old }
{
    add_head(image, out)?;
    add_node_lines(alloc, image, out)?;
    add_sequence_lines(image.sequences.as_slice(), out)
}

/// Adds the head, with the number of nodes and the number of movements.
fn add_head(image: &Image, out: &mut ByteText) -> Result<(), Memory>
    ensures added { OnOk result (out.new ≡ out.old ++ spec.nodes_head image.now) }
    ensures kept { take (length out.old) out.new ≡ out.old }
{
    let nodes = image.nodes.as_slice().len() as u64;
    let movements = image.sequences.as_slice().len() as u64;
    labelled(b"NODES ", &image.epoch, out)?;
    labelled(b" ", &nodes, out)?;
    labelled(b" ", &movements, out)?;
    out.extend(b"\n")
}

fn add_node_lines(alloc: Global, image: &Image, out: &mut ByteText) -> Result<(), Memory>
    ensures added { OnOk result (out.new ≡ out.old ++ flat_map (spec.node_text image.now) image.now.nodes) }
    ensures kept { take (length out.old) out.new ≡ out.old }
{
    for row in image.nodes.as_slice() {
        add_node_line(alloc, image, row, out)?;
    }
    Ok(())
}

/// Adds the line of a node: its id, name, datacenter, rack, state and tokens.
#[tactic(auto, unfolding(crate::specs::AnswerTexts::node_text))]
fn add_node_line(
    alloc: Global,
    image: &Image,
    row: &NodeRow,
    out: &mut ByteText,
) -> Result<(), Memory>
    ensures added { OnOk result (out.new ≡ out.old ++ spec.node_text image.now row.now) }
    ensures kept { take (length out.old) out.new ≡ out.old }
{
    add_named(row, out)?;
    labelled(b" ", &state_of(image, row), out)?;
    add_tokens(alloc, image, row.id, out)
}

/// Adds the id of a node, its name, its datacenter and its rack.
fn add_named(row: &NodeRow, out: &mut ByteText) -> Result<(), Memory>
    ensures added { OnOk result (out.new ≡ out.old ++ spec.named_text row.now) }
    ensures kept { take (length out.old) out.new ≡ out.old }
{
    row.id.show(out)?;
    labelled(b" ", &row.name, out)?;
    labelled(b" ", &row.dc, out)?;
    labelled(b" ", &row.rack, out)
}

/// Adds the tokens of a node, and ends its line.
fn add_tokens(alloc: Global, image: &Image, node: NodeId, out: &mut ByteText) -> Result<(), Memory>
    ensures added { OnOk result (out.new ≡ out.old
        ++ spec.line (codes " " ++ spec.tokens_text (states.node_tokens image.now node))) }
    ensures kept { take (length out.old) out.new ≡ out.old }
{
    let tokens = node_tokens(alloc, image, node)?;
    out.extend(b" ")?;
    list_text(tokens.as_slice(), out)?;
    out.extend(b"\n")
}

fn node_tokens(alloc: Global, image: &Image, node: NodeId) -> Result<Vec<Token>, Memory>
    ensures { IfOk result (λ tokens. tokens.items ≡ states.node_tokens image.now node) }
{
    let tokens = image
        .tokens
        .as_slice()
        .iter()
        .filter(|pair| pair.node == node)
        .map(|pair| pair.token)
        .collect(alloc)?;
    Ok(tokens)
}

fn add_sequence_lines(sequences: &[SeqRow], out: &mut ByteText) -> Result<(), Memory>
    ensures added { OnOk result (out.new ≡ out.old ++ flat_map spec.sequence_text sequences.now) }
    ensures kept { take (length out.old) out.new ≡ out.old }
{
    for sequence in sequences {
        add_sequence_line(sequence, out)?;
    }
    Ok(())
}

/// Adds the line of a movement: its node, kind, phase and pairs.
#[tactic(auto, unfolding(crate::specs::AnswerTexts::sequence_text))]
fn add_sequence_line(sequence: &SeqRow, out: &mut ByteText) -> Result<(), Memory>
    ensures added { OnOk result (out.new ≡ out.old ++ spec.sequence_text sequence.now) }
    ensures kept { take (length out.old) out.new ≡ out.old }
{
    labelled(b"SEQ ", &sequence.node, out)?;
    labelled(b" ", &sequence.kind, out)?;
    labelled(b" ", &sequence.phase, out)?;
    add_pairs(sequence, out)
}

/// Adds the pairs that a movement takes out and the pairs that it puts in, and ends its line.
fn add_pairs(sequence: &SeqRow, out: &mut ByteText) -> Result<(), Memory>
    ensures added { OnOk result (out.new ≡ out.old
        ++ spec.line (codes " out " ++ spec.pairs_text sequence.now.out_pairs
        ++ codes " in " ++ spec.pairs_text sequence.now.in_pairs)) }
    ensures kept { take (length out.old) out.new ≡ out.old }
{
    out.extend(b" out ")?;
    list_text(sequence.out_pairs.as_slice(), out)?;
    out.extend(b" in ")?;
    list_text(sequence.in_pairs.as_slice(), out)?;
    out.extend(b"\n")
}
