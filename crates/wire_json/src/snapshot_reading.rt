//! Reads the image of a snapshot line.

ghost use Rattle.std.specs.Prelude.{◌≡◌, IfOk};
ghost use Rattle.serde_json.specs.View.{items_view, view};
ghost use Rattle.wire_json.specs.Snapshots as spec;

use crate::json_lists::{Form, each_at};
use crate::values::{
    flag_at, has_keys, name_at, node_at, node_in, number_at, replication_at, text_at, token_of,
};
use cluster_terms::{Memory, NodeRow, Pair};
use serde_json::Value;
use std::alloc::Global;
use transformations::{Image, KeyspaceRow, Kind, Phase, SeqRow};

/// The image in a value, or `None` if the value isn't an image. The cost is a pass over the value.
#[tactic(auto, unfolding(crate::specs::Snapshots::image_in))]
pub fn image_in(alloc: Global, value: &Value) -> Result<Option<Image>, Memory>
    ensures { IfOk result (λ found. found ≡ spec.image_in (view value.now)) }
{
    if !has_keys(
        value,
        &["epoch", "keyspaces", "next", "nodes", "sequences", "tokens"],
    ) {
        return Ok(None);
    }
    let Some(epoch) = number_at(value, "epoch") else {
        return Ok(None);
    };
    let Some(next) = node_at(value, "next") else {
        return Ok(None);
    };
    let Some(nodes) = each_at(alloc, value, "nodes")? else {
        return Ok(None);
    };
    let Some(tokens) = each_at(alloc, value, "tokens")? else {
        return Ok(None);
    };
    let Some(keyspaces) = each_at(alloc, value, "keyspaces")? else {
        return Ok(None);
    };
    let sequences = each_at(alloc, value, "sequences")?;
    Ok(sequences.map(|sequences| Image {
        epoch,
        next: next.0,
        nodes,
        tokens,
        keyspaces,
        sequences,
    }))
}

impl Form for Pair {
    ghost form = { spec.pair_in };

    fn read(_alloc: Global, value: &Value) -> Result<Option<Pair>, Memory> {
        Ok(value.as_array().and_then(pair_by))
    }
}

/// The pair of the values in a list, which must be two.
#[tactic(auto, using(crate::proofs::json_values::PairItems::no_pair, crate::proofs::json_values::PairItems::two_values))]
fn pair_by(values: &Vec<Value>) -> Option<Pair>
    ensures { result ≡ spec.pair_by (items_view values.now.items) }
{
    if values.len() != 2 {
        return None;
    }
    pair_of(&values[0], &values[1])
}

fn pair_of(token: &Value, node: &Value) -> Option<Pair>
    ensures { result ≡ spec.pair_of (view token.now) (view node.now) }
{
    let token = token_of(token)?;
    let node = node_in(node)?;
    Some(Pair { token, node })
}

impl Form for NodeRow {
    ghost form = { spec.node_row_in };

    #[tactic(auto, unfolding(crate::specs::Snapshots::node_row_in))]
    fn read(alloc: Global, value: &Value) -> Result<Option<NodeRow>, Memory> {
        if !has_keys(value, &["dc", "id", "left", "name", "rack"]) {
            return Ok(None);
        }
        let Some(id) = node_at(value, "id") else {
            return Ok(None);
        };
        let Some(name) = name_at(alloc, value, "name")? else {
            return Ok(None);
        };
        let Some(dc) = name_at(alloc, value, "dc")? else {
            return Ok(None);
        };
        let Some(rack) = name_at(alloc, value, "rack")? else {
            return Ok(None);
        };
        Ok(flag_at(value, "left").map(|left| NodeRow {
            id,
            name,
            dc,
            rack,
            left,
        }))
    }
}

impl Form for KeyspaceRow {
    ghost form = { spec.keyspace_row_in };

    #[tactic(auto, unfolding(crate::specs::Snapshots::keyspace_row_in))]
    fn read(alloc: Global, value: &Value) -> Result<Option<KeyspaceRow>, Memory> {
        if !has_keys(value, &["name", "replication"]) {
            return Ok(None);
        }
        let Some(name) = name_at(alloc, value, "name")? else {
            return Ok(None);
        };
        let replication = replication_at(alloc, value, "replication")?;
        Ok(replication.map(|replication| KeyspaceRow { name, replication }))
    }
}

impl Form for SeqRow {
    ghost form = { spec.movement_in };

    #[tactic(auto, unfolding(crate::specs::Snapshots::movement_in))]
    fn read(alloc: Global, value: &Value) -> Result<Option<SeqRow>, Memory> {
        if !has_keys(value, &["in", "kind", "node", "out", "phase"]) {
            return Ok(None);
        }
        let Some(node) = node_at(value, "node") else {
            return Ok(None);
        };
        let Some(kind) = kind_at(value, "kind") else {
            return Ok(None);
        };
        let Some(out_pairs) = each_at(alloc, value, "out")? else {
            return Ok(None);
        };
        let Some(in_pairs) = each_at(alloc, value, "in")? else {
            return Ok(None);
        };
        Ok(phase_at(value, "phase").map(|phase| SeqRow {
            node,
            kind,
            out_pairs,
            in_pairs,
            phase,
        }))
    }
}

fn kind_named(word: &str) -> Option<Kind>
    ensures { result ≡ spec.kind_named word.now }
{
    match word {
        _ if word == "join" => Some(Kind::Join),
        _ if word == "move" => Some(Kind::Move),
        _ if word == "leave" => Some(Kind::Leave),
        _ if word == "replace" => Some(Kind::Replace),
        _ => None,
    }
}

fn kind_at(value: &Value, key: &str) -> Option<Kind>
    ensures { result ≡ spec.kind_at key.now (view value.now) }
{
    kind_named(text_at(value, key)?)
}

fn phase_named(word: &str) -> Option<Phase>
    ensures { result ≡ spec.phase_named word.now }
{
    match word {
        _ if word == "PREPARED" => Some(Phase::Prepared),
        _ if word == "STARTED" => Some(Phase::Started),
        _ if word == "MID" => Some(Phase::Mid),
        _ => None,
    }
}

fn phase_at(value: &Value, key: &str) -> Option<Phase>
    ensures { result ≡ spec.phase_at key.now (view value.now) }
{
    phase_named(text_at(value, key)?)
}
