//! Writes images as JSON objects.

ghost use Rattle.std.specs.Prelude.{◌≡◌, IfOk};
ghost use Rattle.serde_json.specs.View.{view};
ghost use Rattle.transformations.specs.Words.{movement_word, phase_word};
ghost use Rattle.wire_json.specs.SnapshotTexts as spec;

use crate::command_values::replication_value;
use crate::json_lists::{Written, list_value};
use cluster_terms::{Memory, NodeRow, Pair};
use serde_json::{Value, json};
use std::alloc::Global;
use transformations::{Image, KeyspaceRow, Kind, Phase, SeqRow};

/// The JSON object of a snapshot line.
pub fn snapshot_value(alloc: Global, image: &Image) -> Result<Value, Memory>
    ensures { IfOk result (λ value. view value ≡ spec.snapshot_data image.now) }
{
    let image = image_value(alloc, image)?;
    let value = json!(in alloc; {"snapshot": image})?;
    Ok(value)
}

fn image_value(alloc: Global, image: &Image) -> Result<Value, Memory>
    ensures { IfOk result (λ value. view value ≡ spec.image_data image.now) }
{
    let value = json!(in alloc; {
        "epoch": image.epoch,
        "keyspaces": list_value(alloc, &image.keyspaces)?,
        "next": image.next,
        "nodes": list_value(alloc, &image.nodes)?,
        "sequences": list_value(alloc, &image.sequences)?,
        "tokens": list_value(alloc, &image.tokens)?
    })?;
    Ok(value)
}

impl Written for Pair {
    ghost data_of = { spec.pair_data };

    fn value(&self, alloc: Global) -> Result<Value, Memory> {
        let mut pair = Vec::with_capacity(alloc, 2)?;
        pair.push(Value::from(self.token.value()))?;
        pair.push(Value::from(self.node.0))?;
        Ok(Value::Array(pair))
    }
}

impl Written for NodeRow {
    ghost data_of = { spec.node_row_data };

    fn value(&self, alloc: Global) -> Result<Value, Memory> {
        let value = json!(in alloc; {
            "dc": self.dc.as_str(),
            "id": self.id.0,
            "left": self.left,
            "name": self.name.as_str(),
            "rack": self.rack.as_str()
        })?;
        Ok(value)
    }
}

impl Written for KeyspaceRow {
    ghost data_of = { spec.keyspace_row_data };

    fn value(&self, alloc: Global) -> Result<Value, Memory> {
        let replication = replication_value(alloc, &self.replication)?;
        let value = json!(in alloc; {"name": self.name.as_str(), "replication": replication})?;
        Ok(value)
    }
}

impl Written for SeqRow {
    ghost data_of = { spec.movement_data };

    fn value(&self, alloc: Global) -> Result<Value, Memory> {
        let value = json!(in alloc; {
            "in": list_value(alloc, &self.in_pairs)?,
            "kind": kind_word(self.kind),
            "node": self.node.0,
            "out": list_value(alloc, &self.out_pairs)?,
            "phase": phase_word(self.phase)
        })?;
        Ok(value)
    }
}

fn kind_word(kind: Kind) -> &'static str
    ensures { result.now ≡ movement_word kind }
{
    match kind {
        Kind::Join => "join",
        Kind::Move => "move",
        Kind::Leave => "leave",
        Kind::Replace => "replace",
    }
}

fn phase_word(phase: Phase) -> &'static str
    ensures { result.now ≡ phase_word phase }
{
    match phase {
        Phase::Prepared => "PREPARED",
        Phase::Started => "STARTED",
        Phase::Mid => "MID",
    }
}
