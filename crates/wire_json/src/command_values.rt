//! Writes commands as JSON objects.

ghost use Rattle.std.specs.Prelude.{◌≡◌, ◌++◌, IfOk};
ghost use Rattle.cluster_terms.specs.ReplicationText.{text_of};
ghost use Rattle.serde_json.specs.Data.{string};
ghost use Rattle.serde_json.specs.View.{view};
ghost use Rattle.transformations.specs.Words.{goal_word, movement_word};
ghost use Rattle.wire_json.specs.EntryTexts as spec;

use crate::json_lists::list_value;
use cluster_terms::{ByteText, Memory, Name, NodeId, Replication, TokenList};
use serde_json::{Value, json};
use std::alloc::Global;
use transformations::{Command, Goal, Kind};

/// The JSON object of a command.
pub fn command_value(alloc: Global, command: &Command) -> Result<Value, Memory>
    ensures { IfOk result (λ value. view value ≡ spec.command_data command.now) }
{
    match command {
        Command::Register { name, dc, rack } => Ok(json!(in alloc; {
            "dc": dc.as_str(),
            "kind": "register",
            "name": name.as_str(),
            "rack": rack.as_str()
        })?),
        Command::Unregister { node } => node_value(alloc, "unregister", *node),
        Command::UnsafeJoin { node, tokens } => tokens_value(alloc, "unsafe-join", *node, tokens),
        Command::Keyspace { name, replication } => keyspace_value(alloc, name, replication),
        Command::DropKeyspace { name } => {
            Ok(json!(in alloc; {"kind": "drop-keyspace", "name": name.as_str()})?)
        }
        Command::PrepareJoin { node, tokens } => tokens_value(alloc, "prepare-join", *node, tokens),
        Command::PrepareMove { node, token } => {
            Ok(json!(in alloc; {"kind": "prepare-move", "node": node.0, "token": token.value()})?)
        }
        Command::PrepareLeave { node } => node_value(alloc, "prepare-leave", *node),
        Command::PrepareReplace { node, gone } => replace_value(alloc, *node, *gone),
        Command::Step { goal, kind, node } => node_value(alloc, step_word(*goal, *kind), *node),
        Command::Cancel { node } => node_value(alloc, "cancel", *node),
    }
}

fn keyspace_value(alloc: Global, name: &Name, replication: &Replication) -> Result<Value, Memory>
    ensures { IfOk result (λ value. view value ≡ spec.keyspace_data name.now replication.now) }
{
    let text = replication_value(alloc, replication)?;
    let value = json!(in alloc; {"kind": "keyspace", "name": name.as_str(), "replication": text})?;
    Ok(value)
}

/// The text of a replication as a JSON value.
pub fn replication_value(alloc: Global, replication: &Replication) -> Result<Value, Memory>
    ensures { IfOk result (λ value. view value ≡ string (text_of replication.now)) }
{
    let mut text = ByteText::empty(alloc);
    replication.write(&mut text)?;
    let text = std::str::from_utf8(text.as_slice()).unwrap();
    let value = json!(in alloc; text)?;
    Ok(value)
}

/// The object of a command whose only argument is a node.
fn node_value(alloc: Global, word: &str, node: NodeId) -> Result<Value, Memory>
    ensures { IfOk result (λ value. view value ≡ spec.node_data word.now node) }
{
    let value = json!(in alloc; {"kind": word, "node": node.0})?;
    Ok(value)
}

/// The object of a command with a node and tokens.
fn tokens_value(
    alloc: Global,
    word: &str,
    node: NodeId,
    tokens: &TokenList,
) -> Result<Value, Memory>
    ensures { IfOk result (λ value. view value ≡ spec.tokens_data word.now node tokens.now) }
{
    let tokens = list_value(alloc, tokens)?;
    let value = json!(in alloc; {"kind": word, "node": node.0, "tokens": tokens})?;
    Ok(value)
}

/// The object of `prepare-replace`.
fn replace_value(alloc: Global, node: NodeId, gone: NodeId) -> Result<Value, Memory>
    ensures { IfOk result (λ value. view value ≡ spec.replace_data node gone) }
{
    let value = json!(in alloc; {"gone": gone.0, "kind": "prepare-replace", "node": node.0})?;
    Ok(value)
}

/// The word of a step, such as `start-join`.
fn step_word(goal: Goal, kind: Kind) -> &'static str
    ensures { result.now ≡ goal_word goal ++ movement_word kind }
{
    match (goal, kind) {
        (Goal::Start, Kind::Join) => "start-join",
        (Goal::Mid, Kind::Join) => "mid-join",
        (Goal::Finish, Kind::Join) => "finish-join",
        (Goal::Start, Kind::Move) => "start-move",
        (Goal::Mid, Kind::Move) => "mid-move",
        (Goal::Finish, Kind::Move) => "finish-move",
        (Goal::Start, Kind::Leave) => "start-leave",
        (Goal::Mid, Kind::Leave) => "mid-leave",
        (Goal::Finish, Kind::Leave) => "finish-leave",
        (Goal::Start, Kind::Replace) => "start-replace",
        (Goal::Mid, Kind::Replace) => "mid-replace",
        (Goal::Finish, Kind::Replace) => "finish-replace",
    }
}
