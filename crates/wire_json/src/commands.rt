//! Reads commands from JSON objects. The text at the key `kind` names the command.

ghost use Rattle.std.specs.Prelude.{◌≡◌, Some, IfOk};
ghost use Rattle.serde_json.specs.View.{view};
ghost use Rattle.transformations.specs.declared.command.Command.TheVariants.{Step};
ghost use Rattle.wire_json.specs.Kinds as spec;
ghost use Rattle.wire_json.specs.code.NodeCommands as code;

use crate::object_members::{four_at, three_at, two_at};
use crate::token_lists::tokens_in;
use crate::values::{name_in, node_in, replication_in, text_at, token_of};
use cluster_terms::{Memory, NodeId};
use serde_json::Value;
use std::alloc::Global;
use transformations::{Command, Goal, Kind};

/// The command in a JSON value, or `None` if the value breaks rule 5 of `read_line`.
#[tactic(auto, unfolding(crate::specs::Kinds::command_of))]
pub fn command_of(alloc: Global, value: &Value) -> Result<Option<Command>, Memory>
    ensures { IfOk result (λ found. found ≡ spec.command_of (view value.now)) }
{
    match text_at(value, "kind") {
        Some(word) => command_named(alloc, word, value),
        None => Ok(None),
    }
}

/// The command in a value whose `kind` is this word.
fn command_named(alloc: Global, word: &str, value: &Value) -> Result<Option<Command>, Memory>
    ensures { IfOk result (λ found. found ≡ spec.command_named spec.kinds word.now (view value.now)) }
{
    match word {
        _ if word == "register" => register_of(alloc, value),
        _ if word == "unsafe-join" => unsafe_join_of(alloc, value),
        _ if word == "keyspace" => set_keyspace_of(alloc, value),
        _ if word == "drop-keyspace" => drop_keyspace_of(alloc, value),
        _ if word == "prepare-join" => prepare_join_of(alloc, value),
        _ if word == "prepare-move" => Ok(prepare_move_of(value)),
        _ if word == "prepare-replace" => Ok(prepare_replace_of(value)),
        _ => Ok(node_command_of(word, value)),
    }
}

/// Reads `register` from an object with the keys `dc`, `kind`, `name` and `rack`. Returns `None` for any other value.
#[tactic(auto, unfolding(crate::specs::Kinds::register_of))]
fn register_of(alloc: Global, value: &Value) -> Result<Option<Command>, Memory>
    ensures { IfOk result (λ found. found ≡ spec.command_by spec.register (view value.now)) }
{
    let Some((dc, _, name, rack)) = four_at(value, "dc", "kind", "name", "rack") else {
        return Ok(None);
    };
    let Some(name) = name_in(alloc, name)? else {
        return Ok(None);
    };
    let Some(dc) = name_in(alloc, dc)? else {
        return Ok(None);
    };
    let Some(rack) = name_in(alloc, rack)? else {
        return Ok(None);
    };
    Ok(Some(Command::Register { name, dc, rack }))
}

/// Reads `unsafe-join` from an object with the keys `kind`, `node` and `tokens`. Returns `None` for any other value.
#[tactic(auto, unfolding(crate::specs::Kinds::unsafe_join_of))]
fn unsafe_join_of(alloc: Global, value: &Value) -> Result<Option<Command>, Memory>
    ensures { IfOk result (λ found. found ≡ spec.command_by spec.unsafe_join (view value.now)) }
{
    let Some((_, node, tokens)) = three_at(value, "kind", "node", "tokens") else {
        return Ok(None);
    };
    let Some(node) = node_in(node) else {
        return Ok(None);
    };
    let tokens = tokens_in(alloc, tokens)?;
    Ok(tokens.map(|tokens| Command::UnsafeJoin { node, tokens }))
}

/// Reads `prepare-join` from an object with the keys `kind`, `node` and `tokens`. Returns `None` for any other value.
#[tactic(auto, unfolding(crate::specs::Kinds::prepare_join_of))]
fn prepare_join_of(alloc: Global, value: &Value) -> Result<Option<Command>, Memory>
    ensures { IfOk result (λ found. found ≡ spec.command_by spec.prepare_join (view value.now)) }
{
    let Some((_, node, tokens)) = three_at(value, "kind", "node", "tokens") else {
        return Ok(None);
    };
    let Some(node) = node_in(node) else {
        return Ok(None);
    };
    let tokens = tokens_in(alloc, tokens)?;
    Ok(tokens.map(|tokens| Command::PrepareJoin { node, tokens }))
}

/// Reads `keyspace` from an object with the keys `kind`, `name` and `replication`. Returns `None` for any other value.
#[tactic(auto, unfolding(crate::specs::Kinds::set_keyspace_of))]
fn set_keyspace_of(alloc: Global, value: &Value) -> Result<Option<Command>, Memory>
    ensures { IfOk result (λ found. found ≡ spec.command_by spec.keyspace (view value.now)) }
{
    let Some((_, name, replication)) = three_at(value, "kind", "name", "replication") else {
        return Ok(None);
    };
    let Some(name) = name_in(alloc, name)? else {
        return Ok(None);
    };
    let replication = replication_in(alloc, replication)?;
    Ok(replication.map(|replication| Command::Keyspace { name, replication }))
}

/// Reads `drop-keyspace` from an object with the keys `kind` and `name`. Returns `None` for any other value.
#[tactic(auto, unfolding(crate::specs::Kinds::drop_keyspace_of))]
fn drop_keyspace_of(alloc: Global, value: &Value) -> Result<Option<Command>, Memory>
    ensures { IfOk result (λ found. found ≡ spec.command_by spec.drop_keyspace (view value.now)) }
{
    let Some((_, name)) = two_at(value, "kind", "name") else {
        return Ok(None);
    };
    let name = name_in(alloc, name)?;
    Ok(name.map(|name| Command::DropKeyspace { name }))
}

/// Reads `prepare-move` from an object with the keys `kind`, `node` and `token`. Returns `None` for any other value.
#[tactic(auto, unfolding(crate::specs::Kinds::prepare_move_of))]
fn prepare_move_of(value: &Value) -> Option<Command>
    ensures { result ≡ spec.command_by spec.prepare_move (view value.now) }
{
    let Some((_, node, token)) = three_at(value, "kind", "node", "token") else {
        return None;
    };
    let node = node_in(node)?;
    let token = token_of(token)?;
    Some(Command::PrepareMove { node, token })
}

/// Reads `prepare-replace` from an object with the keys `gone`, `kind` and `node`. Returns `None` for any other value.
#[tactic(auto, unfolding(crate::specs::Kinds::prepare_replace_of))]
fn prepare_replace_of(value: &Value) -> Option<Command>
    ensures { result ≡ spec.command_by spec.prepare_replace (view value.now) }
{
    let Some((gone, _, node)) = three_at(value, "gone", "kind", "node") else {
        return None;
    };
    let node = node_in(node)?;
    let gone = node_in(gone)?;
    Some(Command::PrepareReplace { node, gone })
}

fn step(goal: Goal, kind: Kind, node: NodeId) -> Option<Command>
    ensures { result ≡ Some (Step goal kind node) }
{
    Some(Command::Step { goal, kind, node })
}

/// The command with this word and this node, if its only argument is a node.
fn command_on(word: &str, node: NodeId) -> Option<Command>
    ensures { result ≡ code.command_on word.now node }
{
    match word {
        _ if word == "unregister" => Some(Command::Unregister { node }),
        _ if word == "prepare-leave" => Some(Command::PrepareLeave { node }),
        _ if word == "cancel" => Some(Command::Cancel { node }),
        _ if word == "start-join" => step(Goal::Start, Kind::Join, node),
        _ if word == "mid-join" => step(Goal::Mid, Kind::Join, node),
        _ if word == "finish-join" => step(Goal::Finish, Kind::Join, node),
        _ if word == "start-move" => step(Goal::Start, Kind::Move, node),
        _ if word == "mid-move" => step(Goal::Mid, Kind::Move, node),
        _ if word == "finish-move" => step(Goal::Finish, Kind::Move, node),
        _ if word == "start-leave" => step(Goal::Start, Kind::Leave, node),
        _ if word == "mid-leave" => step(Goal::Mid, Kind::Leave, node),
        _ if word == "finish-leave" => step(Goal::Finish, Kind::Leave, node),
        _ if word == "start-replace" => step(Goal::Start, Kind::Replace, node),
        _ if word == "mid-replace" => step(Goal::Mid, Kind::Replace, node),
        _ if word == "finish-replace" => step(Goal::Finish, Kind::Replace, node),
        _ => None,
    }
}

/// Reads a command whose only argument is a node.
#[tactic(auto, using(crate::proofs::json_values::KindsLemmas::no_node_command, crate::proofs::json_values::KindsLemmas::node_command))]
fn node_command_of(word: &str, value: &Value) -> Option<Command>
    ensures { result ≡ spec.command_named spec.node_kinds word.now (view value.now) }
{
    let Some((_, node)) = two_at(value, "kind", "node") else {
        return None;
    };
    command_on(word, node_in(node)?)
}
