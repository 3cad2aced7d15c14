//! Reads commands from the words of a line.

ghost use Rattle.std.specs.Prelude.{◌≡◌, map, Some, IfOk};
ghost use Rattle.transformations.specs.declared.command.Command.TheVariants.{Step};
ghost use Rattle.script_lang.specs.Grammar as spec;

use crate::number::node_of;
use crate::token_words::{token_of, tokens_in_words};
use crate::words::is_word;
use cluster_terms::{Memory, Name, NodeId, Replication, TokenList};
use std::alloc::Global;
use transformations::{Command, Goal, Kind};

/// The command in these words, or `None` if they are not a command. The first word names the command.
#[tactic(auto, unfolding(crate::specs::Grammar::command_of))]
pub fn command_of(alloc: Global, words: &[&[u8]]) -> Result<Option<Command>, Memory>
    ensures { IfOk result (λ found. found ≡ spec.command_of (map (λ word. word.now) words.now)) }
{
    match words {
        [word, words @ ..] => command_named(alloc, word, words),
        [] => Ok(None),
    }
}

/// The command with this first word and these further words.
#[tactic(auto, unfolding(crate::specs::Grammar::command_named))]
fn command_named(alloc: Global, word: &[u8], words: &[&[u8]]) -> Result<Option<Command>, Memory>
    ensures { IfOk result (λ found. found ≡ spec.command_named word.now (map (λ word. word.now) words.now)) }
{
    match word {
        _ if is_word(word, b"register") => register_command(alloc, words),
        _ if is_word(word, b"unsafe-join") => unsafe_join_command(alloc, words),
        _ if is_word(word, b"keyspace") => keyspace_command(alloc, words),
        _ if is_word(word, b"drop-keyspace") => drop_keyspace_command(alloc, words),
        _ if is_word(word, b"prepare-join") => prepare_join_command(alloc, words),
        _ if is_word(word, b"prepare-move") => Ok(prepare_move_command(words)),
        _ if is_word(word, b"prepare-replace") => Ok(prepare_replace_command(words)),
        _ => Ok(node_only_command(word, words)),
    }
}

/// The command `register` of the words `NAME DC RACK`. Returns `None` for other words.
#[tactic(auto, unfolding(crate::specs::Grammar::register_command))]
fn register_command(alloc: Global, words: &[&[u8]]) -> Result<Option<Command>, Memory>
    ensures { IfOk result (λ found. found ≡ spec.register_command (map (λ word. word.now) words.now)) }
{
    let [name, dc, rack] = words else {
        return Ok(None);
    };
    let Some(name) = Name::from_bytes(alloc, name)? else {
        return Ok(None);
    };
    let Some(dc) = Name::from_bytes(alloc, dc)? else {
        return Ok(None);
    };
    let Some(rack) = Name::from_bytes(alloc, rack)? else {
        return Ok(None);
    };
    Ok(Some(Command::Register { name, dc, rack }))
}

/// The node and the tokens of the words `NODE TOKEN ..`. Returns `None` for other words.
#[tactic(auto, unfolding(crate::specs::Grammar::node_and_tokens))]
fn node_and_tokens(alloc: Global, words: &[&[u8]]) -> Result<Option<(NodeId, TokenList)>, Memory>
    ensures { IfOk result (λ found. found ≡ spec.node_and_tokens (map (λ word. word.now) words.now)) }
{
    let [node, tokens @ ..] = words else {
        return Ok(None);
    };
    let Some(node) = node_of(node) else {
        return Ok(None);
    };
    let tokens = tokens_in_words(alloc, tokens)?;
    Ok(tokens.map(|tokens| (node, tokens)))
}

/// The command `unsafe-join` of the words `NODE TOKEN ..`. Returns `None` for other words.
#[tactic(auto, unfolding(crate::specs::Grammar::unsafe_join_command))]
fn unsafe_join_command(alloc: Global, words: &[&[u8]]) -> Result<Option<Command>, Memory>
    ensures { IfOk result (λ found. found ≡ spec.unsafe_join_command (map (λ word. word.now) words.now)) }
{
    let found = node_and_tokens(alloc, words)?;
    Ok(found.map(|(node, tokens)| Command::UnsafeJoin { node, tokens }))
}

/// The command `prepare-join` of the words `NODE TOKEN ..`. Returns `None` for other words.
#[tactic(auto, unfolding(crate::specs::Grammar::prepare_join_command))]
fn prepare_join_command(alloc: Global, words: &[&[u8]]) -> Result<Option<Command>, Memory>
    ensures { IfOk result (λ found. found ≡ spec.prepare_join_command (map (λ word. word.now) words.now)) }
{
    let found = node_and_tokens(alloc, words)?;
    Ok(found.map(|(node, tokens)| Command::PrepareJoin { node, tokens }))
}

/// The command `prepare-move` of the words `NODE TOKEN`. Returns `None` for other words.
#[tactic(auto, unfolding(crate::specs::Grammar::prepare_move_command))]
fn prepare_move_command(words: &[&[u8]]) -> Option<Command>
    ensures { result ≡ spec.prepare_move_command (map (λ word. word.now) words.now) }
{
    let [node, token] = words else {
        return None;
    };
    let node = node_of(node)?;
    let token = token_of(token)?;
    Some(Command::PrepareMove { node, token })
}

/// The command `prepare-replace` of the words `NODE GONE`. Returns `None` for other words.
#[tactic(auto, unfolding(crate::specs::Grammar::prepare_replace_command))]
fn prepare_replace_command(words: &[&[u8]]) -> Option<Command>
    ensures { result ≡ spec.prepare_replace_command (map (λ word. word.now) words.now) }
{
    let [node, gone] = words else {
        return None;
    };
    let node = node_of(node)?;
    let gone = node_of(gone)?;
    Some(Command::PrepareReplace { node, gone })
}

/// The command `keyspace` of the words `NAME REPLICATION`. Returns `None` for other words.
#[tactic(auto, unfolding(crate::specs::Grammar::keyspace_command))]
fn keyspace_command(alloc: Global, words: &[&[u8]]) -> Result<Option<Command>, Memory>
    ensures { IfOk result (λ found. found ≡ spec.keyspace_command (map (λ word. word.now) words.now)) }
{
    let [name, replication @ ..] = words else {
        return Ok(None);
    };
    let Some(name) = Name::from_bytes(alloc, name)? else {
        return Ok(None);
    };
    let Some(replication) = Replication::from_words(alloc, replication)? else {
        return Ok(None);
    };
    Ok(Some(Command::Keyspace { name, replication }))
}

/// The command `drop-keyspace` of the word `NAME`. Returns `None` for other words.
#[tactic(auto, unfolding(crate::specs::Grammar::drop_keyspace_command))]
fn drop_keyspace_command(alloc: Global, words: &[&[u8]]) -> Result<Option<Command>, Memory>
    ensures { IfOk result (λ found. found ≡ spec.drop_keyspace_command (map (λ word. word.now) words.now)) }
{
    let [name] = words else {
        return Ok(None);
    };
    let Some(name) = Name::from_bytes(alloc, name)? else {
        return Ok(None);
    };
    Ok(Some(Command::DropKeyspace { name }))
}

fn step(goal: Goal, kind: Kind, node: NodeId) -> Option<Command>
    ensures { result ≡ Some (Step goal kind node) }
{
    Some(Command::Step { goal, kind, node })
}

/// The command with this word and this node, if its only argument is a node.
fn command_on(word: &[u8], node: NodeId) -> Option<Command>
    ensures { result ≡ spec.command_on word.now node }
{
    match word {
        _ if is_word(word, b"unregister") => Some(Command::Unregister { node }),
        _ if is_word(word, b"prepare-leave") => Some(Command::PrepareLeave { node }),
        _ if is_word(word, b"cancel") => Some(Command::Cancel { node }),
        _ if is_word(word, b"start-join") => step(Goal::Start, Kind::Join, node),
        _ if is_word(word, b"mid-join") => step(Goal::Mid, Kind::Join, node),
        _ if is_word(word, b"finish-join") => step(Goal::Finish, Kind::Join, node),
        _ if is_word(word, b"start-move") => step(Goal::Start, Kind::Move, node),
        _ if is_word(word, b"mid-move") => step(Goal::Mid, Kind::Move, node),
        _ if is_word(word, b"finish-move") => step(Goal::Finish, Kind::Move, node),
        _ if is_word(word, b"start-leave") => step(Goal::Start, Kind::Leave, node),
        _ if is_word(word, b"mid-leave") => step(Goal::Mid, Kind::Leave, node),
        _ if is_word(word, b"finish-leave") => step(Goal::Finish, Kind::Leave, node),
        _ if is_word(word, b"start-replace") => step(Goal::Start, Kind::Replace, node),
        _ if is_word(word, b"mid-replace") => step(Goal::Mid, Kind::Replace, node),
        _ if is_word(word, b"finish-replace") => step(Goal::Finish, Kind::Replace, node),
        _ => None,
    }
}

/// The command with this first word and the word `NODE`, if its only argument is a node. Returns `None` for other
/// words.
#[tactic(auto, unfolding(crate::specs::Grammar::node_only_command))]
fn node_only_command(word: &[u8], words: &[&[u8]]) -> Option<Command>
    ensures { result ≡ spec.node_only_command word.now (map (λ word. word.now) words.now) }
{
    match words {
        [node] => command_on(word, node_of(node)?),
        _ => None,
    }
}
