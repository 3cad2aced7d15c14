//! The grammar of script lines.

ghost use Rattle.std.specs.Prelude.{◌≡◌, ◌<◌, length, map, IfOk, IfSome, IsOk};
ghost use Rattle.script_lang.specs.Grammar as spec;

use crate::command_words::command_of;
use crate::number::{max_of, number_of};
use crate::script_line::{ScriptLine, Target};
use crate::token_words::token_of;
use crate::words::{USUAL_WORDS, is_word, put_words, words_of};
use cluster_terms::{Few, Memory, Name};
use std::alloc::Global;

/// The most bytes of a line.
const LINE_LIMIT: usize = 16_384;

/// Reads a line of a script; `bytes` is the line without its line feed. Returns `None` if and only if the line isn't in
/// the grammar or has more than 16,384 bytes. A command that lists tokens has 1 to 256 of them, in ascending order, and
/// a reply is asked to have at most 1 to 1,024 entries.
///
/// A line that is too long takes no memory. The cost is a few passes over the bytes, and a sort of the tokens of a
/// command.
#[tactic(auto, unfolding(crate::specs::Grammar::line_of))]
#[inline(always)]
pub fn parse_line(alloc: Global, bytes: &[u8]) -> Result<Option<ScriptLine>, Memory>
    // Promise: a line of the grammar has the meaning that it gives, and all other lines have none. Guards: lines.rt,
    // tried.
    // Promise: each command of a movement, and each query of quorums, is read as itself. Guards: lines.rt, tried.
    // Promise: each line on a follower, and a follower's name as the target of a query, is read as itself. Guards:
    // followers.rt.
    // Promise: a line of more than 16,384 bytes has no meaning, and reading it never runs out of memory. Guards: tried.
    // Promise: a command has 1 to 256 tokens, and none comes twice. Guards: limits.rt (256 tokens), lines.rt (no token,
    // a token twice), tried.
    // Promise: tokens and datacenters come in any order, and are kept ascending. Guards: lines.rt, tried.
    ensures meaning { IfOk result (λ found. found ≡ spec.line_of bytes.now) }
    ensures ranges { IfOk result (λ found. IfSome found spec.IsInRange) }
    ensures long { 16384 < length bytes.now → IsOk result }
{
    if bytes.len() > LINE_LIMIT {
        return Ok(None);
    }
    let mut few: Few<&[u8], USUAL_WORDS> = Few::of(&[]);
    if put_words(&mut few, bytes) {
        return line_of_words(alloc, few.as_slice());
    }
    let words = words_of(alloc, bytes)?;
    line_of_words(alloc, words.as_slice())
}

/// The line of these words, whose first word tells its kind. Returns `None` if and only if the words are in no form.
#[tactic(auto, unfolding(crate::specs::Grammar::line_of_words))]
#[inline(always)]
fn line_of_words(alloc: Global, words: &[&[u8]]) -> Result<Option<ScriptLine>, Memory>
    ensures { IfOk result (λ found. found ≡ spec.line_of_words (map (λ word. word.now) words.now)) }
{
    match words {
        [word, words @ ..] if is_word(word, b"commit") => commit_line(alloc, words),
        [word, words @ ..] if is_word(word, b"follower") => follower_line(alloc, words),
        [word, words @ ..] if is_word(word, b"deliver") => deliver_line(alloc, words),
        [word, words @ ..] if is_word(word, b"snapshot") => snapshot_line(alloc, words),
        [word, words @ ..] if is_word(word, b"ask") => ask_line(alloc, words),
        [word, words @ ..] if is_word(word, b"give") => give_line(alloc, words),
        [word, words @ ..] if is_word(word, b"place") => place_line(alloc, words),
        [word, words @ ..] if is_word(word, b"nodes") => nodes_line(alloc, words),
        [word, words @ ..] if is_word(word, b"quorum") => quorum_line(alloc, words),
        [word, words @ ..] if is_word(word, b"local") => local_line(alloc, words),
        _ => Ok(None),
    }
}

/// The line `commit ID COMMAND`, from the words after the first. Returns `None` for other words.
#[tactic(auto, unfolding(crate::specs::Grammar::commit_in))]
fn commit_line(alloc: Global, words: &[&[u8]]) -> Result<Option<ScriptLine>, Memory>
    ensures { IfOk result (λ found. found ≡ spec.commit_in (map (λ word. word.now) words.now)) }
{
    let [id, command @ ..] = words else {
        return Ok(None);
    };
    let Some(id) = number_of(id) else {
        return Ok(None);
    };
    let Some(command) = command_of(alloc, command)? else {
        return Ok(None);
    };
    Ok(Some(ScriptLine::Commit(id, command)))
}

/// The line `follower F`, from the words after the first. Returns `None` for other words.
#[tactic(auto, unfolding(crate::specs::Grammar::follower_in))]
fn follower_line(alloc: Global, words: &[&[u8]]) -> Result<Option<ScriptLine>, Memory>
    ensures { IfOk result (λ found. found ≡ spec.follower_in (map (λ word. word.now) words.now)) }
{
    let [name] = words else {
        return Ok(None);
    };
    let Some(name) = Name::from_bytes(alloc, name)? else {
        return Ok(None);
    };
    Ok(Some(ScriptLine::Follower(name)))
}

/// The line `deliver F E`, from the words after the first. Returns `None` for other words.
#[tactic(auto, unfolding(crate::specs::Grammar::deliver_in))]
fn deliver_line(alloc: Global, words: &[&[u8]]) -> Result<Option<ScriptLine>, Memory>
    ensures { IfOk result (λ found. found ≡ spec.deliver_in (map (λ word. word.now) words.now)) }
{
    let [name, epoch] = words else {
        return Ok(None);
    };
    let Some(epoch) = number_of(epoch) else {
        return Ok(None);
    };
    let Some(name) = Name::from_bytes(alloc, name)? else {
        return Ok(None);
    };
    Ok(Some(ScriptLine::Deliver(name, epoch)))
}

/// The line `snapshot F E`, from the words after the first. Returns `None` for other words.
#[tactic(auto, unfolding(crate::specs::Grammar::snapshot_in))]
fn snapshot_line(alloc: Global, words: &[&[u8]]) -> Result<Option<ScriptLine>, Memory>
    ensures { IfOk result (λ found. found ≡ spec.snapshot_in (map (λ word. word.now) words.now)) }
{
    let [name, epoch] = words else {
        return Ok(None);
    };
    let Some(epoch) = number_of(epoch) else {
        return Ok(None);
    };
    let name = Name::from_bytes(alloc, name)?;
    Ok(name.map(|name| ScriptLine::Snapshot(name, epoch)))
}

/// The line `ask F MAX`, from the words after the first. Returns `None` for other words.
#[tactic(auto, unfolding(crate::specs::Grammar::ask_in))]
fn ask_line(alloc: Global, words: &[&[u8]]) -> Result<Option<ScriptLine>, Memory>
    ensures { IfOk result (λ found. found ≡ spec.ask_in (map (λ word. word.now) words.now)) }
{
    let [name, max] = words else {
        return Ok(None);
    };
    let Some(max) = max_of(max) else {
        return Ok(None);
    };
    let name = Name::from_bytes(alloc, name)?;
    Ok(name.map(|name| ScriptLine::Ask(name, max)))
}

/// The line `give F I`, from the words after the first. Returns `None` for other words.
#[tactic(auto, unfolding(crate::specs::Grammar::give_in))]
fn give_line(alloc: Global, words: &[&[u8]]) -> Result<Option<ScriptLine>, Memory>
    ensures { IfOk result (λ found. found ≡ spec.give_in (map (λ word. word.now) words.now)) }
{
    let [name, number] = words else {
        return Ok(None);
    };
    let Some(number) = number_of(number) else {
        return Ok(None);
    };
    let name = Name::from_bytes(alloc, name)?;
    Ok(name.map(|name| ScriptLine::Give(name, number)))
}

/// The line `place TARGET KS`, from the words after the first. Returns `None` for other words.
#[tactic(auto, unfolding(crate::specs::Grammar::place_line))]
fn place_line(alloc: Global, words: &[&[u8]]) -> Result<Option<ScriptLine>, Memory>
    ensures { IfOk result (λ found. found ≡ spec.place_line (map (λ word. word.now) words.now)) }
{
    let [target, keyspace] = words else {
        return Ok(None);
    };
    let Some(target) = target_of(alloc, target)? else {
        return Ok(None);
    };
    let keyspace = Name::from_bytes(alloc, keyspace)?;
    Ok(keyspace.map(|keyspace| ScriptLine::Place(target, keyspace)))
}

/// The line `nodes TARGET`, from the words after the first. Returns `None` for other words.
#[tactic(auto, unfolding(crate::specs::Grammar::nodes_line))]
fn nodes_line(alloc: Global, words: &[&[u8]]) -> Result<Option<ScriptLine>, Memory>
    ensures { IfOk result (λ found. found ≡ spec.nodes_line (map (λ word. word.now) words.now)) }
{
    let [target] = words else {
        return Ok(None);
    };
    let target = target_of(alloc, target)?;
    Ok(target.map(ScriptLine::Nodes))
}

/// The line `quorum TARGET KS TOKEN`, from the words after the first. Returns `None` for other words.
#[tactic(auto, unfolding(crate::specs::Grammar::quorum_line))]
fn quorum_line(alloc: Global, words: &[&[u8]]) -> Result<Option<ScriptLine>, Memory>
    ensures { IfOk result (λ found. found ≡ spec.quorum_line (map (λ word. word.now) words.now)) }
{
    let [target, keyspace, token] = words else {
        return Ok(None);
    };
    let Some(target) = target_of(alloc, target)? else {
        return Ok(None);
    };
    let Some(token) = token_of(token) else {
        return Ok(None);
    };
    let keyspace = Name::from_bytes(alloc, keyspace)?;
    Ok(keyspace.map(|keyspace| ScriptLine::Quorum(target, keyspace, token)))
}

/// The line `local TARGET KS DC TOKEN`, from the words after the first. Returns `None` for other words.
#[tactic(auto, unfolding(crate::specs::Grammar::local_line))]
fn local_line(alloc: Global, words: &[&[u8]]) -> Result<Option<ScriptLine>, Memory>
    ensures { IfOk result (λ found. found ≡ spec.local_line (map (λ word. word.now) words.now)) }
{
    let [target, keyspace, dc, token] = words else {
        return Ok(None);
    };
    let Some(target) = target_of(alloc, target)? else {
        return Ok(None);
    };
    let Some(token) = token_of(token) else {
        return Ok(None);
    };
    let Some(keyspace) = Name::from_bytes(alloc, keyspace)? else {
        return Ok(None);
    };
    let dc = Name::from_bytes(alloc, dc)?;
    Ok(dc.map(|dc| ScriptLine::Local(target, keyspace, dc, token)))
}

/// The target of a query: `@` and an epoch, or the name of a follower. Returns `None` for any other word.
#[tactic(auto, unfolding(crate::specs::Grammar::target_of))]
fn target_of(alloc: Global, text: &[u8]) -> Result<Option<Target>, Memory>
    ensures { IfOk result (λ found. found ≡ spec.target_of text.now) }
{
    match text {
        [b'@', epoch @ ..] => Ok(number_of(epoch).map(Target::Epoch)),
        _ => {
            let name = Name::from_bytes(alloc, text)?;
            Ok(name.map(Target::Named))
        }
    }
}
