//! Typed values at the keys of a JSON object.

ghost use Rattle.std.specs.Prelude.{◌≡◌, map, option_map, IfOk};
ghost use Rattle.serde_json.specs.View.{members_view, view};
ghost use Rattle.wire_json.specs.code.ObjectMembers.{name_in, replication_in};
ghost use Rattle.wire_json.specs.Values as spec;

use cluster_terms::{Memory, Name, NodeId, Replication, Token};
use serde_json::{Map, Value};
use std::alloc::Global;

/// Whether an object has exactly these keys. The keys are given in ascending order.
fn same_keys(members: &Map<String, Value>, keys: &[&str]) -> bool
    ensures { result ≡ spec.are_keys (map (λ key. key.now) keys.now) (members_view members.now.entries) }
{
    let mut found = members.keys();
    for wanted in keys {
        match found.next() {
            Some(key) if key.as_str() == *wanted => {}
            _ => return false,
        }
    }
    found.next().is_none()
}

/// Whether a value is an object with exactly these keys. The keys are given in ascending order.
pub fn has_keys(value: &Value, keys: &[&str]) -> bool
    ensures { result ≡ spec.has_keys (map (λ key. key.now) keys.now) (view value.now) }
{
    match value.as_object() {
        Some(members) => same_keys(members, keys),
        None => false,
    }
}

/// The text at a key, or `None` if no text is there.
pub fn text_at<'v>(value: &'v Value, key: &str) -> Option<&'v str>
    ensures { option_map (λ text. text.now) result ≡ spec.text_at key.now (view value.now) }
{
    value.get(key)?.as_str()
}

/// The whole number below 2^64 at a key.
pub fn number_at(value: &Value, key: &str) -> Option<u64>
    ensures { result ≡ spec.number_at key.now (view value.now) }
{
    value.get(key)?.as_u64()
}

/// True or false at a key.
pub fn flag_at(value: &Value, key: &str) -> Option<bool>
    ensures { result ≡ spec.flag_at key.now (view value.now) }
{
    value.get(key)?.as_bool()
}

/// The node with this number, if the number is below 2^32.
fn node_by(number: u64) -> Option<NodeId>
    ensures { result ≡ spec.node_by number }
{
    let id = u32::try_from(number).ok()?;
    Some(NodeId(id))
}

/// The node in a value: a whole number below 2^32.
pub fn node_in(value: &Value) -> Option<NodeId>
    ensures { result ≡ spec.node_in (view value.now) }
{
    node_by(value.as_u64()?)
}

/// The node at a key: a whole number below 2^32.
pub fn node_at(value: &Value, key: &str) -> Option<NodeId>
    ensures { result ≡ spec.node_at key.now (view value.now) }
{
    node_by(number_at(value, key)?)
}

/// The name in a value, or `None` if the value isn't the text of a name.
pub fn name_in(alloc: Global, value: &Value) -> Result<Option<Name>, Memory>
    ensures { IfOk result (λ found. found ≡ name_in (view value.now)) }
{
    match value.as_str() {
        Some(text) => Name::from_text(alloc, text),
        None => Ok(None),
    }
}

/// The name at a key, or `None` if no valid name is there.
pub fn name_at(alloc: Global, value: &Value, key: &str) -> Result<Option<Name>, Memory>
    ensures { IfOk result (λ found. found ≡ spec.name_at key.now (view value.now)) }
{
    match value.get(key) {
        Some(name) => name_in(alloc, name),
        None => Ok(None),
    }
}

/// The replication in a value, or `None` if the value isn't the text of a replication.
pub fn replication_in(alloc: Global, value: &Value) -> Result<Option<Replication>, Memory>
    ensures { IfOk result (λ found. found ≡ replication_in (view value.now)) }
{
    match value.as_str() {
        Some(text) => Replication::parse(alloc, text),
        None => Ok(None),
    }
}

/// The replication at a key, or `None` if no text of a replication is there.
pub fn replication_at(
    alloc: Global,
    value: &Value,
    key: &str,
) -> Result<Option<Replication>, Memory>
    ensures { IfOk result (λ found. found ≡ spec.replication_at key.now (view value.now)) }
{
    match value.get(key) {
        Some(replication) => replication_in(alloc, replication),
        None => Ok(None),
    }
}

/// The token in a value: a whole number from -2^63 to 2^63 - 1.
pub fn token_of(value: &Value) -> Option<Token>
    ensures { result ≡ spec.token_of (view value.now) }
{
    value.as_i64().map(Token::new)
}
