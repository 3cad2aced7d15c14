//! Reads the tokens of a command from a JSON list.

ghost use Rattle.std.specs.Prelude.{◌≡◌, IfOk};
ghost use Rattle.serde_json.specs.View.{items_view, view};
ghost use Rattle.transformations.specs.History as history;
ghost use Rattle.wire_json.specs.code.ObjectMembers.{tokens_in};
ghost use Rattle.wire_json.specs.Values as spec;

use crate::json_lists::each_of;
use cluster_terms::{Memory, Token, TokenList};
use serde_json::Value;
use std::alloc::Global;

/// The most tokens that a command may give to a node.
const MOST_TOKENS: usize = 256;

/// Whether the tokens ascend: each is below the next.
fn ascend(tokens: &[Token]) -> bool
    ensures { result ≡ history.ascend tokens.now }
{
    for at in 1..tokens.len() {
        if tokens[at] <= tokens[at - 1] {
            return false;
        }
    }
    true
}

/// The tokens in a list of values, or `None` unless they are 1 to 256 tokens that ascend. A list of more than 256
/// values is refused before any value is read.
#[tactic(auto, using(crate::proofs::json_values::TokenItems::no_list, crate::proofs::json_values::TokenItems::list_by_order))]
fn list_of(alloc: Global, values: &Vec<Value>) -> Result<Option<TokenList>, Memory>
    ensures { IfOk result (λ found. found ≡ spec.list_of (items_view values.now.items)) }
{
    if values.is_empty() || MOST_TOKENS < values.len() {
        return Ok(None);
    }
    match each_of::<Token>(alloc, values)? {
        Some(tokens) if ascend(tokens.as_slice()) => Ok(Some(tokens)),
        _ => Ok(None),
    }
}

/// The tokens in a value, or `None` unless it is a list of 1 to 256 tokens that ascend.
pub fn tokens_in(alloc: Global, value: &Value) -> Result<Option<TokenList>, Memory>
    ensures { IfOk result (λ found. found ≡ tokens_in (view value.now)) }
{
    match value.as_array() {
        Some(values) => list_of(alloc, values),
        None => Ok(None),
    }
}
