ghost use Rattle.std.specs.Prelude.{◌≡◌, [], ◌∷◌, not, option_map, IfOk, IsTrue, MatchOption};
ghost use Rattle.std.specs.List.{list_any};
ghost use Rattle.std.specs.Ordering.{int_eq};
ghost use Rattle.transformations.specs.Refusals.{may_move_or_leave, has_keyspace, in_sequence, may_join, may_be_removed, is_registered, is_taken, keyspaces_full, name_taken, no_keyspace, no_node, no_sequence, nodes_full, not_idle, first_of, early_refusal_of, refused_if, token_taken, tokens_full, wrong_state, wrong_step};
ghost use Rattle.transformations.specs.States.{node_state};
ghost use Rattle.transformations.specs.Valid.{IsSound};
ghost use Rattle.transformations.specs.declared.command.Command.TheVariants as command;

use crate::command::Command;
use crate::image::Image;
use crate::movement_search::{is_next_step, movement_of, takes_part};
use crate::node_search::row_among;
use crate::pair_search::finds;
use crate::prepares::{no_tokens, not_one_token, other_rack, too_few_left, too_few_nodes};
use crate::refusal::Refusal;
use crate::sequence::{Goal, Kind, SeqRow};
use crate::state::{NodeState, state_of};
use crate::token_count::{count_all, tokens_with};
use cluster_terms::{Memory, Name, NodeId, Pair, Replication, Token};
use std::alloc::Global;

/// The greatest number of nodes in a cluster.
const MOST_NODES: usize = 1_024;

/// The greatest number of tokens.
const MOST_TOKENS: usize = 16_384;

/// The greatest number of keyspaces.
const MOST_KEYSPACES: usize = 64;

/// Returns the refusal if the test is true.
pub(crate) fn refused_if(test: bool, refusal: Refusal) -> Option<Refusal>
    ensures { result ≡ refused_if test refusal }
{
    if test { Some(refusal) } else { None }
}

/// `NameTaken` with the node that has this name, if there is one.
fn name_taken(image: &Image, name: &Name) -> Option<Refusal>
    ensures { result ≡ name_taken image.now name.now }
{
    image
        .nodes
        .as_slice()
        .iter()
        .find(|row| row.name.as_str() == name.as_str())
        .map(|row| Refusal::NameTaken(row.id))
}

/// `NodesFull` if the greatest number of nodes is registered.
fn nodes_full(image: &Image) -> Option<Refusal>
    ensures { result ≡ nodes_full image.now }
{
    refused_if(
        MOST_NODES <= image.nodes.as_slice().len(),
        Refusal::NodesFull,
    )
}

fn is_registered(image: &Image, n: NodeId) -> bool
    requires { IsSound image.now }
    ensures { result ≡ is_registered image.now n }
{
    row_among(image.nodes.as_slice(), n).is_some()
}

/// `NoNode` if the node isn't registered.
fn no_node(image: &Image, n: NodeId) -> Option<Refusal>
    requires { IsSound image.now }
    ensures { result ≡ no_node image.now n }
{
    refused_if(!is_registered(image, n), Refusal::NoNode)
}

/// Whether a node in this state may be given tokens: it is `Registered`.
fn may_join(state: NodeState) -> bool
    ensures { result ≡ may_join state }
{
    matches!(state, NodeState::Registered)
}

/// Whether a node in this state may move or leave: it is `Joined`.
fn may_move_or_leave(state: NodeState) -> bool
    ensures { result ≡ may_move_or_leave state }
{
    matches!(state, NodeState::Joined)
}

/// Whether a node in this state may be removed: it is `Registered` or `Left`.
fn may_be_removed(state: NodeState) -> bool
    ensures { result ≡ may_be_removed state }
{
    matches!(state, NodeState::Registered | NodeState::Left)
}

/// `WrongState` with the node's state, if this state isn't allowed. `None` if the node isn't registered.
fn wrong_state<F: FnOnce(NodeState) -> bool>(
    image: &Image,
    n: NodeId,
    allowed: F,
) -> Option<Refusal>
    requires sound { IsSound image.now }
    requires callable { F.IsAlwaysCallable allowed }
    ensures { MatchOption (node_state image.now n) (result ≡ None)
        (λ s. (b : _) × F.post allowed s b × (result ≡ refused_if (not b) (Refusal.WrongState s))) }
{
    let row = row_among(image.nodes.as_slice(), n)?;
    let state = state_of(image, row);
    refused_if(!allowed(state), Refusal::WrongState(state))
}

/// `InSequence` with the node of the first movement in which this node takes part.
fn in_sequence(image: &Image, n: NodeId) -> Option<Refusal>
    ensures { result ≡ in_sequence image.now n }
{
    image
        .sequences
        .as_slice()
        .iter()
        .find(|row| takes_part(n, row))
        .map(|row| Refusal::InSequence(row.node))
}

/// `NoSequence` if the node has no movement.
fn no_sequence(image: &Image, n: NodeId) -> Option<Refusal>
    ensures { result ≡ no_sequence image.now n }
{
    refused_if(movement_of(image, n).is_none(), Refusal::NoSequence)
}

/// `WrongStep` with the kind and phase of the node's movement, if this isn't its next step.
fn wrong_step(goal: Goal, kind: Kind, image: &Image, n: NodeId) -> Option<Refusal>
    ensures { result ≡ wrong_step goal kind image.now n }
{
    let row = movement_of(image, n)?;
    refused_if(
        !is_next_step(goal, kind, row),
        Refusal::WrongStep(row.kind, row.phase),
    )
}

/// `NotIdle` with the node of the first movement. Movements ascend by node, so this is the least node that has one.
fn not_idle(sequences: &[SeqRow]) -> Option<Refusal>
    ensures { result ≡ not_idle sequences.now }
{
    let first = sequences.first()?;
    Some(Refusal::NotIdle(first.node))
}

fn has_token(pairs: &[Pair], token: Token) -> bool
    ensures { result ≡ list_any (λ p. int_eq p.token token) pairs.now }
{
    pairs.iter().any(|pair| pair.token == token)
}

fn is_brought(sequences: &[SeqRow], token: Token) -> bool
    ensures { result ≡ list_any (λ s. list_any (λ p. int_eq p.token token) s.in_pairs) sequences.now }
{
    sequences
        .iter()
        .any(|row| has_token(row.in_pairs.as_slice(), token))
}

/// Whether a token is in the ring, or a movement in flight brings it.
fn is_taken(image: &Image, token: Token) -> bool
    requires { IsSound image.now }
    ensures { result ≡ is_taken image.now token }
{
    finds(image.tokens.as_slice(), token) || is_brought(image.sequences.as_slice(), token)
}

/// `TokenTaken` with the first of these tokens that is taken. For k tokens, the cost is k binary searches in the pairs
/// of the ring, and k passes over the pairs that movements bring.
fn token_taken(image: &Image, tokens: &[Token]) -> Option<Refusal>
    requires { IsSound image.now }
    ensures { result ≡ token_taken image.now tokens.now }
{
    tokens
        .iter()
        .find(|token| is_taken(image, **token))
        .map(|token| Refusal::TokenTaken(*token))
}

fn has_keyspace(image: &Image, name: &Name) -> bool
    ensures { result ≡ has_keyspace image.now name.now }
{
    image
        .keyspaces
        .as_slice()
        .iter()
        .any(|row| row.name.as_str() == name.as_str())
}

/// `NoKeyspace` if no keyspace has this name.
fn no_keyspace(image: &Image, name: &Name) -> Option<Refusal>
    ensures { result ≡ no_keyspace image.now name.now }
{
    refused_if(!has_keyspace(image, name), Refusal::NoKeyspace)
}

/// `KeyspacesFull` if no keyspace has this name, and there is the greatest number of keyspaces.
fn keyspaces_full(image: &Image, name: &Name) -> Option<Refusal>
    ensures { result ≡ keyspaces_full image.now name.now }
{
    refused_if(
        MOST_KEYSPACES <= image.keyspaces.as_slice().len() && !has_keyspace(image, name),
        Refusal::KeyspacesFull,
    )
}

/// `TokensFull` if there would be too many different tokens. They are sorted and counted only if the pairs of the ring,
/// those that movements bring and these tokens are together too many.
#[tactic(auto, using(crate::proofs::commands::RefusalLemmas::few_tokens))]
fn tokens_full(alloc: Global, image: &Image, tokens: &[Token]) -> Result<Option<Refusal>, Memory>
    ensures { IfOk result (λ found. found ≡ tokens_full image.now tokens.now) }
{
    if count_all(image, tokens) <= MOST_TOKENS {
        return Ok(None);
    }
    let count = tokens_with(alloc, image, tokens)?;
    Ok(refused_if(MOST_TOKENS < count, Refusal::TokensFull))
}

/// The first refusal of a node that isn't registered, takes part in a movement, or isn't in state `Registered`.
fn not_ready(image: &Image, n: NodeId) -> Option<Refusal>
    requires { IsSound image.now }
    ensures { result ≡ first_of
        (no_node image.now n ∷ in_sequence image.now n ∷ wrong_state may_join image.now n ∷ []) }
{
    no_node(image, n)
        .or_else(|| in_sequence(image, n))
        .or_else(|| wrong_state(image, n, may_join))
}

/// The first refusal of a node that isn't registered, takes part in a movement, or isn't in state `Joined`.
fn not_joined(image: &Image, n: NodeId) -> Option<Refusal>
    requires { IsSound image.now }
    ensures { result ≡ first_of
        (no_node image.now n ∷ in_sequence image.now n ∷ wrong_state may_move_or_leave image.now n ∷ []) }
{
    no_node(image, n)
        .or_else(|| in_sequence(image, n))
        .or_else(|| wrong_state(image, n, may_move_or_leave))
}

/// The first refusal of two nodes, if either isn't registered or takes part in a movement.
fn not_both_free(image: &Image, n: NodeId, m: NodeId) -> Option<Refusal>
    requires { IsSound image.now }
    ensures { result ≡ first_of
        (no_node image.now n ∷ no_node image.now m ∷ in_sequence image.now n ∷ in_sequence image.now m ∷ []) }
{
    no_node(image, n)
        .or_else(|| no_node(image, m))
        .or_else(|| in_sequence(image, n))
        .or_else(|| in_sequence(image, m))
}

/// The first refusal of tokens, if any is taken or there would be too many.
fn not_available(alloc: Global, image: &Image, tokens: &[Token]) -> Result<Option<Refusal>, Memory>
    requires { IsSound image.now }
    ensures { IfOk result
        (λ found. found ≡ first_of
        (token_taken image.now tokens.now ∷ tokens_full image.now tokens.now ∷ [])) }
{
    if let Some(refusal) = token_taken(image, tokens) {
        return Ok(Some(refusal));
    }
    tokens_full(alloc, image, tokens)
}

/// The first refusal of tokens, if a movement is in flight or any of the tokens is taken.
fn not_free(image: &Image, tokens: &[Token]) -> Option<Refusal>
    requires { IsSound image.now }
    ensures { result ≡ first_of (not_idle image.now.sequences ∷ token_taken image.now tokens.now ∷ []) }
{
    not_idle(image.sequences.as_slice()).or_else(|| token_taken(image, tokens))
}

/// The first refusal of `Register`.
fn register(image: &Image, name: &Name) -> Option<Refusal>
    ensures { result ≡ first_of (name_taken image.now name.now ∷ nodes_full image.now ∷ []) }
{
    name_taken(image, name).or_else(|| nodes_full(image))
}

/// The first refusal of `Register`, as `early_refusal` gives it, for a caller that has looked up its name: `owner` is
/// the node that has this name, if there is one.
pub fn register_refusal(image: &Image, owner: Option<NodeId>) -> Option<Refusal>
    ensures { result ≡ first_of (option_map Refusal.NameTaken owner ∷ nodes_full image.now ∷ []) }
{
    match owner {
        Some(node) => Some(Refusal::NameTaken(node)),
        None => nodes_full(image),
    }
}

/// The first refusal of `Unregister`.
fn unregister(image: &Image, n: NodeId) -> Option<Refusal>
    requires { IsSound image.now }
    ensures { result ≡ first_of
        (no_node image.now n ∷ in_sequence image.now n ∷ wrong_state may_be_removed image.now n ∷ []) }
{
    no_node(image, n)
        .or_else(|| in_sequence(image, n))
        .or_else(|| wrong_state(image, n, may_be_removed))
}

/// The first refusal of `Keyspace`, apart from `KeyspaceLocked`.
#[tactic(auto, unfolding(crate::specs::Refusals::early_refusal_of))]
fn keyspace(
    image: &Image,
    name: &Name,
    replication: &Replication,
) -> Result<Option<Refusal>, Memory>
    requires { IsSound image.now }
    ensures { IfOk result
        (λ found. found ≡ early_refusal_of image.now (command.Keyspace name.now replication.now)) }
{
    if let Some(refusal) = keyspaces_full(image, name) {
        return Ok(Some(refusal));
    }
    too_few_left(image, name, replication)
}

/// The first refusal of `Cancel`.
fn cancel(image: &Image, n: NodeId) -> Option<Refusal>
    requires { IsSound image.now }
    ensures { result ≡ first_of (no_node image.now n ∷ no_sequence image.now n ∷ []) }
{
    no_node(image, n).or_else(|| no_sequence(image, n))
}

/// The first refusal of `Step`.
fn step(image: &Image, goal: Goal, kind: Kind, n: NodeId) -> Option<Refusal>
    requires { IsSound image.now }
    ensures { result ≡ first_of
        (no_node image.now n ∷ no_sequence image.now n ∷ wrong_step goal kind image.now n ∷ []) }
{
    cancel(image, n).or_else(|| wrong_step(goal, kind, image, n))
}

/// The first refusal of `UnsafeJoin`.
#[tactic(auto, unfolding(crate::specs::Refusals::early_refusal_of))]
fn unsafe_join(
    alloc: Global,
    image: &Image,
    node: NodeId,
    tokens: &[Token],
) -> Result<Option<Refusal>, Memory>
    requires { IsSound image.now }
    ensures { IfOk result (λ found. found ≡ early_refusal_of image.now (command.UnsafeJoin node tokens.now)) }
{
    if let Some(refusal) = not_ready(image, node) {
        return Ok(Some(refusal));
    }
    if let Some(refusal) = not_free(image, tokens) {
        return Ok(Some(refusal));
    }
    tokens_full(alloc, image, tokens)
}

/// The first refusal of `PrepareJoin`, apart from `Locked`.
#[tactic(auto, unfolding(crate::specs::Refusals::early_refusal_of))]
fn prepare_join(
    alloc: Global,
    image: &Image,
    node: NodeId,
    tokens: &[Token],
) -> Result<Option<Refusal>, Memory>
    requires { IsSound image.now }
    ensures { IfOk result
        (λ found. found ≡ early_refusal_of image.now (command.PrepareJoin node tokens.now)) }
{
    if let Some(refusal) = not_ready(image, node) {
        return Ok(Some(refusal));
    }
    not_available(alloc, image, tokens)
}

/// The first refusal of `PrepareMove`, apart from `Locked`.
#[tactic(auto, unfolding(crate::specs::Refusals::early_refusal_of))]
fn prepare_move(
    alloc: Global,
    image: &Image,
    node: NodeId,
    token: Token,
) -> Result<Option<Refusal>, Memory>
    requires { IsSound image.now }
    ensures { IfOk result (λ found. found ≡ early_refusal_of image.now (command.PrepareMove node token)) }
{
    if let Some(refusal) = not_joined(image, node) {
        return Ok(Some(refusal));
    }
    if let Some(refusal) = not_one_token(image, node)? {
        return Ok(Some(refusal));
    }
    not_available(alloc, image, &[token])
}

/// The first refusal of `PrepareLeave`, apart from `Locked`.
#[tactic(auto, unfolding(crate::specs::Refusals::early_refusal_of))]
fn prepare_leave(image: &Image, node: NodeId) -> Result<Option<Refusal>, Memory>
    requires { IsSound image.now }
    ensures { IfOk result (λ found. found ≡ early_refusal_of image.now (command.PrepareLeave node)) }
{
    if let Some(refusal) = not_joined(image, node) {
        return Ok(Some(refusal));
    }
    too_few_nodes(image, node)
}

/// The first refusal of `PrepareReplace`, apart from `Locked`.
#[tactic(auto, unfolding(crate::specs::Refusals::early_refusal_of))]
fn prepare_replace(image: &Image, node: NodeId, gone: NodeId) -> Result<Option<Refusal>, Memory>
    requires { IsSound image.now }
    ensures { IfOk result (λ found. found ≡ early_refusal_of image.now (command.PrepareReplace node gone)) }
{
    if let Some(refusal) = not_both_free(image, node, gone) {
        return Ok(Some(refusal));
    }
    if let Some(refusal) = wrong_state(image, node, may_join) {
        return Ok(Some(refusal));
    }
    if let Some(refusal) = no_tokens(image, gone) {
        return Ok(Some(refusal));
    }
    other_rack(image, node, gone)
}

/// The first refusal of a command in an image, apart from `Locked` and `KeyspaceLocked`, which come last and need the
/// ranges of crates above this one. Returns `None` if there is no such refusal. The refusals of a command have an
/// order, and those after the first are not looked for. The image is sound, so its nodes and its tokens ascend.
///
/// `Err` means that memory ran out while tokens were counted, or while the names of a refusal were copied. It
/// also stands for the move of a node with 2^32 tokens or more, but a sound image has no such node.
///
/// Cost: a node is found by a binary search, a name and a keyspace by a pass over the rows, and a movement by a pass
/// over the movements. The state of a node and the number of its tokens cost a pass over the ring. `PrepareReplace`
/// compares the places of its nodes by two passes over the rows. For k tokens of a command, the search for a token that
/// is taken is k binary searches in the ring, and k passes over the pairs that movements bring. All tokens are sorted
/// and counted only if there may be more than 16,384. `PrepareLeave` goes over the pairs of the ring for each group of the
/// node, until it has found one node more than the group is to have replicas; a pair's node costs a binary search unless
/// it is found already. `Keyspace` does the same for each leave in flight.
#[tactic(auto, unfolding(crate::specs::Refusals::early_refusal_of))]
pub fn early_refusal(
    alloc: Global,
    image: &Image,
    command: &Command,
) -> Result<Option<Refusal>, Memory>
    requires { IsSound image.now }
    // Promise: in a sound image, a command's refusals, apart from locked ranges, come in their order, and the first
    // is returned. Guards: refusals.rt, tried.
    // Promise: a node moves only if it has one token. Guards: refusals.rt, tried.
    // Promise: a node doesn't leave a group that has no more nodes with tokens than replicas, and the least keyspace
    // with such a group is shown. Guards: refusals.rt, tried.
    // Promise: a node replaces only a node that has tokens, in its own datacenter and rack. Guards: refusals.rt,
    // tried.
    // Promise: a node that is being replaced takes part in that movement. Guards: refusals.rt, tried.
    // Promise: a node that has tokens isn't removed, `unsafe-join` is refused while a movement is in flight, and a
    // keyspace is found by its name alone. Guards: refusals.rt.
    // Promise: a token is taken if it is in the ring, or if a movement brings it. Guards: refusals.rt, tried.
    // Promise: a step that isn't the next one of the node's movement, or of another kind, is refused. Guards:
    // refusals.rt, tried.
    // Promise: there are at most 1,024 nodes, 64 keyspaces and 16,384 tokens, equal tokens count once, and at 64
    // keyspaces each can still be changed. Guards: limits.rt, tried.
    ensures { IfOk result (λ found. found ≡ early_refusal_of image.now command.now) }
{
    match command {
        Command::Register { name, .. } => Ok(register(image, name)),
        Command::Unregister { node } => Ok(unregister(image, *node)),
        Command::UnsafeJoin { node, tokens } => unsafe_join(alloc, image, *node, tokens.as_slice()),
        Command::Keyspace { name, replication } => keyspace(image, name, replication),
        Command::DropKeyspace { name } => Ok(no_keyspace(image, name)),
        Command::PrepareJoin { node, tokens } => {
            prepare_join(alloc, image, *node, tokens.as_slice())
        }
        Command::PrepareMove { node, token } => prepare_move(alloc, image, *node, *token),
        Command::PrepareLeave { node } => prepare_leave(image, *node),
        Command::PrepareReplace { node, gone } => prepare_replace(image, *node, *gone),
        Command::Cancel { node } => Ok(cancel(image, *node)),
        Command::Step { goal, kind, node } => Ok(step(image, *goal, *kind, *node)),
    }
}
