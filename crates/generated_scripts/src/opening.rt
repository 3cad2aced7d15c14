//! The opening of the generated script: 24 nodes, two keyspaces and a follower.

ghost use Rattle.std.specs.Prelude.{◌≡◌, ◌≤◌, OnOk};
ghost use Rattle.generated_scripts.specs.Generated.{after_line, after_lines};
ghost use Rattle.generated_scripts.specs.GeneratedLines as spec;

use crate::command_lines::NewNode;
use crate::generation::Generation;
use cluster_terms::{Memory, Token};
use std::alloc::Global;

/// Registers node `i`, from 1 to 24. Odd nodes are in dc1, and even nodes in dc2. Nodes 1 and 2 are in rack r1, 3 and 4
/// in r2, 5 and 6 in r3, 7 and 8 in r1 again, and so on.
fn register_node(generation: &mut Generation, alloc: Global, i: u64) -> Result<(), Memory>
    requires first { 1 ≤ i }
    requires last { i ≤ 24 }
    ensures { OnOk result (generation.new ≡ after_line generation.old (spec.register_line i)) }
{
    let node = NewNode {
        letter: b"n",
        number: i,
        dc: 2 - i % 2,
        rack: (i - 1) / 2 % 3 + 1,
    };
    generation.register(alloc, i, &node)
}

/// Registers the nodes 1 to `count`.
fn register_nodes(generation: &mut Generation, alloc: Global, count: u64) -> Result<(), Memory>
    requires { count ≤ 24 }
    ensures { OnOk result (generation.new ≡ after_lines generation.old (spec.register_lines count)) }
{
    let mut i = 1;
    while i <= count {
        register_node(generation, alloc, i)?;
        i += 1;
    }
    Ok(())
}

/// The token of node `i`: -8000000000000000000, and 700000000000000000 more for each node before it. All values on the
/// way are tokens, so nothing overflows.
fn opening_token(i: u64) -> Token
    requires first { 1 ≤ i }
    requires last { i ≤ 24 }
    ensures { result ≡ spec.opening_token i }
{
    Token::new((i as i64 - 12) * 700_000_000_000_000_000 - 300_000_000_000_000_000)
}

fn join_node(generation: &mut Generation, alloc: Global, i: u64) -> Result<(), Memory>
    requires first { 1 ≤ i }
    requires last { i ≤ 24 }
    ensures { OnOk result (generation.new ≡ after_line generation.old (spec.join_line i)) }
{
    generation.commit_token(alloc, 24 + i, b"unsafe-join", i, opening_token(i))
}

/// Joins the nodes 1 to `count`.
fn join_nodes(generation: &mut Generation, alloc: Global, count: u64) -> Result<(), Memory>
    requires { count ≤ 24 }
    ensures { OnOk result (generation.new ≡ after_lines generation.old (spec.join_lines count)) }
{
    let mut i = 1;
    while i <= count {
        join_node(generation, alloc, i)?;
        i += 1;
    }
    Ok(())
}

/// Makes two keyspaces and a follower.
#[tactic(auto, unfolding(crate::specs::GeneratedLines::keyspace_lines))]
fn make_keyspaces(generation: &mut Generation, alloc: Global) -> Result<(), Memory>
    ensures { OnOk result (generation.new ≡ after_lines generation.old spec.keyspace_lines) }
{
    generation.answer(alloc, b"commit 49 keyspace ks simple 3")?;
    generation.answer(alloc, b"commit 50 keyspace kt topology dc1:2 dc2:2")?;
    generation.answer(alloc, b"follower f")
}

/// Answers the lines of the opening.
pub fn open(generation: &mut Generation, alloc: Global) -> Result<(), Memory>
    ensures { OnOk result (generation.new ≡ after_lines generation.old spec.opening_lines) }
{
    register_nodes(generation, alloc, 24)?;
    join_nodes(generation, alloc, 24)?;
    make_keyspaces(generation, alloc)?;
    generation.deliver_down(alloc, 0, 50)
}
