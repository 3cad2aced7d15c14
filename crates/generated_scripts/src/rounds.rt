//! The rounds of the generated script: in each, two nodes join and leave again.

ghost use Rattle.std.specs.Prelude.{◌≡◌, ◌<◌, ◌≤◌, ◌^◌, length, map, OnOk};
ghost use Rattle.generated_scripts.specs.Generated.{after_lines};
ghost use Rattle.generated_scripts.specs.GeneratedLines as spec;

use crate::command_lines::NewNode;
use crate::draw::{drawn, drawn_token};
use crate::generation::Generation;
use cluster_terms::Memory;
use std::alloc::Global;

/// The words of the steps in which a node joins and leaves again, once its join is prepared.
const STEP_WORDS: [&[u8]; 8] = [
    b"start-join",
    b"mid-join",
    b"finish-join",
    b"prepare-leave",
    b"start-leave",
    b"mid-leave",
    b"finish-leave",
    b"unregister",
];

/// Commits each of these words on a node and on the next one, with ids from `first` on.
fn commit_steps(
    generation: &mut Generation,
    alloc: Global,
    first: u64,
    node: u64,
    words: &[&[u8]],
) -> Result<(), Memory>
    requires ids { first ≤ 2 ^ 32 }
    requires nodes { node ≤ 2 ^ 32 }
    requires words { length words.now ≤ 8 }
    ensures { OnOk result (generation.new ≡ after_lines generation.old
        (spec.step_lines first node (map (λ word. word.now) words.now))) }
{
    let mut id = first;
    for word in words {
        generation.commit_node(alloc, id, word, node)?;
        generation.commit_node(alloc, id + 1, word, node + 1)?;
        id += 2;
    }
    Ok(())
}

/// Answers the commits of round `j`, whose tokens are drawn after `s`.
fn commit_round(generation: &mut Generation, alloc: Global, s: u64, j: u64) -> Result<(), Memory>
    requires draw { s < 2 ^ 31 }
    requires round { j ≤ 3000 }
    ensures { OnOk result (generation.new ≡ after_lines generation.old (spec.round_commits s j)) }
{
    let id = 31 + 20 * j;
    let node = 23 + 2 * j;
    let first = drawn(s);
    let second = drawn(first);
    let first_node = NewNode {
        letter: b"a",
        number: j,
        dc: 1,
        rack: 1,
    };
    let second_node = NewNode {
        letter: b"b",
        number: j,
        dc: 2,
        rack: 2,
    };
    generation.register(alloc, id, &first_node)?;
    generation.register(alloc, id + 1, &second_node)?;
    generation.commit_token(alloc, id + 2, b"prepare-join", node, drawn_token(first))?;
    generation.commit_token(
        alloc,
        id + 3,
        b"prepare-join",
        node + 1,
        drawn_token(second),
    )?;
    commit_steps(generation, alloc, id + 4, node, &STEP_WORDS)
}

/// Answers the lines of round `j`: its commits, and the deliveries of the epochs that they commit.
fn run_round(generation: &mut Generation, alloc: Global, s: u64, j: u64) -> Result<(), Memory>
    requires draw { s < 2 ^ 31 }
    requires round { j ≤ 3000 }
    ensures { OnOk result (generation.new
        ≡ after_lines generation.old (spec.round_lines generation.old.session s j)) }
{
    let before = generation.session.last_epoch();
    commit_round(generation, alloc, s, j)?;
    let last = generation.session.last_epoch();
    generation.deliver_down(alloc, before, last)
}

/// Answers the lines of the rounds 1 to `rounds`, whose tokens are drawn after `first`.
pub fn run_rounds(
    generation: &mut Generation,
    alloc: Global,
    first: u64,
    rounds: u64,
) -> Result<(), Memory>
    requires draw { first < 2 ^ 31 }
    requires rounds { rounds ≤ 3000 }
    ensures { OnOk result (generation.new
        ≡ after_lines generation.old (spec.rounds_lines generation.old.session first 1 rounds)) }
{
    let mut s = first;
    let mut j = 1;
    while j <= rounds {
        run_round(generation, alloc, s, j)?;
        s = drawn(drawn(s));
        j += 1;
    }
    Ok(())
}
