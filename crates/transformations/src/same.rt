//! Whether two commands are equal.

ghost use Rattle.std.specs.Prelude.{◌≡◌, ◌↔◌, IsTrue};
ghost use Rattle.std.specs.Cmp.Lexicographic.{pointwise};
ghost use Rattle.std.specs.Ordering.{int_eq};
ghost use Rattle.std.specs.Str.{bytes_eq};
ghost use Rattle.transformations.specs.Same.{same_command, same_movement};

use crate::command::Command;
use cluster_terms::{Name, TokenList};

fn same_name(name: &Name, other: &Name) -> bool
    ensures { result ≡ bytes_eq name.now other.now }
{
    name.as_str() == other.as_str()
}

/// Whether two lists have the same tokens in the same order.
fn same_tokens(tokens: &TokenList, others: &TokenList) -> bool
    ensures { result ≡ pointwise int_eq tokens.now others.now }
{
    tokens.as_slice() == others.as_slice()
}

/// Whether two commands are on a movement and equal in all their fields, as a test of the definitions.
fn test_same_movement(command: &Command, other: &Command) -> bool
    ensures { result ≡ same_movement command.now other.now }
{
    match (command, other) {
        (Command::PrepareJoin { node, tokens }, Command::PrepareJoin { node: n, tokens: t }) => {
            node == n && same_tokens(tokens, t)
        }
        (Command::PrepareMove { node, token }, Command::PrepareMove { node: n, token: t }) => {
            node == n && token == t
        }
        (Command::PrepareLeave { node }, Command::PrepareLeave { node: n }) => node == n,
        (Command::PrepareReplace { node, gone }, Command::PrepareReplace { node: n, gone: g }) => {
            node == n && gone == g
        }
        (
            Command::Step { goal, kind, node },
            Command::Step {
                goal: g,
                kind: k,
                node: n,
            },
        ) => { goal == g && kind == k && node == n }
        (Command::Cancel { node }, Command::Cancel { node: n }) => node == n,
        _ => false,
    }
}

/// Whether two commands are equal in all their fields, as a test of the definitions.
fn test_same(command: &Command, other: &Command) -> bool
    ensures { result ≡ same_command command.now other.now }
{
    match (command, other) {
        (
            Command::Register { name, dc, rack },
            Command::Register {
                name: n,
                dc: d,
                rack: r,
            },
        ) => { same_name(name, n) && same_name(dc, d) && same_name(rack, r) }
        (Command::Unregister { node }, Command::Unregister { node: n }) => node == n,
        (Command::UnsafeJoin { node, tokens }, Command::UnsafeJoin { node: n, tokens: t }) => {
            node == n && same_tokens(tokens, t)
        }
        (
            Command::Keyspace { name, replication },
            Command::Keyspace {
                name: n,
                replication: r,
            },
        ) => { same_name(name, n) && replication.same(r) }
        (Command::DropKeyspace { name }, Command::DropKeyspace { name: n }) => same_name(name, n),
        _ => test_same_movement(command, other),
    }
}

impl Command {
    /// Returns `true` if and only if the other command is equal: the same variant with the same fields. The cost is at
    /// most one comparison of each field.
    #[tactic(auto, using(crate::proofs::commands::SameLemmas::same_command_tells))]
    pub fn same(&self, other: &Command) -> bool
        ensures { IsTrue result ↔ (self.now ≡ other.now) }
    {
        test_same(self, other)
    }
}
