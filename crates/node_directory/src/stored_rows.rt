//! Rows stored under the names of their nodes.
ghost use Rattle.std.specs.Prelude.{◌≡◌, ◌+◌, ◌≤◌, false, ◌++◌, [], ◌∷◌, ◌↔◌, IsTrue, IsSome, IfSome, IfOk, OnOk};
ghost use Rattle.std.specs.Map.{values_of};
ghost use Rattle.std.specs.Set.{is_member};
ghost use Rattle.std.specs.Str.{bytes_eq};
ghost use Rattle.indexmap.specs.IndexMap.{spare};
ghost use Rattle.node_directory.specs.Directory.{are_ascending, names_are_distinct, ids_of, node_names};
ghost use Rattle.node_directory.specs.code.StoredRows.{AreNamed};

use cluster_terms::{Memory, Name, NodeRow, TryCopy};
use indexmap::IndexMap;
use std::alloc::Global;

/// Whether the ids ascend, begin at 1 or more, and are below `next`.
#[tactic(auto, using(crate::proofs::NodeRows::ascending_more))]
pub(crate) fn ids_ascend(rows: &[NodeRow], next: u32) -> bool
    ensures { result ≡ are_ascending 1 (ids_of rows.now) next }
{
    let mut least = 1;
    for row in rows {
        let id = row.id.0;
        if id < least || id >= next {
            return false;
        }
        least = id + 1;
    }
    true
}

/// Adds a copy of a row at the end, under its name. No row has this name yet. Uses the place of one row.
pub(crate) fn push_copy(nodes: &mut IndexMap<String, NodeRow>, row: &NodeRow) -> Result<(), Memory>
    requires named { AreNamed nodes.old.entries }
    requires free { is_member bytes_eq (node_names (values_of nodes.old.entries)) row.now.name ≡ false }
    ensures named { AreNamed nodes.new.entries }
    ensures rows { OnOk result (values_of nodes.new.entries ≡ values_of nodes.old.entries ++ row.now ∷ []) }
    ensures spare { spare nodes.old ≤ spare nodes.new + 1 }
{
    let name = String::from_str(*nodes.allocator(), row.name.as_str())?;
    nodes.insert(name, row.copy()?)?;
    Ok(())
}

fn has_name(nodes: &IndexMap<String, NodeRow>, name: &Name) -> bool
    requires { AreNamed nodes.now.entries }
    ensures { result ≡ is_member bytes_eq (node_names (values_of nodes.now.entries)) name.now }
{
    nodes.contains_key(name.as_str())
}

/// Copies of the rows, by name, and room for `more`. Returns `None` if and only if two rows have the same name.
#[tactic(auto, using(crate::proofs::NodeRows::row_steps))]
pub(crate) fn by_name(
    alloc: Global,
    rows: &[NodeRow],
    more: usize,
) -> Result<Option<IndexMap<String, NodeRow>>, Memory>
    requires { more ≤ 64 }
    ensures distinct { IfOk result (λ found.
        IsSome found ↔ IsTrue (names_are_distinct (node_names rows.now))) }
    ensures named { IfOk result (λ found. IfSome found (λ nodes. AreNamed nodes.entries)) }
    ensures rows { IfOk result (λ found. IfSome found (λ nodes. values_of nodes.entries ≡ rows.now)) }
    ensures spare { IfOk result (λ found. IfSome found (λ nodes. more ≤ spare nodes)) }
{
    let mut nodes = IndexMap::with_capacity(alloc, rows.len() + more)?;
    for row in rows {
        if has_name(&nodes, &row.name) {
            return Ok(None);
        }
        push_copy(&mut nodes, row)?;
    }
    Ok(Some(nodes))
}
