ghost use Rattle.std.specs.Prelude.{◌≡◌, [], ◌∷◌, ◌++◌, IfOk, MatchResult};
ghost use Rattle.range_placements.specs.Exchanging as spec;

use crate::placement_row::PlacementRows;
use cluster_terms::Memory;
use node_sets::NodeSet;
use std::alloc::Global;
use std::marker::Model;

/// New nodes of a row: those that are read, or those that are written. The other set stays.
#[derive(Debug, Drop)]
pub enum NewNodes {
    Reads(NodeSet),
    Writes(NodeSet),
}

/// The new nodes of one row of a placement map.
#[derive(Debug, Drop)]
pub struct RowChange {
    /// The position of the row.
    pub at: usize,
    pub nodes: NewNodes,
}

/// The new nodes of some rows of a placement map.
#[derive(Debug, Drop)]
pub struct RowChanges {
    changes: Vec<RowChange>,
}

impl Model for RowChanges {
    ghost use Rattle.std.specs.Prelude.{List};
    ghost use Rattle.range_placements.specs.declared.row_changes.RowChange.{RowChange};

    ghost Value = { List RowChange };

    ghost view = { λ changes. changes.changes.items };
}

/// Exchanges a set of one row. A position past the last row changes nothing.
fn exchange(rows: &mut PlacementRows, change: RowChange)
    ensures { rows.new.items ≡ spec.with_nodes_at change.at change.nodes rows.old.items }
{
    let RowChange { at, nodes } = change;
    if at < rows.len() {
        match nodes {
            NewNodes::Reads(reads) => rows[at].reads = reads,
            NewNodes::Writes(writes) => rows[at].writes = writes,
        }
    }
}

impl RowChanges {
    /// No change yet.
    pub fn empty(alloc: Global) -> RowChanges
        ensures { result ≡ [] }
    {
        RowChanges {
            changes: Vec::new(alloc),
        }
    }

    /// Adds a change at the end. If memory runs out, the list is unchanged, and the change is dropped.
    pub fn push(&mut self, change: RowChange) -> Result<(), Memory>
        ensures { MatchResult result (λ _. self.new ≡ self.old ++ change ∷ []) (λ _. self.new ≡ self.old) }
    {
        self.changes.push(change)?;
        Ok(())
    }

    /// Makes the changes in these rows.
    pub(crate) fn make(mut self, rows: &mut PlacementRows)
        ensures { rows.new.items ≡ spec.with_changes self rows.old.items }
    {
        while let Some(change) = self.changes.pop() {
            exchange(rows, change);
        }
    }
}
