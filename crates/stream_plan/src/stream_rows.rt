ghost use Rattle.std.specs.Prelude.{◌≡◌, ◌++◌, None, IfOk, OnOk};
ghost use Rattle.std.specs.List.{AllByRecursion};
ghost use Rattle.cluster_terms.specs.Arc.{IsToken};
ghost use Rattle.cluster_terms.specs.Replication.{groups_of};
ghost use Rattle.cluster_terms.specs.Row.{last_token};
ghost use Rattle.stream_plan.specs.code.RowSteps as spec;
ghost use Rattle.stream_plan.specs.Streams.{row_for, rows_in};

use crate::grouping::Grouping;
use crate::map_changes::MapChanges;
use crate::replaced::Replaced;
use crate::sources::streams_from;
use crate::stream_row::{StreamRow, StreamRows};
use cluster_terms::{Memory, NodeId, RightEnd, Token, TokenRange, TryCopy};
use node_sets::NodeSet;
use range_placements::{PlacementRow, with_change};

fn stream_row(
    grouping: &Grouping,
    replaced: &Replaced,
    range: TokenRange,
    to: NodeId,
) -> Result<StreamRow, Memory>
    ensures { IfOk result
        (λ row. row
        ≡ row_for (groups_of grouping.now.directory.now.rows grouping.now.replication.now) range
        replaced.now.before.now replaced.now.gained.now replaced.now.lost.now to) }
{
    let from = streams_from(grouping, replaced, to)?;
    Ok(StreamRow {
        left: range.left,
        right: range.right,
        to,
        from,
    })
}

/// Adds the rows of a range: one for each gained node.
fn push_range(
    rows: &mut StreamRows,
    grouping: &Grouping,
    replaced: &Replaced,
    range: TokenRange,
) -> Result<(), Memory>
    ensures { OnOk result
        (rows.new
        ≡ rows.old
        ++ rows_in (groups_of grouping.now.directory.now.rows grouping.now.replication.now) range
        replaced.now.before.now replaced.now.gained.now replaced.now.lost.now) }
{
    for to in replaced.gained.ids() {
        rows.push(stream_row(grouping, replaced, range, *to)?)?;
    }
    Ok(())
}

/// The nodes placed before a movement, by the nodes that are read and those that the movement adds and takes away.
fn placed_first(
    is_read: bool,
    reads: &NodeSet,
    gained: &NodeSet,
    lost: &NodeSet,
) -> Result<NodeSet, Memory>
    ensures { IfOk result (λ before. before ≡ spec.placed_first is_read reads.now gained.now lost.now) }
{
    if is_read {
        with_change(reads, lost, gained)
    } else {
        reads.copy()
    }
}

/// The left end of the next row.
fn left_after(right: RightEnd) -> Option<Token>
    ensures { result ≡ spec.left_after right }
{
    match right {
        RightEnd::At(token) => Some(token),
        RightEnd::Max => None,
    }
}

/// Adds the rows of one row of a placement map, which begins at a left end. Copies no set if it gains no node.
fn push_row(
    rows: &mut StreamRows,
    grouping: &Grouping,
    changes: &MapChanges,
    left: Option<Token>,
    row: &PlacementRow,
) -> Result<(), Memory>
    ensures rows { OnOk result
        (rows.new
        ≡ rows.old
        ++ spec.rows_at (groups_of grouping.now.directory.now.rows grouping.now.replication.now)
        changes.now.is_read changes.now.delta.now left row.now) }
    ensures token { OnOk result (IsToken (last_token row.now.right)) }
{
    let last = row.last_token().copy()?;
    let (gained, lost) = changes.delta.at(last);
    if gained.is_empty() {
        return Ok(());
    }
    let before = placed_first(changes.is_read, &row.reads, gained, lost)?;
    let replaced = Replaced {
        before: &before,
        gained,
        lost,
    };
    let range = TokenRange {
        left,
        right: row.right,
    };
    push_range(rows, grouping, &replaced, range)
}

/// The stream plan of a movement that changes a placement map so. Its rows stand between the cuts of the image, since
/// cuts come and go after the movement is planned. The delta is looked up at their last tokens.
pub(crate) fn rows_by(
    grouping: &Grouping,
    changes: &MapChanges,
    map: &[PlacementRow],
) -> Result<StreamRows, Memory>
    ensures rows { IfOk result
        (λ rows. rows
        ≡ spec.rows_by (groups_of grouping.now.directory.now.rows grouping.now.replication.now)
        changes.now.is_read changes.now.delta.now None map.now) }
    ensures tokens { OnOk result (AllByRecursion (λ row. IsToken (last_token row.right)) map.now) }
{
    let mut rows = StreamRows::empty(grouping.alloc);
    let mut left = None;
    for row in map {
        push_row(&mut rows, grouping, changes, left, row)?;
        left = left_after(row.right);
    }
    Ok(rows)
}
