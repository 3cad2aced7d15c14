//! The placements of a keyspace: a head, and a line for each row of its placement map.

ghost use Rattle.std.specs.Prelude.{◌≡◌, ◌++◌, codes, take, length, None, OnOk};
ghost use Rattle.script_lang.specs.AnswerTexts as spec;

use crate::answer_lists::list_text;
use crate::shown::{Shown, labelled};
use cluster_terms::{ByteText, Memory, Name, NodeId, RightEnd, Token};
use range_placements::{PlacementMap, PlacementRow};

/// Adds the placements of a keyspace, which has this placement map: a head with the number of rows, and a line for each
/// row. A row begins where the row before it ends. As the map is given, this stands on no strategy. If memory runs out,
/// `out` still begins with its old content.
pub fn place_text(
    epoch: u64,
    keyspace: &Name,
    map: &PlacementMap,
    out: &mut ByteText,
) -> Result<(), Memory>
    // Promise: a keyspace's placement map is a head with the number of rows, and each row with the nodes that are read
    // and written. Guards: scripts.rt, tried.
    ensures added { OnOk result (out.new ≡ out.old ++ spec.map_text epoch keyspace.now map.now) }
    ensures kept { take (length out.old) out.new ≡ out.old }
{
    let rows = map.rows();
    add_head(epoch, keyspace, rows.len() as u64, out)?;
    add_rows(rows, out)
}

/// Adds the head, with the number of rows.
fn add_head(epoch: u64, keyspace: &Name, rows: u64, out: &mut ByteText) -> Result<(), Memory>
    ensures added { OnOk result (out.new ≡ out.old ++ spec.place_head epoch keyspace.now rows) }
    ensures kept { take (length out.old) out.new ≡ out.old }
{
    labelled(b"PLACE ", &epoch, out)?;
    labelled(b" ", keyspace, out)?;
    labelled(b" ", &rows, out)?;
    out.extend(b"\n")
}

fn add_rows(rows: &[PlacementRow], out: &mut ByteText) -> Result<(), Memory>
    ensures added { OnOk result (out.new ≡ out.old ++ spec.map_rows_text None rows.now) }
    ensures kept { take (length out.old) out.new ≡ out.old }
{
    let mut left = None;
    for row in rows {
        add_row(left, row, out)?;
        left = Some(row.last_token());
    }
    Ok(())
}

/// Adds the line of a row that begins after this token, or with the least token.
#[tactic(auto, unfolding(crate::specs::AnswerTexts::placed_text))]
fn add_row(left: Option<Token>, row: &PlacementRow, out: &mut ByteText) -> Result<(), Memory>
    ensures added { OnOk result (out.new ≡ out.old ++ spec.map_row_text left row.now) }
    ensures kept { take (length out.old) out.new ≡ out.old }
{
    add_ends(left, row.right, out)?;
    add_nodes(row.reads.ids(), row.writes.ids(), out)
}

fn add_ends(left: Option<Token>, right: RightEnd, out: &mut ByteText) -> Result<(), Memory>
    ensures added { OnOk result (out.new ≡ out.old
        ++ (codes "(" ++ spec.left_text left ++ codes "," ++ spec.right_text right)) }
    ensures kept { take (length out.old) out.new ≡ out.old }
{
    out.extend(b"(")?;
    add_left(left, out)?;
    out.extend(b",")?;
    right.show(out)
}

/// Adds the left end of a row: a token, or `min`.
fn add_left(left: Option<Token>, out: &mut ByteText) -> Result<(), Memory>
    ensures added { OnOk result (out.new ≡ out.old ++ spec.left_text left) }
    ensures kept { take (length out.old) out.new ≡ out.old }
{
    match left {
        None => out.extend(b"min"),
        Some(token) => token.show(out),
    }
}

/// Closes the interval of a row, adds its read replicas and its write replicas, and ends the line.
fn add_nodes(reads: &[NodeId], writes: &[NodeId], out: &mut ByteText) -> Result<(), Memory>
    ensures added { OnOk result (out.new ≡ out.old
        ++ spec.line (codes "] read " ++ spec.list_text reads.now
        ++ codes " write " ++ spec.list_text writes.now)) }
    ensures kept { take (length out.old) out.new ≡ out.old }
{
    out.extend(b"] read ")?;
    list_text(reads, out)?;
    out.extend(b" write ")?;
    list_text(writes, out)?;
    out.extend(b"\n")
}
