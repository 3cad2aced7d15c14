ghost use Rattle.std.specs.Prelude.{◌≡◌, find, option_map, Some, IfOk, IfSome};
ghost use Rattle.std.specs.Option.{option_copied};
ghost use Rattle.cluster_terms.specs.Replication.{same_replication};
ghost use Rattle.placement_maps.specs.Served.{keyspace_of};
ghost use Rattle.transformations.specs.Rings.{is_mid};
ghost use Rattle.transformations.specs.Movements.{movement_of};
ghost use Rattle.transformations.specs.declared.sequence.SeqRow.{SeqRow as MovementRow};
ghost use Rattle.transformations.specs.Meeting.{HaveReplications};
ghost use Rattle.transformations.specs.Valid.{IsValid};
ghost use Rattle.stream_plan.specs.Readable.{KeepReadable};
ghost use Rattle.stream_plan.specs.Streams.{CoverGains, OfMovement, stream_rows, streams};
ghost use Rattle.stream_plan.specs.code.Plans.{IsPlanIn, IsPlanOf};

use crate::grouping::Grouping;
use crate::map_changes::MapChanges;
use crate::stream_row::StreamRows;
use crate::stream_rows::rows_by;
use cluster_metadata::Metadata;
use cluster_terms::{Memory, Name, NodeId, Replication};
use placement_deltas::{Delta, DeltaBookRow, Plan};
use transformations::{Image, Phase, movement_of};

fn find_row<'a>(book: &'a [DeltaBookRow], replication: &Replication) -> Option<&'a DeltaBookRow>
    ensures { option_copied result
        ≡ find (λ row. same_replication row.replication replication.now) book.now }
{
    book.iter().find(|row| row.replication.same(replication))
}

/// The nodes that a movement gains and loses under a replication, by its plan.
fn delta_of<'a>(plan: &'a Plan, replication: &Replication) -> Option<&'a Delta>
    ensures { option_copied result
        ≡ option_map (λ row. row.delta)
        (find (λ row. same_replication row.replication replication.now) plan.now.swap) }
{
    match find_row(plan.swap.as_slice(), replication) {
        Some(row) => Some(&row.delta),
        None => None,
    }
}

fn is_at_mid(image: &Image, n: NodeId) -> bool
    ensures { IfSome (movement_of image.now n) (λ s. result ≡ is_mid s.phase) }
{
    match movement_of(image, n) {
        Some(row) => row.phase == Phase::Mid,
        None => false,
    }
}

/// The stream plan of a movement under the replication of a keyspace.
fn rows_under(
    meta: &Metadata,
    plan: &Plan,
    keyspace: &Name,
    replication: &Replication,
) -> Result<StreamRows, Memory>
    requires plan { IsPlanIn meta.now plan.now }
    requires keyspace { option_map (λ k. k.replication) (keyspace_of meta.now keyspace.now)
        ≡ Some replication.now }
    ensures rows { IfOk result
        (λ rows. (movement : MovementRow) → IsPlanOf meta.now movement plan.now
        → rows ≡ stream_rows meta.now replication.now movement) }
    ensures valid { IsValid meta.now }
    ensures replications { HaveReplications meta.now }
{
    let image = meta.as_image();
    let delta = delta_of(plan, replication).unwrap();
    let is_read = is_at_mid(image, plan.row.node);
    let map = meta.placements(keyspace).unwrap();
    let grouping = Grouping {
        alloc: meta.allocator(),
        directory: meta.directory(),
        replication,
    };
    let changes = MapChanges { delta, is_read };
    rows_by(&grouping, &changes, map.rows())
}

/// The stream plan of the movement of a node under a keyspace: for each row between the cuts of the image, a row for each
/// node that the movement adds to the replicas, ascending.
///
/// In each group of the replication, the first of these nodes streams strictly from the first node that the movement
/// takes away, the second from the second, and so on. A node for which none is left streams from any of the nodes
/// placed before. Returns `None` if and only if the node has no movement or no keyspace has this name.
///
/// The plan covers what the movement adds: at each token, each node that is placed with the movement and not before it
/// has one row, and no other node has one. And quorums stay readable: take a quorum of the nodes placed before the
/// movement and a quorum of those placed with it. A node of the second is in the first, or streams strictly from a node
/// of the first. The same holds in each datacenter with its own factor.
///
/// Makes no walk: the rows come from the placement map and from the deltas that the movement keeps. Cost: a pass over
/// the rows of the map, with a binary search in the delta for each; for each row that gains a node, a copy of its reads;
/// and for each node that is added, a look-up of each node that its row adds or takes away.
pub fn streams(meta: &Metadata, node: NodeId, keyspace: &Name) -> Result<Option<StreamRows>, Memory>
    // Promise: for each range between cuts and each node that the movement gains there, ascending, a row with the lost
    // node in its place in its group, or all nodes placed before. Guards: least_node_as_the_source.edit,
    // reads_at_mid_taken_for_the_nodes_before.edit, calls/streams.rt, tried.
    // Promise: there is no plan if and only if the node has no movement or no keyspace has the name. Guards:
    // calls/streams.rt.
    ensures rows { IfOk result (λ found. found ≡ streams meta.now node keyspace.now) }
    // Promise: at each token, each node that is placed with the movement and not before it has one row, and no other
    // node has one. Guards: by rows, calls/streams.rt.
    ensures covers { IfOk result
        (λ found. IfSome found (λ rows. OfMovement meta.now node keyspace.now (CoverGains meta.now rows))) }
    // Promise: of a quorum of nodes placed with the movement, one is in a given quorum of those before, or streams
    // strictly from a node of it, also per datacenter. Guards: by rows, least_node_as_the_source.edit.
    ensures readable { IfOk result
        (λ found. IfSome found (λ rows. OfMovement meta.now node keyspace.now (KeepReadable meta.now rows))) }
{
    let plan = match meta.plan_of(node) {
        Some(plan) => plan,
        None => return Ok(None),
    };
    match meta.replication(keyspace) {
        Some(replication) => {
            let rows = rows_under(meta, plan, keyspace, replication)?;
            Ok(Some(rows))
        }
        None => Ok(None),
    }
}
