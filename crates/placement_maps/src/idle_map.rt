//! The placement maps of images without movements: the same nodes are read and written, and each row is placed once.

ghost use Rattle.std.specs.Prelude.{◌≡◌, [], map, IfOk, IsTrue, OnOk};
ghost use Rattle.std.specs.List.{AllByRecursion};
ghost use Rattle.cluster_terms.specs.Arc.{IsToken};
ghost use Rattle.transformations.specs.Rings as rings;
ghost use Rattle.transformations.specs.Valid.{IsValid};
ghost use Rattle.placement_maps.specs.code.MapBasis.{one_row_without_nodes, row_placed_once};
ghost use Rattle.placement_maps.specs.Maps.{placement_rows};

use cluster_terms::{Memory, Replication, RightEnd, Steps, TokenRange, TryCopy, rows_between};
use node_directory::Directory;
use node_sets::NodeSet;
use range_placements::{PlacementMap, PlacementRow, PlacementRows, rows_with_room};
use replica_placer::Placer;
use std::alloc::Global;
use std::sync::ledger::Ledger;
use token_ring::Ring;
use transformations::{Image, cuts};

/// A range with the nodes that are placed at its last token, which are read and written. Makes one walk.
fn row_once<L: Ledger>(
    alloc: Global,
    placer: &Placer,
    range: &TokenRange,
    walks: &mut Steps<L>,
) -> Result<PlacementRow, Memory>
    ensures { IfOk result (λ row. row ≡ row_placed_once placer.now range.now) }
{
    let nodes = placer.place(alloc, range.last_token(), walks)?;
    Ok(PlacementRow {
        right: range.right,
        reads: nodes.copy()?,
        writes: nodes,
    })
}

/// The ranges with the nodes that are placed at their last tokens. Makes one walk for each range.
fn rows_once<L: Ledger>(
    alloc: Global,
    placer: &Placer,
    ranges: &[TokenRange],
    walks: &mut Steps<L>,
) -> Result<PlacementRows, Memory>
    ensures { IfOk result (λ rows. rows.items ≡ map (row_placed_once placer.now) ranges.now) }
{
    let mut rows = rows_with_room(alloc, ranges.len())?;
    for range in ranges {
        rows.push(row_once(alloc, placer, range, walks)?)?;
    }
    Ok(rows)
}

fn has_no_tokens(image: &Image) -> bool
    ensures { IsTrue result → image.now.tokens ≡ [] }
{
    image.tokens.as_slice().is_empty()
}

/// The placement map of a ring without tokens: all tokens are in one row, and no node is read or written.
fn map_without_nodes(alloc: Global) -> Result<PlacementMap, Memory>
    ensures { IfOk result (λ map. map ≡ one_row_without_nodes) }
{
    let mut rows = rows_with_room(alloc, 1)?;
    rows.push(PlacementRow {
        right: RightEnd::Max,
        reads: NodeSet::empty(alloc),
        writes: NodeSet::empty(alloc),
    })?;
    Ok(PlacementMap::from_rows(rows))
}

/// The placement map of a replication in an image without movements. The directory must hold the nodes of the image.
/// With no movement in flight the three rings are one, so one walk makes a row. A ring without tokens has one row
/// without nodes.
///
/// Cost: a copy of the ring, its cuts, and one walk for each row between cuts; without tokens, one row.
#[tactic(auto, using(crate::proofs::ImageRings::low_tokens))]
pub fn idle_map<L: Ledger>(
    alloc: Global,
    image: &Image,
    directory: &Directory,
    replication: &Replication,
    walks: &mut Steps<L>,
) -> Result<PlacementMap, Memory>
    requires valid { IsValid image.now }
    requires idle { image.now.sequences ≡ [] }
    requires nodes { directory.now.rows ≡ image.now.nodes }
    ensures map { IfOk result (λ map. map ≡ placement_rows image.now replication.now) }
    ensures tokens { OnOk result (AllByRecursion IsToken (rings.cuts image.now)) }
{
    if has_no_tokens(image) {
        return map_without_nodes(alloc);
    }
    let cuts = cuts(alloc, image)?;
    let ranges = rows_between(alloc, cuts.as_slice())?;
    let tokens = image.tokens.copy_with_room(0)?;
    let ring = Ring::from_list(tokens)?;
    let ranges = ranges.as_slice();
    let placer = Placer::new(alloc, &ring, directory, replication)?;
    let rows = rows_once(alloc, &placer, ranges, walks)?;
    Ok(PlacementMap::from_rows(rows))
}
