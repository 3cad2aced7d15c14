//! The placement map of a replication.

ghost use Rattle.std.specs.Prelude.{◌≡◌, find, option_map, IfOk, OnOk};
ghost use Rattle.std.specs.List.{AllByRecursion};
ghost use Rattle.std.specs.Option.{option_copied};
ghost use Rattle.cluster_terms.specs.Arc.{IsToken};
ghost use Rattle.cluster_terms.specs.Replication.{same_replication};
ghost use Rattle.transformations.specs.Rings.{cuts};
ghost use Rattle.transformations.specs.Valid.{IsValid};
ghost use Rattle.placement_maps.specs.Maps.{placement_rows};

use crate::idle_map::idle_map;
use crate::map_basis::MapBasis;
use crate::map_book::MapBook;
use cluster_terms::{Memory, Replication, Steps};
use node_directory::Directory;
use range_placements::{MapRow, PlacementMap};
use std::alloc::Global;
use std::sync::ledger::Ledger;
use transformations::Image;

fn find_row<'a>(book: &'a [MapRow], replication: &Replication) -> Option<&'a MapRow>
    ensures { option_copied result ≡ find (λ row. same_replication row.replication replication.now) book.now }
{
    book.iter().find(|row| row.replication.same(replication))
}

/// The map of a replication in a book. Returns `None` if there is none.
pub fn find_map<'a>(book: &'a MapBook, replication: &Replication) -> Option<&'a PlacementMap>
    ensures { option_copied result ≡ option_map (λ row. row.map)
        (find (λ row. same_replication row.replication replication.now) book.now) }
{
    match find_row(book.as_slice(), replication) {
        Some(row) => Some(&row.map),
        None => None,
    }
}

/// The map of a replication in an image. The directory must hold the nodes of the image.
///
/// Cost: three rings, as `Rings::of_image` makes them, and three walks for each row between cuts; without movements, one
/// ring and one walk.
pub fn place_map<L: Ledger>(
    alloc: Global,
    image: &Image,
    directory: &Directory,
    replication: &Replication,
    walks: &mut Steps<L>,
) -> Result<PlacementMap, Memory>
    requires valid { IsValid image.now }
    requires nodes { directory.now.rows ≡ image.now.nodes }
    ensures map { IfOk result (λ map. map ≡ placement_rows image.now replication.now) }
    ensures tokens { OnOk result (AllByRecursion IsToken (cuts image.now)) }
{
    if image.sequences.as_slice().is_empty() {
        return idle_map(alloc, image, directory, replication, walks);
    }
    let basis = MapBasis::of_image(alloc, image, directory)?;
    basis.place_map(replication, walks)
}
