//! The placement maps of keyspaces. Maps that a book has already are kept.

ghost use Rattle.std.specs.Prelude.{◌≡◌, ◌<◌, map, position, IfOk, MatchOption};
ghost use Rattle.std.specs.List.{AllByRecursion, list_any, remove};
ghost use Rattle.cluster_terms.specs.Replication.{same_replication};
ghost use Rattle.placement_deltas.specs.Replications.{replications_of};
ghost use Rattle.transformations.specs.Valid.{IsValid};
ghost use Rattle.placement_maps.specs.code.Arrangements.{Fills, arranged};
ghost use Rattle.placement_maps.specs.code.ShownMaps.{AreMapsOf, IsMapOf};

use crate::arrangement::{Arrangement, Slot};
use crate::image_map::place_map;
use crate::map_book::MapBook;
use cluster_terms::{Memory, Replication, Steps, TryCopy};
use node_directory::Directory;
use range_placements::MapRow;
use std::alloc::Global;
use std::marker::Brand;
use std::sync::ledger::{Blank, Ledger};
use transformations::{Image, KeyspaceRow};

fn replications_in(alloc: Global, book: &[MapRow]) -> Result<Vec<Replication>, Memory>
    ensures { IfOk result (λ list. list.items ≡ map (λ row. row.replication) book.now) }
{
    let mut list = Vec::with_capacity(alloc, book.len())?;
    for row in book {
        list.push(row.replication.copy()?)?;
    }
    Ok(list)
}

fn place_of(list: &[Replication], replication: &Replication) -> Option<usize>
    ensures { result ≡ position (λ r. same_replication r replication.now) list.now }
{
    list.iter().position(|other| other.same(replication))
}

/// Takes a replication out of a list. Returns its position, or `None` if it isn't there.
#[tactic(auto, using(crate::proofs::ArrangedMaps::found_within))]
fn take_out(list: &mut Vec<Replication>, replication: &Replication) -> Option<usize>
    ensures place { result ≡ position (λ r. same_replication r replication.now) list.old.items }
    ensures left { MatchOption result (list.new.items ≡ list.old.items)
        (λ at. list.new.items ≡ remove list.old.items at) }
{
    match place_of(list.as_slice(), replication) {
        Some(at) => {
            let _known = list.remove(at);
            Some(at)
        }
        None => None,
    }
}

/// The slot for the map of a replication. If `left` has the replication, it is taken out, and the map is kept.
/// Otherwise the map is placed anew.
fn slot_for<L: Ledger>(
    alloc: Global,
    image: &Image,
    directory: &Directory,
    left: &mut Vec<Replication>,
    replication: &Replication,
    walks: &mut Steps<L>,
) -> Result<Slot, Memory>
    requires valid { IsValid image.now }
    requires nodes { directory.now.rows ≡ image.now.nodes }
    ensures { IfOk result (Fills image.now replication.now left.old.items left.new.items) }
{
    match take_out(left, replication) {
        Some(at) => Ok(Slot::Kept(at)),
        None => {
            let map = place_map(alloc, image, directory, replication, walks)?;
            let replication = replication.copy()?;
            Ok(Slot::Placed(MapRow { replication, map }))
        }
    }
}

fn has(keyspaces: &[KeyspaceRow], replication: &Replication) -> bool
    ensures { result ≡ list_any (λ k. same_replication k.replication replication.now) keyspaces.now }
{
    keyspaces
        .iter()
        .any(|row| row.replication.same(replication))
}

/// The slots for the maps of keyspaces, with a counter of its own for the walks.
fn slots_of<L: Ledger>(
    alloc: Global,
    image: &Image,
    known: &[MapRow],
    keyspaces: &[KeyspaceRow],
    directory: &Directory,
    blank: Blank,
) -> Result<Vec<Slot>, Memory>
    requires name { blank.name ≡ L.name }
    requires parts { blank.parts ≡ L.parts }
    requires some { 0 < blank.parts }
    requires valid { IsValid image.now }
    requires nodes { directory.now.rows ≡ image.now.nodes }
    requires known { AllByRecursion (IsMapOf image.now) known.now }
    ensures { IfOk result (λ slots. AreMapsOf image.now (replications_of keyspaces.now)
        (arranged slots.items known.now)) }
{
    let mut walks = Steps::<L>::begin(blank);
    let mut left = replications_in(alloc, known)?;
    let mut slots = Vec::new(alloc);
    for at in 0..keyspaces.len() {
        let replication = &keyspaces[at].replication;
        if !has(&keyspaces[..at], replication) {
            let slot = slot_for(alloc, image, directory, &mut left, replication, &mut walks)?;
            slots.push(slot)?;
        }
    }
    Ok(slots)
}

/// The placement maps of keyspaces in an image, whose own keyspaces don't matter. The directory must hold the nodes of
/// the image. The maps of the image that are known are kept where a keyspace has their replication.
///
/// Cost: a copy of each known replication, and memory for a list of the maps. Under each replication that isn't known,
/// three rings, as `Rings::of_image` makes them, and three walks for each row between cuts; without movements, one ring
/// and one walk. The walks aren't counted.
pub fn arrangement_of(
    alloc: Global,
    image: &Image,
    known: &[MapRow],
    keyspaces: &[KeyspaceRow],
    directory: &Directory,
) -> Result<Arrangement, Memory>
    requires valid { IsValid image.now }
    requires nodes { directory.now.rows ≡ image.now.nodes }
    requires known { AllByRecursion (IsMapOf image.now) known.now }
    ensures { IfOk result (λ slots. AreMapsOf image.now (replications_of keyspaces.now) (arranged slots known.now)) }
{
    let blank = Blank::new(1);
    let slots = slots_of::<Brand>(alloc, image, known, keyspaces, directory, blank)?;
    Arrangement::of_slots(alloc, slots)
}

/// The placement maps of keyspaces in an image, whose own keyspaces don't matter. The directory must hold the nodes of
/// the image. All maps are placed, at the cost that `arrangement_of` states.
pub fn maps_of(
    alloc: Global,
    image: &Image,
    keyspaces: &[KeyspaceRow],
    directory: &Directory,
) -> Result<MapBook, Memory>
    requires valid { IsValid image.now }
    requires nodes { directory.now.rows ≡ image.now.nodes }
    ensures { IfOk result (AreMapsOf image.now (replications_of keyspaces.now)) }
{
    let arrangement = arrangement_of(alloc, image, &[], keyspaces, directory)?;
    let mut book = MapBook::empty(alloc);
    book.arrange(arrangement);
    Ok(book)
}
