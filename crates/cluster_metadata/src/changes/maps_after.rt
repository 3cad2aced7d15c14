//! How a change of an image changes its placement maps.

ghost use Rattle.std.specs.Prelude.{◌≡◌, ◌-◌, ◌<◌, ◌^◌, length, IfOk, OnOk};
ghost use Rattle.std.specs.List.{AllByRecursion};
ghost use Rattle.cluster_terms.specs.Arc.{IsToken};
ghost use Rattle.cluster_terms.specs.Row.{rows_between};
ghost use Rattle.transformations.specs.Rings.{cuts_among};
ghost use Rattle.transformations.specs.Valid.{IsValid};
ghost use Rattle.cluster_metadata.specs.code.Change as spec;
ghost use Rattle.cluster_metadata.specs.code.Change.{ChangesTo};
ghost use Rattle.cluster_metadata.specs.code.MapSteps.{MapSteps};
ghost use Rattle.cluster_metadata.specs.code.MapSteps.{BringsMaps};
ghost use Rattle.placement_maps.specs.code.MapChanges.{maps_after};
ghost use Rattle.placement_maps.specs.code.ShownMaps.{AreMaps};
ghost use Rattle.cluster_metadata.specs.code.Running.{HaveDeltas, IsRunning};
ghost use Rattle.placement_maps.specs.code.Turns.{each_map, recut_rows};
ghost use Rattle.cluster_metadata.specs.declared.changes.change.Change.TheVariants as spec_change;

use crate::changes::change::Change;
use crate::movements::rows_in_place::others;
use crate::movements::running::Running;
use cluster_terms::{Memory, PairList, TryCopy, rows_between};
use node_directory::Directory;
use placement_deltas::DeltaBook;
use placement_maps::{MapBook, MapChange, Turn, arrangement_of, maps_of, recut_book, turned_book};
use std::alloc::Global;
use transformations::{Image, KeyspaceRows, SeqRows, cuts_among};

/// The image of the next epoch, with another ring.
fn with_tokens(image: &Image, tokens: &PairList) -> Result<Image, Memory>
    requires { image.now.epoch < 2 ^ 64 - 1 }
    ensures { IfOk result (λ next. next ≡ spec.changed image.now (spec_change.Tokens tokens.now)) }
{
    let mut next = image.copy()?;
    next.epoch += 1;
    next.tokens = tokens.copy()?;
    Ok(next)
}

/// The change of the placement maps for new tokens: all maps are placed anew. Without keyspaces there is no map.
fn maps_on(
    alloc: Global,
    image: &Image,
    directory: &Directory,
    tokens: &PairList,
    change: &Change,
) -> Result<MapChange, Memory>
    requires change { change.now ≡ spec_change.Tokens tokens.now }
    requires epochs { image.now.epoch < 2 ^ 64 - 1 }
    requires valid { IsValid (spec.changed image.now change.now) }
    requires nodes { directory.now.rows ≡ image.now.nodes }
    ensures { IfOk result (BringsMaps image.now change.now) }
{
    let keyspaces = image.keyspaces.as_slice();
    if keyspaces.is_empty() {
        return Ok(MapChange::Keep);
    }
    let next = with_tokens(image, tokens)?;
    Ok(MapChange::Anew(maps_of(alloc, &next, keyspaces, directory)?))
}

/// The change of the placement maps for other keyspaces. The maps of replications that stay are kept, and the others are
/// placed.
fn maps_under(
    alloc: Global,
    image: &Image,
    directory: &Directory,
    maps: &MapBook,
    keyspaces: &KeyspaceRows,
    change: &Change,
) -> Result<MapChange, Memory>
    requires change { ChangesTo keyspaces.now change.now }
    requires valid { IsValid image.now }
    requires nodes { directory.now.rows ≡ image.now.nodes }
    requires maps { AreMaps image.now maps.now }
    ensures { IfOk result (BringsMaps image.now change.now) }
{
    let keyspaces = keyspaces.as_slice();
    let next = arrangement_of(alloc, image, maps.as_slice(), keyspaces, directory)?;
    Ok(MapChange::Arranged(next))
}

/// The change that makes the maps those of the rows between the cuts of a ring and these movements. Each row gets the
/// sets that the maps have at its last token, changed by the deltas of a movement.
fn recut_among(
    alloc: Global,
    tokens: &PairList,
    sequences: &SeqRows,
    maps: &MapBook,
    turn: Turn,
    deltas: &DeltaBook,
) -> Result<MapChange, Memory>
    ensures maps { IfOk result (λ next. length maps.now ≡ length deltas.now
        → maps_after next maps.now
        ≡ each_map (recut_rows turn (rows_between (cuts_among tokens.now sequences.now)))
        maps.now deltas.now) }
    ensures tokens { OnOk result (AllByRecursion IsToken (cuts_among tokens.now sequences.now)) }
{
    let cuts = cuts_among(alloc, tokens, sequences.as_slice())?;
    let ranges = rows_between(alloc, cuts.as_slice())?;
    let edits = recut_book(alloc, turn, maps, deltas, ranges.as_slice())?;
    Ok(MapChange::Rows(edits))
}

/// How a change changes the placement maps. The directory must hold the nodes of the image.
///
/// A change of nodes keeps the maps. New tokens place them anew, and new keyspaces those under new replications; the
/// other maps move. Neither has deltas, so what is placed is placed by walks. If a movement begins or ends, the maps
/// get the rows between the cuts of the next image, at a pass over its tokens: a row moves if neither its ends nor its
/// sets change, and is made anew otherwise. All other changes give new sets to the rows that the deltas change.
pub fn maps_for(
    alloc: Global,
    image: &Image,
    directory: &Directory,
    maps: &MapBook,
    running: &[Running],
    change: &Change,
) -> Result<MapChange, Memory>
    requires epochs { image.now.epoch < 2 ^ 64 - 1 }
    requires follows { spec.Follows image.now.sequences change.now }
    requires brings { spec.BringsPlan image.now change.now }
    requires before { IsValid image.now }
    requires valid { IsValid (spec.changed image.now change.now) }
    requires nodes { directory.now.rows ≡ image.now.nodes }
    requires maps { AreMaps image.now maps.now }
    requires running { IsRunning image.now.sequences running.now }
    requires deltas { HaveDeltas image.now running.now }
    requires steps { MapSteps image.now change.now }
    ensures { IfOk result (BringsMaps image.now change.now) }
{
    match change {
        Change::Unchanged | Change::Registered(_) | Change::Unregistered { .. } => {
            Ok(MapChange::Keep)
        }
        Change::Tokens(tokens) => maps_on(alloc, image, directory, tokens, change),
        Change::Keyspaces { keyspaces, .. } => {
            maps_under(alloc, image, directory, maps, keyspaces, change)
        }
        Change::Begun {
            plan,
            sequences,
            ..
        } => {
            let gain = &plan.get().gain;
            recut_among(alloc, &image.tokens, sequences, maps, Turn::Keep, gain)
        }
        Change::Started { at, .. } => {
            let gain = &running[*at].plan().gain;
            Ok(MapChange::Sets(turned_book(alloc, Turn::Writes, maps, gain)?))
        }
        Change::Mid { at, .. } => {
            let swap = &running[*at].plan().swap;
            Ok(MapChange::Sets(turned_book(alloc, Turn::Reads, maps, swap)?))
        }
        Change::Finished { at, tokens, .. } => {
            let lose = &running[*at].plan().lose;
            let sequences = others(alloc, &image.sequences, *at)?;
            recut_among(alloc, tokens, &sequences, maps, Turn::Writes, lose)
        }
        Change::Ended { at } => {
            let movement = &running[*at];
            let (turn, gain) = (movement.undoing(), &movement.plan().gain);
            let sequences = others(alloc, &image.sequences, *at)?;
            recut_among(alloc, &image.tokens, &sequences, maps, turn, gain)
        }
        Change::BroughtBack { at, .. } => {
            let swap = &running[*at].plan().swap;
            Ok(MapChange::Sets(turned_book(alloc, Turn::ReadsBack, maps, swap)?))
        }
    }
}
