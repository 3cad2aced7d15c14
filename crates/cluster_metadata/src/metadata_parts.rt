//! The parts of metadata beside its image.

ghost use Rattle.std.specs.Prelude.{◌≡◌, None, IfOk, MatchResult};
ghost use Rattle.std.specs.List.{AllByRecursion};
ghost use Rattle.cluster_terms.specs.Replication.{IsReplication};
ghost use Rattle.transformations.specs.ImageRules.{bad_of, broken_rule};
ghost use Rattle.transformations.specs.Valid.{IsSound, IsValid};
ghost use Rattle.cluster_metadata.specs.Metadata.{directory_of};
ghost use Rattle.cluster_metadata.specs.code.MetadataParts.{IsMetadata};
ghost use Rattle.cluster_metadata.specs.ImageFaults.{IsCause};
ghost use Rattle.placement_maps.specs.code.ShownMaps.{AreMaps};

use crate::image_fault::ImageFault;
use crate::movements::in_flight::InFlight;
use crate::movements::running::{close_all, resume_all};
use cluster_terms::Memory;
use node_directory::Directory;
use placement_maps::{MapBook, maps_of};
use std::alloc::Global;
use transformations::{Image, KeyspaceRow, bad_image};

/// Fails with `Bad` if the image breaks one of the rules of valid images that speak of its lists, which are all but the
/// last, and with `Memory` if memory runs out. Otherwise the image is sound.
fn check_lists(alloc: Global, image: &Image) -> Result<(), ImageFault>
    ensures { MatchResult result (λ _. broken_rule image.now ≡ None) (λ e. IsCause (broken_rule image.now) e) }
{
    match bad_image(alloc, image)? {
        Some(bad) => Err(ImageFault::Bad(bad)),
        None => Ok(()),
    }
}

/// Shows that each keyspace has a replication, as each value of the type `Replication` does. For the proof alone. The
/// cost is a pass over the keyspaces.
fn have_replications(keyspaces: &[KeyspaceRow])
    ensures { AllByRecursion (λ k. IsReplication k.replication) keyspaces.now }
{
    for row in keyspaces {
        row.replication.total();
    }
}

fn directory_for(alloc: Global, image: &Image) -> Result<Directory, Memory>
    requires { IsSound image.now }
    ensures { IfOk result (λ directory. directory ≡ directory_of image.now) }
{
    Directory::from_valid(alloc, image.nodes.as_slice(), image.next)
}

fn maps_in(alloc: Global, image: &Image, directory: &Directory) -> Result<MapBook, Memory>
    requires valid { IsValid image.now }
    requires nodes { directory.now.rows ≡ image.now.nodes }
    ensures { IfOk result (λ maps. AreMaps image.now maps) }
{
    let keyspaces = image.keyspaces.as_slice();
    maps_of(alloc, image, keyspaces, directory)
}

/// The parts of the metadata of an image beside it: the directory, the placement maps, the values of the movements in
/// flight, each with its plan, and the table of their locks. Fails with `Bad` if the image isn't valid, and with
/// `Memory` if memory runs out.
pub fn parts_of(alloc: Global, image: &Image) -> Result<(Directory, MapBook, InFlight), ImageFault>
    ensures held { IfOk result (λ parts. IsMetadata image.now parts.0 parts.1 parts.2.running.items
        parts.2.locks) }
    ensures bad { MatchResult result (λ _. bad_of image.now ≡ None) (λ e. IsCause (bad_of image.now) e) }
{
    check_lists(alloc, image)?;
    have_replications(image.keyspaces.as_slice());
    let directory = directory_for(alloc, image)?;
    let in_flight = resume_all(alloc, image, &directory)?;
    match maps_in(alloc, image, &directory) {
        Ok(maps) => Ok((directory, maps, in_flight)),
        Err(_memory) => {
            close_all(in_flight);
            Err(ImageFault::Memory)
        }
    }
}
