ghost use Rattle.std.specs.Prelude.{◌≡◌, IfOk};
ghost use Rattle.std.specs.List.{Contains};
ghost use Rattle.transformations.specs.Ranges as spec;
ghost use Rattle.transformations.specs.Valid.{IsSound};
ghost use Rattle.replica_placer.specs.Placers.{at_homes};
ghost use Rattle.sequence_plans.specs.code.MovementRings.{AreMovementRings, PlacesMovement};

use crate::basis::moved_by;
use crate::wide_image::WideImage;
use cluster_terms::{Memory, PairList, Replication};
use node_directory::Directory;
use replica_placer::Placer;
use std::alloc::Global;
use token_ring::Ring;
use transformations::SeqRow;

/// A movement of an image, with the pairs that it moves, the low ring of the image, and the low ring with this movement
/// applied.
#[derive(Drop)]
pub struct MovementRings<'a> {
    pub image: &'a WideImage<'a>,
    pub row: &'a SeqRow,
    pub moved: PairList,
    pub directory: &'a Directory,
    pub before: Ring,
    pub after: Ring,
}

/// The placers on the low ring and on the low ring with a movement applied, under one replication.
#[derive(Drop)]
pub struct MovementPlacers<'a> {
    pub before: Placer<'a>,
    pub after: Placer<'a>,
}

impl<'a> MovementRings<'a> {
    /// The rings of a movement of an image. The directory must hold the nodes of the image. If the tokens of the ring
    /// and those of the movement ascend, the cost is some passes over the ring, and a binary search for each pair that
    /// the movement takes out or puts in.
    pub fn new(
        alloc: Global,
        image: &'a WideImage<'a>,
        row: &'a SeqRow,
        directory: &'a Directory,
    ) -> Result<MovementRings<'a>, Memory>
        requires sound { IsSound image.now }
        requires moves { Contains image.now.sequences row.now }
        requires nodes { directory.now.rows ≡ image.now.nodes }
        ensures image { IfOk result (λ rings. rings.image.now ≡ image.now) }
        ensures row { IfOk result (λ rings. rings.row.now ≡ row.now) }
        ensures rings { IfOk result AreMovementRings }
    {
        let after = image.ring_with(alloc, row)?;
        Ok(MovementRings {
            image,
            row,
            moved: moved_by(row)?,
            directory,
            before: Ring::from_distinct(alloc, image.tokens().as_slice())?,
            after: Ring::from_list(after)?,
        })
    }

    /// The placers on these rings under a replication. The rings are divided only for the datacenters of the moved
    /// pairs, as the movement changes nothing elsewhere (`HomeDeltas.antt`). With all datacenters `gen` takes a
    /// tenth more instructions.
    pub fn placers<'b>(
        &'b self,
        alloc: Global,
        replication: &'b Replication,
    ) -> Result<MovementPlacers<'b>, Memory>
        requires { AreMovementRings self.now }
        ensures { IfOk result
            (PlacesMovement self.now.image.now self.now.row.now
            (at_homes self.now.image.now.nodes (spec.moved_by self.now.row.now) replication.now)) }
    {
        let moved = self.moved.as_slice();
        Ok(MovementPlacers {
            before: Placer::among(alloc, &self.before, self.directory, replication, moved)?,
            after: Placer::among(alloc, &self.after, self.directory, replication, moved)?,
        })
    }
}
