ghost use Rattle.std.specs.Prelude.{◌≡◌, IfOk};
ghost use Rattle.placement_maps.specs.code.MapBasis.{IsMapBasis};
ghost use Rattle.placement_maps.specs.Maps.{placement_rows};
ghost use Rattle.transformations.specs.Valid.{IsValid};

use crate::image_rings::Rings;
use crate::placers::Placers;
use cluster_terms::{Memory, Replication, Rows, Steps, rows_between};
use node_directory::Directory;
use range_placements::PlacementMap;
use std::alloc::Global;
use std::sync::ledger::Ledger;
use transformations::{Image, cuts};

/// The values from which the placement maps of an image are made. They are the same for all replications.
#[derive(Drop)]
pub struct MapBasis<'a> {
    alloc: Global,
    image: &'a Image,
    directory: &'a Directory,
    rings: Rings,
    ranges: Rows,
}

impl<'a> MapBasis<'a> {
    /// The basis of an image's maps. The directory must hold the nodes of the image.
    pub fn of_image(
        alloc: Global,
        image: &'a Image,
        directory: &'a Directory,
    ) -> Result<MapBasis<'a>, Memory>
        requires valid { IsValid image.now }
        requires nodes { directory.now.rows ≡ image.now.nodes }
        ensures image { IfOk result (λ basis. basis.image.now ≡ image.now) }
        ensures basis { IfOk result IsMapBasis }
    {
        let cuts = cuts(alloc, image)?;
        Ok(MapBasis {
            alloc,
            image,
            directory,
            rings: Rings::of_image(alloc, image)?,
            ranges: rows_between(alloc, cuts.as_slice())?,
        })
    }

    /// The placement map of a replication. Makes three walks for each row between cuts.
    pub fn place_map<L: Ledger>(
        &self,
        replication: &Replication,
        walks: &mut Steps<L>,
    ) -> Result<PlacementMap, Memory>
        requires { IsMapBasis self.now }
        ensures { IfOk result (λ map. map ≡ placement_rows self.now.image.now replication.now) }
    {
        let ranges = self.ranges.as_slice();
        let placers = Placers::new(self.alloc, &self.rings, self.directory, replication)?;
        let rows = placers.rows(self.alloc, ranges, walks)?;
        Ok(PlacementMap::from_rows(rows))
    }
}
