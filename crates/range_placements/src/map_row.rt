use crate::placement_map::PlacementMap;
use cluster_terms::{Memory, Replication, TryCopy};

/// The placements under one replication.
#[derive(Debug, Drop)]
pub struct MapRow {
    pub replication: Replication,
    pub map: PlacementMap,
}

impl TryCopy for MapRow {
    fn copy(&self) -> Result<MapRow, Memory> {
        Ok(MapRow {
            replication: self.replication.copy()?,
            map: self.map.copy()?,
        })
    }
}
