use crate::delta::Delta;
use cluster_terms::{Memory, Replication, SmallList, TryCopy};

/// The delta of a movement under one replication.
#[derive(Debug, Drop)]
pub struct DeltaBookRow {
    pub replication: Replication,
    pub delta: Delta,
}

/// The deltas of a movement: a row for each distinct replication, in the order of the movement's `RangeBook`.
pub type DeltaBook = SmallList<DeltaBookRow>;

impl TryCopy for DeltaBookRow {
    fn copy(&self) -> Result<DeltaBookRow, Memory> {
        let replication = self.replication.copy()?;
        let delta = self.delta.copy()?;
        Ok(DeltaBookRow { replication, delta })
    }
}
