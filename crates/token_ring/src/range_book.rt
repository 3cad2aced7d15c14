use crate::range_list::RangeList;
use cluster_terms::{Memory, NodeId, Replication, SmallList, TryCopy};

/// The ranges of a movement under one replication.
#[derive(Debug, Drop)]
pub struct RangeRow {
    pub replication: Replication,
    pub ranges: RangeList,
}

/// The ranges of a movement: a row for each replication of the keyspaces.
pub type RangeBook = SmallList<RangeRow>;

/// A node and the ranges of its movement.
#[derive(Debug, Drop)]
pub struct LockRow {
    pub node: NodeId,
    pub ranges: RangeBook,
}

/// A list of nodes with the ranges of their movements.
pub type LockRows = SmallList<LockRow>;

impl TryCopy for RangeRow {
    fn copy(&self) -> Result<RangeRow, Memory> {
        let replication = self.replication.copy()?;
        let ranges = self.ranges.copy()?;
        Ok(RangeRow {
            replication,
            ranges,
        })
    }
}

impl TryCopy for LockRow {
    fn copy(&self) -> Result<LockRow, Memory> {
        let ranges = self.ranges.copy()?;
        Ok(LockRow {
            node: self.node,
            ranges,
        })
    }
}
