ghost use Rattle.std.specs.Prelude.{◌≡◌, map, IfOk};
ghost use Rattle.placement_maps.specs.code.MapBasis.{PlaceOnRings, row_placed};

use crate::image_rings::Rings;
use cluster_terms::{Memory, Replication, Steps, TokenRange};
use node_directory::Directory;
use range_placements::{PlacementRow, PlacementRows, rows_with_room};
use replica_placer::Placer;
use std::alloc::Global;
use std::sync::ledger::Ledger;

/// The placers of one replication on the rings of an image.
#[derive(Drop)]
pub struct Placers<'a> {
    pub low: Placer<'a>,
    pub read: Placer<'a>,
    pub high: Placer<'a>,
}

impl<'a> Placers<'a> {
    /// The placers of a replication on these rings.
    pub fn new(
        alloc: Global,
        rings: &'a Rings,
        dir: &'a Directory,
        replication: &'a Replication,
    ) -> Result<Placers<'a>, Memory>
        ensures { IfOk result (PlaceOnRings rings.now dir.now.rows replication.now) }
    {
        Ok(Placers {
            low: Placer::new(alloc, &rings.low, dir, replication)?,
            read: Placer::new(alloc, &rings.read, dir, replication)?,
            high: Placer::new(alloc, &rings.high, dir, replication)?,
        })
    }

    /// A range with its reads and its writes, placed at its last token. Makes three walks.
    fn row<L: Ledger>(
        &self,
        alloc: Global,
        range: &TokenRange,
        walks: &mut Steps<L>,
    ) -> Result<PlacementRow, Memory>
        ensures { IfOk result (λ row. row ≡ row_placed self.now range.now) }
    {
        let last = range.last_token();
        let before = self.low.place(alloc, last, walks)?;
        let after = self.high.place(alloc, last, walks)?;
        Ok(PlacementRow {
            right: range.right,
            reads: self.read.place(alloc, last, walks)?,
            writes: before.union(&after)?,
        })
    }

    /// The ranges with their reads and their writes. Makes three walks for each range.
    pub fn rows<L: Ledger>(
        &self,
        alloc: Global,
        ranges: &[TokenRange],
        walks: &mut Steps<L>,
    ) -> Result<PlacementRows, Memory>
        ensures { IfOk result (λ rows. rows.items ≡ map (row_placed self.now) ranges.now) }
    {
        let mut rows = rows_with_room(alloc, ranges.len())?;
        for range in ranges {
            rows.push(self.row(alloc, range, walks)?)?;
        }
        Ok(rows)
    }
}
