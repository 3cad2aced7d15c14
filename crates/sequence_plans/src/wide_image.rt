ghost use Rattle.std.specs.Prelude.{◌≡◌, IfOk};
ghost use Rattle.transformations.specs.Refusals.{with_movement};
ghost use Rattle.transformations.specs.Rings.{low_ring, replaced};

use cluster_terms::{Memory, PairList, TryCopy};
use std::alloc::Global;
use std::marker::Model;
use transformations::{Image, KeyspaceRow, SeqRow, SeqRows, ring_with_movement};

/// An image with one movement more, or with a new row for a node's movement. Contracts see it as this image. It shares
/// all but the movements with the image without it.
#[derive(Drop)]
pub struct WideImage<'a> {
    image: &'a Image,
    movements: SeqRows,
}

impl<'a> Model for WideImage<'a> {
    ghost use Rattle.transformations.specs.declared.image.Image.{Image};

    ghost Value = { Image };

    ghost view = { λ wide. record wide.image.now { sequences = wide.movements } };
}

impl<'a> WideImage<'a> {
    /// An image with this row: the row of a new movement, or the new row of a node's movement. The cost is a copy of
    /// the movements.
    pub fn new(image: &'a Image, row: &SeqRow) -> Result<WideImage<'a>, Memory>
        ensures { IfOk result (λ wide. wide ≡ with_movement image.now row.now) }
    {
        let mut movements = image.sequences.copy_for(1)?;
        movements.put(row.copy()?)?;
        Ok(WideImage { image, movements })
    }

    /// The pairs of the ring, without those that movements bring.
    pub fn tokens(&self) -> &PairList
        ensures { result.now ≡ self.now.tokens }
    {
        &self.image.tokens
    }

    /// The keyspaces.
    pub fn keyspaces(&self) -> &[KeyspaceRow]
        ensures { result.now ≡ self.now.keyspaces }
    {
        self.image.keyspaces.as_slice()
    }

    /// The movements.
    pub fn sequences(&self) -> &[SeqRow]
        ensures { result.now ≡ self.now.sequences }
    {
        self.movements.as_slice()
    }

    /// The pairs of the ring with one movement applied, as `ring_with_movement` gives them and at its cost.
    pub fn ring_with(&self, alloc: Global, row: &SeqRow) -> Result<PairList, Memory>
        ensures { IfOk result (λ pairs. pairs
            ≡ replaced (low_ring self.now) row.now.out_pairs row.now.in_pairs) }
    {
        ring_with_movement(alloc, self.image, row)
    }
}
