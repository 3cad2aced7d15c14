ghost use Rattle.std.specs.Prelude.{IfOk};
ghost use Rattle.placement_maps.specs.code.MapBasis.{AreRings};
ghost use Rattle.transformations.specs.Valid.{IsValid};

use cluster_terms::Memory;
use std::alloc::Global;
use token_ring::Ring;
use transformations::{Image, RingKind, ring_with};

/// The rings that reads and writes are placed on.
#[derive(Drop)]
pub struct Rings {
    /// The ring before the movements.
    pub low: Ring,
    /// The ring that reads see.
    pub read: Ring,
    /// The ring that writes see.
    pub high: Ring,
}

impl Rings {
    /// The rings of an image. Cost: for p pairs in the low ring and k pairs of movements, some passes over the p pairs,
    /// a sort of the pairs that movements put in, and about k log p comparisons. If the tokens of the pairs that
    /// movements take out don't ascend, up to 2·p·k comparisons more.
    #[tactic(auto, using(crate::proofs::ImageRings::low_tokens, crate::proofs::ImageRings::read_tokens, crate::proofs::ImageRings::high_tokens))]
    pub fn of_image(alloc: Global, image: &Image) -> Result<Rings, Memory>
        requires { IsValid image.now }
        ensures { IfOk result (AreRings image.now) }
    {
        let read = ring_with(alloc, image, RingKind::Read)?;
        let high = ring_with(alloc, image, RingKind::High)?;
        Ok(Rings {
            low: Ring::from_distinct(alloc, image.tokens.as_slice())?,
            read: Ring::from_distinct(alloc, read.as_slice())?,
            high: Ring::from_distinct(alloc, high.as_slice())?,
        })
    }
}
