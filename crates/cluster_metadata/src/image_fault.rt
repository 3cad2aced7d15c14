ghost use Rattle.std.specs.Prelude.{◌≡◌};
ghost use Rattle.cluster_metadata.specs.declared.image_fault.ImageFault.TheVariants as fault;

use transformations::BadImage;

/// Why no metadata was made from an image.
#[derive(Debug, Drop)]
pub enum ImageFault {
    /// The image isn't valid: the first rule of valid images that it breaks, with its value.
    Bad(BadImage),
    /// Memory ran out.
    Memory,
}

impl From<cluster_terms::Memory> for ImageFault {
    ghost from_gives = { λ _ e. e ≡ fault.Memory };

    fn from(_memory: cluster_terms::Memory) -> ImageFault {
        ImageFault::Memory
    }
}
