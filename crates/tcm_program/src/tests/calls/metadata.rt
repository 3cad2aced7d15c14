//! A copy of the image of the metadata.

use cluster_metadata::Metadata;
use cluster_terms::Memory;
use std::alloc::Global;
use transformations::Image;

/// The image before the first command.
fn first_image(alloc: Global) -> Result<Image, Memory> {
    let metadata = Metadata::empty(alloc)?;
    let image = metadata.image();
    metadata.close();
    image
}

#[test]
fn an_image_is_copied(rt: HostRuntime) {
    let image = first_image(rt.alloc());
    assert_eq!(rt; image.ok().map(|image| image.next), Some(1));
}
