//! The kept image that is nearest to an epoch.

ghost use Rattle.std.specs.Prelude.{◌≡◌, ◌<◌, ◌≤◌, length, IfOk};
ghost use Rattle.std.specs.List.Sorted.{IsPartitionPoint};
ghost use Rattle.snapshot_store.specs.Images.{Ascend};
ghost use Rattle.snapshot_store.specs.code.NearestImage.{IsNearest};

use cluster_metadata::empty_image;
use cluster_terms::{Memory, TryCopy};
use std::alloc::Global;
use transformations::Image;

/// How many images are at or below an epoch.
fn count_to(images: &[Image], e: u64) -> usize
    requires { Ascend images.now }
    ensures bound { result ≤ length images.now }
    ensures split { IsPartitionPoint (λ image. image.epoch ≤ e) (λ image. e < image.epoch) images.now result }
{
    images.partition_point(|image| image.epoch <= e)
}

/// A copy of the last of these images whose epoch is at most `e`. If there is none, this is the image before the first
/// command. The cost is a binary search and a copy of the image.
pub fn nearest(alloc: Global, images: &[Image], e: u64) -> Result<Image, Memory>
    requires { Ascend images.now }
    ensures { IfOk result (IsNearest images.now e) }
{
    let count = count_to(images, e);
    if count == 0 {
        return Ok(empty_image(alloc));
    }
    let last = count - 1;
    images[last].copy()
}
