ghost use Rattle.std.specs.Prelude.{◌≡◌, ◌-◌, ◌<◌, ◌≤◌, [], ◌∷◌, ◌++◌, length, slice_get, IfOk, MatchResult};
ghost use Rattle.std.specs.List.{AllByRecursion};
ghost use Rattle.transformations.specs.History.{IsHistory, state_after};
ghost use Rattle.transformations.specs.Log.{commands_of};
ghost use Rattle.transformations.specs.Valid.{IsValid};
ghost use Rattle.snapshot_store.specs.Images.{AreOf, epoch_of};

use crate::entries_taken::take_all;
use crate::nearest::nearest;
use cluster_metadata::{ImageFault, Metadata};
use cluster_terms::Memory;
use epoch_log::Log;
use std::alloc::Global;
use std::marker::Model;
use transformations::Image;

/// Images of a log at some of its epochs. Contracts see the list of these images. Their epochs ascend.
#[derive(Debug, Drop)]
pub struct Snapshots {
    alloc: Global,
    images: Vec<Image>,
}

impl Model for Snapshots {
    ghost use Rattle.std.specs.Prelude.{List};
    ghost use Rattle.transformations.specs.declared.image.Image.{Image};
    ghost use Rattle.snapshot_store.specs.Images.{Ascend};

    ghost Value = { List Image };

    ghost view = { λ snapshots. snapshots.images.items };

    ghost invariant = { λ snapshots. Ascend snapshots.images.items };
}

fn metadata_of(alloc: Global, image: Image) -> Result<Metadata, Memory>
    requires { IsValid image }
    ensures { IfOk result (λ metadata. metadata ≡ image) }
{
    match Metadata::from_image(alloc, image) {
        Ok(metadata) => Ok(metadata),
        Err((_image, fault)) => match fault {
            ImageFault::Memory => Err(Memory),
            ImageFault::Bad(_) => unreachable!(),
        },
    }
}

impl Snapshots {
    /// No image. Takes no memory.
    pub fn empty(alloc: Global) -> Snapshots
        // Promise: at first no image is kept. Guards: scripts.
        ensures { result ≡ [] }
    {
        Snapshots {
            alloc,
            images: Vec::new(alloc),
        }
    }

    /// The epoch of the last image, which is the greatest, or 0 if there is no image.
    pub fn last_epoch(&self) -> u64
        // Promise: the epoch of the last image is shown, 0 without images, and no image is past it. Guards: tried.
        ensures last { result ≡ epoch_of (slice_get self.now (length self.now - 1)) }
        ensures greatest { AllByRecursion (λ kept. kept.epoch ≤ result) self.now }
    {
        match self.images.last() {
            Some(image) => image.epoch,
            None => 0,
        }
    }

    /// Keeps an image, whose epoch is above those of the images that are kept. If memory runs out, returns the image,
    /// and the images that are kept stay. Nothing else is asked of the image: `image_at` and `state_at` require that
    /// the images are those of the log, and so valid.
    pub fn keep(&mut self, image: Image) -> Result<(), (Image, Memory)>
        requires { AllByRecursion (λ kept. kept.epoch < image.epoch) self.old }
        // Promise: an image whose epoch is above those that are kept comes last, valid or not; if memory runs out, the
        // images are as before, and the image is handed back. Guards: scripts.
        ensures { MatchResult result (λ _. self.new ≡ self.old ++ image ∷ [])
            (λ e. (self.new ≡ self.old) × (e.0 ≡ image)) }
    {
        match self.images.push(image) {
            Ok(()) => Ok(()),
            Err(failed) => Err((failed.value, Memory)),
        }
    }

    /// The image at an epoch of a log, of which the images are. The commands of the log are a history, and the epoch is
    /// at most the last one.
    ///
    /// Cost: a binary search for the greatest image at or below the epoch, and a copy of this image. Each command after
    /// it, up to the epoch, changes the copy, at the cost of `cluster_metadata::advance`. If the image of every 256th
    /// epoch is kept, these are at most 255 commands.
    pub fn image_at(&self, log: &Log, e: u64) -> Result<Image, Memory>
        requires history { IsHistory (commands_of log.now) }
        requires within { e ≤ length log.now }
        requires kept { AreOf (commands_of log.now) self.now }
        // Promise: the state of a log at an epoch is that after its first commands, whichever images of the log are
        // kept. Guards: the_last_kept_image.edit, scripts.rt, limits.rt (each_epoch_is_answered), tried.
        ensures { IfOk result (λ image. image ≡ state_after (commands_of log.now) e) }
    {
        let mut image = nearest(self.alloc, &self.images, e)?;
        let from = image.epoch;
        take_all(self.alloc, &mut image, log, from, e)?;
        Ok(image)
    }

    /// The metadata at an epoch of a log, of which the images are, as `image_at` says.
    ///
    /// Cost: that of `image_at`, and of `Metadata::from_image`.
    pub fn state_at(&self, log: &Log, e: u64) -> Result<Metadata, Memory>
        requires history { IsHistory (commands_of log.now) }
        requires within { e ≤ length log.now }
        requires kept { AreOf (commands_of log.now) self.now }
        ensures { IfOk result (λ metadata. metadata ≡ state_after (commands_of log.now) e) }
    {
        let image = self.image_at(log, e)?;
        metadata_of(self.alloc, image)
    }
}
