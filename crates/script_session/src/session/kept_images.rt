//! Keeping images of the log.

ghost use Rattle.std.specs.Prelude.{◌≡◌, ◌+◌, length, MatchResult};
ghost use Rattle.transformations.specs.History.{empty_image, image_after};
ghost use Rattle.transformations.specs.Log.{commands_of};
ghost use Rattle.script_session.specs.code.KeptImages.{AreKept};

use cluster_metadata::Metadata;
use cluster_terms::Memory;
use epoch_log::Log;
use snapshot_store::Snapshots;

/// The number of epochs from one kept image to the next.
const EPOCHS_PER_IMAGE: u64 = 256;

/// Keeps the image of the last epoch of a log if this is a multiple of 256 above 0, and the image isn't kept yet. The
/// metadata is that after the log. If memory runs out, the images that are kept stay. An image is kept before the next
/// entry is taken, while the metadata is still that of its epoch. Without memory for it the commit isn't made, and an
/// append that fails takes out only the entry after it.
///
/// Cost: at each 256th epoch a copy of the image, and else nothing.
pub(super) fn keep_image(
    log: &Log,
    metadata: &Metadata,
    snapshots: &mut Snapshots,
) -> Result<(), Memory>
    requires state { metadata.now ≡ image_after empty_image (commands_of log.now) }
    requires kept { AreKept log.now (length log.now) snapshots.old }
    // Promise: the images that a session keeps are those of its log at every 256th epoch before the last, and at no
    // other. Guards: tried.
    ensures { MatchResult result (λ _. AreKept log.now (length log.now + 1) snapshots.new)
        (λ _. snapshots.new ≡ snapshots.old) }
{
    let epoch = log.last_epoch();
    if epoch % EPOCHS_PER_IMAGE != 0 || epoch <= snapshots.last_epoch() {
        return Ok(());
    }
    let image = metadata.image()?;
    match snapshots.keep(image) {
        Ok(()) => Ok(()),
        Err((_image, memory)) => Err(memory),
    }
}
