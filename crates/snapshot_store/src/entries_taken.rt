//! The image that entries of a log lead to.

ghost use Rattle.std.specs.Prelude.{◌≡◌, ◌≤◌, length, OnOk};
ghost use Rattle.transformations.specs.History.{IsHistory, state_after};
ghost use Rattle.transformations.specs.Log.{commands_of};

use cluster_metadata::advance;
use cluster_terms::Memory;
use epoch_log::Log;
use std::alloc::Global;
use transformations::Image;

/// Takes an image through the commands of the entries of a log after an epoch, up to another one. The image is that of
/// the first epoch. If memory runs out, some of the commands may have changed it.
pub fn take_all(
    alloc: Global,
    image: &mut Image,
    log: &Log,
    from: u64,
    epoch: u64,
) -> Result<(), Memory>
    requires state { image.old ≡ state_after (commands_of log.now) from }
    requires history { IsHistory (commands_of log.now) }
    requires order { from ≤ epoch }
    requires within { epoch ≤ length log.now }
    ensures { OnOk result (image.new ≡ state_after (commands_of log.now) epoch) }
{
    for before in from..epoch {
        match log.entry(before + 1) {
            Some(entry) => advance(alloc, image, &entry.cmd)?,
            None => unreachable!(),
        }
    }
    Ok(())
}
