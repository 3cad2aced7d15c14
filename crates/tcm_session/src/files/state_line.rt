//! The state of a log at an epoch, as its one line.

ghost use Rattle.std.specs.Prelude.{◌≡◌, IfOk};
ghost use Rattle.tcm_session.specs.files.StateLine as spec;

use crate::ending::Ending;
use cluster_terms::Memory;
use script_session::Session;
use std::alloc::Global;
use wire_json::snapshot_line;

/// The end at the state of the session's log at an epoch: its line, or the last epoch, if the epoch is greater.
///
/// Cost: the state at an epoch before the last costs as `Snapshots::state_at` says, with at most 255 commands.
pub fn show_state(alloc: Global, session: &Session, epoch: u64) -> Result<Ending, Memory>
    ensures { IfOk result (λ ending. ending ≡ spec.state_ending epoch session.now.log) }
{
    let last = session.last_epoch();
    if epoch > last {
        return Ending::past_last(alloc, last);
    }
    let image = session.image_at(epoch)?;
    let text = snapshot_line(alloc, &image)?;
    Ok(Ending { status: 0, text })
}
