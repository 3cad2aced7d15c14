ghost use Rattle.std.specs.Prelude.{◌≡◌, ◌+◌, ◌<◌, ◌≤◌, length, min, IfErr, IfOk, IfSome};
ghost use Rattle.std.specs.Option.{option_map};
ghost use Rattle.transformations.specs.History.{state_after};
ghost use Rattle.transformations.specs.Log.{commands_of};
ghost use Rattle.catch_up.specs.Replies as spec;

use crate::message::{EntryList, Reply};
use cluster_terms::{Memory, TryCopy};
use epoch_log::Log;
use std::alloc::Global;
use transformations::Image;

/// The image in a reply is that of a multiple of this number of epochs.
const EPOCHS_PER_IMAGE: u64 = 256;

/// The epoch of the image in a reply to a follower at epoch `since` that asks for at most `max` entries, 1 to 1,024, if
/// the log ends at `last`. Returns `None` if and only if the reply has no image. Takes no memory.
pub fn base(last: u64, since: u64, max: u64) -> Option<u64>
    requires order { since ≤ last }
    requires bounded { (1 ≤ max) × (max ≤ 1024) }
    // Promise: a reply has an image, of the last multiple of 256, if and only if more than `max` entries come after
    // the epoch asked from, and it is past this. Guards: calls/replies.rt.
    ensures base { result ≡ spec.base_epoch last since max }
    // Promise: the epoch of the image is above the one asked from, and at most the last one. Guards: by `base`.
    ensures between { IfSome result (λ base. (since < base) × (base ≤ last)) }
{
    let epoch = last - last % EPOCHS_PER_IMAGE;
    (last - since > max && epoch > since).then_some(epoch)
}

/// Copies of the entries of a log after an epoch, at most `max` of them.
fn entries_after(alloc: Global, log: &Log, epoch: u64, max: u64) -> Result<EntryList, Memory>
    requires { epoch ≤ length log.now }
    ensures { IfOk result (λ entries. entries ≡ spec.entries_after log.now epoch max) }
{
    let count = max.min(log.last_epoch() - epoch);
    let mut entries = EntryList::with_room(alloc, count as usize)?;
    for before in epoch..epoch + count {
        match log.entry(before + 1) {
            Some(entry) => entries.push(entry.copy()?)?,
            None => unreachable!(),
        }
    }
    Ok(entries)
}

/// The reply to a follower at epoch `since`, which is at most the last epoch, that asks for at most `max` entries, 1 to
/// 1,024. The image is the state of the log at the epoch that `base` returns, and `None` if `base` returns `None`. The
/// caller brings it, so this crate stands on the log alone.
///
/// If memory runs out, returns the image. Cost: a copy of each entry of the reply.
#[tactic(auto, using(crate::proofs::ReplyLemmas::leads_far))]
pub fn reply(
    alloc: Global,
    log: &Log,
    since: u64,
    max: u64,
    image: Option<Image>,
) -> Result<Reply, (Option<Image>, Memory)>
    requires order { since ≤ length log.now }
    requires bounded { (1 ≤ max) × (max ≤ 1024) }
    requires image { image ≡ option_map (state_after (commands_of log.now))
        (spec.base_epoch (length log.now) since max) }
    // Promise: a reply has the image, and the entries of the log that come next. Guards:
    // a_reply_that_starts_one_entry_late.edit, an_empty_reply.edit, calls/replies.rt.
    ensures reply { IfOk result (λ reply. reply ≡ spec.catch_up_reply log.now since max) }
    // Promise: it has at most `max` entries. Guards: by `reply`.
    ensures few { IfOk result (λ reply. length reply.entries ≤ max) }
    // Promise: it leads at least to the last epoch, or to `max` epochs after the one asked from. Guards:
    // an_empty_reply.edit.
    ensures far { IfOk result (λ reply. min (length log.now) (since + max) ≤ spec.end_epoch reply) }
    // Promise: if memory runs out, the image is handed back. Guards: by the contract.
    ensures handed_back { IfErr result (λ e. e.0 ≡ image) }
{
    let from = base(log.last_epoch(), since, max).unwrap_or(since);
    match entries_after(alloc, log, from, max) {
        Ok(entries) => Ok(Reply {
            since,
            image,
            entries,
        }),
        Err(memory) => Err((image, memory)),
    }
}
