//! An entry of the log, or a reply from it, is handed to a follower of the log.

ghost use Rattle.std.specs.Prelude.{◌≡◌, ◌≤◌, true, length, IfSome, IsTrue};
ghost use Rattle.std.specs.List.{Contains};
ghost use Rattle.follower_log.specs.Follower.{Performs, hand_entry, lacks_only};
ghost use Rattle.follower_log.specs.Prefix.{IsImageOf, StandsAfter, StandsFor, Taken, with_entry};
ghost use Rattle.transformations.specs.History.{empty_image, image_after, is_command, most_epochs};
ghost use Rattle.transformations.specs.Log.{IsLog, commands_of};
ghost use Rattle.transformations.specs.declared.entry.Entry.{Entry as LogEntry};
ghost use Rattle.catch_up.specs.Replies.{IsReplyFrom};
ghost use Rattle.catch_up_laws.specs.Given.{given_entries, given_image, given_reply};
ghost use Rattle.script_session.specs.StepEnds.{FollowsLog};
ghost use Rattle.script_session.specs.code.StepParts.{Hands};

use crate::session::followers::taken;
use catch_up::Reply;
use cluster_metadata::Metadata;
use cluster_terms::{Memory, TryCopy};
use epoch_log::Log;
use follower_log::{Follower, FollowerFault, Took};
use transformations::{Entry, Image};

/// The rows of an image that are copied in about the time in which the cheapest entry is applied.
const ROWS_PER_ENTRY: usize = 16;

/// Whether to copy the metadata of an image is less work than to apply more than this number of entries.
fn copies_sooner(image: &Image, entries: usize) -> bool {
    let maps = image.keyspaces.as_slice().len();
    let tokens = image.tokens.as_slice().len();
    let rows = tokens
        .saturating_mul(maps.saturating_add(1))
        .saturating_add(image.nodes.as_slice().len());
    rows / ROWS_PER_ENTRY <= entries
}

/// Whether a follower lacks an entry of a log alone, and it is less work to copy the metadata after the last entry than
/// to apply this entry and those that wait.
fn may_end(log: &Log, metadata: &Metadata, follower: &Follower, entry: &Entry) -> bool
    ensures { IsTrue result → lacks_only follower.now entry.now.epoch (length log.now) ≡ true }
{
    follower.lacks_only(entry.epoch, log.last_epoch())
        && copies_sooner(metadata.as_image(), follower.waiting())
}

/// Hands an entry of a log to a follower of this log; `metadata` is the metadata after all entries. A follower that
/// lacks this entry alone comes to the last epoch: it takes over a copy of the metadata, if that is less work than to
/// apply the entries, no movement is in flight, and there is memory for the copy. A movement in flight has a key, which
/// can't be copied. Without these copies `gen` takes 1.9 times the instructions.
pub fn hand_over(
    log: &Log,
    metadata: &Metadata,
    follower: &mut Follower,
    entry: &Entry,
) -> Result<Took, FollowerFault>
    requires log { IsLog log.now }
    requires last { metadata.now ≡ image_after empty_image (commands_of log.now) }
    requires among { Contains log.now entry.now }
    requires formed { IsTrue (is_command entry.now.cmd) }
    requires epoch { entry.now.epoch ≤ most_epochs }
    requires follows { FollowsLog log.now follower.old }
    ensures step { Performs follower.old (hand_entry follower.old entry.now) result follower.new }
    ensures shows { (taken : Taken) → StandsFor log.now taken follower.old
        → StandsAfter log.now taken (with_entry taken entry.now.epoch) result follower.new }
{
    if !may_end(log, metadata, follower, entry) {
        return follower.deliver(entry);
    }
    match follower.end_at(metadata) {
        Ok(true) => Ok(Took::At(metadata.epoch())),
        Ok(false) => follower.deliver(entry),
        Err(_) => follower.deliver(entry),
    }
}

/// Hands an image of a log, if there is one, to a follower of this log.
fn hand_start(_log: &Log, follower: &mut Follower, image: &Option<Image>) -> Result<(), Memory>
    requires log { IsLog _log.now }
    requires of { IfSome image.now (IsImageOf _log.now) }
    requires follows { FollowsLog _log.now follower.old }
    ensures { Hands _log.now (given_image follower.old image.now) follower.old follower.new result }
{
    match image {
        Some(image) => {
            let _took = taken(follower.snapshot(image.copy()?))?;
            Ok(())
        }
        None => Ok(()),
    }
}

/// Hands an entry of a log to a follower of this log, as `hand_over` does.
fn hand_next(
    log: &Log,
    metadata: &Metadata,
    follower: &mut Follower,
    entry: &Entry,
) -> Result<(), Memory>
    requires log { IsLog log.now }
    requires last { metadata.now ≡ image_after empty_image (commands_of log.now) }
    requires among { Contains log.now entry.now }
    requires follows { FollowsLog log.now follower.old }
    ensures { Hands log.now (hand_entry follower.old entry.now).after follower.old follower.new result }
{
    let _took = taken(hand_over(log, metadata, follower, entry))?;
    Ok(())
}

/// Hands entries of a log to a follower of this log, one after another.
fn hand_entries(
    log: &Log,
    metadata: &Metadata,
    follower: &mut Follower,
    entries: &[Entry],
) -> Result<(), Memory>
    requires log { IsLog log.now }
    requires last { metadata.now ≡ image_after empty_image (commands_of log.now) }
    requires among { (entry : LogEntry) → Contains entries.now entry → Contains log.now entry }
    requires follows { FollowsLog log.now follower.old }
    ensures { Hands log.now (given_entries follower.old entries.now) follower.old follower.new result }
{
    for entry in entries {
        hand_next(log, metadata, follower, entry)?;
    }
    Ok(())
}

/// Gives a follower of a log a reply from this log: hands it the image of the reply, if it has one, and then each of
/// its entries. If memory runs out, the follower stops on the way.
pub fn give_reply(
    log: &Log,
    metadata: &Metadata,
    follower: &mut Follower,
    reply: &Reply,
) -> Result<(), Memory>
    requires log { IsLog log.now }
    requires last { metadata.now ≡ image_after empty_image (commands_of log.now) }
    requires from { IsReplyFrom log.now reply.now }
    requires follows { FollowsLog log.now follower.old }
    ensures { Hands log.now (given_reply follower.old reply.now) follower.old follower.new result }
{
    hand_start(log, follower, &reply.image)?;
    hand_entries(log, metadata, follower, reply.entries.as_slice())
}
