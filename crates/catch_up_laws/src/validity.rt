//! Facts about replies that are given to followers, whether replies are lost, come twice or come late.

ghost use Rattle.std.specs.Prelude.{◌≡◌, ◌+◌, ◌≤◌, min, List};
ghost use Rattle.transformations.specs.Log.{IsLog};
ghost use Rattle.transformations.specs.declared.entry.Entry.{Entry};
ghost use Rattle.catch_up.specs.Replies.{IsReplyFrom};
ghost use Rattle.catch_up.specs.declared.message.Reply.{Reply};
ghost use Rattle.follower_log.specs.Follower.{FollowerState};
ghost use Rattle.catch_up_laws.specs.Given.{given_reply};
ghost use Rattle.catch_up_laws.specs.Ready.{IsReadyAt};
ghost use Rattle.catch_up_laws.specs.Parts.{IsPartOf};

/// What a reply has of its log, and what it does for a follower of this log, which may have gone on since.
///
/// The reply has an image of the log or none, and then the entries of the log that come next. So a follower that is
/// given the reply is handed a part of its log.
///
/// A follower's epoch never falls. Let the follower have reached the epoch that was asked from, and let no entry of its
/// next epoch wait. Then the reply brings it at least to the lesser of two epochs: the last one when the reply was made,
/// and the one that is `max` after the one asked from. The same reply, given again, changes nothing.
pub fn replies_catch_up()
    // Promise: a reply from a log has an image of it or none, and the entries that come next, with none left out.
    // Guards: law.
    ensures part { (log : List Entry) (reply : Reply) → IsReplyFrom log reply → IsPartOf log reply }
    // Promise: a follower's epoch doesn't fall when it is given a reply, whatever the reply has. Guards: law.
    ensures rises { (follower : FollowerState) (reply : Reply)
        → follower.image.epoch ≤ (given_reply follower reply).image.epoch }
    // Promise: given a reply of its log, a follower that reached `since`, whose next entry doesn't wait, comes at least
    // to the then last epoch, or to `max` epochs after `since`. Guards: law, GivenRows.antt.
    ensures reaches { (log : List Entry) (reply : Reply) (follower : FollowerState)
        → IsLog log → (from : IsReplyFrom log reply) → IsReadyAt log reply.since follower
        → min from.last (reply.since + from.max) ≤ (given_reply follower reply).image.epoch }
    // Promise: given the same reply again, this follower doesn't change. Guards: law.
    ensures again { (log : List Entry) (reply : Reply) (follower : FollowerState)
        → IsLog log → IsReplyFrom log reply → IsReadyAt log reply.since follower
        → given_reply (given_reply follower reply) reply ≡ given_reply follower reply }
{}
