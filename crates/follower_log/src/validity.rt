//! When what a follower shows is the longest prefix.

ghost use Rattle.std.specs.Prelude.{◌≡◌, ◌+◌, ◌↔◌, List, None};
ghost use Rattle.transformations.specs.Log.{IsLog};
ghost use Rattle.transformations.specs.declared.entry.Entry.{Entry};
ghost use Rattle.follower_log.specs.Follower.{FollowerState, waiting_at};
ghost use Rattle.follower_log.specs.Prefix.{IsPrefix, StandsFor, Taken};

/// A follower that stands for a log shows the longest prefix without a gap if and only if no entry of the next epoch
/// waits. One waits only if memory ran out.
pub fn prefix_ends_where_none_waits()
    // Promise: a follower that stands for a log shows the longest prefix without a gap if and only if no entry of the
    // next epoch waits. Guards: law.
    ensures { (log : List Entry) (taken : Taken) (f : FollowerState)
        → IsLog log → StandsFor log taken f
        → IsPrefix taken f.image.epoch ↔ (waiting_at f.waiting (f.image.epoch + 1) ≡ None) }
{}
