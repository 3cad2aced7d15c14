//! Replies to followers that ask for what they lack of a log.

use catch_up::{Reply, base, reply};
use cluster_terms::NodeId;
use epoch_log::Log;
use std::alloc::Global;
use std::process::Abort;
use std::test::Fail;
use transformations::{Command, Entry};

/// The last epoch of a log, the epoch that is asked from, the most entries that are asked for, and the epoch of the
/// image in the reply, if there is one.
const BASES: [(u64, u64, u64, Option<u64>); 15] = [
    (0, 0, 1, None),
    (4, 0, 4, None),
    (11, 4, 20, None),
    (11, 4, 6, None),
    (255, 0, 1, None),
    (256, 0, 255, Some(256)),
    (512, 255, 256, Some(512)),
    (512, 256, 256, None),
    (1_030, 0, 10, Some(1_024)),
    (1_030, 1_023, 6, Some(1_024)),
    (1_030, 1_024, 5, None),
    (1_030, 1_030, 1, None),
    (65_535, 0, 1_024, Some(65_280)),
    (65_536, 64_511, 1_024, Some(65_536)),
    (65_536, 64_512, 1_024, None),
];

/// The epoch that is asked from, the most entries that are asked for, and the first epoch and the number of the entries
/// in the reply, from a log of 11 entries.
const REPLIES: [(u64, u64, u64, usize); 7] = [
    (0, 4, 1, 4),
    (4, 20, 5, 7),
    (3, 1, 4, 1),
    (10, 1, 11, 1),
    (11, 5, 0, 0),
    (0, 11, 1, 11),
    (0, 1_024, 1, 11),
];

/// A log with this number of entries.
fn log_of<A: Abort>(rt: &A, alloc: Global, count: u64) -> Result<Log, Fail> {
    let mut log = Log::empty(alloc);
    for before in 0..count {
        assert!(rt; log.last_epoch() == before && log.seen(before).is_none());
        let entry = Entry {
            id: before,
            epoch: before + 1,
            cmd: Command::Unregister { node: NodeId(1) },
        };
        match log.push(entry) {
            Ok(()) => {}
            Err(_) => Err("memory")?,
        }
    }
    Ok(log)
}

/// The reply without an image to a follower at an epoch.
fn reply_from<A: Abort>(
    rt: &A,
    alloc: Global,
    log: &Log,
    since: u64,
    max: u64,
) -> Result<Reply, Fail> {
    let last = log.last_epoch();
    assert!(rt; since <= last);
    assert!(rt; 1 <= max && max <= 1_024);
    match base(last, since, max) {
        None => match reply(alloc, log, since, max, None) {
            Ok(reply) => Ok(reply),
            Err(_) => Err("memory")?,
        },
        Some(_) => Err("an image")?,
    }
}

/// Tests that the epochs of a reply's entries follow one another from this one on, and returns how many they are.
fn count_from<A: Abort>(rt: &A, reply: &Reply, first: u64) -> usize {
    let mut epoch = first;
    for entry in reply.entries.as_slice() {
        assert_eq!(rt; entry.epoch, epoch);
        epoch = epoch.saturating_add(1);
    }
    reply.entries.as_slice().len()
}

#[test]
fn bases_of_replies(rt: HostRuntime) -> Result<(), Fail> {
    for row in &BASES {
        let (last, since, max, wanted) = *row;
        assert!(rt; since <= last);
        assert!(rt; 1 <= max && max <= 1_024);
        assert_eq!(rt; base(last, since, max), wanted, "{last} {since} {max}");
    }
    Ok(())
}

#[test]
fn replies_without_images(rt: HostRuntime) -> Result<(), Fail> {
    let log = log_of(&rt, rt.alloc(), 11)?;
    for row in &REPLIES {
        let (since, max, first, count) = *row;
        let reply = reply_from(&rt, rt.alloc(), &log, since, max)?;
        assert_eq!(rt; reply.since, since);
        assert!(rt; reply.image.is_none());
        assert_eq!(rt; count_from(&rt, &reply, first), count, "{since} {max}");
    }
    Ok(())
}
