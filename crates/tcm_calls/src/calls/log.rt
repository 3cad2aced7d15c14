//! The log of accepted entries.

use cluster_terms::NodeId;
use epoch_log::Log;
use std::process::Abort;
use std::test::Fail;
use transformations::{Command, Entry};

/// Adds an entry with this id.
fn add<A: Abort>(rt: &A, log: &mut Log, id: u64) -> Result<(), Fail> {
    assert!(rt; log.seen(id).is_none());
    let last = log.last_epoch();
    assert!(rt; last < 9);
    let entry = Entry {
        id,
        epoch: last + 1,
        cmd: Command::Unregister { node: NodeId(1) },
    };
    match log.push(entry) {
        Ok(()) => Ok(()),
        Err(_) => Err("memory")?,
    }
}

/// Removes the last entry.
fn remove_last<A: Abort>(rt: &A, log: &mut Log) {
    assert!(rt; log.last_epoch() > 0);
    log.pop();
}

/// The epoch of the entry with this id.
fn epoch_of(log: &Log, id: u64) -> Option<u64> {
    Some(log.seen(id)?.epoch)
}

/// The id of the entry at this epoch.
fn id_at(log: &Log, epoch: u64) -> Option<u64> {
    Some(log.entry(epoch)?.id)
}

#[test]
fn entries_of_a_log(rt: HostRuntime) -> Result<(), Fail> {
    let mut log = Log::empty(rt.alloc());
    for id in [70, u64::MAX, 50] {
        add(&rt, &mut log, id)?;
    }
    assert_eq!(rt; epoch_of(&log, u64::MAX), Some(2));
    assert_eq!(rt; id_at(&log, 3), Some(50));
    remove_last(&rt, &mut log);
    assert_eq!(rt; epoch_of(&log, 50), None);
    add(&rt, &mut log, 0)?;
    let wanted = [(0, None), (1, Some(70)), (3, Some(0)), (4, None)];
    for (epoch, id) in wanted {
        assert_eq!(rt; id_at(&log, epoch), id, "{epoch}");
    }
    assert_eq!(rt; log.last_epoch(), 3);
    Ok(())
}
