//! Followers, which are handed entries and images in any order.

ghost use Rattle.std.specs.Prelude.{◌≡◌, ◌≤◌, IfOk, IsTrue};
ghost use Rattle.transformations.specs.History.{is_command};

use crate::calls::name_of;
use follower_log::{Follower, FollowerFault, Took};
use std::alloc::Global;
use std::process::Abort;
use std::test::Fail;
use transformations::{Command, Entry};

/// An entry that registers a node. The node's name tells the epoch.
fn entry_of(alloc: Global, epoch: u64, id: u64) -> Result<Entry, Fail>
    ensures epoch { IfOk result (λ entry. entry.epoch ≡ epoch) }
    ensures formed { IfOk result (λ entry. IsTrue (is_command entry.cmd)) }
{
    let name = format!(in alloc; "n{epoch}")?;
    Ok(Entry {
        id,
        epoch,
        cmd: Command::Register {
            name: name_of(alloc, name.as_str())?,
            dc: name_of(alloc, "dc1")?,
            rack: name_of(alloc, "r1")?,
        },
    })
}

/// Hands over an entry.
fn hand(
    alloc: Global,
    follower: &mut Follower,
    epoch: u64,
    id: u64,
) -> Result<Result<Took, FollowerFault>, Fail>
    requires { epoch ≤ 65536 }
{
    let entry = entry_of(alloc, epoch, id)?;
    Ok(follower.deliver(&entry))
}

/// Hands over the image of another follower.
fn hand_image(
    follower: &mut Follower,
    other: &Follower,
) -> Result<Result<Took, FollowerFault>, Fail> {
    let image = other.metadata().image()?;
    Ok(follower.snapshot(image))
}

/// Entries in any order, some of them again, and what becomes of each.
const ORDER: [(u16, Took); 7] = [
    (4, Took::At(0)),
    (3, Took::At(0)),
    (1, Took::At(1)),
    (1, Took::Old(1)),
    (4, Took::Held(1)),
    (2, Took::At(4)),
    (3, Took::Old(4)),
];

/// Hands over entries in any order.
fn any_order<A: Abort>(rt: &A, alloc: Global, follower: &mut Follower) -> Result<(), Fail> {
    for handed in &ORDER {
        let (epoch, took) = *handed;
        let epoch = u64::from(epoch);
        let result = hand(alloc, follower, epoch, epoch)?;
        assert_eq!(rt; result.ok(), Some(took), "{epoch}");
    }
    assert_eq!(rt; follower.waiting(), 0);
    Ok(())
}

/// A follower at 0 to which 1,024 entries wait takes no other one past the gap, and goes on once the gap is closed.
fn many_wait<A: Abort>(rt: &A, alloc: Global, follower: &mut Follower) -> Result<(), Fail> {
    for epoch in 3..=1_026 {
        let result = hand(alloc, follower, epoch, epoch)?;
        assert_eq!(rt; result.ok(), Some(Took::At(0)));
    }
    let result = hand(alloc, follower, 1_027, 7)?;
    assert_eq!(rt; result.ok(), Some(Took::Full(0)));
    let result = hand(alloc, follower, 2, 2)?;
    assert_eq!(rt; result.ok(), Some(Took::Full(0)));
    assert_eq!(rt; follower.waiting(), 1_024);
    let result = hand(alloc, follower, 1, 1)?;
    assert_eq!(rt; result.ok(), Some(Took::At(1)));
    Ok(())
}

/// A follower takes an image, drops what waits below it, and goes on with what comes after it.
fn takes_images<A: Abort>(
    rt: &A,
    alloc: Global,
    follower: &mut Follower,
    other: &mut Follower,
) -> Result<(), Fail> {
    for epoch in [5, 2] {
        let result = hand(alloc, follower, epoch, epoch)?;
        assert_eq!(rt; result.ok(), Some(Took::At(0)));
    }
    any_order(rt, alloc, other)?;
    let result = hand_image(follower, other)?;
    assert_eq!(rt; result.ok(), Some(Took::At(5)));
    assert_eq!(rt; follower.waiting(), 0);
    let result = hand_image(follower, other)?;
    assert_eq!(rt; result.ok(), Some(Took::Old(5)));
    let result = follower.advance();
    assert_eq!(rt; result.ok(), Some(Took::At(5)));
    Ok(())
}

/// Another entry of an epoch at which one waits is a fork.
fn forks<A: Abort>(rt: &A, alloc: Global, follower: &mut Follower) -> Result<(), Fail> {
    let result = hand(alloc, follower, 3, 3)?;
    assert_eq!(rt; result.ok(), Some(Took::At(0)));
    let (epoch, held, came) = match hand(alloc, follower, 3, 4)? {
        Err(FollowerFault::Fork(epoch, held, came)) => (epoch, held.id, came.id),
        _ => (0, 0, 0),
    };
    assert_eq!(rt; (epoch, held, came), (3, 3, 4));
    assert_eq!(rt; follower.waiting(), 1);
    Ok(())
}

#[test]
fn followers_of_a_log(rt: HostRuntime) -> Result<(), Fail> {
    let alloc = rt.alloc();
    let mut follower = Follower::empty(alloc)?;
    let tested = many_wait(&rt, alloc, &mut follower);
    follower.close();
    tested?;
    let mut follower = Follower::empty(alloc)?;
    let tested = forks(&rt, alloc, &mut follower);
    follower.close();
    tested
}

#[test]
fn followers_of_images(rt: HostRuntime) -> Result<(), Fail> {
    let alloc = rt.alloc();
    let mut follower = Follower::empty(alloc)?;
    let tested = match Follower::empty(alloc) {
        Ok(mut other) => {
            let tested = takes_images(&rt, alloc, &mut follower, &mut other);
            other.close();
            tested
        }
        Err(_) => Err("memory".into()),
    };
    follower.close();
    tested
}
