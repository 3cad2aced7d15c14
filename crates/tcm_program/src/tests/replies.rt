//! Replies to followers that ask for what they lack: lost, repeated and out of order.

use crate::tests::running::{Script, accepted, is_answered};
use std::alloc::Global;
use std::test::Fail;

/// Followers of a log of four nodes, and of a join.
pub const ON_FOUR: [Script; 5] = [
    (
        "replies-out-of-order",
        "follower f\n\
            ask f 4\n\
            ask f 4\n\
            give f 2\n\
            ask f 20\n\
            follower g\n\
            give g 3\n\
            give g 1\n\
            give g 9\n",
        "AT 0\n\
            REPLY 1 since 0 entries 4\n\
            REPLY 2 since 0 entries 4\n\
            AT 4\n\
            REPLY 3 since 4 entries 7\n\
            AT 0\n\
            AT 0\n\
            AT 11\n\
            NO REPLY 3\n",
    ),
    (
        "a reply that comes late and again",
        "follower f\n\
            ask f 6\n\
            ask f 3\n\
            give f 2\n\
            commit 12 prepare-join 5 150\n\
            ask f 1024\n\
            commit 13 start-join 5\n\
            give f 1\n\
            give f 2\n\
            give f 1\n\
            give f 3\n\
            give f 3\n\
            ask f 1\n\
            give f 4\n\
            nodes f\n\
            quorum f ks 120\n\
            quorum @13 ks 120\n",
        "AT 0\n\
            REPLY 1 since 0 entries 6\n\
            REPLY 2 since 0 entries 3\n\
            AT 3\n\
            OK 12\n\
            REPLY 3 since 3 entries 9\n\
            OK 13\n\
            AT 6\n\
            AT 6\n\
            AT 6\n\
            AT 12\n\
            AT 12\n\
            REPLY 4 since 12 entries 1\n\
            AT 13\n\
            NODES 13 6 1\n\
            1 a dc1 r1 JOINED 0\n\
            2 b dc1 r1 JOINED 100\n\
            3 c dc1 r1 JOINED 200\n\
            4 d dc1 r1 JOINED 300\n\
            5 e dc1 r1 BOOTSTRAPPING -\n\
            6 f dc1 r1 REGISTERED -\n\
            SEQ 5 join STARTED out - in 150@5\n\
            QUORUM 13 read 2 of 1,3,4 write 3 of 1,3,4,5\n\
            QUORUM 13 read 2 of 1,3,4 write 3 of 1,3,4,5\n",
    ),
    (
        "a reply to another follower",
        "follower f\n\
            follower g\n\
            deliver g 2\n\
            deliver g 9\n\
            snapshot f 5\n\
            ask f 3\n\
            ask g 2\n\
            give g 1\n\
            nodes g\n\
            give f 2\n\
            give g 2\n\
            nodes g\n\
            ask g 5\n\
            give f 3\n\
            give g 3\n\
            place f ks\n\
            place g ks\n",
        "AT 0\n\
            AT 0\n\
            AT 0\n\
            AT 0\n\
            AT 5\n\
            REPLY 1 since 5 entries 3\n\
            REPLY 2 since 0 entries 2\n\
            AT 0\n\
            NODES 0 0 0\n\
            AT 5\n\
            AT 2\n\
            NODES 2 2 0\n\
            1 a dc1 r1 REGISTERED -\n\
            2 b dc1 r1 REGISTERED -\n\
            REPLY 3 since 2 entries 5\n\
            AT 7\n\
            AT 9\n\
            NO KEYSPACE\n\
            PLACE 9 ks 5\n\
            (min,0] read 1,2,3 write 1,2,3\n\
            (0,100] read 2,3,4 write 2,3,4\n\
            (100,200] read 1,3,4 write 1,3,4\n\
            (200,300] read 1,2,4 write 1,2,4\n\
            (300,max] read 1,2,3 write 1,2,3\n",
    ),
    (
        "a reply goes on with entries that wait",
        "follower f\n\
            deliver f 6\n\
            deliver f 4\n\
            ask f 3\n\
            give f 1\n\
            deliver f 6\n\
            ask f 1\n\
            deliver f 9\n\
            give f 2\n\
            deliver f 8\n\
            ask f 1\n",
        "AT 0\n\
            AT 0\n\
            AT 0\n\
            REPLY 1 since 0 entries 3\n\
            AT 4\n\
            HELD 4\n\
            REPLY 2 since 4 entries 1\n\
            AT 4\n\
            AT 6\n\
            AT 6\n\
            REPLY 3 since 6 entries 1\n",
    ),
    (
        "lines on replies that are refused",
        "ask f 1\n\
            give f 1\n\
            follower f\n\
            give f 1\n\
            ask f 0\n\
            ask f 1025\n\
            ask f 01\n\
            ask f -1\n\
            ask f\n\
            ask f 1 2\n\
            ask  f 1\n\
            ask f 1\n\
            ask f 1024\n\
            give f 0\n\
            give f 3\n\
            give f 18446744073709551615\n\
            give f 18446744073709551616\n\
            give f 01\n\
            give f\n\
            give f 1 1\n\
            give g 1\n\
            give f 2\n\
            ask g 1\n",
        "NO FOLLOWER\n\
            NO FOLLOWER\n\
            AT 0\n\
            NO REPLY 0\n\
            NO BAD-LINE\n\
            NO BAD-LINE\n\
            NO BAD-LINE\n\
            NO BAD-LINE\n\
            NO BAD-LINE\n\
            NO BAD-LINE\n\
            NO BAD-LINE\n\
            REPLY 1 since 0 entries 1\n\
            REPLY 2 since 0 entries 11\n\
            NO REPLY 2\n\
            NO REPLY 2\n\
            NO REPLY 2\n\
            NO BAD-LINE\n\
            NO BAD-LINE\n\
            NO BAD-LINE\n\
            NO BAD-LINE\n\
            NO FOLLOWER\n\
            AT 11\n\
            NO FOLLOWER\n",
    ),
];

/// Commits of 1,030 epochs, and their answers.
fn begun(alloc: Global) -> Result<(String, String), Fail> {
    let mut script = String::new(alloc);
    for i in 1..=1_030 {
        script.push_str(&format!(in alloc; "commit {i} keyspace ks simple 1\n")?)?;
    }
    Ok((script, accepted(alloc, 1, 1_030)?))
}

#[test]
fn reply_with_image(rt: HostRuntime) -> Result<(), Fail> {
    let alloc = rt.alloc();
    let (mut script, mut want) = begun(alloc)?;
    script.push_str(
        "follower f\n\
            ask f 10\n\
            give f 1\n\
            give f 1\n\
            ask f 10\n",
    )?;
    want.push_str(
        "AT 0\n\
            REPLY 1 image 1024 entries 6\n\
            AT 1030\n\
            AT 1030\n\
            REPLY 2 since 1030 entries 0\n",
    )?;
    for number in 3..=64 {
        script.push_str("ask f 1\n")?;
        want.push_str(&format!(in alloc; "REPLY {number} since 1030 entries 0\n")?)?;
    }
    script.push_str(
        "ask f 1\n\
        ask g 1\n\
        give f 64\n\
        give f 65\n",
    )?;
    want.push_str(
        "NO REPLIES-FULL\n\
        NO FOLLOWER\n\
        AT 1030\n\
        NO REPLY 64\n",
    )?;
    is_answered(&rt, alloc, &script, &want)
}

#[test]
fn images_of_replies_are_of_each_256th_epoch(rt: HostRuntime) -> Result<(), Fail> {
    let alloc = rt.alloc();
    let (mut script, mut want) = begun(alloc)?;
    script.push_str(
        "follower f\n\
            ask f 1024\n\
            ask f 1\n\
            snapshot f 5\n\
            ask f 1024\n\
            ask f 1023\n\
            snapshot f 6\n\
            ask f 1024\n\
            ask f 1023\n\
            snapshot f 1023\n\
            ask f 7\n\
            ask f 6\n\
            snapshot f 1024\n\
            ask f 6\n\
            ask f 5\n\
            give f 7\n\
            follower g\n\
            give g 2\n\
            ask g 1\n\
            give g 1\n",
    )?;
    want.push_str(
        "AT 0\n\
            REPLY 1 image 1024 entries 6\n\
            REPLY 2 image 1024 entries 1\n\
            AT 5\n\
            REPLY 3 image 1024 entries 6\n\
            REPLY 4 image 1024 entries 6\n\
            AT 6\n\
            REPLY 5 since 6 entries 1024\n\
            REPLY 6 image 1024 entries 6\n\
            AT 1023\n\
            REPLY 7 since 1023 entries 7\n\
            REPLY 8 image 1024 entries 6\n\
            AT 1024\n\
            REPLY 9 since 1024 entries 6\n\
            REPLY 10 since 1024 entries 5\n\
            AT 1030\n\
            AT 0\n\
            AT 1025\n\
            REPLY 11 since 1025 entries 1\n\
            AT 1030\n",
    )?;
    is_answered(&rt, alloc, &script, &want)
}

#[test]
fn entries_of_replies_wait_up_to_1024(rt: HostRuntime) -> Result<(), Fail> {
    let alloc = rt.alloc();
    let (mut script, mut want) = begun(alloc)?;
    script.push_str("follower f\n")?;
    want.push_str("AT 0\n")?;
    for epoch in 2..=1_025 {
        script.push_str(&format!(in alloc; "deliver f {epoch}\n")?)?;
        want.push_str("AT 0\n")?;
    }
    script.push_str(
        "follower g\n\
            snapshot g 1026\n\
            ask g 1024\n\
            give f 1\n\
            give g 1\n\
            ask f 1\n\
            give f 2\n\
            give f 1\n",
    )?;
    want.push_str(
        "AT 0\n\
            AT 1026\n\
            REPLY 1 since 1026 entries 4\n\
            AT 0\n\
            AT 1030\n\
            REPLY 2 image 1024 entries 1\n\
            AT 1025\n\
            AT 1025\n",
    )?;
    is_answered(&rt, alloc, &script, &want)
}
