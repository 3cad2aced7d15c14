//! Lines of each form, lines that aren't in the grammar, long lines, and words other than `commit`.

use crate::tests::running::{Script, lines_in, ran};
use std::alloc::Global;
use std::test::Fail;
use tcm_session::Status;

/// Lines of each form.
pub const FORMS: [Script; 2] = [
    (
        "each form",
        "commit 0 register n1 dc-1 Rack_2.b\n\
            commit 18446744073709551615 register a b c\n\
            commit 5 unregister 1\n\
            commit 6 unregister 4294967295\n\
            commit 7 unsafe-join 1 0\n\
            commit 8 unsafe-join 4294967295 9223372036854775807\n\
            commit 9 unsafe-join 2 -9223372036854775808\n\
            commit 40 unsafe-join 2 -9223372036854775808 -10 -9 0 7 10 9223372036854775807\n\
            commit 10 keyspace ks simple 1\n\
            commit 11 keyspace aaaaaaaaaaaaaaaaaaaaaaaaaaaaaaaa simple 16\n\
            commit 12 keyspace ks topology dc1:3\n\
            commit 13 keyspace ks topology a:16 b:1 c:1 d:1 e:1 f:1 g:1 h:1 i:1 j:1 k:1 l:1 m:1 n:1 o:1 p:1\n\
            commit 14 drop-keyspace ks\n\
            commit 15 drop-keyspace aaaaaaaaaaaaaaaaaaaaaaaaaaaaaaaa\n\
            commit 16 keyspace simple simple 3\n\
            commit 17 prepare-join 1 0\n\
            commit 18 prepare-join 4294967295 -9223372036854775808 -1 9223372036854775807\n\
            commit 19 start-join 1\n\
            commit 20 mid-join 4294967295\n\
            commit 21 finish-join 2\n\
            commit 22 prepare-move 1 0\n\
            commit 23 prepare-move 0 -9223372036854775808\n\
            commit 24 prepare-move 4294967295 9223372036854775807\n\
            commit 25 prepare-leave 0\n\
            commit 26 prepare-leave 4294967295\n\
            commit 27 prepare-replace 0 4294967295\n\
            commit 28 prepare-replace 4294967295 0\n\
            commit 29 cancel 0\n\
            commit 30 cancel 4294967295\n\
            commit 31 start-move 0\n\
            commit 32 mid-move 1\n\
            commit 33 finish-move 4294967295\n\
            commit 34 start-leave 4294967295\n\
            commit 35 mid-leave 0\n\
            commit 36 finish-leave 2\n\
            commit 37 start-replace 3\n\
            commit 38 mid-replace 4294967295\n\
            commit 39 finish-replace 0\n\
            place @0 ks\n\
            place @18446744073709551615 ks\n\
            nodes @0\n\
            nodes @18446744073709551615\n\
            quorum @0 ks 0\n\
            quorum @18446744073709551615 aaaaaaaaaaaaaaaaaaaaaaaaaaaaaaaa -9223372036854775808\n\
            quorum @1 k 9223372036854775807\n\
            local @0 ks dc1 -1\n\
            local @1 k aaaaaaaaaaaaaaaaaaaaaaaaaaaaaaaa 9223372036854775807\n\
            local @18446744073709551615 aaaaaaaaaaaaaaaaaaaaaaaaaaaaaaaa d -9223372036854775808\n",
        "OK 1\n\
            OK 2\n\
            OK 3\n\
            NO NO-NODE\n\
            NO NO-NODE\n\
            NO NO-NODE\n\
            OK 4\n\
            NO NODE-STATE JOINED\n\
            OK 5\n\
            OK 6\n\
            OK 7\n\
            OK 8\n\
            OK 9\n\
            OK 10\n\
            OK 11\n\
            NO NO-NODE\n\
            NO NO-NODE\n\
            NO NO-NODE\n\
            NO NO-NODE\n\
            NO NO-SEQUENCE\n\
            NO NO-NODE\n\
            NO NO-NODE\n\
            NO NO-NODE\n\
            NO NO-NODE\n\
            NO NO-NODE\n\
            NO NO-NODE\n\
            NO NO-NODE\n\
            NO NO-NODE\n\
            NO NO-NODE\n\
            NO NO-NODE\n\
            NO NO-NODE\n\
            NO NO-NODE\n\
            NO NO-NODE\n\
            NO NO-NODE\n\
            NO NO-SEQUENCE\n\
            NO NO-NODE\n\
            NO NO-NODE\n\
            NO NO-NODE\n\
            NO KEYSPACE\n\
            NO EPOCH 11\n\
            NODES 0 0 0\n\
            NO EPOCH 11\n\
            NO KEYSPACE\n\
            NO EPOCH 11\n\
            NO KEYSPACE\n\
            NO KEYSPACE\n\
            NO KEYSPACE\n\
            NO EPOCH 11\n",
    ),
    (
        "tokens and datacenters in any order",
        "commit 1 register a dc1 r1\n\
            commit 2 register b dc2 r1\n\
            commit 3 unsafe-join 1 5 -3 0 -9223372036854775808 9223372036854775807 4 -30\n\
            commit 4 keyspace kt topology dc2:1 dc10:16 Dc2:12 dc1:2\n\
            commit 5 prepare-join 2 40 -20 20\n\
            nodes @5\n\
            local @5 kt dc1 0\n\
            local @5 kt Dc2 0\n\
            local @5 kt dc10 0\n\
            local @5 kt dc2 0\n\
            quorum @5 kt 0\n",
        "OK 1\n\
            OK 2\n\
            OK 3\n\
            OK 4\n\
            OK 5\n\
            NODES 5 2 1\n\
            1 a dc1 r1 JOINED -9223372036854775808,-30,-3,0,4,5,9223372036854775807\n\
            2 b dc2 r1 REGISTERED -\n\
            SEQ 2 join PREPARED out - in -20@2,20@2,40@2\n\
            LOCAL 5 read 2 of 1 write 2 of 1\n\
            LOCAL 5 read 7 of - write 7 of -\n\
            LOCAL 5 read 9 of - write 9 of -\n\
            LOCAL 5 read 1 of - write 1 of -\n\
            QUORUM 5 read 16 of 1 write 16 of 1\n",
    ),
];

/// Lines that aren't in the grammar.
const BAD_LINES: &[u8] = b"\n\
    \x20\n\
    place\n\
    place @0\n\
    place @0 ks \n\
    \x20place @0 ks\n\
    place  @0 ks\n\
    place\t@0 ks\n\
    place @0 ks\r\n\
    place @0 k\0s\n\
    place @0 k\xffs\n\
    place @0 k\xc3\xa9\n\
    place @0 a/b\n\
    place @0 aaaaaaaaaaaaaaaaaaaaaaaaaaaaaaaaa\n\
    place @0 ks ks\n\
    place @ ks\n\
    place @-1 ks\n\
    place @01 ks\n\
    place @18446744073709551616 ks\n\
    Place @0 ks\n\
    nodes\n\
    nodes \n\
    nodes @\n\
    nodes @00\n\
    nodes @0 \n\
    nodes @0 ks\n\
    nodes @18446744073709551616\n\
    node @0\n\
    commit\n\
    commit 1\n\
    commit 1 \n\
    commit 1 nodes @0\n\
    commit 1 place @0 ks\n\
    commit 01 register a b c\n\
    commit +1 register a b c\n\
    commit -1 register a b c\n\
    commit 1x register a b c\n\
    commit 18446744073709551616 register a b c\n\
    quorum\n\
    quorum @0\n\
    quorum @0 ks\n\
    quorum @0 ks \n\
    quorum @0 ks 1 \n\
    quorum @0 ks 1 2\n\
    quorum @0 ks dc1 1\n\
    quorum @0  ks 1\n\
    \x20quorum @0 ks 1\n\
    Quorum @0 ks 1\n\
    QUORUM @0 ks 1\n\
    quorums @0 ks 1\n\
    quorum @ ks 1\n\
    quorum @00 ks 1\n\
    quorum @-1 ks 1\n\
    quorum @18446744073709551616 ks 1\n\
    quorum @0 k/s 1\n\
    quorum @0 aaaaaaaaaaaaaaaaaaaaaaaaaaaaaaaaa 1\n\
    quorum @0 ks x\n\
    quorum @0 ks -0\n\
    quorum @0 ks 01\n\
    quorum @0 ks +1\n\
    quorum @0 ks 9223372036854775808\n\
    quorum @0 ks -9223372036854775809\n\
    quorum @0 1 ks\n\
    local\n\
    local @0 ks\n\
    local @0 ks 1\n\
    local @0 ks dc1\n\
    local @0 ks dc1 \n\
    local @0 ks dc1 1 2\n\
    local @0 ks dc1 -0\n\
    local @0 ks dc1 9223372036854775808\n\
    local @0 ks dc1 -9223372036854775809\n\
    local @0 k/s dc1 1\n\
    local @0 ks dc/1 1\n\
    local @0 ks aaaaaaaaaaaaaaaaaaaaaaaaaaaaaaaaa 1\n\
    local @18446744073709551616 ks dc1 1\n\
    commit 1 quorum @0 ks 1\n\
    commit 1 register a b\n\
    commit 1 register a b c d\n\
    commit 1 register a b \xff\n\
    commit 1 unregister\n\
    commit 1 unregister \n\
    commit 1 unregister n1\n\
    commit 1 unregister 01\n\
    commit 1 unregister 1 2\n\
    commit 1 unregister 4294967296\n\
    commit 1 unsafe-join\n\
    commit 1 unsafe-join 1\n\
    commit 1 unsafe-join 1 \n\
    commit 1 unsafe-join 1 5 \n\
    commit 1 unsafe-join 1 5  6\n\
    commit 1 unsafe-join 1 5 5\n\
    commit 1 unsafe-join 1 5 6 -7 5\n\
    commit 1 unsafe-join 1 5 x\n\
    commit 1 unsafe-join 4294967296 5\n\
    commit 1 unsafe-join 1 9223372036854775808\n\
    commit 1 unsafe-join 1 -9223372036854775809\n\
    commit 1 unsafe-join 1 -0\n\
    commit 1 unsafe-join 1 05\n\
    commit 1 keyspace\n\
    commit 1 keyspace ks\n\
    commit 1 keyspace ks simple\n\
    commit 1 keyspace ks simple 0\n\
    commit 1 keyspace ks simple 17\n\
    commit 1 keyspace ks simple 01\n\
    commit 1 keyspace ks simple 1 2\n\
    commit 1 keyspace ks topology\n\
    commit 1 keyspace ks topology 3\n\
    commit 1 keyspace ks topology a:0\n\
    commit 1 keyspace ks topology a:1 a:2\n\
    commit 1 keyspace ks topology a:1 b:1 c:1 d:1 e:1 f:1 g:1 h:1 i:1 j:1 k:1 l:1 m:1 n:1 o:1 p:1 q:1\n\
    commit 1 keyspace k/s simple 1\n\
    commit 1 drop-keyspace\n\
    commit 1 drop-keyspace a/b\n\
    commit 1 drop-keyspace ks ks\n\
    commit 1 prepare-join\n\
    commit 1 prepare-join 1\n\
    commit 1 prepare-join 1 \n\
    commit 1 prepare-join 1 5 -0\n\
    commit 1 prepare-join 1 5 4 5\n\
    commit 1 prepare-join 1 9223372036854775808\n\
    commit 1 prepare-join 4294967296 5\n\
    commit 1 start-join\n\
    commit 1 start-join 1 5\n\
    commit 1 Start-join 1\n\
    commit 1 start join 1\n\
    commit 1 mid-join x\n\
    commit 1 finish-join 4294967296\n\
    commit 1 prepare-move\n\
    commit 1 prepare-move 1\n\
    commit 1 prepare-move 1 \n\
    commit 1 prepare-move 1 5 6\n\
    commit 1 prepare-move 1 -0\n\
    commit 1 prepare-move 1 9223372036854775808\n\
    commit 1 prepare-move 4294967296 5\n\
    commit 1 prepare-leave\n\
    commit 1 prepare-leave 1 2\n\
    commit 1 prepare-leave 01\n\
    commit 1 prepare-replace 1\n\
    commit 1 prepare-replace 1 2 3\n\
    commit 1 prepare-replace 1  2\n\
    commit 1 prepare-replace 4294967296 2\n\
    commit 1 prepare-replace 1 4294967296\n\
    commit 1 cancel\n\
    commit 1 cancel \n\
    commit 1 cancel 1 2\n\
    commit 1 cancel 4294967296\n\
    commit 1 start-move 1 5\n\
    commit 1 mid-move\n\
    commit 1 finish-move 4294967296\n\
    commit 1 start-leave x\n\
    commit 1 mid-leave 1 2\n\
    commit 1 finish-leave -1\n\
    commit 1 start-replace 1 2\n\
    commit 1 mid-replace +1\n\
    commit 1 Finish-replace 1\n\
    commit 1 cancel-move 1\n\
    commit 1 start- 1\n\
    commit 1 move 1\n\
    commit 1  register a dc1 r1\n\
    commit 1 register a dc1 r1 \n\
    commit 1 register a dc1 r1\r\n\
    commit\t1 register a dc1 r1\n\
    commit 1 register \xff dc1 r1\n\
    commit 1 register a\0 dc1 r1\n\
    commit 1 register aaaaaaaaaaaaaaaaaaaaaaaaaaaaaaaaa b c\n\
    follower\n\
    follower \n\
    follower f \n\
    \x20follower f\n\
    Follower f\n\
    follower f\r\n\
    follower a/b\n\
    follower a b\n\
    follower aaaaaaaaaaaaaaaaaaaaaaaaaaaaaaaaa\n\
    follower @1\n\
    deliver f\n\
    deliver f 01\n\
    deliver f -1\n\
    deliver f 18446744073709551616\n\
    deliver f x\n\
    deliver f @1\n\
    deliver f 1 \n\
    deliver f  1\n\
    deliver aaaaaaaaaaaaaaaaaaaaaaaaaaaaaaaaa 1\n\
    deliver f 1 1\n\
    deliver @1 1\n\
    deliver 1\n\
    snapshot f\n\
    snapshot f @1\n\
    snapshot f 01\n\
    snapshot f x\n\
    snapshot f 18446744073709551616\n\
    snapshot aaaaaaaaaaaaaaaaaaaaaaaaaaaaaaaaa 1\n\
    snapshot f 1 2\n\
    place a/b ks\n\
    nodes f g\n\
    nodes aaaaaaaaaaaaaaaaaaaaaaaaaaaaaaaaa\n\
    quorum f ks\n\
    local f ks dc1\n";

/// The answers to `count` lines that aren't in the grammar.
fn refused(alloc: Global, count: usize) -> Result<Vec<u8>, Fail> {
    let mut answers = Vec::new(alloc);
    for _line in 0..count {
        answers.extend_from_slice(b"NO BAD-LINE\n")?;
    }
    Ok(answers)
}

#[test]
fn bad_lines_are_answered_and_the_script_goes_on(rt: HostRuntime) -> Result<(), Fail> {
    let alloc = rt.alloc();
    let mut script = BAD_LINES.to_vec(alloc)?;
    let mut want = refused(alloc, lines_in(BAD_LINES))?;
    script.extend_from_slice(b"\ncommit 7 register a dc1 r1")?;
    want.extend_from_slice(b"NO BAD-LINE\nOK 1\n")?;
    let (status, printed) = ran(alloc, "commit", &script, 64)?;
    assert_eq!(rt; status, Status(0));
    assert_eq!(rt; printed.as_slice(), want.as_slice());
    Ok(())
}

#[test]
fn long_lines_are_answered(rt: HostRuntime) -> Result<(), Fail> {
    for len in [16_384, 16_385] {
        let mut script = vec![in rt.alloc(); b'x'; len]?;
        script.extend_from_slice(b"\n\n")?;
        let (status, printed) = ran(rt.alloc(), "commit", &script, 4_096)?;
        assert_eq!(rt; status, Status(0));
        assert_eq!(rt;
            printed.as_slice(),
            b"NO BAD-LINE\nNO BAD-LINE\n".as_slice()
        );
    }
    Ok(())
}

#[test]
fn other_words_are_answered_by_the_usage(rt: HostRuntime) -> Result<(), Fail> {
    for word in ["", "replay", "mend2", "Commit", "commit "] {
        let (status, printed) = ran(rt.alloc(), word, b"\n", 1)?;
        assert_eq!(rt; status, Status(2));
        assert_eq!(rt;
            printed.as_slice(),
            b"usage: tcm commit [LOG CLUSTER] | replay FILE.. | snapshot LOG E | gen START N | mend2 OLD NEW CLUSTER | plan LOG NODE KS | cms LOG FROM TO\n".as_slice()
        );
    }
    Ok(())
}
