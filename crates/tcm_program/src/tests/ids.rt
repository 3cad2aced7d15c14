//! Ids of commits: an id with its command is answered by its epoch again, and refused with another command.

use crate::tests::running::Script;

/// Ids in new clusters.
pub const FROM_NOTHING: [Script; 5] = [
    (
        "the least and the greatest id",
        "commit 0 register a dc1 r1\n\
            commit 18446744073709551615 register b dc1 r1\n\
            commit 1 unsafe-join 1 0\n\
            commit 0 register a dc1 r1\n\
            commit 18446744073709551615 register b dc1 r1\n\
            commit 0 register c dc1 r1\n\
            commit 18446744073709551615 register c dc1 r1\n\
            commit 18446744073709551614 unsafe-join 2 100\n\
            nodes @4\n\
            nodes @5\n",
        "OK 1\n\
            OK 2\n\
            OK 3\n\
            OK 1\n\
            OK 2\n\
            NO ID-REUSED 1\n\
            NO ID-REUSED 2\n\
            OK 4\n\
            NODES 4 2 0\n\
            1 a dc1 r1 JOINED 0\n\
            2 b dc1 r1 JOINED 100\n\
            NO EPOCH 4\n",
    ),
    (
        "ids in any order",
        "commit 9 register a dc1 r1\n\
            commit 3 register b dc1 r1\n\
            commit 7 register c dc1 r1\n\
            commit 1 register d dc1 r1\n\
            commit 7 register c dc1 r1\n\
            commit 1 register d dc1 r1\n\
            commit 9 register a dc1 r1\n\
            commit 3 register a dc1 r1\n\
            commit 2 register a dc1 r1\n\
            commit 4 register e dc1 r1\n",
        "OK 1\n\
            OK 2\n\
            OK 3\n\
            OK 4\n\
            OK 3\n\
            OK 4\n\
            OK 1\n\
            NO ID-REUSED 2\n\
            NO NAME-TAKEN 1\n\
            OK 5\n",
    ),
    (
        "the same keyspace, with datacenters in another order",
        "commit 1 keyspace kt topology dc2:1 dc10:3 dc1:3\n\
            commit 1 keyspace kt topology dc1:3 dc2:1 dc10:3\n\
            commit 1 keyspace kt topology dc1:3 dc10:3 dc2:2\n\
            commit 1 keyspace kt topology dc1:3 dc10:3\n\
            commit 1 keyspace kz topology dc2:1 dc10:3 dc1:3\n\
            commit 1 keyspace kt simple 3\n\
            commit 2 keyspace kt topology dc1:3 dc10:3 dc2:1\n\
            commit 3 keyspace kt simple 3\n\
            commit 3 keyspace kt simple 3\n\
            commit 3 keyspace kt topology a:3\n\
            commit 1 keyspace kt topology dc10:3 dc2:1 dc1:3\n\
            place @3 kt\n\
            place @4 kt\n",
        "OK 1\n\
            OK 1\n\
            NO ID-REUSED 1\n\
            NO ID-REUSED 1\n\
            NO ID-REUSED 1\n\
            NO ID-REUSED 1\n\
            OK 2\n\
            OK 3\n\
            OK 3\n\
            NO ID-REUSED 3\n\
            OK 1\n\
            PLACE 3 kt 1\n\
            (min,max] read - write -\n\
            NO EPOCH 3\n",
    ),
    (
        "the same unsafe join, with tokens in another order",
        "commit 1 register a dc1 r1\n\
            commit 2 register b dc1 r1\n\
            commit 3 unsafe-join 1 5 -5 0\n\
            commit 3 unsafe-join 1 -5 0 5\n\
            commit 3 unsafe-join 1 0 5 -5\n\
            commit 3 unsafe-join 1 5 -5\n\
            commit 3 unsafe-join 1 5 -5 0 7\n\
            commit 3 unsafe-join 2 5 -5 0\n\
            commit 3 prepare-join 1 5 -5 0\n\
            commit 3 unsafe-join 1 5 5 0\n\
            nodes @3\n\
            nodes @4\n",
        "OK 1\n\
            OK 2\n\
            OK 3\n\
            OK 3\n\
            OK 3\n\
            NO ID-REUSED 3\n\
            NO ID-REUSED 3\n\
            NO ID-REUSED 3\n\
            NO ID-REUSED 3\n\
            NO BAD-LINE\n\
            NODES 3 2 0\n\
            1 a dc1 r1 JOINED -5,0,5\n\
            2 b dc1 r1 REGISTERED -\n\
            NO EPOCH 3\n",
    ),
    (
        "each field of a register",
        "commit 1 register a dc1 r1\n\
            commit 1 register b dc1 r1\n\
            commit 1 register a dc2 r1\n\
            commit 1 register a dc1 r2\n\
            commit 1 register dc1 a r1\n\
            commit 1 register A dc1 r1\n\
            commit 1 unregister 1\n\
            commit 1 register a dc1 r1\n\
            nodes @1\n\
            nodes @2\n",
        "OK 1\n\
            NO ID-REUSED 1\n\
            NO ID-REUSED 1\n\
            NO ID-REUSED 1\n\
            NO ID-REUSED 1\n\
            NO ID-REUSED 1\n\
            NO ID-REUSED 1\n\
            OK 1\n\
            NODES 1 1 0\n\
            1 a dc1 r1 REGISTERED -\n\
            NO EPOCH 1\n",
    ),
];

/// Ids in a cluster of four nodes.
pub const ON_FOUR: [Script; 6] = [
    (
        "entry-ids",
        "commit 3 register c dc1 r1\n\
            commit 3 register z dc1 r1\n\
            commit 12 start-join 5\n\
            commit 13 prepare-join 5 150\n\
            commit 12 start-join 5\n",
        "OK 3\n\
            NO ID-REUSED 3\n\
            NO NO-SEQUENCE\n\
            OK 12\n\
            OK 13\n",
    ),
    (
        "a refused id comes again",
        "commit 12 unregister 77\n\
            commit 12 unregister 77\n\
            commit 12 unsafe-join 5 100\n\
            commit 12 unsafe-join 5 400\n\
            commit 12 unsafe-join 5 400\n\
            commit 12 unsafe-join 5 100\n\
            commit 12 unregister 77\n\
            nodes @12\n\
            nodes @13\n",
        "NO NO-NODE\n\
            NO NO-NODE\n\
            NO TOKEN-TAKEN 100\n\
            OK 12\n\
            OK 12\n\
            NO ID-REUSED 12\n\
            NO ID-REUSED 12\n\
            NODES 12 6 0\n\
            1 a dc1 r1 JOINED 0\n\
            2 b dc1 r1 JOINED 100\n\
            3 c dc1 r1 JOINED 200\n\
            4 d dc1 r1 JOINED 300\n\
            5 e dc1 r1 JOINED 400\n\
            6 f dc1 r1 REGISTERED -\n\
            NO EPOCH 12\n",
    ),
    (
        "the same commit after others",
        "commit 12 prepare-join 5 150\n\
            commit 13 start-join 5\n\
            commit 12 prepare-join 5 150\n\
            commit 14 mid-join 5\n\
            commit 13 start-join 5\n\
            commit 5 unsafe-join 1 0\n\
            quorum @14 ks 50\n\
            commit 15 finish-join 5\n\
            commit 12 prepare-join 5 150\n\
            commit 13 start-join 5\n\
            commit 14 mid-join 5\n\
            commit 15 finish-join 5\n\
            commit 16 unregister 6\n\
            commit 11 register f dc1 r1\n\
            nodes @16\n\
            nodes @17\n",
        "OK 12\n\
            OK 13\n\
            OK 12\n\
            OK 14\n\
            OK 13\n\
            OK 5\n\
            QUORUM 14 read 2 of 2,3,5 write 3 of 2,3,4,5\n\
            OK 15\n\
            OK 12\n\
            OK 13\n\
            OK 14\n\
            OK 15\n\
            OK 16\n\
            OK 11\n\
            NODES 16 5 0\n\
            1 a dc1 r1 JOINED 0\n\
            2 b dc1 r1 JOINED 100\n\
            3 c dc1 r1 JOINED 200\n\
            4 d dc1 r1 JOINED 300\n\
            5 e dc1 r1 JOINED 150\n\
            NO EPOCH 16\n",
    ),
    (
        "the same join, with tokens in another order",
        "commit 12 prepare-join 5 150 -50 250\n\
            commit 12 prepare-join 5 250 150 -50\n\
            commit 12 prepare-join 5 -50 150 250\n\
            commit 12 prepare-join 5 150 -50\n\
            commit 12 prepare-join 6 150 -50 250\n\
            commit 12 unsafe-join 5 150 -50 250\n\
            commit 12 prepare-join 5 -50 150 350\n",
        "OK 12\n\
            OK 12\n\
            OK 12\n\
            NO ID-REUSED 12\n\
            NO ID-REUSED 12\n\
            NO ID-REUSED 12\n\
            NO ID-REUSED 12\n",
    ),
    (
        "one id for each step",
        "commit 12 prepare-move 2 250\n\
            commit 12 prepare-move 2 251\n\
            commit 12 prepare-move 3 250\n\
            commit 12 prepare-leave 2\n\
            commit 12 prepare-replace 2 250\n\
            commit 12 start-move 2\n\
            commit 13 start-move 2\n\
            commit 13 mid-move 2\n\
            commit 13 start-leave 2\n\
            commit 13 cancel 2\n\
            commit 14 cancel 2\n\
            commit 14 cancel 2\n\
            commit 15 cancel 2\n\
            commit 14 cancel 2\n\
            commit 15 cancel 2\n\
            commit 16 cancel 2\n",
        "OK 12\n\
            NO ID-REUSED 12\n\
            NO ID-REUSED 12\n\
            NO ID-REUSED 12\n\
            NO ID-REUSED 12\n\
            NO ID-REUSED 12\n\
            OK 13\n\
            NO ID-REUSED 13\n\
            NO ID-REUSED 13\n\
            NO ID-REUSED 13\n\
            OK 14\n\
            OK 14\n\
            NO NO-SEQUENCE\n\
            OK 14\n\
            NO NO-SEQUENCE\n\
            NO NO-SEQUENCE\n",
    ),
    (
        "reused before other refusals",
        "commit 1 unsafe-join 77 0\n\
            commit 2 register a dc1 r1\n\
            commit 3 drop-keyspace zz\n\
            commit 4 unsafe-join 1 0\n\
            commit 5 start-join 5\n\
            commit 6 prepare-join 5 100\n\
            commit 7 prepare-move 5 150\n\
            commit 8 prepare-replace 5 6\n\
            commit 9 prepare-leave 2\n\
            commit 10 cancel 77\n\
            commit 11 unsafe-join 1 5 5\n\
            commit 011 register f dc1 r1\n\
            commit 12 cancel 77\n\
            nodes @12\n",
        "NO ID-REUSED 1\n\
            NO ID-REUSED 2\n\
            NO ID-REUSED 3\n\
            NO ID-REUSED 4\n\
            NO ID-REUSED 5\n\
            NO ID-REUSED 6\n\
            NO ID-REUSED 7\n\
            NO ID-REUSED 8\n\
            NO ID-REUSED 9\n\
            NO ID-REUSED 10\n\
            NO BAD-LINE\n\
            NO BAD-LINE\n\
            NO NO-NODE\n\
            NO EPOCH 11\n",
    ),
];
