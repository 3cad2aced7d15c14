//! Quorums of one datacenter and of two.

use crate::tests::running::Script;

/// Quorums of four nodes, while other nodes move.
pub const ON_FOUR: [Script; 6] = [
    (
        "join-started",
        "commit 12 prepare-join 5 150\n\
            commit 13 start-join 5\n\
            quorum @13 ks 50\n\
            place @13 ks\n",
        "OK 12\n\
            OK 13\n\
            QUORUM 13 read 2 of 2,3,4 write 3 of 2,3,4,5\n\
            PLACE 13 ks 6\n\
            (min,0] read 1,2,3 write 1,2,3,5\n\
            (0,100] read 2,3,4 write 2,3,4,5\n\
            (100,150] read 1,3,4 write 1,3,4,5\n\
            (150,200] read 1,3,4 write 1,3,4\n\
            (200,300] read 1,2,4 write 1,2,4\n\
            (300,max] read 1,2,3 write 1,2,3,5\n",
    ),
    (
        "join-mid-cancelled",
        "commit 12 prepare-join 5 150\n\
            commit 13 start-join 5\n\
            quorum @13 ks 50\n\
            commit 14 mid-join 5\n\
            quorum @14 ks 50\n\
            commit 15 cancel 5\n\
            quorum @15 ks 50\n\
            commit 16 cancel 5\n\
            quorum @16 ks 50\n",
        "OK 12\n\
            OK 13\n\
            QUORUM 13 read 2 of 2,3,4 write 3 of 2,3,4,5\n\
            OK 14\n\
            QUORUM 14 read 2 of 2,3,5 write 3 of 2,3,4,5\n\
            OK 15\n\
            QUORUM 15 read 2 of 2,3,4 write 3 of 2,3,4,5\n\
            OK 16\n\
            QUORUM 16 read 2 of 2,3,4 write 2 of 2,3,4\n",
    ),
    (
        "move-started",
        "commit 12 prepare-move 2 250\n\
            commit 13 start-move 2\n\
            quorum @13 ks 150\n\
            quorum @13 ks 220\n",
        "OK 12\n\
            OK 13\n\
            QUORUM 13 read 2 of 1,3,4 write 3 of 1,2,3,4\n\
            QUORUM 13 read 2 of 1,2,4 write 2 of 1,2,4\n",
    ),
    (
        "the ends of the ring",
        "quorum @11 ks -9223372036854775808\n\
            quorum @11 ks 9223372036854775807\n\
            quorum @11 ks 9223372036854775808\n\
            quorum @11 ks -0\n",
        "QUORUM 11 read 2 of 1,2,3 write 2 of 1,2,3\n\
            QUORUM 11 read 2 of 1,2,3 write 2 of 1,2,3\n\
            NO BAD-LINE\n\
            NO BAD-LINE\n",
    ),
    (
        "queries that are refused",
        "quorum @12 ks 0\n\
            quorum @12 zz 0\n\
            quorum @9 zz 0\n\
            quorum @8 ks 0\n\
            local @12 ks dc1 0\n\
            local @11 zz dc1 0\n\
            local @11 ks dc1 0\n\
            commit 12 keyspace kt topology dc1:2\n\
            local @12 kt dc2 0\n\
            local @12 kt dc1 0\n\
            local @11 kt dc1 0\n",
        "NO EPOCH 11\n\
            NO EPOCH 11\n\
            NO KEYSPACE\n\
            NO KEYSPACE\n\
            NO EPOCH 11\n\
            NO KEYSPACE\n\
            NO DC\n\
            OK 12\n\
            NO DC\n\
            LOCAL 12 read 2 of 1,2 write 2 of 1,2\n\
            NO KEYSPACE\n",
    ),
    (
        "a replace step by step",
        "commit 12 prepare-replace 5 2\n\
            commit 13 start-replace 5\n\
            commit 14 mid-replace 5\n\
            commit 15 finish-replace 5\n\
            quorum @12 ks 50\n\
            quorum @13 ks 50\n\
            quorum @14 ks 50\n\
            quorum @15 ks 50\n",
        "OK 12\n\
            OK 13\n\
            OK 14\n\
            OK 15\n\
            QUORUM 12 read 2 of 2,3,4 write 2 of 2,3,4\n\
            QUORUM 13 read 2 of 2,3,4 write 3 of 2,3,4,5\n\
            QUORUM 14 read 2 of 3,4,5 write 3 of 2,3,4,5\n\
            QUORUM 15 read 2 of 3,4,5 write 2 of 3,4,5\n",
    ),
];

/// Quorums of six nodes in three racks.
pub const ON_RACKS: [Script; 1] = [(
    "usual-cluster",
    "commit 14 register g dc1 r1\n\
            commit 15 prepare-join 7 150 1150 2150 3150\n\
            commit 16 start-join 7\n\
            commit 17 mid-join 7\n\
            commit 18 finish-join 7\n\
            commit 19 prepare-leave 4\n\
            commit 20 start-leave 4\n\
            commit 21 mid-leave 4\n\
            commit 22 finish-leave 4\n\
            commit 23 register h dc1 r2\n\
            commit 24 prepare-replace 8 5\n\
            commit 25 start-replace 8\n\
            commit 26 mid-replace 8\n\
            commit 27 finish-replace 8\n\
            quorum @21 kt 350\n\
            quorum @27 kt 350\n\
            local @21 kt dc1 350\n\
            nodes @27\n",
    "OK 14\n\
            OK 15\n\
            OK 16\n\
            OK 17\n\
            OK 18\n\
            OK 19\n\
            OK 20\n\
            OK 21\n\
            OK 22\n\
            OK 23\n\
            OK 24\n\
            OK 25\n\
            OK 26\n\
            OK 27\n\
            QUORUM 21 read 2 of 1,5,6 write 3 of 1,4,5,6\n\
            QUORUM 27 read 2 of 1,6,8 write 2 of 1,6,8\n\
            LOCAL 21 read 2 of 1,5,6 write 3 of 1,4,5,6\n\
            NODES 27 8 0\n\
            1 a dc1 r1 JOINED 100,1100,2100,3100\n\
            2 b dc1 r2 JOINED 200,1200,2200,3200\n\
            3 c dc1 r3 JOINED 300,1300,2300,3300\n\
            4 d dc1 r1 LEFT -\n\
            5 e dc1 r2 LEFT -\n\
            6 f dc1 r3 JOINED 600,1600,2600,3600\n\
            7 g dc1 r1 JOINED 150,1150,2150,3150\n\
            8 h dc1 r2 JOINED 500,1500,2500,3500\n",
)];

/// Quorums of other clusters.
pub const FROM_NOTHING: [Script; 4] = [
    (
        "no-nodes",
        "commit 1 keyspace ks simple 3\n\
            place @1 ks\n\
            quorum @1 ks 0\n",
        "OK 1\n\
            PLACE 1 ks 1\n\
            (min,max] read - write -\n\
            QUORUM 1 read 2 of - write 2 of -\n",
    ),
    (
        "two-joins",
        "commit 1 register a dc1 r1\n\
            commit 2 register b dc1 r1\n\
            commit 3 register c dc1 r1\n\
            commit 4 register d dc1 r1\n\
            commit 5 register e dc1 r1\n\
            commit 6 register f dc1 r1\n\
            commit 7 register g dc1 r1\n\
            commit 8 register h dc1 r1\n\
            commit 9 unsafe-join 1 0\n\
            commit 10 unsafe-join 2 100\n\
            commit 11 unsafe-join 3 200\n\
            commit 12 unsafe-join 4 300\n\
            commit 13 unsafe-join 5 400\n\
            commit 14 unsafe-join 6 500\n\
            commit 15 unsafe-join 7 600\n\
            commit 16 unsafe-join 8 700\n\
            commit 17 keyspace ks simple 3\n\
            commit 18 register i dc1 r1\n\
            commit 19 register j dc1 r1\n\
            commit 20 prepare-join 9 50\n\
            commit 21 prepare-join 10 450\n\
            commit 22 start-join 10\n\
            commit 23 start-join 9\n\
            commit 24 mid-join 10\n\
            commit 25 finish-join 10\n\
            commit 26 mid-join 9\n\
            commit 27 finish-join 9\n\
            quorum @25 ks 420\n\
            quorum @25 ks 20\n",
        "OK 1\n\
            OK 2\n\
            OK 3\n\
            OK 4\n\
            OK 5\n\
            OK 6\n\
            OK 7\n\
            OK 8\n\
            OK 9\n\
            OK 10\n\
            OK 11\n\
            OK 12\n\
            OK 13\n\
            OK 14\n\
            OK 15\n\
            OK 16\n\
            OK 17\n\
            OK 18\n\
            OK 19\n\
            OK 20\n\
            OK 21\n\
            OK 22\n\
            OK 23\n\
            OK 24\n\
            OK 25\n\
            OK 26\n\
            OK 27\n\
            QUORUM 25 read 2 of 6,7,10 write 2 of 6,7,10\n\
            QUORUM 25 read 2 of 2,3,4 write 3 of 2,3,4,9\n",
    ),
    (
        "two-datacenters",
        "commit 1 register a dc1 r1\n\
            commit 2 register b dc1 r1\n\
            commit 3 register c dc1 r1\n\
            commit 4 register d dc2 r1\n\
            commit 5 register e dc2 r1\n\
            commit 6 unsafe-join 1 0\n\
            commit 7 unsafe-join 2 100\n\
            commit 8 unsafe-join 3 200\n\
            commit 9 unsafe-join 4 300\n\
            commit 10 unsafe-join 5 400\n\
            commit 11 keyspace kt topology dc2:2 dc1:3\n\
            quorum @11 kt 0\n\
            local @11 kt dc1 0\n\
            local @11 kt dc2 0\n\
            local @11 kt dc3 0\n",
        "OK 1\n\
            OK 2\n\
            OK 3\n\
            OK 4\n\
            OK 5\n\
            OK 6\n\
            OK 7\n\
            OK 8\n\
            OK 9\n\
            OK 10\n\
            OK 11\n\
            QUORUM 11 read 3 of 1,2,3,4,5 write 3 of 1,2,3,4,5\n\
            LOCAL 11 read 2 of 1,2,3 write 2 of 1,2,3\n\
            LOCAL 11 read 2 of 4,5 write 2 of 4,5\n\
            NO DC\n",
    ),
    (
        "a leave of one of two datacenters",
        "commit 1 register a dc1 r1\n\
            commit 2 register b dc1 r1\n\
            commit 3 register c dc1 r1\n\
            commit 4 register d dc2 r1\n\
            commit 5 register e dc2 r1\n\
            commit 6 register f dc2 r1\n\
            commit 7 unsafe-join 1 0\n\
            commit 8 unsafe-join 2 100\n\
            commit 9 unsafe-join 3 200\n\
            commit 10 unsafe-join 4 300\n\
            commit 11 unsafe-join 5 400\n\
            commit 12 unsafe-join 6 500\n\
            commit 13 keyspace kt topology dc1:2 dc2:2\n\
            commit 14 prepare-leave 5\n\
            commit 15 start-leave 5\n\
            quorum @15 kt 350\n\
            local @15 kt dc1 350\n\
            local @15 kt dc2 350\n\
            commit 16 mid-leave 5\n\
            quorum @16 kt 350\n\
            local @16 kt dc2 350\n\
            commit 17 finish-leave 5\n\
            local @17 kt dc2 350\n\
            quorum @14 kt 350\n",
        "OK 1\n\
            OK 2\n\
            OK 3\n\
            OK 4\n\
            OK 5\n\
            OK 6\n\
            OK 7\n\
            OK 8\n\
            OK 9\n\
            OK 10\n\
            OK 11\n\
            OK 12\n\
            OK 13\n\
            OK 14\n\
            OK 15\n\
            QUORUM 15 read 3 of 1,2,5,6 write 4 of 1,2,4,5,6\n\
            LOCAL 15 read 2 of 1,2 write 2 of 1,2\n\
            LOCAL 15 read 2 of 5,6 write 3 of 4,5,6\n\
            OK 16\n\
            QUORUM 16 read 3 of 1,2,4,6 write 4 of 1,2,4,5,6\n\
            LOCAL 16 read 2 of 4,6 write 3 of 4,5,6\n\
            OK 17\n\
            LOCAL 17 read 2 of 4,6 write 2 of 4,6\n\
            QUORUM 14 read 3 of 1,2,5,6 write 3 of 1,2,5,6\n",
    ),
];
