//! Worked scripts, all but one without a movement. They are read in pieces of several lengths.

use crate::tests::running::Script;

/// Placements.
pub const PLACEMENTS: [Script; 9] = [
    (
        "one-node",
        "commit 1 register a dc1 r1\n\
            commit 2 unsafe-join 1 0\n\
            commit 3 keyspace ks simple 1\n\
            place @3 ks\n",
        "OK 1\n\
            OK 2\n\
            OK 3\n\
            PLACE 3 ks 2\n\
            (min,0] read 1 write 1\n\
            (0,max] read 1 write 1\n",
    ),
    ("empty-input", "", ""),
    ("one line feed", "\n", "NO BAD-LINE\n"),
    (
        "ends-of-the-ring",
        "commit 1 register a dc1 r1\n\
            commit 2 unsafe-join 1 -9223372036854775809\n\
            commit 2 unsafe-join 1 9223372036854775807\n\
            commit 3 keyspace ks simple 1\n\
            place @3 ks\n\
            commit 4 register b dc1 r1\n\
            commit 5 unsafe-join 2 -9223372036854775808\n\
            place @5 ks",
        "OK 1\n\
            NO BAD-LINE\n\
            OK 2\n\
            OK 3\n\
            PLACE 3 ks 1\n\
            (min,9223372036854775807] read 1 write 1\n\
            OK 4\n\
            OK 5\n\
            PLACE 5 ks 2\n\
            (min,-9223372036854775808] read 2 write 2\n\
            (-9223372036854775808,9223372036854775807] read 1 write 1\n",
    ),
    (
        "no-nodes",
        "commit 1 keyspace ks simple 3\n\
            place @1 ks\n",
        "OK 1\n\
            PLACE 1 ks 1\n\
            (min,max] read - write -\n",
    ),
    (
        "four nodes",
        "commit 1 register a dc1 r1\n\
            commit 2 register b dc1 r1\n\
            commit 3 register c dc1 r1\n\
            commit 4 register d dc1 r1\n\
            commit 5 unsafe-join 4 300\n\
            commit 6 unsafe-join 3 200\n\
            commit 7 unsafe-join 2 100\n\
            commit 8 unsafe-join 1 0\n\
            commit 9 keyspace ks simple 3\n\
            commit 10 keyspace ks simple 2\n\
            place @9 ks\n\
            place @10 ks\n\
            place @7 ks\n",
        "OK 1\n\
            OK 2\n\
            OK 3\n\
            OK 4\n\
            OK 5\n\
            OK 6\n\
            OK 7\n\
            OK 8\n\
            OK 9\n\
            OK 10\n\
            PLACE 9 ks 5\n\
            (min,0] read 1,2,3 write 1,2,3\n\
            (0,100] read 2,3,4 write 2,3,4\n\
            (100,200] read 1,3,4 write 1,3,4\n\
            (200,300] read 1,2,4 write 1,2,4\n\
            (300,max] read 1,2,3 write 1,2,3\n\
            PLACE 10 ks 5\n\
            (min,0] read 1,2 write 1,2\n\
            (0,100] read 2,3 write 2,3\n\
            (100,200] read 3,4 write 3,4\n\
            (200,300] read 1,4 write 1,4\n\
            (300,max] read 1,2 write 1,2\n\
            NO KEYSPACE\n",
    ),
    (
        "racks-and-repeats",
        "commit 1 register a dc1 a\n\
            commit 2 register b dc1 a\n\
            commit 3 register c dc1 a\n\
            commit 4 register d dc1 b\n\
            commit 5 unsafe-join 1 0\n\
            commit 6 unsafe-join 2 100\n\
            commit 7 unsafe-join 3 200\n\
            commit 8 unsafe-join 4 300\n\
            commit 9 keyspace kt topology dc1:3\n\
            place @9 kt\n\
            commit 10 register e dc1 c\n\
            commit 11 register f dc1 a\n\
            commit 12 prepare-join 5 50\n\
            commit 13 prepare-join 6 150\n",
        "OK 1\n\
            OK 2\n\
            OK 3\n\
            OK 4\n\
            OK 5\n\
            OK 6\n\
            OK 7\n\
            OK 8\n\
            OK 9\n\
            PLACE 9 kt 5\n\
            (min,0] read 1,2,4 write 1,2,4\n\
            (0,100] read 2,3,4 write 2,3,4\n\
            (100,200] read 1,3,4 write 1,3,4\n\
            (200,300] read 1,2,4 write 1,2,4\n\
            (300,max] read 1,2,4 write 1,2,4\n\
            OK 10\n\
            OK 11\n\
            OK 12\n\
            NO LOCKED 5 0\n",
    ),
    (
        "two-datacenters",
        "commit 1 register a dc1 r1\n\
            commit 2 register b dc1 r1\n\
            commit 3 register c dc1 r1\n\
            commit 4 register d dc2 r1\n\
            commit 5 register e dc2 r1\n\
            commit 6 unsafe-join 1 0\n\
            commit 7 unsafe-join 2 100\n\
            commit 8 unsafe-join 3 200\n\
            commit 9 unsafe-join 4 300\n\
            commit 10 unsafe-join 5 400\n\
            commit 11 keyspace kt topology dc2:2 dc1:3\n\
            commit 12 keyspace one topology dc2:1 dc3:3 dc1:1\n\
            place @11 kt\n\
            place @12 one\n",
        "OK 1\n\
            OK 2\n\
            OK 3\n\
            OK 4\n\
            OK 5\n\
            OK 6\n\
            OK 7\n\
            OK 8\n\
            OK 9\n\
            OK 10\n\
            OK 11\n\
            OK 12\n\
            PLACE 11 kt 6\n\
            (min,0] read 1,2,3,4,5 write 1,2,3,4,5\n\
            (0,100] read 1,2,3,4,5 write 1,2,3,4,5\n\
            (100,200] read 1,2,3,4,5 write 1,2,3,4,5\n\
            (200,300] read 1,2,3,4,5 write 1,2,3,4,5\n\
            (300,400] read 1,2,3,4,5 write 1,2,3,4,5\n\
            (400,max] read 1,2,3,4,5 write 1,2,3,4,5\n\
            PLACE 12 one 6\n\
            (min,0] read 1,4 write 1,4\n\
            (0,100] read 2,4 write 2,4\n\
            (100,200] read 3,4 write 3,4\n\
            (200,300] read 1,4 write 1,4\n\
            (300,400] read 1,5 write 1,5\n\
            (400,max] read 1,4 write 1,4\n",
    ),
    (
        "keyspaces come and go",
        "commit 1 register a dc1 r1\n\
            commit 2 unsafe-join 1 0\n\
            commit 3 keyspace ks simple 2\n\
            commit 4 keyspace ks topology dc2:3\n\
            commit 5 drop-keyspace ks\n\
            commit 6 drop-keyspace ks\n\
            commit 7 keyspace ks topology dc1:1 dc2:1\n\
            place @3 ks\n\
            place @4 ks\n\
            place @5 ks\n\
            place @6 ks\n",
        "OK 1\n\
            OK 2\n\
            OK 3\n\
            OK 4\n\
            OK 5\n\
            NO NO-KEYSPACE\n\
            OK 6\n\
            PLACE 3 ks 2\n\
            (min,0] read 1 write 1\n\
            (0,max] read 1 write 1\n\
            PLACE 4 ks 2\n\
            (min,0] read - write -\n\
            (0,max] read - write -\n\
            NO KEYSPACE\n\
            PLACE 6 ks 2\n\
            (min,0] read 1 write 1\n\
            (0,max] read 1 write 1\n",
    ),
];

/// Nodes, tokens, and queries of things that don't exist.
pub const NODES: [Script; 5] = [
    (
        "first-refusals",
        "commit 1 register a dc1 r1\n\
            commit 2 unsafe-join 2 0\n\
            commit 3 unsafe-join 1 0\n\
            commit 4 register b dc1 r1\n\
            commit 5 unsafe-join 2 0\n",
        "OK 1\n\
            NO NO-NODE\n\
            OK 2\n\
            OK 3\n\
            NO TOKEN-TAKEN 0\n",
    ),
    (
        "ids-never-reused",
        "commit 1 register a dc1 r1\n\
            commit 2 unsafe-join 1 0\n\
            commit 3 keyspace ks simple 1\n\
            nodes @3\n\
            commit 4 register b dc1 r1\n\
            commit 5 unregister 2\n\
            commit 6 register b dc1 r1\n\
            nodes @6\n\
            nodes @4\n",
        "OK 1\n\
            OK 2\n\
            OK 3\n\
            NODES 3 1 0\n\
            1 a dc1 r1 JOINED 0\n\
            OK 4\n\
            OK 5\n\
            OK 6\n\
            NODES 6 2 0\n\
            1 a dc1 r1 JOINED 0\n\
            3 b dc1 r1 REGISTERED -\n\
            NODES 4 2 0\n\
            1 a dc1 r1 JOINED 0\n\
            2 b dc1 r1 REGISTERED -\n",
    ),
    (
        "unknown-things",
        "place @1 ks\n\
            place @0 ks\n\
            place f ks\n\
            deliver f 1\n\
            snapshot f 0\n\
            nodes f\n\
            quorum f ks 0\n\
            local f ks dc1 0\n\
            nodes @1\n\
            nodes @0\n\
            commit 1 drop-keyspace ks\n\
            commit 1 unregister 1\n\
            commit 01 cancel 1\n\
            commit 1 unsafe-join 1 5 5\n\
            commit 01 register a dc1 r1\n",
        "NO EPOCH 0\n\
            NO KEYSPACE\n\
            NO FOLLOWER\n\
            NO FOLLOWER\n\
            NO FOLLOWER\n\
            NO FOLLOWER\n\
            NO FOLLOWER\n\
            NO FOLLOWER\n\
            NO EPOCH 0\n\
            NODES 0 0 0\n\
            NO NO-KEYSPACE\n\
            NO NO-NODE\n\
            NO BAD-LINE\n\
            NO BAD-LINE\n\
            NO BAD-LINE\n",
    ),
    (
        "tokens in any order",
        "commit 1 register a dc1 r1\n\
            commit 2 register b dc2 r2\n\
            commit 3 unsafe-join 1 5 -5 9223372036854775807 0\n\
            nodes @3\n\
            commit 4 unsafe-join 1 7\n\
            commit 5 unsafe-join 2 7 5 0\n\
            commit 6 unsafe-join 2 7\n\
            commit 7 unregister 1\n\
            nodes @4\n",
        "OK 1\n\
            OK 2\n\
            OK 3\n\
            NODES 3 2 0\n\
            1 a dc1 r1 JOINED -5,0,5,9223372036854775807\n\
            2 b dc2 r2 REGISTERED -\n\
            NO NODE-STATE JOINED\n\
            NO TOKEN-TAKEN 0\n\
            OK 4\n\
            NO NODE-STATE JOINED\n\
            NODES 4 2 0\n\
            1 a dc1 r1 JOINED -5,0,5,9223372036854775807\n\
            2 b dc2 r2 JOINED 7\n",
    ),
    (
        "refusals in order",
        "commit 1 register a dc1 r1\n\
            commit 2 register a dc9 r9\n\
            commit 3 register b dc1 r1\n\
            commit 4 unsafe-join 1 0\n\
            commit 5 unsafe-join 3 0\n\
            commit 6 unsafe-join 1 0\n\
            commit 7 unsafe-join 2 0\n\
            commit 8 unregister 1\n\
            commit 9 unregister 3\n\
            commit 10 unregister 2\n\
            commit 11 unregister 2\n\
            commit 12 unsafe-join 2 100\n\
            commit 13 keyspace ks simple 17\n\
            commit 14 drop-keyspace zz\n\
            nodes @4\n",
        "OK 1\n\
            NO NAME-TAKEN 1\n\
            OK 2\n\
            OK 3\n\
            NO NO-NODE\n\
            NO NODE-STATE JOINED\n\
            NO TOKEN-TAKEN 0\n\
            NO NODE-STATE JOINED\n\
            NO NO-NODE\n\
            OK 4\n\
            NO NO-NODE\n\
            NO NO-NODE\n\
            NO BAD-LINE\n\
            NO NO-KEYSPACE\n\
            NODES 4 1 0\n\
            1 a dc1 r1 JOINED 0\n",
    ),
];

/// Placements with several racks and datacenters.
pub const PLACES: [Script; 4] = [
    (
        "more replicas than nodes",
        "commit 1 register a dc1 r1\n\
            commit 2 register b dc3 r1\n\
            commit 3 register c dc1 r2\n\
            commit 4 unsafe-join 1 -50\n\
            commit 5 unsafe-join 2 0\n\
            commit 6 unsafe-join 3 50\n\
            commit 7 keyspace ks simple 16\n\
            commit 8 keyspace kt topology dc1:16 dc2:3\n\
            place @8 ks\n\
            place @8 kt\n",
        "OK 1\n\
            OK 2\n\
            OK 3\n\
            OK 4\n\
            OK 5\n\
            OK 6\n\
            OK 7\n\
            OK 8\n\
            PLACE 8 ks 4\n\
            (min,-50] read 1,2,3 write 1,2,3\n\
            (-50,0] read 1,2,3 write 1,2,3\n\
            (0,50] read 1,2,3 write 1,2,3\n\
            (50,max] read 1,2,3 write 1,2,3\n\
            PLACE 8 kt 4\n\
            (min,-50] read 1,3 write 1,3\n\
            (-50,0] read 1,3 write 1,3\n\
            (0,50] read 1,3 write 1,3\n\
            (50,max] read 1,3 write 1,3\n",
    ),
    (
        "racks of the same names",
        "commit 1 register a dc1 r1\n\
            commit 2 register b dc2 r1\n\
            commit 3 register c dc1 r1\n\
            commit 4 register d dc2 r2\n\
            commit 5 register e dc1 r2\n\
            commit 6 register f dc2 r2\n\
            commit 7 unsafe-join 1 0\n\
            commit 8 unsafe-join 2 10\n\
            commit 9 unsafe-join 3 20\n\
            commit 10 unsafe-join 4 30\n\
            commit 11 unsafe-join 5 40\n\
            commit 12 unsafe-join 6 50\n\
            commit 13 keyspace kt topology dc1:2 dc2:2\n\
            place @13 kt\n",
        "OK 1\n\
            OK 2\n\
            OK 3\n\
            OK 4\n\
            OK 5\n\
            OK 6\n\
            OK 7\n\
            OK 8\n\
            OK 9\n\
            OK 10\n\
            OK 11\n\
            OK 12\n\
            OK 13\n\
            PLACE 13 kt 7\n\
            (min,0] read 1,2,4,5 write 1,2,4,5\n\
            (0,10] read 2,3,4,5 write 2,3,4,5\n\
            (10,20] read 2,3,4,5 write 2,3,4,5\n\
            (20,30] read 1,2,4,5 write 1,2,4,5\n\
            (30,40] read 1,2,5,6 write 1,2,5,6\n\
            (40,50] read 1,2,5,6 write 1,2,5,6\n\
            (50,max] read 1,2,4,5 write 1,2,4,5\n",
    ),
    (
        "many tokens of a node",
        "commit 1 register a dc1 r1\n\
            commit 2 register b dc1 r1\n\
            commit 3 register c dc1 r2\n\
            commit 4 register d dc1 r3\n\
            commit 5 unsafe-join 1 -9223372036854775808 0 20\n\
            commit 6 unsafe-join 2 7 40\n\
            commit 7 unsafe-join 3 30\n\
            commit 8 unsafe-join 4 9223372036854775807\n\
            commit 9 keyspace ks simple 2\n\
            commit 10 keyspace kt topology dc1:3\n\
            commit 11 keyspace ku topology dc1:1\n\
            place @11 ks\n\
            place @11 kt\n\
            place @11 ku\n",
        "OK 1\n\
            OK 2\n\
            OK 3\n\
            OK 4\n\
            OK 5\n\
            OK 6\n\
            OK 7\n\
            OK 8\n\
            OK 9\n\
            OK 10\n\
            OK 11\n\
            PLACE 11 ks 7\n\
            (min,-9223372036854775808] read 1,2 write 1,2\n\
            (-9223372036854775808,0] read 1,2 write 1,2\n\
            (0,7] read 1,2 write 1,2\n\
            (7,20] read 1,3 write 1,3\n\
            (20,30] read 2,3 write 2,3\n\
            (30,40] read 2,4 write 2,4\n\
            (40,9223372036854775807] read 1,4 write 1,4\n\
            PLACE 11 kt 7\n\
            (min,-9223372036854775808] read 1,3,4 write 1,3,4\n\
            (-9223372036854775808,0] read 1,3,4 write 1,3,4\n\
            (0,7] read 2,3,4 write 2,3,4\n\
            (7,20] read 1,3,4 write 1,3,4\n\
            (20,30] read 2,3,4 write 2,3,4\n\
            (30,40] read 2,3,4 write 2,3,4\n\
            (40,9223372036854775807] read 1,3,4 write 1,3,4\n\
            PLACE 11 ku 7\n\
            (min,-9223372036854775808] read 1 write 1\n\
            (-9223372036854775808,0] read 1 write 1\n\
            (0,7] read 2 write 2\n\
            (7,20] read 1 write 1\n\
            (20,30] read 3 write 3\n\
            (30,40] read 2 write 2\n\
            (40,9223372036854775807] read 4 write 4\n",
    ),
    (
        "three datacenters",
        "commit 1 register a dc1 r1\n\
            commit 2 register b dc1 r1\n\
            commit 3 register c dc2 r1\n\
            commit 4 register d dc2 r2\n\
            commit 5 register e dc2 r2\n\
            commit 6 register f dc3 r1\n\
            commit 7 register g dc3 r2\n\
            commit 8 register h dc3 r3\n\
            commit 9 unsafe-join 1 10\n\
            commit 10 unsafe-join 2 50\n\
            commit 11 unsafe-join 3 0\n\
            commit 12 unsafe-join 4 30\n\
            commit 13 unsafe-join 5 70\n\
            commit 14 unsafe-join 6 20\n\
            commit 15 unsafe-join 7 40\n\
            commit 16 unsafe-join 8 60\n\
            commit 17 keyspace kt topology dc1:1 dc2:3 dc3:2\n\
            place @17 kt\n",
        "OK 1\n\
            OK 2\n\
            OK 3\n\
            OK 4\n\
            OK 5\n\
            OK 6\n\
            OK 7\n\
            OK 8\n\
            OK 9\n\
            OK 10\n\
            OK 11\n\
            OK 12\n\
            OK 13\n\
            OK 14\n\
            OK 15\n\
            OK 16\n\
            OK 17\n\
            PLACE 17 kt 9\n\
            (min,0] read 1,3,4,5,6,7 write 1,3,4,5,6,7\n\
            (0,10] read 1,3,4,5,6,7 write 1,3,4,5,6,7\n\
            (10,20] read 2,3,4,5,6,7 write 2,3,4,5,6,7\n\
            (20,30] read 2,3,4,5,7,8 write 2,3,4,5,7,8\n\
            (30,40] read 2,3,4,5,7,8 write 2,3,4,5,7,8\n\
            (40,50] read 2,3,4,5,6,8 write 2,3,4,5,6,8\n\
            (50,60] read 1,3,4,5,6,8 write 1,3,4,5,6,8\n\
            (60,70] read 1,3,4,5,6,7 write 1,3,4,5,6,7\n\
            (70,max] read 1,3,4,5,6,7 write 1,3,4,5,6,7\n",
    ),
];
