//! Refusals of commands, the first of each.

use crate::tests::running::Script;

/// Refusals in clusters of a few nodes.
pub const FROM_NOTHING: [Script; 7] = [
    (
        "too-few-nodes",
        "commit 1 register a dc1 r1\n\
            commit 2 register b dc1 r1\n\
            commit 3 register c dc1 r1\n\
            commit 4 unsafe-join 1 0\n\
            commit 5 unsafe-join 2 100\n\
            commit 6 unsafe-join 3 200\n\
            commit 7 keyspace ks simple 3\n\
            commit 8 prepare-leave 1\n",
        "OK 1\n\
            OK 2\n\
            OK 3\n\
            OK 4\n\
            OK 5\n\
            OK 6\n\
            OK 7\n\
            NO TOO-FEW-NODES ks\n",
    ),
    (
        "too few nodes of the least keyspace",
        "commit 1 register a dc1 r1\n\
            commit 2 register b dc1 r1\n\
            commit 3 register c dc1 r1\n\
            commit 4 unsafe-join 1 0\n\
            commit 5 unsafe-join 2 100\n\
            commit 6 unsafe-join 3 200\n\
            commit 7 keyspace kz simple 3\n\
            commit 8 keyspace kb simple 4\n\
            commit 9 keyspace ka simple 2\n\
            commit 10 prepare-leave 1\n\
            commit 11 drop-keyspace kb\n\
            commit 12 prepare-leave 1\n\
            commit 13 drop-keyspace kz\n\
            commit 14 prepare-leave 1\n",
        "OK 1\n\
            OK 2\n\
            OK 3\n\
            OK 4\n\
            OK 5\n\
            OK 6\n\
            OK 7\n\
            OK 8\n\
            OK 9\n\
            NO TOO-FEW-NODES kb\n\
            OK 10\n\
            NO TOO-FEW-NODES kz\n\
            OK 11\n\
            OK 12\n",
    ),
    (
        "too few nodes of a datacenter",
        "commit 1 register a dc1 r1\n\
            commit 2 register b dc1 r1\n\
            commit 3 register c dc2 r1\n\
            commit 4 register d dc3 r1\n\
            commit 5 unsafe-join 1 0\n\
            commit 6 unsafe-join 2 100\n\
            commit 7 unsafe-join 3 200\n\
            commit 8 unsafe-join 4 300\n\
            commit 9 keyspace kt topology dc1:1 dc2:1 dc9:3\n\
            commit 10 prepare-leave 3\n\
            commit 11 prepare-leave 1\n\
            commit 12 prepare-leave 4\n\
            nodes @11\n",
        "OK 1\n\
            OK 2\n\
            OK 3\n\
            OK 4\n\
            OK 5\n\
            OK 6\n\
            OK 7\n\
            OK 8\n\
            OK 9\n\
            NO TOO-FEW-NODES kt\n\
            OK 10\n\
            OK 11\n\
            NODES 11 4 2\n\
            1 a dc1 r1 JOINED 0\n\
            2 b dc1 r1 JOINED 100\n\
            3 c dc2 r1 JOINED 200\n\
            4 d dc3 r1 JOINED 300\n\
            SEQ 1 leave PREPARED out 0@1 in -\n\
            SEQ 4 leave PREPARED out 300@4 in -\n",
    ),
    (
        "the only node leaves",
        "commit 1 register a dc1 r1\n\
            commit 2 unsafe-join 1 0\n\
            commit 3 keyspace ks simple 1\n\
            commit 4 prepare-leave 1\n\
            commit 5 drop-keyspace ks\n\
            commit 6 prepare-leave 1\n\
            commit 7 start-leave 1\n\
            commit 8 mid-leave 1\n\
            commit 9 finish-leave 1\n\
            nodes @8\n\
            commit 10 keyspace ks simple 1\n\
            place @7 ks\n\
            place @9 ks\n",
        "OK 1\n\
            OK 2\n\
            OK 3\n\
            NO TOO-FEW-NODES ks\n\
            OK 4\n\
            OK 5\n\
            OK 6\n\
            OK 7\n\
            OK 8\n\
            NODES 8 1 0\n\
            1 a dc1 r1 LEFT -\n\
            OK 9\n\
            NO KEYSPACE\n\
            PLACE 9 ks 1\n\
            (min,max] read - write -\n",
    ),
    (
        "not one token",
        "commit 1 register a dc1 r1\n\
            commit 2 register b dc1 r1\n\
            commit 3 register c dc1 r1\n\
            commit 4 unsafe-join 1 0\n\
            commit 5 unsafe-join 2 100 300\n\
            commit 6 unsafe-join 3 200\n\
            commit 7 register d dc1 r1\n\
            commit 8 prepare-move 4 100\n\
            commit 9 prepare-move 2 100\n\
            commit 10 prepare-move 2 50\n\
            commit 11 prepare-move 1 100\n\
            commit 12 prepare-move 5 100\n\
            commit 13 prepare-move 1 50\n\
            commit 14 prepare-move 3 50\n\
            commit 15 prepare-move 1 100\n\
            commit 16 prepare-move 3 0\n\
            nodes @8\n",
        "OK 1\n\
            OK 2\n\
            OK 3\n\
            OK 4\n\
            OK 5\n\
            OK 6\n\
            OK 7\n\
            NO NODE-STATE REGISTERED\n\
            NO NOT-ONE-TOKEN 2\n\
            NO NOT-ONE-TOKEN 2\n\
            NO TOKEN-TAKEN 100\n\
            NO NO-NODE\n\
            OK 8\n\
            NO TOKEN-TAKEN 50\n\
            NO IN-SEQUENCE 1\n\
            NO TOKEN-TAKEN 0\n\
            NODES 8 4 1\n\
            1 a dc1 r1 JOINED 0\n\
            2 b dc1 r1 JOINED 100,300\n\
            3 c dc1 r1 JOINED 200\n\
            4 d dc1 r1 REGISTERED -\n\
            SEQ 1 move PREPARED out 0@1 in 50@1\n",
    ),
    (
        "another rack",
        "commit 1 register a dc1 r1\n\
            commit 2 register b dc1 r1\n\
            commit 3 register c dc1 r2\n\
            commit 4 register d dc2 r1\n\
            commit 5 register e dc1 r1\n\
            commit 6 unsafe-join 1 0\n\
            commit 7 unsafe-join 2 100\n\
            commit 8 keyspace ks simple 1\n\
            commit 9 prepare-replace 3 1\n\
            commit 10 prepare-replace 4 1\n\
            commit 11 prepare-replace 3 4\n\
            commit 12 prepare-replace 3 5\n\
            commit 13 prepare-replace 1 3\n\
            commit 14 prepare-replace 1 2\n\
            commit 15 prepare-replace 1 1\n\
            commit 16 prepare-replace 5 5\n\
            commit 17 prepare-replace 9 1\n\
            commit 18 prepare-replace 5 9\n\
            commit 19 prepare-replace 9 9\n\
            commit 20 prepare-replace 5 2\n\
            commit 21 prepare-replace 3 2\n\
            nodes @9\n",
        "OK 1\n\
            OK 2\n\
            OK 3\n\
            OK 4\n\
            OK 5\n\
            OK 6\n\
            OK 7\n\
            OK 8\n\
            NO OTHER-RACK dc1 r1\n\
            NO OTHER-RACK dc1 r1\n\
            NO NO-TOKENS\n\
            NO NO-TOKENS\n\
            NO NODE-STATE JOINED\n\
            NO NODE-STATE JOINED\n\
            NO NODE-STATE JOINED\n\
            NO NO-TOKENS\n\
            NO NO-NODE\n\
            NO NO-NODE\n\
            NO NO-NODE\n\
            OK 9\n\
            NO IN-SEQUENCE 5\n\
            NODES 9 5 1\n\
            1 a dc1 r1 JOINED 0\n\
            2 b dc1 r1 JOINED 100\n\
            3 c dc1 r2 REGISTERED -\n\
            4 d dc2 r1 REGISTERED -\n\
            5 e dc1 r1 REGISTERED -\n\
            SEQ 5 replace PREPARED out 100@2 in 100@5\n",
    ),
    (
        "the first of two refusals",
        "commit 1 register a dc1 r1\n\
            commit 2 register b dc1 r1\n\
            commit 3 register c dc1 r1\n\
            commit 4 unsafe-join 1 0\n\
            commit 5 unsafe-join 2 100 300\n\
            commit 6 unsafe-join 3 200\n\
            commit 7 keyspace ks simple 3\n\
            commit 8 prepare-leave 9\n\
            commit 9 prepare-leave 2\n\
            commit 10 register d dc1 r1\n\
            commit 11 prepare-leave 4\n\
            commit 12 keyspace ks simple 1\n\
            commit 13 prepare-move 1 50\n\
            commit 14 prepare-leave 1\n\
            commit 15 prepare-move 1 100\n\
            commit 16 prepare-join 1 50\n\
            commit 17 prepare-join 9 0\n\
            commit 18 prepare-join 3 0\n\
            commit 19 prepare-join 4 50 0\n\
            commit 20 unsafe-join 4 0\n\
            commit 21 unsafe-join 1 0\n\
            commit 22 unregister 1\n\
            commit 23 prepare-replace 4 1\n\
            commit 24 prepare-replace 3 1\n\
            commit 25 start-join 1\n\
            commit 26 cancel 1\n\
            commit 27 start-move 9\n\
            commit 28 cancel 9\n",
        "OK 1\n\
            OK 2\n\
            OK 3\n\
            OK 4\n\
            OK 5\n\
            OK 6\n\
            OK 7\n\
            NO NO-NODE\n\
            NO TOO-FEW-NODES ks\n\
            OK 8\n\
            NO NODE-STATE REGISTERED\n\
            OK 9\n\
            OK 10\n\
            NO IN-SEQUENCE 1\n\
            NO IN-SEQUENCE 1\n\
            NO IN-SEQUENCE 1\n\
            NO NO-NODE\n\
            NO NODE-STATE JOINED\n\
            NO TOKEN-TAKEN 0\n\
            NO NOT-IDLE 1\n\
            NO IN-SEQUENCE 1\n\
            NO IN-SEQUENCE 1\n\
            NO IN-SEQUENCE 1\n\
            NO IN-SEQUENCE 1\n\
            NO WRONG-STEP move PREPARED\n\
            OK 11\n\
            NO NO-NODE\n\
            NO NO-NODE\n",
    ),
];

/// Refusals among four nodes.
pub const ON_FOUR: [Script; 3] = [
    (
        "wrong-steps",
        "commit 12 prepare-join 5 150\n\
            commit 13 start-join 5\n\
            commit 14 finish-join 5\n\
            commit 15 start-move 5\n\
            commit 16 mid-join 1\n\
            commit 17 cancel 77\n",
        "OK 12\n\
            OK 13\n\
            NO WRONG-STEP join STARTED\n\
            NO WRONG-STEP join STARTED\n\
            NO NO-SEQUENCE\n\
            NO NO-NODE\n",
    ),
    (
        "refusals-in-order",
        "commit 12 prepare-join 5 150\n\
            commit 13 register a dc9 r9\n\
            commit 14 unregister 1\n\
            commit 15 unregister 5\n\
            commit 16 unsafe-join 6 250\n\
            commit 17 keyspace k2 simple 1\n\
            commit 18 prepare-join 6 150\n\
            commit 19 prepare-move 6 250\n\
            commit 20 prepare-replace 6 5\n\
            commit 21 cancel 5\n\
            commit 22 prepare-replace 6 5\n\
            commit 23 register g dc1 r2\n\
            commit 24 prepare-replace 7 1\n\
            commit 25 drop-keyspace zz\n\
            commit 26 unsafe-join 5 500 400\n\
            commit 27 prepare-move 5 600\n\
            commit 28 prepare-move 2 50\n\
            nodes @17\n",
        "OK 12\n\
            NO NAME-TAKEN 1\n\
            NO NODE-STATE JOINED\n\
            NO IN-SEQUENCE 5\n\
            NO NOT-IDLE 5\n\
            OK 13\n\
            NO TOKEN-TAKEN 150\n\
            NO NODE-STATE REGISTERED\n\
            NO IN-SEQUENCE 5\n\
            OK 14\n\
            NO NO-TOKENS\n\
            OK 15\n\
            NO OTHER-RACK dc1 r1\n\
            NO NO-KEYSPACE\n\
            OK 16\n\
            NO NOT-ONE-TOKEN 2\n\
            OK 17\n\
            NODES 17 7 1\n\
            1 a dc1 r1 JOINED 0\n\
            2 b dc1 r1 JOINED 100\n\
            3 c dc1 r1 JOINED 200\n\
            4 d dc1 r1 JOINED 300\n\
            5 e dc1 r1 JOINED 400,500\n\
            6 f dc1 r1 REGISTERED -\n\
            7 g dc1 r2 REGISTERED -\n\
            SEQ 2 move PREPARED out 100@2 in 50@2\n",
    ),
    (
        "refusals before locked ranges",
        "commit 12 prepare-join 5 150\n\
            commit 13 register g dc1 r2\n\
            commit 14 prepare-join 6 300\n\
            commit 15 prepare-move 4 0\n\
            commit 16 prepare-move 4 150\n\
            commit 17 prepare-replace 7 4\n\
            commit 18 prepare-replace 6 7\n\
            commit 19 prepare-leave 6\n",
        "OK 12\n\
            OK 13\n\
            NO TOKEN-TAKEN 300\n\
            NO TOKEN-TAKEN 0\n\
            NO TOKEN-TAKEN 150\n\
            NO OTHER-RACK dc1 r1\n\
            NO NO-TOKENS\n\
            NO NODE-STATE REGISTERED\n",
    ),
];
