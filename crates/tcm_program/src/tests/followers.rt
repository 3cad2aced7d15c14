//! Followers, which are handed entries of the log and images of it in any order.

use crate::tests::running::Script;

/// Followers of a log of four nodes, and of a join.
pub const ON_FOUR: [Script; 5] = [
    (
        "follower-out-of-order",
        "follower f\n\
            deliver f 3\n\
            deliver f 1\n\
            deliver f 1\n\
            deliver f 5\n\
            snapshot f 4\n\
            deliver f 2\n\
            deliver f 8\n\
            deliver f 8\n\
            nodes f\n",
        "AT 0\n\
            AT 0\n\
            AT 1\n\
            OLD 1\n\
            AT 1\n\
            AT 5\n\
            OLD 5\n\
            AT 5\n\
            HELD 5\n\
            NODES 5 4 0\n\
            1 a dc1 r1 JOINED 0\n\
            2 b dc1 r1 REGISTERED -\n\
            3 c dc1 r1 REGISTERED -\n\
            4 d dc1 r1 REGISTERED -\n",
    ),
    (
        "a follower answers from its own epoch",
        "commit 12 prepare-join 5 150\n\
            commit 13 start-join 5\n\
            follower f\n\
            snapshot f 9\n\
            place f ks\n\
            quorum f ks 50\n\
            deliver f 13\n\
            quorum f ks 50\n\
            deliver f 11\n\
            deliver f 10\n\
            deliver f 12\n\
            place f ks\n\
            quorum f ks 50\n\
            quorum @9 ks 50\n\
            place f kt\n\
            local f ks dc1 50\n\
            nodes f\n",
        "OK 12\n\
            OK 13\n\
            AT 0\n\
            AT 9\n\
            PLACE 9 ks 5\n\
            (min,0] read 1,2,3 write 1,2,3\n\
            (0,100] read 2,3,4 write 2,3,4\n\
            (100,200] read 1,3,4 write 1,3,4\n\
            (200,300] read 1,2,4 write 1,2,4\n\
            (300,max] read 1,2,3 write 1,2,3\n\
            QUORUM 9 read 2 of 2,3,4 write 2 of 2,3,4\n\
            AT 9\n\
            QUORUM 9 read 2 of 2,3,4 write 2 of 2,3,4\n\
            AT 9\n\
            AT 11\n\
            AT 13\n\
            PLACE 13 ks 6\n\
            (min,0] read 1,2,3 write 1,2,3,5\n\
            (0,100] read 2,3,4 write 2,3,4,5\n\
            (100,150] read 1,3,4 write 1,3,4,5\n\
            (150,200] read 1,3,4 write 1,3,4\n\
            (200,300] read 1,2,4 write 1,2,4\n\
            (300,max] read 1,2,3 write 1,2,3,5\n\
            QUORUM 13 read 2 of 2,3,4 write 3 of 2,3,4,5\n\
            QUORUM 9 read 2 of 2,3,4 write 2 of 2,3,4\n\
            NO KEYSPACE\n\
            NO DC\n\
            NODES 13 6 1\n\
            1 a dc1 r1 JOINED 0\n\
            2 b dc1 r1 JOINED 100\n\
            3 c dc1 r1 JOINED 200\n\
            4 d dc1 r1 JOINED 300\n\
            5 e dc1 r1 BOOTSTRAPPING -\n\
            6 f dc1 r1 REGISTERED -\n\
            SEQ 5 join STARTED out - in 150@5\n",
    ),
    (
        "an image of an earlier epoch drops what it contains",
        "follower f\n\
            deliver f 7\n\
            deliver f 4\n\
            snapshot f 6\n\
            snapshot f 6\n\
            snapshot f 5\n\
            snapshot f 11\n\
            deliver f 7\n\
            snapshot f 12\n\
            nodes f\n",
        "AT 0\n\
            AT 0\n\
            AT 0\n\
            AT 7\n\
            OLD 7\n\
            OLD 7\n\
            AT 11\n\
            OLD 11\n\
            NO EPOCH 11\n\
            NODES 11 6 0\n\
            1 a dc1 r1 JOINED 0\n\
            2 b dc1 r1 JOINED 100\n\
            3 c dc1 r1 JOINED 200\n\
            4 d dc1 r1 JOINED 300\n\
            5 e dc1 r1 REGISTERED -\n\
            6 f dc1 r1 REGISTERED -\n",
    ),
    (
        "what waits past an image",
        "follower f\n\
            deliver f 7\n\
            deliver f 5\n\
            deliver f 2\n\
            deliver f 9\n\
            snapshot f 4\n\
            deliver f 7\n\
            deliver f 9\n\
            deliver f 6\n\
            snapshot f 7\n\
            snapshot f 8\n\
            deliver f 9\n\
            nodes f\n",
        "AT 0\n\
            AT 0\n\
            AT 0\n\
            AT 0\n\
            AT 0\n\
            AT 5\n\
            HELD 5\n\
            HELD 5\n\
            AT 7\n\
            OLD 7\n\
            AT 9\n\
            OLD 9\n\
            NODES 9 4 0\n\
            1 a dc1 r1 JOINED 0\n\
            2 b dc1 r1 JOINED 100\n\
            3 c dc1 r1 JOINED 200\n\
            4 d dc1 r1 JOINED 300\n",
    ),
    (
        "a follower that came to the end of the log goes on",
        "follower f\n\
            deliver f 11\n\
            deliver f 10\n\
            deliver f 9\n\
            deliver f 8\n\
            deliver f 7\n\
            deliver f 6\n\
            deliver f 5\n\
            deliver f 4\n\
            deliver f 3\n\
            deliver f 2\n\
            deliver f 1\n\
            commit 12 prepare-join 5 150\n\
            commit 13 start-join 5\n\
            deliver f 12\n\
            deliver f 13\n\
            commit 14 mid-join 5\n\
            commit 15 finish-join 5\n\
            deliver f 15\n\
            deliver f 14\n\
            place f ks\n\
            commit 16 prepare-leave 1\n\
            commit 17 start-leave 1\n\
            commit 18 mid-leave 1\n\
            deliver f 18\n\
            deliver f 16\n\
            deliver f 17\n\
            quorum f ks 350\n\
            nodes f\n\
            deliver f 18\n",
        "AT 0\n\
            AT 0\n\
            AT 0\n\
            AT 0\n\
            AT 0\n\
            AT 0\n\
            AT 0\n\
            AT 0\n\
            AT 0\n\
            AT 0\n\
            AT 0\n\
            AT 11\n\
            OK 12\n\
            OK 13\n\
            AT 12\n\
            AT 13\n\
            OK 14\n\
            OK 15\n\
            AT 13\n\
            AT 15\n\
            PLACE 15 ks 6\n\
            (min,0] read 1,2,5 write 1,2,5\n\
            (0,100] read 2,3,5 write 2,3,5\n\
            (100,150] read 3,4,5 write 3,4,5\n\
            (150,200] read 1,3,4 write 1,3,4\n\
            (200,300] read 1,2,4 write 1,2,4\n\
            (300,max] read 1,2,5 write 1,2,5\n\
            OK 16\n\
            OK 17\n\
            OK 18\n\
            AT 15\n\
            AT 16\n\
            AT 18\n\
            QUORUM 18 read 2 of 2,3,5 write 3 of 1,2,3,5\n\
            NODES 18 6 1\n\
            1 a dc1 r1 LEAVING 0\n\
            2 b dc1 r1 JOINED 100\n\
            3 c dc1 r1 JOINED 200\n\
            4 d dc1 r1 JOINED 300\n\
            5 e dc1 r1 JOINED 150\n\
            6 f dc1 r1 REGISTERED -\n\
            SEQ 1 leave MID out 0@1 in -\n\
            OLD 18\n",
    ),
];

/// A follower of a log with racks, and of a leave.
pub const ON_RACKS: [Script; 1] = [(
    "local quorums of a follower",
    "follower f\n\
            local f kt dc1 350\n\
            snapshot f 13\n\
            commit 14 prepare-leave 4\n\
            commit 15 start-leave 4\n\
            local f kt dc1 350\n\
            local f kt dc2 350\n\
            local @15 kt dc1 350\n\
            deliver f 15\n\
            local f kt dc1 350\n\
            deliver f 14\n\
            local f kt dc1 350\n\
            quorum f kt 350\n",
    "AT 0\n\
            NO KEYSPACE\n\
            AT 13\n\
            OK 14\n\
            OK 15\n\
            LOCAL 13 read 2 of 4,5,6 write 2 of 4,5,6\n\
            NO DC\n\
            LOCAL 15 read 2 of 4,5,6 write 3 of 1,4,5,6\n\
            AT 13\n\
            LOCAL 13 read 2 of 4,5,6 write 2 of 4,5,6\n\
            AT 15\n\
            LOCAL 15 read 2 of 4,5,6 write 3 of 1,4,5,6\n\
            QUORUM 15 read 2 of 4,5,6 write 3 of 1,4,5,6\n",
)];

/// Followers of short logs, and lines that are refused.
pub const FROM_NOTHING: [Script; 6] = [
    (
        "epochs before the first entry",
        "follower f\n\
            deliver f 0\n\
            deliver f 1\n\
            snapshot f 0\n\
            snapshot f 1\n\
            nodes f\n\
            place f ks\n\
            quorum f ks 0\n\
            local f ks dc1 0\n\
            deliver f 18446744073709551615\n\
            snapshot f 18446744073709551615\n",
        "AT 0\n\
            NO EPOCH 0\n\
            NO EPOCH 0\n\
            OLD 0\n\
            NO EPOCH 0\n\
            NODES 0 0 0\n\
            NO KEYSPACE\n\
            NO KEYSPACE\n\
            NO KEYSPACE\n\
            NO EPOCH 0\n\
            NO EPOCH 0\n",
    ),
    (
        "names of followers",
        "commit 1 keyspace ks simple 1\n\
            follower 7\n\
            follower ks\n\
            follower a.B-_9\n\
            follower ks\n\
            deliver 7 1\n\
            deliver ks 1\n\
            snapshot a.B-_9 1\n\
            place ks ks\n\
            place 7 ks\n\
            place a.B-_9 7\n\
            nodes ks\n",
        "OK 1\n\
            AT 0\n\
            AT 0\n\
            AT 0\n\
            NO FOLLOWER-TAKEN\n\
            AT 1\n\
            AT 1\n\
            AT 1\n\
            PLACE 1 ks 1\n\
            (min,max] read - write -\n\
            PLACE 1 ks 1\n\
            (min,max] read - write -\n\
            NO KEYSPACE\n\
            NODES 1 0 0\n",
    ),
    (
        "two followers of one log",
        "commit 1 register a dc1 r1\n\
            commit 2 unsafe-join 1 0\n\
            follower f\n\
            follower g\n\
            deliver g 2\n\
            deliver f 1\n\
            nodes f\n\
            nodes g\n\
            commit 3 keyspace ks simple 1\n\
            deliver g 1\n\
            deliver g 3\n\
            place g ks\n\
            place f ks\n\
            snapshot f 3\n\
            place f ks\n",
        "OK 1\n\
            OK 2\n\
            AT 0\n\
            AT 0\n\
            AT 0\n\
            AT 1\n\
            NODES 1 1 0\n\
            1 a dc1 r1 REGISTERED -\n\
            NODES 0 0 0\n\
            OK 3\n\
            AT 2\n\
            AT 3\n\
            PLACE 3 ks 2\n\
            (min,0] read 1 write 1\n\
            (0,max] read 1 write 1\n\
            NO KEYSPACE\n\
            AT 3\n\
            PLACE 3 ks 2\n\
            (min,0] read 1 write 1\n\
            (0,max] read 1 write 1\n",
    ),
    (
        "16 followers",
        "follower f1\n\
            follower f2\n\
            follower f3\n\
            follower f4\n\
            follower f5\n\
            follower f6\n\
            follower f7\n\
            follower f8\n\
            follower f9\n\
            follower f10\n\
            follower f11\n\
            follower f12\n\
            follower f13\n\
            follower f14\n\
            follower f15\n\
            follower f16\n\
            follower f17\n\
            follower f16\n\
            nodes f16\n\
            nodes f17\n",
        "AT 0\n\
            AT 0\n\
            AT 0\n\
            AT 0\n\
            AT 0\n\
            AT 0\n\
            AT 0\n\
            AT 0\n\
            AT 0\n\
            AT 0\n\
            AT 0\n\
            AT 0\n\
            AT 0\n\
            AT 0\n\
            AT 0\n\
            AT 0\n\
            NO FOLLOWERS-FULL\n\
            NO FOLLOWER-TAKEN\n\
            NODES 0 0 0\n\
            NO FOLLOWER\n",
    ),
    (
        "names that are alike",
        "commit 1 register a dc1 r1\n\
            follower aaaaaaaaaaaaaaaaaaaaaaaaaaaaaaaa\n\
            follower aaaaaaaaaaaaaaaaaaaaaaaaaaaaaaa\n\
            follower f\n\
            follower F\n\
            follower 3\n\
            follower 03\n\
            follower -\n\
            follower aaaaaaaaaaaaaaaaaaaaaaaaaaaaaaaa\n\
            deliver aaaaaaaaaaaaaaaaaaaaaaaaaaaaaaaa 1\n\
            deliver F 1\n\
            deliver 3 1\n\
            nodes aaaaaaaaaaaaaaaaaaaaaaaaaaaaaaa\n\
            nodes f\n\
            nodes F\n\
            nodes 03\n\
            nodes 3\n\
            nodes 003\n",
        "OK 1\n\
            AT 0\n\
            AT 0\n\
            AT 0\n\
            AT 0\n\
            AT 0\n\
            AT 0\n\
            AT 0\n\
            NO FOLLOWER-TAKEN\n\
            AT 1\n\
            AT 1\n\
            AT 1\n\
            NODES 0 0 0\n\
            NODES 0 0 0\n\
            NODES 1 1 0\n\
            1 a dc1 r1 REGISTERED -\n\
            NODES 0 0 0\n\
            NODES 1 1 0\n\
            1 a dc1 r1 REGISTERED -\n\
            NO FOLLOWER\n",
    ),
    (
        "a refused commit is not in the log",
        "commit 1 register a dc1 r1\n\
            commit 2 unregister 9\n\
            follower f\n\
            deliver f 2\n\
            snapshot f 2\n\
            commit 2 register b dc1 r1\n\
            commit 2 register b dc1 r1\n\
            deliver f 2\n\
            deliver f 2\n\
            deliver f 3\n\
            commit 3 unregister 1\n\
            deliver f 3\n\
            deliver f 1\n\
            nodes f\n\
            nodes @2\n",
        "OK 1\n\
            NO NO-NODE\n\
            AT 0\n\
            NO EPOCH 1\n\
            NO EPOCH 1\n\
            OK 2\n\
            OK 2\n\
            AT 0\n\
            HELD 0\n\
            NO EPOCH 2\n\
            OK 3\n\
            AT 0\n\
            AT 3\n\
            NODES 3 1 0\n\
            2 b dc1 r1 REGISTERED -\n\
            NODES 2 2 0\n\
            1 a dc1 r1 REGISTERED -\n\
            2 b dc1 r1 REGISTERED -\n",
    ),
];
