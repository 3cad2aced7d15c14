//! Movements whose ranges overlap the ranges of another movement.

use crate::tests::running::Script;

/// Leaves and moves of six nodes.
pub const ON_SIX: [Script; 7] = [
    (
        "leave-widens",
        "commit 14 prepare-leave 2\n\
            commit 15 prepare-leave 4\n",
        "OK 14\n\
            NO LOCKED 2 100\n",
    ),
    (
        "ranges-taken-anew",
        "commit 14 prepare-leave 4\n\
            commit 15 prepare-leave 2\n\
            nodes @14\n",
        "OK 14\n\
            NO LOCKED 4 100\n\
            NODES 14 6 1\n\
            1 a dc1 r1 JOINED 0\n\
            2 b dc1 r1 JOINED 100\n\
            3 c dc1 r1 JOINED 200\n\
            4 d dc1 r1 JOINED 300\n\
            5 e dc1 r1 JOINED 400\n\
            6 f dc1 r1 JOINED 500\n\
            SEQ 4 leave PREPARED out 300@4 in -\n",
    ),
    (
        "a leave that waits",
        "commit 14 prepare-leave 2\n\
            commit 15 prepare-leave 4\n\
            commit 16 start-leave 2\n\
            commit 17 prepare-leave 4\n\
            commit 18 mid-leave 2\n\
            commit 19 prepare-leave 4\n\
            commit 20 finish-leave 2\n\
            commit 21 prepare-leave 4\n\
            nodes @18\n",
        "OK 14\n\
            NO LOCKED 2 100\n\
            OK 15\n\
            NO LOCKED 2 100\n\
            OK 16\n\
            NO LOCKED 2 100\n\
            OK 17\n\
            OK 18\n\
            NODES 18 6 1\n\
            1 a dc1 r1 JOINED 0\n\
            2 b dc1 r1 LEFT -\n\
            3 c dc1 r1 JOINED 200\n\
            4 d dc1 r1 JOINED 300\n\
            5 e dc1 r1 JOINED 400\n\
            6 f dc1 r1 JOINED 500\n\
            SEQ 4 leave PREPARED out 300@4 in -\n",
    ),
    (
        "ranges that are free once a movement is cancelled",
        "commit 14 prepare-leave 2\n\
            commit 15 start-leave 2\n\
            commit 16 mid-leave 2\n\
            commit 17 cancel 2\n\
            commit 18 prepare-leave 4\n\
            commit 19 cancel 2\n\
            commit 20 prepare-leave 4\n\
            place @19 ks\n",
        "OK 14\n\
            OK 15\n\
            OK 16\n\
            OK 17\n\
            NO LOCKED 2 100\n\
            OK 18\n\
            OK 19\n\
            PLACE 19 ks 7\n\
            (min,0] read 1,2 write 1,2\n\
            (0,100] read 2,3 write 2,3\n\
            (100,200] read 3,4 write 3,4\n\
            (200,300] read 4,5 write 4,5\n\
            (300,400] read 5,6 write 5,6\n\
            (400,500] read 1,6 write 1,6\n\
            (500,max] read 1,2 write 1,2\n",
    ),
    (
        "one of two movements ends, and a third takes its ranges",
        "commit 14 register g dc1 r1\n\
            commit 15 register h dc1 r1\n\
            commit 16 register i dc1 r1\n\
            commit 17 prepare-join 7 50\n\
            commit 18 prepare-join 8 350\n\
            commit 19 prepare-join 9 70\n\
            commit 20 start-join 7\n\
            commit 21 mid-join 7\n\
            commit 22 prepare-join 9 70\n\
            commit 23 finish-join 7\n\
            commit 24 prepare-join 9 370\n\
            commit 25 prepare-join 9 70\n\
            commit 26 start-join 8\n\
            commit 27 cancel 8\n\
            commit 28 prepare-join 8 370\n\
            nodes @24\n",
        "OK 14\n\
            OK 15\n\
            OK 16\n\
            OK 17\n\
            OK 18\n\
            NO LOCKED 7 0\n\
            OK 19\n\
            OK 20\n\
            NO LOCKED 7 0\n\
            OK 21\n\
            NO LOCKED 8 300\n\
            OK 22\n\
            OK 23\n\
            OK 24\n\
            OK 25\n\
            NODES 24 9 1\n\
            1 a dc1 r1 JOINED 0\n\
            2 b dc1 r1 JOINED 100\n\
            3 c dc1 r1 JOINED 200\n\
            4 d dc1 r1 JOINED 300\n\
            5 e dc1 r1 JOINED 400\n\
            6 f dc1 r1 JOINED 500\n\
            7 g dc1 r1 JOINED 50\n\
            8 h dc1 r1 REGISTERED -\n\
            9 i dc1 r1 REGISTERED -\n\
            SEQ 9 join PREPARED out - in 70@9\n",
    ),
    (
        "two movements lock, and the least node is shown",
        "commit 14 prepare-leave 4\n\
            commit 15 prepare-leave 1\n\
            commit 16 register g dc1 r1\n\
            commit 17 prepare-join 7 250\n\
            commit 18 prepare-join 7 550\n\
            commit 19 prepare-join 7 450\n\
            commit 20 prepare-move 3 600\n",
        "OK 14\n\
            OK 15\n\
            OK 16\n\
            NO LOCKED 4 200\n\
            NO LOCKED 1 500\n\
            NO LOCKED 1 450\n\
            NO LOCKED 1 0\n",
    ),
    (
        "ranges that go round the ring",
        "commit 14 register g dc1 r1\n\
            commit 15 prepare-join 7 600\n\
            commit 16 prepare-move 3 700\n\
            commit 17 prepare-leave 1\n\
            commit 18 prepare-leave 2\n",
        "OK 14\n\
            OK 15\n\
            NO LOCKED 7 500\n\
            NO LOCKED 7 500\n\
            NO LOCKED 7 600\n",
    ),
];

/// Movements beside the join of a fifth node.
pub const ON_FOUR: [Script; 1] = [(
    "locked by a join",
    "commit 12 prepare-join 5 150\n\
            commit 13 prepare-join 6 250\n\
            commit 14 prepare-move 4 50\n\
            commit 15 prepare-leave 4\n\
            commit 16 prepare-replace 6 4\n\
            commit 17 cancel 5\n\
            commit 18 prepare-replace 6 4\n\
            commit 19 prepare-join 5 150\n\
            commit 20 cancel 6\n\
            commit 21 prepare-leave 4\n",
    "OK 12\n\
            NO LOCKED 5 100\n\
            NO LOCKED 5 0\n\
            NO LOCKED 5 100\n\
            NO LOCKED 5 100\n\
            OK 13\n\
            OK 14\n\
            NO LOCKED 6 100\n\
            OK 15\n\
            OK 16\n",
)];
