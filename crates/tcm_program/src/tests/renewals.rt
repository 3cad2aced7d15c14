//! Keyspaces that are set or dropped while movements are in flight.

use crate::tests::running::Script;

/// Movements of eight nodes.
pub const ON_EIGHT: [Script; 6] = [
    (
        "keyspaces while nodes join",
        "commit 20 prepare-join 9 50\n\
            commit 21 prepare-join 10 450\n\
            commit 22 keyspace k2 simple 4\n\
            commit 23 keyspace k3 simple 5\n\
            commit 24 start-join 9\n\
            quorum @23 k2 20\n",
        "OK 20\n\
            OK 21\n\
            OK 22\n\
            NO KEYSPACE-LOCKED 9 10 50\n\
            OK 23\n\
            QUORUM 23 read 3 of 2,3,4,5 write 4 of 2,3,4,5,9\n",
    ),
    (
        "a later keyspace of the same name",
        "commit 20 prepare-join 9 50\n\
            commit 21 prepare-join 10 450\n\
            commit 22 keyspace ks simple 5\n\
            commit 23 keyspace ks simple 2\n\
            commit 24 start-join 10\n\
            commit 25 keyspace ks simple 4\n\
            commit 26 mid-join 10\n\
            commit 27 keyspace ks topology dc1:3\n\
            commit 28 finish-join 10\n\
            commit 29 keyspace ks simple 5\n\
            place @27 ks\n",
        "OK 20\n\
            OK 21\n\
            NO KEYSPACE-LOCKED 9 10 50\n\
            OK 22\n\
            OK 23\n\
            OK 24\n\
            OK 25\n\
            OK 26\n\
            OK 27\n\
            OK 28\n\
            PLACE 27 ks 11\n\
            (min,0] read 1,2,3 write 1,2,3\n\
            (0,50] read 2,3,4 write 2,3,4\n\
            (50,100] read 2,3,4 write 2,3,4\n\
            (100,200] read 3,4,5 write 3,4,5\n\
            (200,300] read 4,5,10 write 4,5,10\n\
            (300,400] read 5,6,10 write 5,6,10\n\
            (400,450] read 6,7,10 write 6,7,10\n\
            (450,500] read 6,7,8 write 6,7,8\n\
            (500,600] read 1,7,8 write 1,7,8\n\
            (600,700] read 1,2,8 write 1,2,8\n\
            (700,max] read 1,2,3 write 1,2,3\n",
    ),
    (
        "an earlier keyspace",
        "commit 20 prepare-move 3 250\n\
            commit 21 start-move 3\n\
            commit 22 keyspace aa simple 1\n\
            commit 23 mid-move 3\n\
            commit 24 drop-keyspace ks\n\
            commit 25 keyspace zz simple 2\n\
            commit 26 finish-move 3\n\
            place @26 aa\n\
            place @26 zz\n",
        "OK 20\n\
            OK 21\n\
            OK 22\n\
            OK 23\n\
            OK 24\n\
            OK 25\n\
            OK 26\n\
            PLACE 26 aa 9\n\
            (min,0] read 1 write 1\n\
            (0,100] read 2 write 2\n\
            (100,250] read 3 write 3\n\
            (250,300] read 4 write 4\n\
            (300,400] read 5 write 5\n\
            (400,500] read 6 write 6\n\
            (500,600] read 7 write 7\n\
            (600,700] read 8 write 8\n\
            (700,max] read 1 write 1\n\
            PLACE 26 zz 9\n\
            (min,0] read 1,2 write 1,2\n\
            (0,100] read 2,3 write 2,3\n\
            (100,250] read 3,4 write 3,4\n\
            (250,300] read 4,5 write 4,5\n\
            (300,400] read 5,6 write 5,6\n\
            (400,500] read 6,7 write 6,7\n\
            (500,600] read 7,8 write 7,8\n\
            (600,700] read 1,8 write 1,8\n\
            (700,max] read 1,2 write 1,2\n",
    ),
    (
        "a step back under a later keyspace",
        "commit 20 prepare-leave 5\n\
            commit 21 start-leave 5\n\
            commit 22 mid-leave 5\n\
            commit 23 keyspace ks simple 1\n\
            commit 24 cancel 5\n\
            commit 25 keyspace ks simple 4\n\
            commit 26 cancel 5\n\
            commit 27 prepare-join 9 50\n\
            commit 28 keyspace ks simple 4\n\
            commit 29 drop-keyspace ks\n\
            commit 30 drop-keyspace ks\n\
            place @24 ks\n",
        "OK 20\n\
            OK 21\n\
            OK 22\n\
            OK 23\n\
            OK 24\n\
            OK 25\n\
            OK 26\n\
            OK 27\n\
            OK 28\n\
            OK 29\n\
            NO NO-KEYSPACE\n\
            PLACE 24 ks 9\n\
            (min,0] read 1 write 1\n\
            (0,100] read 2 write 2\n\
            (100,200] read 3 write 3\n\
            (200,300] read 4 write 4\n\
            (300,400] read 5 write 5,6\n\
            (400,500] read 6 write 6\n\
            (500,600] read 7 write 7\n\
            (600,700] read 8 write 8\n\
            (700,max] read 1 write 1\n",
    ),
    (
        "the replications in another order",
        "commit 20 keyspace kz simple 2\n\
            commit 21 prepare-join 9 50\n\
            commit 22 keyspace aa simple 2\n\
            commit 23 start-join 9\n\
            commit 24 drop-keyspace aa\n\
            commit 25 mid-join 9\n\
            commit 26 keyspace aa simple 2\n\
            quorum @25 ks 20\n\
            quorum @26 ks 20\n\
            commit 27 finish-join 9\n\
            place @27 kz\n",
        "OK 20\n\
            OK 21\n\
            OK 22\n\
            OK 23\n\
            OK 24\n\
            OK 25\n\
            OK 26\n\
            QUORUM 25 read 1 of 9 write 2 of 2,9\n\
            QUORUM 26 read 1 of 9 write 2 of 2,9\n\
            OK 27\n\
            PLACE 27 kz 10\n\
            (min,0] read 1,9 write 1,9\n\
            (0,50] read 2,9 write 2,9\n\
            (50,100] read 2,3 write 2,3\n\
            (100,200] read 3,4 write 3,4\n\
            (200,300] read 4,5 write 4,5\n\
            (300,400] read 5,6 write 5,6\n\
            (400,500] read 6,7 write 6,7\n\
            (500,600] read 7,8 write 7,8\n\
            (600,700] read 1,8 write 1,8\n\
            (700,max] read 1,9 write 1,9\n",
    ),
    (
        "the last keyspace dropped",
        "commit 20 prepare-replace 9 2\n\
            commit 21 start-replace 9\n\
            commit 22 drop-keyspace ks\n\
            commit 23 mid-replace 9\n\
            commit 24 finish-replace 9\n\
            commit 25 keyspace ks simple 2\n\
            place @25 ks\n",
        "OK 20\n\
            OK 21\n\
            OK 22\n\
            OK 23\n\
            OK 24\n\
            OK 25\n\
            PLACE 25 ks 9\n\
            (min,0] read 1,9 write 1,9\n\
            (0,100] read 3,9 write 3,9\n\
            (100,200] read 3,4 write 3,4\n\
            (200,300] read 4,5 write 4,5\n\
            (300,400] read 5,6 write 5,6\n\
            (400,500] read 6,7 write 6,7\n\
            (500,600] read 7,8 write 7,8\n\
            (600,700] read 1,8 write 1,8\n\
            (700,max] read 1,9 write 1,9\n",
    ),
];

/// Leaves of six nodes.
pub const ON_SIX: [Script; 2] = [
    (
        "keyspaces while a node leaves",
        "commit 14 prepare-leave 2\n\
            commit 15 keyspace k2 simple 6\n\
            commit 16 drop-keyspace ks\n\
            commit 17 register g dc1 r1\n\
            commit 18 unsafe-join 7 600\n",
        "OK 14\n\
            NO TOO-FEW-NODES k2\n\
            OK 15\n\
            OK 16\n\
            NO NOT-IDLE 2\n",
    ),
    (
        "a leave that a keyspace waits for",
        "commit 14 prepare-leave 2\n\
            commit 15 start-leave 2\n\
            commit 16 keyspace k2 simple 6\n\
            commit 17 keyspace k2 simple 5\n\
            commit 18 mid-leave 2\n\
            commit 19 keyspace k3 topology dc1:6\n\
            commit 20 keyspace k3 topology dc2:6\n\
            commit 21 finish-leave 2\n\
            commit 22 keyspace k2 simple 6\n\
            place @18 k2\n",
        "OK 14\n\
            OK 15\n\
            NO TOO-FEW-NODES k2\n\
            OK 16\n\
            OK 17\n\
            NO TOO-FEW-NODES k3\n\
            OK 18\n\
            OK 19\n\
            OK 20\n\
            PLACE 18 k2 7\n\
            (min,0] read 1,3,4,5,6 write 1,2,3,4,5,6\n\
            (0,100] read 1,3,4,5,6 write 1,2,3,4,5,6\n\
            (100,200] read 1,3,4,5,6 write 1,3,4,5,6\n\
            (200,300] read 1,3,4,5,6 write 1,2,3,4,5,6\n\
            (300,400] read 1,3,4,5,6 write 1,2,3,4,5,6\n\
            (400,500] read 1,3,4,5,6 write 1,2,3,4,5,6\n\
            (500,max] read 1,3,4,5,6 write 1,2,3,4,5,6\n",
    ),
];
