//! Joins, one or more at the same time.

use crate::tests::running::Script;

/// Joins of a fifth and a sixth node.
pub const ON_FOUR: [Script; 5] = [
    (
        "join-started",
        "commit 12 prepare-join 5 150\n\
            commit 13 start-join 5\n\
            place @12 ks\n\
            place @13 ks\n",
        "OK 12\n\
            OK 13\n\
            PLACE 12 ks 6\n\
            (min,0] read 1,2,3 write 1,2,3\n\
            (0,100] read 2,3,4 write 2,3,4\n\
            (100,150] read 1,3,4 write 1,3,4\n\
            (150,200] read 1,3,4 write 1,3,4\n\
            (200,300] read 1,2,4 write 1,2,4\n\
            (300,max] read 1,2,3 write 1,2,3\n\
            PLACE 13 ks 6\n\
            (min,0] read 1,2,3 write 1,2,3,5\n\
            (0,100] read 2,3,4 write 2,3,4,5\n\
            (100,150] read 1,3,4 write 1,3,4,5\n\
            (150,200] read 1,3,4 write 1,3,4\n\
            (200,300] read 1,2,4 write 1,2,4\n\
            (300,max] read 1,2,3 write 1,2,3,5\n",
    ),
    (
        "join-to-finish",
        "commit 12 prepare-join 5 150\n\
            commit 13 start-join 5\n\
            commit 14 prepare-join 6 250\n\
            nodes @13\n\
            commit 15 mid-join 5\n\
            place @14 ks\n\
            commit 16 finish-join 5\n\
            place @15 ks\n\
            nodes @15\n\
            commit 17 prepare-join 6 250\n",
        "OK 12\n\
            OK 13\n\
            NO LOCKED 5 100\n\
            NODES 13 6 1\n\
            1 a dc1 r1 JOINED 0\n\
            2 b dc1 r1 JOINED 100\n\
            3 c dc1 r1 JOINED 200\n\
            4 d dc1 r1 JOINED 300\n\
            5 e dc1 r1 BOOTSTRAPPING -\n\
            6 f dc1 r1 REGISTERED -\n\
            SEQ 5 join STARTED out - in 150@5\n\
            OK 14\n\
            PLACE 14 ks 6\n\
            (min,0] read 1,2,5 write 1,2,3,5\n\
            (0,100] read 2,3,5 write 2,3,4,5\n\
            (100,150] read 3,4,5 write 1,3,4,5\n\
            (150,200] read 1,3,4 write 1,3,4\n\
            (200,300] read 1,2,4 write 1,2,4\n\
            (300,max] read 1,2,5 write 1,2,3,5\n\
            OK 15\n\
            PLACE 15 ks 6\n\
            (min,0] read 1,2,5 write 1,2,5\n\
            (0,100] read 2,3,5 write 2,3,5\n\
            (100,150] read 3,4,5 write 3,4,5\n\
            (150,200] read 1,3,4 write 1,3,4\n\
            (200,300] read 1,2,4 write 1,2,4\n\
            (300,max] read 1,2,5 write 1,2,5\n\
            NODES 15 6 0\n\
            1 a dc1 r1 JOINED 0\n\
            2 b dc1 r1 JOINED 100\n\
            3 c dc1 r1 JOINED 200\n\
            4 d dc1 r1 JOINED 300\n\
            5 e dc1 r1 JOINED 150\n\
            6 f dc1 r1 REGISTERED -\n\
            OK 16\n",
    ),
    (
        "steps in another order",
        "commit 12 start-join 5\n\
            commit 13 prepare-join 5 150 -7\n\
            commit 14 mid-join 5\n\
            commit 15 start-join 5\n\
            commit 16 finish-join 5\n\
            commit 17 start-join 5\n\
            commit 18 mid-join 1\n\
            commit 19 mid-join 77\n\
            commit 20 start-move 5\n\
            commit 21 cancel 5\n",
        "NO NO-SEQUENCE\n\
            OK 12\n\
            NO WRONG-STEP join PREPARED\n\
            OK 13\n\
            NO WRONG-STEP join STARTED\n\
            NO WRONG-STEP join STARTED\n\
            NO NO-SEQUENCE\n\
            NO NO-NODE\n\
            NO WRONG-STEP join STARTED\n\
            OK 14\n",
    ),
    (
        "while a node joins",
        "commit 12 prepare-join 5 150\n\
            commit 13 register a dc9 r9\n\
            commit 14 unregister 1\n\
            commit 15 unregister 5\n\
            commit 16 unsafe-join 6 250\n\
            commit 17 keyspace k2 simple 1\n\
            commit 18 drop-keyspace ks\n\
            commit 19 drop-keyspace zz\n\
            commit 20 prepare-join 6 150\n\
            commit 21 prepare-join 5 170\n\
            commit 22 prepare-join 1 170\n\
            commit 23 register g dc1 r2\n\
            commit 24 unregister 7\n\
            nodes @16\n",
        "OK 12\n\
            NO NAME-TAKEN 1\n\
            NO NODE-STATE JOINED\n\
            NO IN-SEQUENCE 5\n\
            NO NOT-IDLE 5\n\
            OK 13\n\
            OK 14\n\
            NO NO-KEYSPACE\n\
            NO TOKEN-TAKEN 150\n\
            NO IN-SEQUENCE 5\n\
            NO NODE-STATE JOINED\n\
            OK 15\n\
            OK 16\n\
            NODES 16 6 1\n\
            1 a dc1 r1 JOINED 0\n\
            2 b dc1 r1 JOINED 100\n\
            3 c dc1 r1 JOINED 200\n\
            4 d dc1 r1 JOINED 300\n\
            5 e dc1 r1 REGISTERED -\n\
            6 f dc1 r1 REGISTERED -\n\
            SEQ 5 join PREPARED out - in 150@5\n",
    ),
    (
        "join-locked",
        "commit 12 prepare-join 5 150\n\
            commit 13 prepare-join 6 250\n\
            commit 14 start-join 5\n\
            commit 15 mid-join 5\n\
            commit 16 prepare-join 6 250\n\
            commit 17 finish-join 5\n\
            commit 18 prepare-join 6 250\n\
            nodes @16\n",
        "OK 12\n\
            NO LOCKED 5 100\n\
            OK 13\n\
            OK 14\n\
            NO LOCKED 5 100\n\
            OK 15\n\
            OK 16\n\
            NODES 16 6 1\n\
            1 a dc1 r1 JOINED 0\n\
            2 b dc1 r1 JOINED 100\n\
            3 c dc1 r1 JOINED 200\n\
            4 d dc1 r1 JOINED 300\n\
            5 e dc1 r1 JOINED 150\n\
            6 f dc1 r1 REGISTERED -\n\
            SEQ 6 join PREPARED out - in 250@6\n",
    ),
];

/// Joins of other clusters.
pub const FROM_NOTHING: [Script; 5] = [
    (
        "a join of two datacenters",
        "commit 1 register a dc1 r1\n\
            commit 2 register b dc1 r2\n\
            commit 3 register c dc2 r1\n\
            commit 4 register d dc1 r1\n\
            commit 5 unsafe-join 1 0\n\
            commit 6 unsafe-join 2 100\n\
            commit 7 unsafe-join 3 50\n\
            commit 8 keyspace kt topology dc1:2 dc2:1\n\
            commit 9 prepare-join 4 -100 75\n\
            commit 10 start-join 4\n\
            place @10 kt\n\
            commit 11 mid-join 4\n\
            place @11 kt\n\
            commit 12 finish-join 4\n\
            place @12 kt\n",
        "OK 1\n\
            OK 2\n\
            OK 3\n\
            OK 4\n\
            OK 5\n\
            OK 6\n\
            OK 7\n\
            OK 8\n\
            OK 9\n\
            OK 10\n\
            PLACE 10 kt 6\n\
            (min,-100] read 1,2,3 write 1,2,3,4\n\
            (-100,0] read 1,2,3 write 1,2,3\n\
            (0,50] read 1,2,3 write 1,2,3,4\n\
            (50,75] read 1,2,3 write 1,2,3,4\n\
            (75,100] read 1,2,3 write 1,2,3,4\n\
            (100,max] read 1,2,3 write 1,2,3,4\n\
            OK 11\n\
            PLACE 11 kt 6\n\
            (min,-100] read 2,3,4 write 1,2,3,4\n\
            (-100,0] read 1,2,3 write 1,2,3\n\
            (0,50] read 2,3,4 write 1,2,3,4\n\
            (50,75] read 2,3,4 write 1,2,3,4\n\
            (75,100] read 2,3,4 write 1,2,3,4\n\
            (100,max] read 2,3,4 write 1,2,3,4\n\
            OK 12\n\
            PLACE 12 kt 6\n\
            (min,-100] read 2,3,4 write 2,3,4\n\
            (-100,0] read 1,2,3 write 1,2,3\n\
            (0,50] read 2,3,4 write 2,3,4\n\
            (50,75] read 2,3,4 write 2,3,4\n\
            (75,100] read 2,3,4 write 2,3,4\n\
            (100,max] read 2,3,4 write 2,3,4\n",
    ),
    (
        "joins-on-empty-ring",
        "commit 1 register a dc1 r1\n\
            commit 2 register b dc1 r1\n\
            commit 3 keyspace ks simple 1\n\
            commit 4 prepare-join 1 0\n\
            commit 5 prepare-join 2 100\n\
            place @4 ks\n",
        "OK 1\n\
            OK 2\n\
            OK 3\n\
            OK 4\n\
            NO LOCKED 1 0\n\
            PLACE 4 ks 2\n\
            (min,0] read - write -\n\
            (0,max] read - write -\n",
    ),
    (
        "two-joins",
        "commit 1 register a dc1 r1\n\
            commit 2 register b dc1 r1\n\
            commit 3 register c dc1 r1\n\
            commit 4 register d dc1 r1\n\
            commit 5 register e dc1 r1\n\
            commit 6 register f dc1 r1\n\
            commit 7 register g dc1 r1\n\
            commit 8 register h dc1 r1\n\
            commit 9 unsafe-join 1 0\n\
            commit 10 unsafe-join 2 100\n\
            commit 11 unsafe-join 3 200\n\
            commit 12 unsafe-join 4 300\n\
            commit 13 unsafe-join 5 400\n\
            commit 14 unsafe-join 6 500\n\
            commit 15 unsafe-join 7 600\n\
            commit 16 unsafe-join 8 700\n\
            commit 17 keyspace ks simple 3\n\
            commit 18 register i dc1 r1\n\
            commit 19 register j dc1 r1\n\
            commit 20 prepare-join 9 50\n\
            commit 21 prepare-join 10 450\n\
            nodes @21\n\
            commit 22 start-join 10\n\
            commit 23 start-join 9\n\
            place @23 ks\n\
            commit 24 mid-join 10\n\
            commit 25 finish-join 10\n\
            place @25 ks\n\
            commit 26 mid-join 9\n\
            commit 27 finish-join 9\n\
            place @27 ks\n",
        "OK 1\n\
            OK 2\n\
            OK 3\n\
            OK 4\n\
            OK 5\n\
            OK 6\n\
            OK 7\n\
            OK 8\n\
            OK 9\n\
            OK 10\n\
            OK 11\n\
            OK 12\n\
            OK 13\n\
            OK 14\n\
            OK 15\n\
            OK 16\n\
            OK 17\n\
            OK 18\n\
            OK 19\n\
            OK 20\n\
            OK 21\n\
            NODES 21 10 2\n\
            1 a dc1 r1 JOINED 0\n\
            2 b dc1 r1 JOINED 100\n\
            3 c dc1 r1 JOINED 200\n\
            4 d dc1 r1 JOINED 300\n\
            5 e dc1 r1 JOINED 400\n\
            6 f dc1 r1 JOINED 500\n\
            7 g dc1 r1 JOINED 600\n\
            8 h dc1 r1 JOINED 700\n\
            9 i dc1 r1 REGISTERED -\n\
            10 j dc1 r1 REGISTERED -\n\
            SEQ 9 join PREPARED out - in 50@9\n\
            SEQ 10 join PREPARED out - in 450@10\n\
            OK 22\n\
            OK 23\n\
            PLACE 23 ks 11\n\
            (min,0] read 1,2,3 write 1,2,3,9\n\
            (0,50] read 2,3,4 write 2,3,4,9\n\
            (50,100] read 2,3,4 write 2,3,4\n\
            (100,200] read 3,4,5 write 3,4,5\n\
            (200,300] read 4,5,6 write 4,5,6,10\n\
            (300,400] read 5,6,7 write 5,6,7,10\n\
            (400,450] read 6,7,8 write 6,7,8,10\n\
            (450,500] read 6,7,8 write 6,7,8\n\
            (500,600] read 1,7,8 write 1,7,8\n\
            (600,700] read 1,2,8 write 1,2,8,9\n\
            (700,max] read 1,2,3 write 1,2,3,9\n\
            OK 24\n\
            OK 25\n\
            PLACE 25 ks 11\n\
            (min,0] read 1,2,3 write 1,2,3,9\n\
            (0,50] read 2,3,4 write 2,3,4,9\n\
            (50,100] read 2,3,4 write 2,3,4\n\
            (100,200] read 3,4,5 write 3,4,5\n\
            (200,300] read 4,5,10 write 4,5,10\n\
            (300,400] read 5,6,10 write 5,6,10\n\
            (400,450] read 6,7,10 write 6,7,10\n\
            (450,500] read 6,7,8 write 6,7,8\n\
            (500,600] read 1,7,8 write 1,7,8\n\
            (600,700] read 1,2,8 write 1,2,8,9\n\
            (700,max] read 1,2,3 write 1,2,3,9\n\
            OK 26\n\
            OK 27\n\
            PLACE 27 ks 11\n\
            (min,0] read 1,2,9 write 1,2,9\n\
            (0,50] read 2,3,9 write 2,3,9\n\
            (50,100] read 2,3,4 write 2,3,4\n\
            (100,200] read 3,4,5 write 3,4,5\n\
            (200,300] read 4,5,10 write 4,5,10\n\
            (300,400] read 5,6,10 write 5,6,10\n\
            (400,450] read 6,7,10 write 6,7,10\n\
            (450,500] read 6,7,8 write 6,7,8\n\
            (500,600] read 1,7,8 write 1,7,8\n\
            (600,700] read 1,8,9 write 1,8,9\n\
            (700,max] read 1,2,9 write 1,2,9\n",
    ),
    (
        "locked under a later keyspace",
        "commit 1 register a dc1 r1\n\
            commit 2 register b dc1 r1\n\
            commit 3 register c dc1 r1\n\
            commit 4 register d dc1 r1\n\
            commit 5 register e dc1 r1\n\
            commit 6 register f dc1 r1\n\
            commit 7 register g dc1 r1\n\
            commit 8 register h dc1 r1\n\
            commit 9 unsafe-join 1 0\n\
            commit 10 unsafe-join 2 100\n\
            commit 11 unsafe-join 3 200\n\
            commit 12 unsafe-join 4 300\n\
            commit 13 unsafe-join 5 400\n\
            commit 14 unsafe-join 6 500\n\
            commit 15 unsafe-join 7 600\n\
            commit 16 unsafe-join 8 700\n\
            commit 17 keyspace ks simple 3\n\
            commit 18 register i dc1 r1\n\
            commit 19 register j dc1 r1\n\
            commit 20 prepare-join 9 50\n\
            commit 21 prepare-join 10 450\n\
            commit 22 start-join 10\n\
            commit 23 mid-join 10\n\
            commit 24 finish-join 10\n\
            commit 25 start-join 9\n\
            commit 26 mid-join 9\n\
            commit 27 finish-join 9\n\
            commit 28 keyspace kt topology dc1:6\n\
            commit 29 register k dc1 r1\n\
            commit 30 register l dc1 r1\n\
            commit 31 prepare-join 11 60\n\
            commit 32 prepare-join 12 460\n\
            commit 33 prepare-join 12 260\n\
            commit 34 drop-keyspace kt\n",
        "OK 1\n\
            OK 2\n\
            OK 3\n\
            OK 4\n\
            OK 5\n\
            OK 6\n\
            OK 7\n\
            OK 8\n\
            OK 9\n\
            OK 10\n\
            OK 11\n\
            OK 12\n\
            OK 13\n\
            OK 14\n\
            OK 15\n\
            OK 16\n\
            OK 17\n\
            OK 18\n\
            OK 19\n\
            OK 20\n\
            OK 21\n\
            OK 22\n\
            OK 23\n\
            OK 24\n\
            OK 25\n\
            OK 26\n\
            OK 27\n\
            OK 28\n\
            OK 29\n\
            OK 30\n\
            OK 31\n\
            NO LOCKED 11 60\n\
            NO LOCKED 11 0\n\
            OK 32\n",
    ),
    (
        "joins of two datacenters",
        "commit 1 register a dc1 r1\n\
            commit 2 register b dc1 r2\n\
            commit 3 register c dc1 r3\n\
            commit 4 register d dc2 r1\n\
            commit 5 register e dc2 r2\n\
            commit 6 register f dc1 r1\n\
            commit 7 register g dc2 r1\n\
            commit 8 unsafe-join 1 0 1000\n\
            commit 9 unsafe-join 2 100 1100\n\
            commit 10 unsafe-join 3 200 1200\n\
            commit 11 unsafe-join 4 300 1300\n\
            commit 12 unsafe-join 5 400 1400\n\
            commit 13 keyspace kt topology dc1:1 dc2:1\n\
            commit 14 prepare-join 6 50\n\
            commit 15 prepare-join 7 60\n\
            commit 16 prepare-join 7 350\n\
            nodes @15\n",
        "OK 1\n\
            OK 2\n\
            OK 3\n\
            OK 4\n\
            OK 5\n\
            OK 6\n\
            OK 7\n\
            OK 8\n\
            OK 9\n\
            OK 10\n\
            OK 11\n\
            OK 12\n\
            OK 13\n\
            OK 14\n\
            NO LOCKED 6 50\n\
            OK 15\n\
            NODES 15 7 2\n\
            1 a dc1 r1 JOINED 0,1000\n\
            2 b dc1 r2 JOINED 100,1100\n\
            3 c dc1 r3 JOINED 200,1200\n\
            4 d dc2 r1 JOINED 300,1300\n\
            5 e dc2 r2 JOINED 400,1400\n\
            6 f dc1 r1 REGISTERED -\n\
            7 g dc2 r1 REGISTERED -\n\
            SEQ 6 join PREPARED out - in 50@6\n\
            SEQ 7 join PREPARED out - in 350@7\n",
    ),
];
