//! Movements of each kind that are cancelled, at each phase.

use crate::tests::running::Script;

/// Movements of three nodes.
pub const ON_THREE: [Script; 9] = [
    (
        "a join that is cancelled early",
        "place @8 ks\n\
            commit 9 prepare-join 4 150\n\
            commit 10 cancel 4\n\
            nodes @10\n\
            place @10 ks\n\
            commit 11 prepare-join 4 150\n\
            commit 12 start-join 4\n\
            place @12 ks\n\
            commit 13 cancel 4\n\
            nodes @13\n\
            place @13 ks\n\
            commit 14 cancel 4\n",
        "PLACE 8 ks 4\n\
            (min,0] read 1,2 write 1,2\n\
            (0,100] read 2,3 write 2,3\n\
            (100,200] read 1,3 write 1,3\n\
            (200,max] read 1,2 write 1,2\n\
            OK 9\n\
            OK 10\n\
            NODES 10 4 0\n\
            1 a dc1 r1 JOINED 0\n\
            2 b dc1 r1 JOINED 100\n\
            3 c dc1 r1 JOINED 200\n\
            4 d dc1 r1 REGISTERED -\n\
            PLACE 10 ks 4\n\
            (min,0] read 1,2 write 1,2\n\
            (0,100] read 2,3 write 2,3\n\
            (100,200] read 1,3 write 1,3\n\
            (200,max] read 1,2 write 1,2\n\
            OK 11\n\
            OK 12\n\
            PLACE 12 ks 5\n\
            (min,0] read 1,2 write 1,2\n\
            (0,100] read 2,3 write 2,3,4\n\
            (100,150] read 1,3 write 1,3,4\n\
            (150,200] read 1,3 write 1,3\n\
            (200,max] read 1,2 write 1,2\n\
            OK 13\n\
            NODES 13 4 0\n\
            1 a dc1 r1 JOINED 0\n\
            2 b dc1 r1 JOINED 100\n\
            3 c dc1 r1 JOINED 200\n\
            4 d dc1 r1 REGISTERED -\n\
            PLACE 13 ks 4\n\
            (min,0] read 1,2 write 1,2\n\
            (0,100] read 2,3 write 2,3\n\
            (100,200] read 1,3 write 1,3\n\
            (200,max] read 1,2 write 1,2\n\
            NO NO-SEQUENCE\n",
    ),
    (
        "a join that is cancelled half way",
        "commit 9 prepare-join 4 150\n\
            commit 10 start-join 4\n\
            place @10 ks\n\
            commit 11 mid-join 4\n\
            place @11 ks\n\
            commit 12 cancel 4\n\
            nodes @12\n\
            place @12 ks\n\
            commit 13 finish-join 4\n\
            commit 14 mid-join 4\n\
            commit 15 cancel 4\n\
            commit 16 cancel 4\n\
            nodes @15\n\
            place @15 ks\n",
        "OK 9\n\
            OK 10\n\
            PLACE 10 ks 5\n\
            (min,0] read 1,2 write 1,2\n\
            (0,100] read 2,3 write 2,3,4\n\
            (100,150] read 1,3 write 1,3,4\n\
            (150,200] read 1,3 write 1,3\n\
            (200,max] read 1,2 write 1,2\n\
            OK 11\n\
            PLACE 11 ks 5\n\
            (min,0] read 1,2 write 1,2\n\
            (0,100] read 2,4 write 2,3,4\n\
            (100,150] read 3,4 write 1,3,4\n\
            (150,200] read 1,3 write 1,3\n\
            (200,max] read 1,2 write 1,2\n\
            OK 12\n\
            NODES 12 4 1\n\
            1 a dc1 r1 JOINED 0\n\
            2 b dc1 r1 JOINED 100\n\
            3 c dc1 r1 JOINED 200\n\
            4 d dc1 r1 BOOTSTRAPPING -\n\
            SEQ 4 join STARTED out - in 150@4\n\
            PLACE 12 ks 5\n\
            (min,0] read 1,2 write 1,2\n\
            (0,100] read 2,3 write 2,3,4\n\
            (100,150] read 1,3 write 1,3,4\n\
            (150,200] read 1,3 write 1,3\n\
            (200,max] read 1,2 write 1,2\n\
            NO WRONG-STEP join STARTED\n\
            OK 13\n\
            OK 14\n\
            OK 15\n\
            NODES 15 4 0\n\
            1 a dc1 r1 JOINED 0\n\
            2 b dc1 r1 JOINED 100\n\
            3 c dc1 r1 JOINED 200\n\
            4 d dc1 r1 REGISTERED -\n\
            PLACE 15 ks 4\n\
            (min,0] read 1,2 write 1,2\n\
            (0,100] read 2,3 write 2,3\n\
            (100,200] read 1,3 write 1,3\n\
            (200,max] read 1,2 write 1,2\n",
    ),
    (
        "a move that is cancelled early",
        "place @8 ks\n\
            commit 9 prepare-move 2 150\n\
            commit 10 cancel 2\n\
            nodes @10\n\
            place @10 ks\n\
            commit 11 prepare-move 2 150\n\
            commit 12 start-move 2\n\
            place @12 ks\n\
            commit 13 cancel 2\n\
            nodes @13\n\
            place @13 ks\n\
            commit 14 cancel 2\n",
        "PLACE 8 ks 4\n\
            (min,0] read 1,2 write 1,2\n\
            (0,100] read 2,3 write 2,3\n\
            (100,200] read 1,3 write 1,3\n\
            (200,max] read 1,2 write 1,2\n\
            OK 9\n\
            OK 10\n\
            NODES 10 4 0\n\
            1 a dc1 r1 JOINED 0\n\
            2 b dc1 r1 JOINED 100\n\
            3 c dc1 r1 JOINED 200\n\
            4 d dc1 r1 REGISTERED -\n\
            PLACE 10 ks 4\n\
            (min,0] read 1,2 write 1,2\n\
            (0,100] read 2,3 write 2,3\n\
            (100,200] read 1,3 write 1,3\n\
            (200,max] read 1,2 write 1,2\n\
            OK 11\n\
            OK 12\n\
            PLACE 12 ks 5\n\
            (min,0] read 1,2 write 1,2\n\
            (0,100] read 2,3 write 2,3\n\
            (100,150] read 1,3 write 1,2,3\n\
            (150,200] read 1,3 write 1,3\n\
            (200,max] read 1,2 write 1,2\n\
            OK 13\n\
            NODES 13 4 0\n\
            1 a dc1 r1 JOINED 0\n\
            2 b dc1 r1 JOINED 100\n\
            3 c dc1 r1 JOINED 200\n\
            4 d dc1 r1 REGISTERED -\n\
            PLACE 13 ks 4\n\
            (min,0] read 1,2 write 1,2\n\
            (0,100] read 2,3 write 2,3\n\
            (100,200] read 1,3 write 1,3\n\
            (200,max] read 1,2 write 1,2\n\
            NO NO-SEQUENCE\n",
    ),
    (
        "a move that is cancelled half way",
        "commit 9 prepare-move 2 150\n\
            commit 10 start-move 2\n\
            place @10 ks\n\
            commit 11 mid-move 2\n\
            place @11 ks\n\
            commit 12 cancel 2\n\
            nodes @12\n\
            place @12 ks\n\
            commit 13 finish-move 2\n\
            commit 14 mid-move 2\n\
            commit 15 cancel 2\n\
            commit 16 cancel 2\n\
            nodes @15\n\
            place @15 ks\n",
        "OK 9\n\
            OK 10\n\
            PLACE 10 ks 5\n\
            (min,0] read 1,2 write 1,2\n\
            (0,100] read 2,3 write 2,3\n\
            (100,150] read 1,3 write 1,2,3\n\
            (150,200] read 1,3 write 1,3\n\
            (200,max] read 1,2 write 1,2\n\
            OK 11\n\
            PLACE 11 ks 5\n\
            (min,0] read 1,2 write 1,2\n\
            (0,100] read 2,3 write 2,3\n\
            (100,150] read 2,3 write 1,2,3\n\
            (150,200] read 1,3 write 1,3\n\
            (200,max] read 1,2 write 1,2\n\
            OK 12\n\
            NODES 12 4 1\n\
            1 a dc1 r1 JOINED 0\n\
            2 b dc1 r1 MOVING 100\n\
            3 c dc1 r1 JOINED 200\n\
            4 d dc1 r1 REGISTERED -\n\
            SEQ 2 move STARTED out 100@2 in 150@2\n\
            PLACE 12 ks 5\n\
            (min,0] read 1,2 write 1,2\n\
            (0,100] read 2,3 write 2,3\n\
            (100,150] read 1,3 write 1,2,3\n\
            (150,200] read 1,3 write 1,3\n\
            (200,max] read 1,2 write 1,2\n\
            NO WRONG-STEP move STARTED\n\
            OK 13\n\
            OK 14\n\
            OK 15\n\
            NODES 15 4 0\n\
            1 a dc1 r1 JOINED 0\n\
            2 b dc1 r1 JOINED 100\n\
            3 c dc1 r1 JOINED 200\n\
            4 d dc1 r1 REGISTERED -\n\
            PLACE 15 ks 4\n\
            (min,0] read 1,2 write 1,2\n\
            (0,100] read 2,3 write 2,3\n\
            (100,200] read 1,3 write 1,3\n\
            (200,max] read 1,2 write 1,2\n",
    ),
    (
        "a leave that is cancelled early",
        "place @8 ks\n\
            commit 9 prepare-leave 2\n\
            commit 10 cancel 2\n\
            nodes @10\n\
            place @10 ks\n\
            commit 11 prepare-leave 2\n\
            commit 12 start-leave 2\n\
            place @12 ks\n\
            commit 13 cancel 2\n\
            nodes @13\n\
            place @13 ks\n\
            commit 14 cancel 2\n",
        "PLACE 8 ks 4\n\
            (min,0] read 1,2 write 1,2\n\
            (0,100] read 2,3 write 2,3\n\
            (100,200] read 1,3 write 1,3\n\
            (200,max] read 1,2 write 1,2\n\
            OK 9\n\
            OK 10\n\
            NODES 10 4 0\n\
            1 a dc1 r1 JOINED 0\n\
            2 b dc1 r1 JOINED 100\n\
            3 c dc1 r1 JOINED 200\n\
            4 d dc1 r1 REGISTERED -\n\
            PLACE 10 ks 4\n\
            (min,0] read 1,2 write 1,2\n\
            (0,100] read 2,3 write 2,3\n\
            (100,200] read 1,3 write 1,3\n\
            (200,max] read 1,2 write 1,2\n\
            OK 11\n\
            OK 12\n\
            PLACE 12 ks 4\n\
            (min,0] read 1,2 write 1,2,3\n\
            (0,100] read 2,3 write 1,2,3\n\
            (100,200] read 1,3 write 1,3\n\
            (200,max] read 1,2 write 1,2,3\n\
            OK 13\n\
            NODES 13 4 0\n\
            1 a dc1 r1 JOINED 0\n\
            2 b dc1 r1 JOINED 100\n\
            3 c dc1 r1 JOINED 200\n\
            4 d dc1 r1 REGISTERED -\n\
            PLACE 13 ks 4\n\
            (min,0] read 1,2 write 1,2\n\
            (0,100] read 2,3 write 2,3\n\
            (100,200] read 1,3 write 1,3\n\
            (200,max] read 1,2 write 1,2\n\
            NO NO-SEQUENCE\n",
    ),
    (
        "a leave that is cancelled half way",
        "commit 9 prepare-leave 2\n\
            commit 10 start-leave 2\n\
            place @10 ks\n\
            commit 11 mid-leave 2\n\
            place @11 ks\n\
            commit 12 cancel 2\n\
            nodes @12\n\
            place @12 ks\n\
            commit 13 finish-leave 2\n\
            commit 14 mid-leave 2\n\
            commit 15 cancel 2\n\
            commit 16 cancel 2\n\
            nodes @15\n\
            place @15 ks\n",
        "OK 9\n\
            OK 10\n\
            PLACE 10 ks 4\n\
            (min,0] read 1,2 write 1,2,3\n\
            (0,100] read 2,3 write 1,2,3\n\
            (100,200] read 1,3 write 1,3\n\
            (200,max] read 1,2 write 1,2,3\n\
            OK 11\n\
            PLACE 11 ks 4\n\
            (min,0] read 1,3 write 1,2,3\n\
            (0,100] read 1,3 write 1,2,3\n\
            (100,200] read 1,3 write 1,3\n\
            (200,max] read 1,3 write 1,2,3\n\
            OK 12\n\
            NODES 12 4 1\n\
            1 a dc1 r1 JOINED 0\n\
            2 b dc1 r1 LEAVING 100\n\
            3 c dc1 r1 JOINED 200\n\
            4 d dc1 r1 REGISTERED -\n\
            SEQ 2 leave STARTED out 100@2 in -\n\
            PLACE 12 ks 4\n\
            (min,0] read 1,2 write 1,2,3\n\
            (0,100] read 2,3 write 1,2,3\n\
            (100,200] read 1,3 write 1,3\n\
            (200,max] read 1,2 write 1,2,3\n\
            NO WRONG-STEP leave STARTED\n\
            OK 13\n\
            OK 14\n\
            OK 15\n\
            NODES 15 4 0\n\
            1 a dc1 r1 JOINED 0\n\
            2 b dc1 r1 JOINED 100\n\
            3 c dc1 r1 JOINED 200\n\
            4 d dc1 r1 REGISTERED -\n\
            PLACE 15 ks 4\n\
            (min,0] read 1,2 write 1,2\n\
            (0,100] read 2,3 write 2,3\n\
            (100,200] read 1,3 write 1,3\n\
            (200,max] read 1,2 write 1,2\n",
    ),
    (
        "a replace that is cancelled early",
        "place @8 ks\n\
            commit 9 prepare-replace 4 2\n\
            commit 10 cancel 4\n\
            nodes @10\n\
            place @10 ks\n\
            commit 11 prepare-replace 4 2\n\
            commit 12 start-replace 4\n\
            place @12 ks\n\
            commit 13 cancel 4\n\
            nodes @13\n\
            place @13 ks\n\
            commit 14 cancel 4\n",
        "PLACE 8 ks 4\n\
            (min,0] read 1,2 write 1,2\n\
            (0,100] read 2,3 write 2,3\n\
            (100,200] read 1,3 write 1,3\n\
            (200,max] read 1,2 write 1,2\n\
            OK 9\n\
            OK 10\n\
            NODES 10 4 0\n\
            1 a dc1 r1 JOINED 0\n\
            2 b dc1 r1 JOINED 100\n\
            3 c dc1 r1 JOINED 200\n\
            4 d dc1 r1 REGISTERED -\n\
            PLACE 10 ks 4\n\
            (min,0] read 1,2 write 1,2\n\
            (0,100] read 2,3 write 2,3\n\
            (100,200] read 1,3 write 1,3\n\
            (200,max] read 1,2 write 1,2\n\
            OK 11\n\
            OK 12\n\
            PLACE 12 ks 4\n\
            (min,0] read 1,2 write 1,2,4\n\
            (0,100] read 2,3 write 2,3,4\n\
            (100,200] read 1,3 write 1,3\n\
            (200,max] read 1,2 write 1,2,4\n\
            OK 13\n\
            NODES 13 4 0\n\
            1 a dc1 r1 JOINED 0\n\
            2 b dc1 r1 JOINED 100\n\
            3 c dc1 r1 JOINED 200\n\
            4 d dc1 r1 REGISTERED -\n\
            PLACE 13 ks 4\n\
            (min,0] read 1,2 write 1,2\n\
            (0,100] read 2,3 write 2,3\n\
            (100,200] read 1,3 write 1,3\n\
            (200,max] read 1,2 write 1,2\n\
            NO NO-SEQUENCE\n",
    ),
    (
        "a replace that is cancelled half way",
        "commit 9 prepare-replace 4 2\n\
            commit 10 start-replace 4\n\
            place @10 ks\n\
            commit 11 mid-replace 4\n\
            place @11 ks\n\
            commit 12 cancel 4\n\
            nodes @12\n\
            place @12 ks\n\
            commit 13 finish-replace 4\n\
            commit 14 mid-replace 4\n\
            commit 15 cancel 4\n\
            commit 16 cancel 4\n\
            nodes @15\n\
            place @15 ks\n",
        "OK 9\n\
            OK 10\n\
            PLACE 10 ks 4\n\
            (min,0] read 1,2 write 1,2,4\n\
            (0,100] read 2,3 write 2,3,4\n\
            (100,200] read 1,3 write 1,3\n\
            (200,max] read 1,2 write 1,2,4\n\
            OK 11\n\
            PLACE 11 ks 4\n\
            (min,0] read 1,4 write 1,2,4\n\
            (0,100] read 3,4 write 2,3,4\n\
            (100,200] read 1,3 write 1,3\n\
            (200,max] read 1,4 write 1,2,4\n\
            OK 12\n\
            NODES 12 4 1\n\
            1 a dc1 r1 JOINED 0\n\
            2 b dc1 r1 JOINED 100\n\
            3 c dc1 r1 JOINED 200\n\
            4 d dc1 r1 BOOT_REPLACING -\n\
            SEQ 4 replace STARTED out 100@2 in 100@4\n\
            PLACE 12 ks 4\n\
            (min,0] read 1,2 write 1,2,4\n\
            (0,100] read 2,3 write 2,3,4\n\
            (100,200] read 1,3 write 1,3\n\
            (200,max] read 1,2 write 1,2,4\n\
            NO WRONG-STEP replace STARTED\n\
            OK 13\n\
            OK 14\n\
            OK 15\n\
            NODES 15 4 0\n\
            1 a dc1 r1 JOINED 0\n\
            2 b dc1 r1 JOINED 100\n\
            3 c dc1 r1 JOINED 200\n\
            4 d dc1 r1 REGISTERED -\n\
            PLACE 15 ks 4\n\
            (min,0] read 1,2 write 1,2\n\
            (0,100] read 2,3 write 2,3\n\
            (100,200] read 1,3 write 1,3\n\
            (200,max] read 1,2 write 1,2\n",
    ),
    (
        "a replace that is taken up again",
        "commit 9 prepare-replace 4 2\n\
            commit 10 start-replace 4\n\
            commit 11 mid-replace 4\n\
            commit 12 cancel 4\n\
            commit 13 mid-replace 4\n\
            quorum @13 ks 50\n\
            commit 14 finish-replace 4\n\
            nodes @14\n\
            quorum @14 ks 50\n\
            commit 15 cancel 4\n",
        "OK 9\n\
            OK 10\n\
            OK 11\n\
            OK 12\n\
            OK 13\n\
            QUORUM 13 read 2 of 3,4 write 3 of 2,3,4\n\
            OK 14\n\
            NODES 14 4 0\n\
            1 a dc1 r1 JOINED 0\n\
            2 b dc1 r1 LEFT -\n\
            3 c dc1 r1 JOINED 200\n\
            4 d dc1 r1 JOINED 100\n\
            QUORUM 14 read 2 of 3,4 write 2 of 3,4\n\
            NO NO-SEQUENCE\n",
    ),
];

/// Joins of a fifth node.
pub const ON_FOUR: [Script; 2] = [
    (
        "join-mid-cancelled",
        "commit 12 prepare-join 5 150\n\
            commit 13 start-join 5\n\
            commit 14 mid-join 5\n\
            place @14 ks\n\
            commit 15 cancel 5\n\
            place @15 ks\n\
            nodes @15\n\
            commit 16 cancel 5\n\
            place @16 ks\n\
            nodes @16\n",
        "OK 12\n\
            OK 13\n\
            OK 14\n\
            PLACE 14 ks 6\n\
            (min,0] read 1,2,5 write 1,2,3,5\n\
            (0,100] read 2,3,5 write 2,3,4,5\n\
            (100,150] read 3,4,5 write 1,3,4,5\n\
            (150,200] read 1,3,4 write 1,3,4\n\
            (200,300] read 1,2,4 write 1,2,4\n\
            (300,max] read 1,2,5 write 1,2,3,5\n\
            OK 15\n\
            PLACE 15 ks 6\n\
            (min,0] read 1,2,3 write 1,2,3,5\n\
            (0,100] read 2,3,4 write 2,3,4,5\n\
            (100,150] read 1,3,4 write 1,3,4,5\n\
            (150,200] read 1,3,4 write 1,3,4\n\
            (200,300] read 1,2,4 write 1,2,4\n\
            (300,max] read 1,2,3 write 1,2,3,5\n\
            NODES 15 6 1\n\
            1 a dc1 r1 JOINED 0\n\
            2 b dc1 r1 JOINED 100\n\
            3 c dc1 r1 JOINED 200\n\
            4 d dc1 r1 JOINED 300\n\
            5 e dc1 r1 BOOTSTRAPPING -\n\
            6 f dc1 r1 REGISTERED -\n\
            SEQ 5 join STARTED out - in 150@5\n\
            OK 16\n\
            PLACE 16 ks 5\n\
            (min,0] read 1,2,3 write 1,2,3\n\
            (0,100] read 2,3,4 write 2,3,4\n\
            (100,200] read 1,3,4 write 1,3,4\n\
            (200,300] read 1,2,4 write 1,2,4\n\
            (300,max] read 1,2,3 write 1,2,3\n\
            NODES 16 6 0\n\
            1 a dc1 r1 JOINED 0\n\
            2 b dc1 r1 JOINED 100\n\
            3 c dc1 r1 JOINED 200\n\
            4 d dc1 r1 JOINED 300\n\
            5 e dc1 r1 REGISTERED -\n\
            6 f dc1 r1 REGISTERED -\n",
    ),
    (
        "a join that is taken up again",
        "commit 12 prepare-join 5 150\n\
            commit 13 start-join 5\n\
            commit 14 mid-join 5\n\
            commit 15 cancel 5\n\
            commit 16 start-join 5\n\
            commit 17 mid-join 5\n\
            commit 18 finish-join 5\n\
            place @17 ks\n",
        "OK 12\n\
            OK 13\n\
            OK 14\n\
            OK 15\n\
            NO WRONG-STEP join STARTED\n\
            OK 16\n\
            OK 17\n\
            PLACE 17 ks 6\n\
            (min,0] read 1,2,5 write 1,2,5\n\
            (0,100] read 2,3,5 write 2,3,5\n\
            (100,150] read 3,4,5 write 3,4,5\n\
            (150,200] read 1,3,4 write 1,3,4\n\
            (200,300] read 1,2,4 write 1,2,4\n\
            (300,max] read 1,2,5 write 1,2,5\n",
    ),
];
