//! Leaves, replaces and moves, step by step.

use crate::tests::running::Script;

/// Movements of three nodes.
pub const ON_THREE: [Script; 10] = [
    (
        "a leave, step by step",
        "commit 9 prepare-leave 2\n\
            nodes @9\n\
            commit 10 start-leave 2\n\
            nodes @10\n\
            commit 11 mid-leave 2\n\
            nodes @11\n\
            commit 12 finish-leave 2\n\
            nodes @12\n",
        "OK 9\n\
            NODES 9 4 1\n\
            1 a dc1 r1 JOINED 0\n\
            2 b dc1 r1 JOINED 100\n\
            3 c dc1 r1 JOINED 200\n\
            4 d dc1 r1 REGISTERED -\n\
            SEQ 2 leave PREPARED out 100@2 in -\n\
            OK 10\n\
            NODES 10 4 1\n\
            1 a dc1 r1 JOINED 0\n\
            2 b dc1 r1 LEAVING 100\n\
            3 c dc1 r1 JOINED 200\n\
            4 d dc1 r1 REGISTERED -\n\
            SEQ 2 leave STARTED out 100@2 in -\n\
            OK 11\n\
            NODES 11 4 1\n\
            1 a dc1 r1 JOINED 0\n\
            2 b dc1 r1 LEAVING 100\n\
            3 c dc1 r1 JOINED 200\n\
            4 d dc1 r1 REGISTERED -\n\
            SEQ 2 leave MID out 100@2 in -\n\
            OK 12\n\
            NODES 12 4 0\n\
            1 a dc1 r1 JOINED 0\n\
            2 b dc1 r1 LEFT -\n\
            3 c dc1 r1 JOINED 200\n\
            4 d dc1 r1 REGISTERED -\n",
    ),
    (
        "the placements of a leave",
        "commit 9 prepare-leave 2\n\
            place @9 ks\n\
            commit 10 start-leave 2\n\
            place @10 ks\n\
            commit 11 mid-leave 2\n\
            place @11 ks\n\
            commit 12 finish-leave 2\n\
            place @12 ks\n",
        "OK 9\n\
            PLACE 9 ks 4\n\
            (min,0] read 1,2 write 1,2\n\
            (0,100] read 2,3 write 2,3\n\
            (100,200] read 1,3 write 1,3\n\
            (200,max] read 1,2 write 1,2\n\
            OK 10\n\
            PLACE 10 ks 4\n\
            (min,0] read 1,2 write 1,2,3\n\
            (0,100] read 2,3 write 1,2,3\n\
            (100,200] read 1,3 write 1,3\n\
            (200,max] read 1,2 write 1,2,3\n\
            OK 11\n\
            PLACE 11 ks 4\n\
            (min,0] read 1,3 write 1,2,3\n\
            (0,100] read 1,3 write 1,2,3\n\
            (100,200] read 1,3 write 1,3\n\
            (200,max] read 1,3 write 1,2,3\n\
            OK 12\n\
            PLACE 12 ks 3\n\
            (min,0] read 1,3 write 1,3\n\
            (0,200] read 1,3 write 1,3\n\
            (200,max] read 1,3 write 1,3\n",
    ),
    (
        "a node that left",
        "commit 9 prepare-leave 2\n\
            commit 10 unregister 2\n\
            commit 11 start-leave 2\n\
            commit 12 mid-leave 2\n\
            commit 13 finish-leave 2\n\
            nodes @12\n\
            commit 14 unsafe-join 2 50\n\
            commit 15 prepare-join 2 50\n\
            commit 16 prepare-move 2 50\n\
            commit 17 prepare-leave 2\n\
            commit 18 prepare-replace 2 1\n\
            commit 19 prepare-replace 4 2\n\
            commit 20 start-leave 2\n\
            commit 21 cancel 2\n\
            commit 22 register b dc1 r1\n\
            commit 23 unregister 2\n\
            commit 24 register b dc1 r1\n\
            commit 25 unregister 2\n\
            nodes @14\n",
        "OK 9\n\
            NO IN-SEQUENCE 2\n\
            OK 10\n\
            OK 11\n\
            OK 12\n\
            NODES 12 4 0\n\
            1 a dc1 r1 JOINED 0\n\
            2 b dc1 r1 LEFT -\n\
            3 c dc1 r1 JOINED 200\n\
            4 d dc1 r1 REGISTERED -\n\
            NO NODE-STATE LEFT\n\
            NO NODE-STATE LEFT\n\
            NO NODE-STATE LEFT\n\
            NO NODE-STATE LEFT\n\
            NO NODE-STATE LEFT\n\
            NO NO-TOKENS\n\
            NO NO-SEQUENCE\n\
            NO NO-SEQUENCE\n\
            NO NAME-TAKEN 2\n\
            OK 13\n\
            OK 14\n\
            NO NO-NODE\n\
            NODES 14 4 0\n\
            1 a dc1 r1 JOINED 0\n\
            3 c dc1 r1 JOINED 200\n\
            4 d dc1 r1 REGISTERED -\n\
            5 b dc1 r1 REGISTERED -\n",
    ),
    (
        "a replace, step by step",
        "commit 9 prepare-replace 4 2\n\
            nodes @9\n\
            commit 10 start-replace 4\n\
            nodes @10\n\
            commit 11 mid-replace 4\n\
            nodes @11\n\
            commit 12 finish-replace 4\n\
            nodes @12\n",
        "OK 9\n\
            NODES 9 4 1\n\
            1 a dc1 r1 JOINED 0\n\
            2 b dc1 r1 JOINED 100\n\
            3 c dc1 r1 JOINED 200\n\
            4 d dc1 r1 REGISTERED -\n\
            SEQ 4 replace PREPARED out 100@2 in 100@4\n\
            OK 10\n\
            NODES 10 4 1\n\
            1 a dc1 r1 JOINED 0\n\
            2 b dc1 r1 JOINED 100\n\
            3 c dc1 r1 JOINED 200\n\
            4 d dc1 r1 BOOT_REPLACING -\n\
            SEQ 4 replace STARTED out 100@2 in 100@4\n\
            OK 11\n\
            NODES 11 4 1\n\
            1 a dc1 r1 JOINED 0\n\
            2 b dc1 r1 JOINED 100\n\
            3 c dc1 r1 JOINED 200\n\
            4 d dc1 r1 BOOT_REPLACING -\n\
            SEQ 4 replace MID out 100@2 in 100@4\n\
            OK 12\n\
            NODES 12 4 0\n\
            1 a dc1 r1 JOINED 0\n\
            2 b dc1 r1 LEFT -\n\
            3 c dc1 r1 JOINED 200\n\
            4 d dc1 r1 JOINED 100\n",
    ),
    (
        "the placements of a replace",
        "commit 9 prepare-replace 4 2\n\
            place @9 ks\n\
            commit 10 start-replace 4\n\
            place @10 ks\n\
            commit 11 mid-replace 4\n\
            place @11 ks\n\
            commit 12 finish-replace 4\n\
            place @12 ks\n",
        "OK 9\n\
            PLACE 9 ks 4\n\
            (min,0] read 1,2 write 1,2\n\
            (0,100] read 2,3 write 2,3\n\
            (100,200] read 1,3 write 1,3\n\
            (200,max] read 1,2 write 1,2\n\
            OK 10\n\
            PLACE 10 ks 4\n\
            (min,0] read 1,2 write 1,2,4\n\
            (0,100] read 2,3 write 2,3,4\n\
            (100,200] read 1,3 write 1,3\n\
            (200,max] read 1,2 write 1,2,4\n\
            OK 11\n\
            PLACE 11 ks 4\n\
            (min,0] read 1,4 write 1,2,4\n\
            (0,100] read 3,4 write 2,3,4\n\
            (100,200] read 1,3 write 1,3\n\
            (200,max] read 1,4 write 1,2,4\n\
            OK 12\n\
            PLACE 12 ks 4\n\
            (min,0] read 1,4 write 1,4\n\
            (0,100] read 3,4 write 3,4\n\
            (100,200] read 1,3 write 1,3\n\
            (200,max] read 1,4 write 1,4\n",
    ),
    (
        "a node that was replaced",
        "commit 9 prepare-replace 4 2\n\
            commit 10 unregister 2\n\
            commit 11 unregister 4\n\
            commit 12 start-replace 4\n\
            commit 13 mid-replace 4\n\
            commit 14 unregister 2\n\
            commit 15 register b dc1 r1\n\
            commit 16 finish-replace 4\n\
            nodes @12\n\
            commit 17 register b dc1 r1\n\
            commit 18 unregister 4\n\
            commit 19 unregister 2\n\
            commit 20 register b dc1 r1\n\
            nodes @14\n",
        "OK 9\n\
            NO IN-SEQUENCE 4\n\
            NO IN-SEQUENCE 4\n\
            OK 10\n\
            OK 11\n\
            NO IN-SEQUENCE 4\n\
            NO NAME-TAKEN 2\n\
            OK 12\n\
            NODES 12 4 0\n\
            1 a dc1 r1 JOINED 0\n\
            2 b dc1 r1 LEFT -\n\
            3 c dc1 r1 JOINED 200\n\
            4 d dc1 r1 JOINED 100\n\
            NO NAME-TAKEN 2\n\
            NO NODE-STATE JOINED\n\
            OK 13\n\
            OK 14\n\
            NODES 14 4 0\n\
            1 a dc1 r1 JOINED 0\n\
            3 c dc1 r1 JOINED 200\n\
            4 d dc1 r1 JOINED 100\n\
            5 b dc1 r1 REGISTERED -\n",
    ),
    (
        "a move, step by step",
        "commit 9 prepare-move 2 150\n\
            nodes @9\n\
            commit 10 start-move 2\n\
            nodes @10\n\
            commit 11 mid-move 2\n\
            nodes @11\n\
            commit 12 finish-move 2\n\
            nodes @12\n",
        "OK 9\n\
            NODES 9 4 1\n\
            1 a dc1 r1 JOINED 0\n\
            2 b dc1 r1 JOINED 100\n\
            3 c dc1 r1 JOINED 200\n\
            4 d dc1 r1 REGISTERED -\n\
            SEQ 2 move PREPARED out 100@2 in 150@2\n\
            OK 10\n\
            NODES 10 4 1\n\
            1 a dc1 r1 JOINED 0\n\
            2 b dc1 r1 MOVING 100\n\
            3 c dc1 r1 JOINED 200\n\
            4 d dc1 r1 REGISTERED -\n\
            SEQ 2 move STARTED out 100@2 in 150@2\n\
            OK 11\n\
            NODES 11 4 1\n\
            1 a dc1 r1 JOINED 0\n\
            2 b dc1 r1 MOVING 100\n\
            3 c dc1 r1 JOINED 200\n\
            4 d dc1 r1 REGISTERED -\n\
            SEQ 2 move MID out 100@2 in 150@2\n\
            OK 12\n\
            NODES 12 4 0\n\
            1 a dc1 r1 JOINED 0\n\
            2 b dc1 r1 JOINED 150\n\
            3 c dc1 r1 JOINED 200\n\
            4 d dc1 r1 REGISTERED -\n",
    ),
    (
        "the placements of a move",
        "commit 9 prepare-move 2 150\n\
            place @9 ks\n\
            commit 10 start-move 2\n\
            place @10 ks\n\
            commit 11 mid-move 2\n\
            place @11 ks\n\
            commit 12 finish-move 2\n\
            place @12 ks\n",
        "OK 9\n\
            PLACE 9 ks 5\n\
            (min,0] read 1,2 write 1,2\n\
            (0,100] read 2,3 write 2,3\n\
            (100,150] read 1,3 write 1,3\n\
            (150,200] read 1,3 write 1,3\n\
            (200,max] read 1,2 write 1,2\n\
            OK 10\n\
            PLACE 10 ks 5\n\
            (min,0] read 1,2 write 1,2\n\
            (0,100] read 2,3 write 2,3\n\
            (100,150] read 1,3 write 1,2,3\n\
            (150,200] read 1,3 write 1,3\n\
            (200,max] read 1,2 write 1,2\n\
            OK 11\n\
            PLACE 11 ks 5\n\
            (min,0] read 1,2 write 1,2\n\
            (0,100] read 2,3 write 2,3\n\
            (100,150] read 2,3 write 1,2,3\n\
            (150,200] read 1,3 write 1,3\n\
            (200,max] read 1,2 write 1,2\n\
            OK 12\n\
            PLACE 12 ks 4\n\
            (min,0] read 1,2 write 1,2\n\
            (0,150] read 2,3 write 2,3\n\
            (150,200] read 1,3 write 1,3\n\
            (200,max] read 1,2 write 1,2\n",
    ),
    (
        "tokens that move to and fro",
        "commit 9 prepare-move 2 150\n\
            commit 10 prepare-join 4 100\n\
            commit 11 prepare-join 4 150\n\
            commit 12 start-move 2\n\
            commit 13 mid-move 2\n\
            commit 14 finish-move 2\n\
            commit 15 prepare-join 4 100\n\
            commit 16 cancel 4\n\
            commit 17 prepare-move 2 100\n\
            commit 18 start-move 2\n\
            commit 19 mid-move 2\n\
            commit 20 finish-move 2\n\
            nodes @18\n",
        "OK 9\n\
            NO TOKEN-TAKEN 100\n\
            NO TOKEN-TAKEN 150\n\
            OK 10\n\
            OK 11\n\
            OK 12\n\
            OK 13\n\
            OK 14\n\
            OK 15\n\
            OK 16\n\
            OK 17\n\
            OK 18\n\
            NODES 18 4 0\n\
            1 a dc1 r1 JOINED 0\n\
            2 b dc1 r1 JOINED 100\n\
            3 c dc1 r1 JOINED 200\n\
            4 d dc1 r1 REGISTERED -\n",
    ),
    (
        "leaves one after another",
        "commit 9 prepare-leave 2\n\
            commit 10 prepare-leave 3\n\
            commit 11 start-leave 2\n\
            commit 12 mid-leave 2\n\
            commit 13 finish-leave 2\n\
            commit 14 prepare-leave 3\n\
            commit 15 prepare-join 4 50\n\
            commit 16 prepare-leave 3\n\
            commit 17 start-join 4\n\
            commit 18 mid-join 4\n\
            commit 19 finish-join 4\n\
            commit 20 prepare-leave 3\n\
            nodes @17\n",
        "OK 9\n\
            NO LOCKED 2 0\n\
            OK 10\n\
            OK 11\n\
            OK 12\n\
            NO TOO-FEW-NODES ks\n\
            OK 13\n\
            NO TOO-FEW-NODES ks\n\
            OK 14\n\
            OK 15\n\
            OK 16\n\
            OK 17\n\
            NODES 17 4 1\n\
            1 a dc1 r1 JOINED 0\n\
            2 b dc1 r1 LEFT -\n\
            3 c dc1 r1 JOINED 200\n\
            4 d dc1 r1 JOINED 50\n\
            SEQ 3 leave PREPARED out 200@3 in -\n",
    ),
];

/// Moves of one of four nodes.
pub const ON_FOUR: [Script; 2] = [
    (
        "move-started",
        "commit 12 prepare-move 2 250\n\
            commit 13 start-move 2\n\
            nodes @13\n\
            place @13 ks\n",
        "OK 12\n\
            OK 13\n\
            NODES 13 6 1\n\
            1 a dc1 r1 JOINED 0\n\
            2 b dc1 r1 MOVING 100\n\
            3 c dc1 r1 JOINED 200\n\
            4 d dc1 r1 JOINED 300\n\
            5 e dc1 r1 REGISTERED -\n\
            6 f dc1 r1 REGISTERED -\n\
            SEQ 2 move STARTED out 100@2 in 250@2\n\
            PLACE 13 ks 6\n\
            (min,0] read 1,2,3 write 1,2,3\n\
            (0,100] read 2,3,4 write 2,3,4\n\
            (100,200] read 1,3,4 write 1,2,3,4\n\
            (200,250] read 1,2,4 write 1,2,4\n\
            (250,300] read 1,2,4 write 1,2,3,4\n\
            (300,max] read 1,2,3 write 1,2,3\n",
    ),
    (
        "a move, half way and finished",
        "commit 12 prepare-move 2 250\n\
            commit 13 start-move 2\n\
            commit 14 mid-move 2\n\
            place @14 ks\n\
            commit 15 finish-move 2\n\
            place @15 ks\n\
            nodes @15\n",
        "OK 12\n\
            OK 13\n\
            OK 14\n\
            PLACE 14 ks 6\n\
            (min,0] read 1,2,3 write 1,2,3\n\
            (0,100] read 2,3,4 write 2,3,4\n\
            (100,200] read 2,3,4 write 1,2,3,4\n\
            (200,250] read 1,2,4 write 1,2,4\n\
            (250,300] read 1,3,4 write 1,2,3,4\n\
            (300,max] read 1,2,3 write 1,2,3\n\
            OK 15\n\
            PLACE 15 ks 5\n\
            (min,0] read 1,2,3 write 1,2,3\n\
            (0,200] read 2,3,4 write 2,3,4\n\
            (200,250] read 1,2,4 write 1,2,4\n\
            (250,300] read 1,3,4 write 1,3,4\n\
            (300,max] read 1,2,3 write 1,2,3\n\
            NODES 15 6 0\n\
            1 a dc1 r1 JOINED 0\n\
            2 b dc1 r1 JOINED 250\n\
            3 c dc1 r1 JOINED 200\n\
            4 d dc1 r1 JOINED 300\n\
            5 e dc1 r1 REGISTERED -\n\
            6 f dc1 r1 REGISTERED -\n",
    ),
];
