//! Movements at the same time, whose ranges are apart.

use crate::tests::running::Script;

/// Movements of eight nodes.
pub const ON_EIGHT: [Script; 8] = [
    (
        "four kinds at the same time",
        "commit 20 prepare-join 9 50\n\
            commit 21 prepare-move 3 250\n\
            commit 22 prepare-leave 5\n\
            commit 23 prepare-replace 10 7\n\
            nodes @23\n\
            commit 24 start-leave 5\n\
            commit 25 start-replace 10\n\
            commit 26 start-join 9\n\
            commit 27 start-move 3\n\
            nodes @27\n\
            place @27 ks\n",
        "OK 20\n\
            OK 21\n\
            OK 22\n\
            OK 23\n\
            NODES 23 10 4\n\
            1 a dc1 r1 JOINED 0\n\
            2 b dc1 r1 JOINED 100\n\
            3 c dc1 r1 JOINED 200\n\
            4 d dc1 r1 JOINED 300\n\
            5 e dc1 r1 JOINED 400\n\
            6 f dc1 r1 JOINED 500\n\
            7 g dc1 r1 JOINED 600\n\
            8 h dc1 r1 JOINED 700\n\
            9 i dc1 r1 REGISTERED -\n\
            10 j dc1 r1 REGISTERED -\n\
            SEQ 3 move PREPARED out 200@3 in 250@3\n\
            SEQ 5 leave PREPARED out 400@5 in -\n\
            SEQ 9 join PREPARED out - in 50@9\n\
            SEQ 10 replace PREPARED out 600@7 in 600@10\n\
            OK 24\n\
            OK 25\n\
            OK 26\n\
            OK 27\n\
            NODES 27 10 4\n\
            1 a dc1 r1 JOINED 0\n\
            2 b dc1 r1 JOINED 100\n\
            3 c dc1 r1 MOVING 200\n\
            4 d dc1 r1 JOINED 300\n\
            5 e dc1 r1 LEAVING 400\n\
            6 f dc1 r1 JOINED 500\n\
            7 g dc1 r1 JOINED 600\n\
            8 h dc1 r1 JOINED 700\n\
            9 i dc1 r1 BOOTSTRAPPING -\n\
            10 j dc1 r1 BOOT_REPLACING -\n\
            SEQ 3 move STARTED out 200@3 in 250@3\n\
            SEQ 5 leave STARTED out 400@5 in -\n\
            SEQ 9 join STARTED out - in 50@9\n\
            SEQ 10 replace STARTED out 600@7 in 600@10\n\
            PLACE 27 ks 11\n\
            (min,0] read 1 write 1\n\
            (0,50] read 2 write 2,9\n\
            (50,100] read 2 write 2\n\
            (100,200] read 3 write 3\n\
            (200,250] read 4 write 3,4\n\
            (250,300] read 4 write 4\n\
            (300,400] read 5 write 5,6\n\
            (400,500] read 6 write 6\n\
            (500,600] read 7 write 7,10\n\
            (600,700] read 8 write 8\n\
            (700,max] read 1 write 1\n",
    ),
    (
        "each kind goes on by itself",
        "commit 20 prepare-join 9 50\n\
            commit 21 prepare-move 3 250\n\
            commit 22 prepare-leave 5\n\
            commit 23 prepare-replace 10 7\n\
            commit 24 start-leave 5\n\
            commit 25 start-replace 10\n\
            commit 26 start-join 9\n\
            commit 27 start-move 3\n\
            commit 28 mid-leave 5\n\
            commit 29 mid-replace 10\n\
            commit 30 cancel 9\n\
            commit 31 mid-move 3\n\
            place @31 ks\n\
            commit 32 finish-move 3\n\
            commit 33 cancel 10\n\
            commit 34 finish-leave 5\n\
            nodes @34\n\
            place @34 ks\n",
        "OK 20\n\
            OK 21\n\
            OK 22\n\
            OK 23\n\
            OK 24\n\
            OK 25\n\
            OK 26\n\
            OK 27\n\
            OK 28\n\
            OK 29\n\
            OK 30\n\
            OK 31\n\
            PLACE 31 ks 10\n\
            (min,0] read 1 write 1\n\
            (0,100] read 2 write 2\n\
            (100,200] read 3 write 3\n\
            (200,250] read 3 write 3,4\n\
            (250,300] read 4 write 4\n\
            (300,400] read 6 write 5,6\n\
            (400,500] read 6 write 6\n\
            (500,600] read 10 write 7,10\n\
            (600,700] read 8 write 8\n\
            (700,max] read 1 write 1\n\
            OK 32\n\
            OK 33\n\
            OK 34\n\
            NODES 34 10 1\n\
            1 a dc1 r1 JOINED 0\n\
            2 b dc1 r1 JOINED 100\n\
            3 c dc1 r1 JOINED 250\n\
            4 d dc1 r1 JOINED 300\n\
            5 e dc1 r1 LEFT -\n\
            6 f dc1 r1 JOINED 500\n\
            7 g dc1 r1 JOINED 600\n\
            8 h dc1 r1 JOINED 700\n\
            9 i dc1 r1 REGISTERED -\n\
            10 j dc1 r1 BOOT_REPLACING -\n\
            SEQ 10 replace STARTED out 600@7 in 600@10\n\
            PLACE 34 ks 8\n\
            (min,0] read 1 write 1\n\
            (0,100] read 2 write 2\n\
            (100,250] read 3 write 3\n\
            (250,300] read 4 write 4\n\
            (300,500] read 6 write 6\n\
            (500,600] read 7 write 7,10\n\
            (600,700] read 8 write 8\n\
            (700,max] read 1 write 1\n",
    ),
    (
        "steps of another kind",
        "commit 20 prepare-join 9 50\n\
            commit 21 prepare-move 3 250\n\
            commit 22 prepare-leave 5\n\
            commit 23 prepare-replace 10 7\n\
            commit 24 start-move 9\n\
            commit 25 start-leave 3\n\
            commit 26 start-replace 5\n\
            commit 27 start-join 10\n\
            commit 28 start-join 9\n\
            commit 29 start-move 3\n\
            commit 30 start-leave 5\n\
            commit 31 start-replace 10\n\
            commit 32 mid-leave 9\n\
            commit 33 mid-replace 3\n\
            commit 34 mid-join 5\n\
            commit 35 mid-move 10\n\
            commit 36 mid-join 9\n\
            commit 37 mid-move 3\n\
            commit 38 mid-leave 5\n\
            commit 39 mid-replace 10\n\
            commit 40 finish-replace 9\n\
            commit 41 finish-join 3\n\
            commit 42 finish-move 5\n\
            commit 43 finish-leave 10\n",
        "OK 20\n\
            OK 21\n\
            OK 22\n\
            OK 23\n\
            NO WRONG-STEP join PREPARED\n\
            NO WRONG-STEP move PREPARED\n\
            NO WRONG-STEP leave PREPARED\n\
            NO WRONG-STEP replace PREPARED\n\
            OK 24\n\
            OK 25\n\
            OK 26\n\
            OK 27\n\
            NO WRONG-STEP join STARTED\n\
            NO WRONG-STEP move STARTED\n\
            NO WRONG-STEP leave STARTED\n\
            NO WRONG-STEP replace STARTED\n\
            OK 28\n\
            OK 29\n\
            OK 30\n\
            OK 31\n\
            NO WRONG-STEP join MID\n\
            NO WRONG-STEP move MID\n\
            NO WRONG-STEP leave MID\n\
            NO WRONG-STEP replace MID\n",
    ),
    (
        "steps in another phase",
        "commit 20 prepare-join 9 50\n\
            commit 21 prepare-move 3 250\n\
            commit 22 prepare-leave 5\n\
            commit 23 prepare-replace 10 7\n\
            commit 24 mid-join 9\n\
            commit 25 mid-move 3\n\
            commit 26 mid-leave 5\n\
            commit 27 mid-replace 10\n\
            commit 28 start-join 9\n\
            commit 29 start-move 3\n\
            commit 30 start-leave 5\n\
            commit 31 start-replace 10\n\
            commit 32 finish-join 9\n\
            commit 33 finish-move 3\n\
            commit 34 finish-leave 5\n\
            commit 35 finish-replace 10\n\
            commit 36 mid-join 9\n\
            commit 37 mid-move 3\n\
            commit 38 mid-leave 5\n\
            commit 39 mid-replace 10\n\
            commit 40 start-join 9\n\
            commit 41 start-move 3\n\
            commit 42 start-leave 5\n\
            commit 43 start-replace 10\n",
        "OK 20\n\
            OK 21\n\
            OK 22\n\
            OK 23\n\
            NO WRONG-STEP join PREPARED\n\
            NO WRONG-STEP move PREPARED\n\
            NO WRONG-STEP leave PREPARED\n\
            NO WRONG-STEP replace PREPARED\n\
            OK 24\n\
            OK 25\n\
            OK 26\n\
            OK 27\n\
            NO WRONG-STEP join STARTED\n\
            NO WRONG-STEP move STARTED\n\
            NO WRONG-STEP leave STARTED\n\
            NO WRONG-STEP replace STARTED\n\
            OK 28\n\
            OK 29\n\
            OK 30\n\
            OK 31\n\
            NO WRONG-STEP join MID\n\
            NO WRONG-STEP move MID\n\
            NO WRONG-STEP leave MID\n\
            NO WRONG-STEP replace MID\n",
    ),
    (
        "no steps without a movement",
        "commit 20 prepare-replace 10 7\n\
            commit 21 start-join 11\n\
            commit 22 start-join 7\n\
            commit 23 mid-join 11\n\
            commit 24 mid-join 7\n\
            commit 25 finish-join 11\n\
            commit 26 finish-join 7\n\
            commit 27 start-move 11\n\
            commit 28 start-move 7\n\
            commit 29 mid-move 11\n\
            commit 30 mid-move 7\n\
            commit 31 finish-move 11\n\
            commit 32 finish-move 7\n\
            commit 33 start-leave 11\n\
            commit 34 start-leave 7\n\
            commit 35 mid-leave 11\n\
            commit 36 mid-leave 7\n\
            commit 37 finish-leave 11\n\
            commit 38 finish-leave 7\n\
            commit 39 start-replace 11\n\
            commit 40 start-replace 7\n\
            commit 41 mid-replace 11\n\
            commit 42 mid-replace 7\n\
            commit 43 finish-replace 11\n\
            commit 44 finish-replace 7\n\
            commit 45 cancel 11\n\
            commit 46 cancel 7\n",
        "OK 20\n\
            NO NO-NODE\n\
            NO NO-SEQUENCE\n\
            NO NO-NODE\n\
            NO NO-SEQUENCE\n\
            NO NO-NODE\n\
            NO NO-SEQUENCE\n\
            NO NO-NODE\n\
            NO NO-SEQUENCE\n\
            NO NO-NODE\n\
            NO NO-SEQUENCE\n\
            NO NO-NODE\n\
            NO NO-SEQUENCE\n\
            NO NO-NODE\n\
            NO NO-SEQUENCE\n\
            NO NO-NODE\n\
            NO NO-SEQUENCE\n\
            NO NO-NODE\n\
            NO NO-SEQUENCE\n\
            NO NO-NODE\n\
            NO NO-SEQUENCE\n\
            NO NO-NODE\n\
            NO NO-SEQUENCE\n\
            NO NO-NODE\n\
            NO NO-SEQUENCE\n\
            NO NO-NODE\n\
            NO NO-SEQUENCE\n",
    ),
    (
        "a node takes part in one movement",
        "commit 20 prepare-join 9 50\n\
            commit 21 prepare-move 3 250\n\
            commit 22 prepare-leave 5\n\
            commit 23 prepare-replace 10 7\n\
            commit 24 unregister 9\n\
            commit 25 unregister 3\n\
            commit 26 unregister 5\n\
            commit 27 unregister 10\n\
            commit 28 unregister 7\n\
            commit 29 unsafe-join 9 350\n\
            commit 30 prepare-join 10 350\n\
            commit 31 prepare-join 7 350\n\
            commit 32 prepare-move 3 350\n\
            commit 33 prepare-move 7 350\n\
            commit 34 prepare-leave 5\n\
            commit 35 prepare-leave 7\n\
            commit 36 prepare-leave 10\n\
            commit 37 prepare-replace 9 1\n\
            commit 38 prepare-replace 9 7\n\
            commit 39 prepare-replace 7 9\n\
            commit 40 prepare-replace 9 77\n\
            commit 41 prepare-replace 1 7\n\
            commit 42 prepare-replace 1 3\n",
        "OK 20\n\
            OK 21\n\
            OK 22\n\
            OK 23\n\
            NO IN-SEQUENCE 9\n\
            NO IN-SEQUENCE 3\n\
            NO IN-SEQUENCE 5\n\
            NO IN-SEQUENCE 10\n\
            NO IN-SEQUENCE 10\n\
            NO IN-SEQUENCE 9\n\
            NO IN-SEQUENCE 10\n\
            NO IN-SEQUENCE 10\n\
            NO IN-SEQUENCE 3\n\
            NO IN-SEQUENCE 10\n\
            NO IN-SEQUENCE 5\n\
            NO IN-SEQUENCE 10\n\
            NO IN-SEQUENCE 10\n\
            NO IN-SEQUENCE 9\n\
            NO IN-SEQUENCE 9\n\
            NO IN-SEQUENCE 10\n\
            NO NO-NODE\n\
            NO IN-SEQUENCE 10\n\
            NO IN-SEQUENCE 3\n",
    ),
    (
        "what waits for each kind",
        "commit 20 prepare-move 3 250\n\
            commit 21 unsafe-join 9 350\n\
            commit 22 keyspace k2 simple 1\n\
            commit 23 keyspace ks simple 2\n\
            commit 24 drop-keyspace ks\n\
            commit 25 drop-keyspace zz\n\
            commit 26 cancel 3\n\
            commit 27 prepare-leave 5\n\
            commit 28 unsafe-join 9 350\n\
            commit 29 keyspace ks simple 2\n\
            commit 30 drop-keyspace ks\n\
            commit 31 cancel 5\n\
            commit 32 prepare-replace 10 7\n\
            commit 33 unsafe-join 9 350\n\
            commit 34 keyspace ks simple 2\n\
            commit 35 drop-keyspace ks\n\
            commit 36 cancel 10\n\
            commit 37 prepare-join 9 50\n\
            commit 38 unsafe-join 10 350\n\
            commit 39 cancel 9\n\
            commit 40 drop-keyspace ks\n",
        "OK 20\n\
            NO NOT-IDLE 3\n\
            OK 21\n\
            OK 22\n\
            OK 23\n\
            NO NO-KEYSPACE\n\
            OK 24\n\
            OK 25\n\
            NO NOT-IDLE 5\n\
            OK 26\n\
            OK 27\n\
            OK 28\n\
            OK 29\n\
            NO NOT-IDLE 10\n\
            OK 30\n\
            OK 31\n\
            OK 32\n\
            OK 33\n\
            NO NOT-IDLE 9\n\
            OK 34\n\
            NO NO-KEYSPACE\n",
    ),
    (
        "nodes come and go beside a movement",
        "commit 20 prepare-leave 5\n\
            commit 21 start-leave 5\n\
            commit 22 unregister 9\n\
            commit 23 register i dc1 r1\n\
            commit 24 register e dc1 r1\n\
            commit 25 mid-leave 5\n\
            commit 26 finish-leave 5\n\
            commit 27 register e dc1 r1\n\
            commit 28 unregister 5\n\
            commit 29 register e dc1 r1\n\
            nodes @27\n",
        "OK 20\n\
            OK 21\n\
            OK 22\n\
            OK 23\n\
            NO NAME-TAKEN 5\n\
            OK 24\n\
            OK 25\n\
            NO NAME-TAKEN 5\n\
            OK 26\n\
            OK 27\n\
            NODES 27 10 0\n\
            1 a dc1 r1 JOINED 0\n\
            2 b dc1 r1 JOINED 100\n\
            3 c dc1 r1 JOINED 200\n\
            4 d dc1 r1 JOINED 300\n\
            6 f dc1 r1 JOINED 500\n\
            7 g dc1 r1 JOINED 600\n\
            8 h dc1 r1 JOINED 700\n\
            10 j dc1 r1 REGISTERED -\n\
            11 i dc1 r1 REGISTERED -\n\
            12 e dc1 r1 REGISTERED -\n",
    ),
];
