//! Movements in a cluster of three racks.

use crate::tests::running::Script;

/// A join, a leave and a replace.
pub const ON_RACKS: [Script; 3] = [
    (
        "usual-cluster",
        "commit 14 register g dc1 r1\n\
            commit 15 prepare-join 7 150 1150 2150 3150\n\
            commit 16 start-join 7\n\
            commit 17 mid-join 7\n\
            commit 18 finish-join 7\n\
            commit 19 prepare-leave 4\n\
            commit 20 start-leave 4\n\
            commit 21 mid-leave 4\n\
            commit 22 finish-leave 4\n\
            commit 23 register h dc1 r2\n\
            commit 24 prepare-replace 8 5\n\
            commit 25 start-replace 8\n\
            commit 26 mid-replace 8\n\
            commit 27 finish-replace 8\n\
            nodes @21\n\
            nodes @24\n\
            nodes @27\n",
        "OK 14\n\
            OK 15\n\
            OK 16\n\
            OK 17\n\
            OK 18\n\
            OK 19\n\
            OK 20\n\
            OK 21\n\
            OK 22\n\
            OK 23\n\
            OK 24\n\
            OK 25\n\
            OK 26\n\
            OK 27\n\
            NODES 21 7 1\n\
            1 a dc1 r1 JOINED 100,1100,2100,3100\n\
            2 b dc1 r2 JOINED 200,1200,2200,3200\n\
            3 c dc1 r3 JOINED 300,1300,2300,3300\n\
            4 d dc1 r1 LEAVING 400,1400,2400,3400\n\
            5 e dc1 r2 JOINED 500,1500,2500,3500\n\
            6 f dc1 r3 JOINED 600,1600,2600,3600\n\
            7 g dc1 r1 JOINED 150,1150,2150,3150\n\
            SEQ 4 leave MID out 400@4,1400@4,2400@4,3400@4 in -\n\
            NODES 24 8 1\n\
            1 a dc1 r1 JOINED 100,1100,2100,3100\n\
            2 b dc1 r2 JOINED 200,1200,2200,3200\n\
            3 c dc1 r3 JOINED 300,1300,2300,3300\n\
            4 d dc1 r1 LEFT -\n\
            5 e dc1 r2 JOINED 500,1500,2500,3500\n\
            6 f dc1 r3 JOINED 600,1600,2600,3600\n\
            7 g dc1 r1 JOINED 150,1150,2150,3150\n\
            8 h dc1 r2 REGISTERED -\n\
            SEQ 8 replace PREPARED out 500@5,1500@5,2500@5,3500@5 in 500@8,1500@8,2500@8,3500@8\n\
            NODES 27 8 0\n\
            1 a dc1 r1 JOINED 100,1100,2100,3100\n\
            2 b dc1 r2 JOINED 200,1200,2200,3200\n\
            3 c dc1 r3 JOINED 300,1300,2300,3300\n\
            4 d dc1 r1 LEFT -\n\
            5 e dc1 r2 LEFT -\n\
            6 f dc1 r3 JOINED 600,1600,2600,3600\n\
            7 g dc1 r1 JOINED 150,1150,2150,3150\n\
            8 h dc1 r2 JOINED 500,1500,2500,3500\n",
    ),
    (
        "a usual cluster, while a node leaves",
        "commit 14 register g dc1 r1\n\
            commit 15 prepare-join 7 150 1150 2150 3150\n\
            commit 16 start-join 7\n\
            commit 17 mid-join 7\n\
            commit 18 finish-join 7\n\
            commit 19 prepare-leave 4\n\
            commit 20 start-leave 4\n\
            commit 21 mid-leave 4\n\
            place @21 kt\n",
        "OK 14\n\
            OK 15\n\
            OK 16\n\
            OK 17\n\
            OK 18\n\
            OK 19\n\
            OK 20\n\
            OK 21\n\
            PLACE 21 kt 29\n\
            (min,100] read 1,2,3 write 1,2,3\n\
            (100,150] read 2,3,7 write 2,3,7\n\
            (150,200] read 1,2,3 write 1,2,3,4\n\
            (200,300] read 1,3,5 write 1,3,4,5\n\
            (300,400] read 1,5,6 write 1,4,5,6\n\
            (400,500] read 1,5,6 write 1,5,6\n\
            (500,600] read 1,2,6 write 1,2,6\n\
            (600,1100] read 1,2,3 write 1,2,3\n\
            (1100,1150] read 2,3,7 write 2,3,7\n\
            (1150,1200] read 1,2,3 write 1,2,3,4\n\
            (1200,1300] read 1,3,5 write 1,3,4,5\n\
            (1300,1400] read 1,5,6 write 1,4,5,6\n\
            (1400,1500] read 1,5,6 write 1,5,6\n\
            (1500,1600] read 1,2,6 write 1,2,6\n\
            (1600,2100] read 1,2,3 write 1,2,3\n\
            (2100,2150] read 2,3,7 write 2,3,7\n\
            (2150,2200] read 1,2,3 write 1,2,3,4\n\
            (2200,2300] read 1,3,5 write 1,3,4,5\n\
            (2300,2400] read 1,5,6 write 1,4,5,6\n\
            (2400,2500] read 1,5,6 write 1,5,6\n\
            (2500,2600] read 1,2,6 write 1,2,6\n\
            (2600,3100] read 1,2,3 write 1,2,3\n\
            (3100,3150] read 2,3,7 write 2,3,7\n\
            (3150,3200] read 1,2,3 write 1,2,3,4\n\
            (3200,3300] read 1,3,5 write 1,3,4,5\n\
            (3300,3400] read 1,5,6 write 1,4,5,6\n\
            (3400,3500] read 1,5,6 write 1,5,6\n\
            (3500,3600] read 1,2,6 write 1,2,6\n\
            (3600,max] read 1,2,3 write 1,2,3\n",
    ),
    (
        "a usual cluster at the end",
        "commit 14 register g dc1 r1\n\
            commit 15 prepare-join 7 150 1150 2150 3150\n\
            commit 16 start-join 7\n\
            commit 17 mid-join 7\n\
            commit 18 finish-join 7\n\
            commit 19 prepare-leave 4\n\
            commit 20 start-leave 4\n\
            commit 21 mid-leave 4\n\
            commit 22 finish-leave 4\n\
            commit 23 register h dc1 r2\n\
            commit 24 prepare-replace 8 5\n\
            commit 25 start-replace 8\n\
            commit 26 mid-replace 8\n\
            commit 27 finish-replace 8\n\
            place @27 kt\n",
        "OK 14\n\
            OK 15\n\
            OK 16\n\
            OK 17\n\
            OK 18\n\
            OK 19\n\
            OK 20\n\
            OK 21\n\
            OK 22\n\
            OK 23\n\
            OK 24\n\
            OK 25\n\
            OK 26\n\
            OK 27\n\
            PLACE 27 kt 25\n\
            (min,100] read 1,2,3 write 1,2,3\n\
            (100,150] read 2,3,7 write 2,3,7\n\
            (150,200] read 1,2,3 write 1,2,3\n\
            (200,300] read 1,3,8 write 1,3,8\n\
            (300,500] read 1,6,8 write 1,6,8\n\
            (500,600] read 1,2,6 write 1,2,6\n\
            (600,1100] read 1,2,3 write 1,2,3\n\
            (1100,1150] read 2,3,7 write 2,3,7\n\
            (1150,1200] read 1,2,3 write 1,2,3\n\
            (1200,1300] read 1,3,8 write 1,3,8\n\
            (1300,1500] read 1,6,8 write 1,6,8\n\
            (1500,1600] read 1,2,6 write 1,2,6\n\
            (1600,2100] read 1,2,3 write 1,2,3\n\
            (2100,2150] read 2,3,7 write 2,3,7\n\
            (2150,2200] read 1,2,3 write 1,2,3\n\
            (2200,2300] read 1,3,8 write 1,3,8\n\
            (2300,2500] read 1,6,8 write 1,6,8\n\
            (2500,2600] read 1,2,6 write 1,2,6\n\
            (2600,3100] read 1,2,3 write 1,2,3\n\
            (3100,3150] read 2,3,7 write 2,3,7\n\
            (3150,3200] read 1,2,3 write 1,2,3\n\
            (3200,3300] read 1,3,8 write 1,3,8\n\
            (3300,3500] read 1,6,8 write 1,6,8\n\
            (3500,3600] read 1,2,6 write 1,2,6\n\
            (3600,max] read 1,2,3 write 1,2,3\n",
    ),
];
