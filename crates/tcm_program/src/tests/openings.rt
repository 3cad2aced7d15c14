//! Openings of scripts. Each of their lines is accepted.

/// No line.
pub const NOTHING: &str = "";

/// Three nodes at 0, 100 and 200, a keyspace with two replicas, and a fourth node that is registered.
pub const THREE: &str = "commit 1 register a dc1 r1\n\
            commit 2 register b dc1 r1\n\
            commit 3 register c dc1 r1\n\
            commit 4 unsafe-join 1 0\n\
            commit 5 unsafe-join 2 100\n\
            commit 6 unsafe-join 3 200\n\
            commit 7 keyspace ks simple 2\n\
            commit 8 register d dc1 r1\n";

/// Four nodes at 0 to 300, a keyspace with three replicas, and two more nodes that are registered.
pub const FOUR: &str = "commit 1 register a dc1 r1\n\
            commit 2 register b dc1 r1\n\
            commit 3 register c dc1 r1\n\
            commit 4 register d dc1 r1\n\
            commit 5 unsafe-join 1 0\n\
            commit 6 unsafe-join 2 100\n\
            commit 7 unsafe-join 3 200\n\
            commit 8 unsafe-join 4 300\n\
            commit 9 keyspace ks simple 3\n\
            commit 10 register e dc1 r1\n\
            commit 11 register f dc1 r1\n";

/// Six nodes at 0 to 500, and a keyspace with two replicas.
pub const SIX: &str = "commit 1 register a dc1 r1\n\
            commit 2 register b dc1 r1\n\
            commit 3 register c dc1 r1\n\
            commit 4 register d dc1 r1\n\
            commit 5 register e dc1 r1\n\
            commit 6 register f dc1 r1\n\
            commit 7 unsafe-join 1 0\n\
            commit 8 unsafe-join 2 100\n\
            commit 9 unsafe-join 3 200\n\
            commit 10 unsafe-join 4 300\n\
            commit 11 unsafe-join 5 400\n\
            commit 12 unsafe-join 6 500\n\
            commit 13 keyspace ks simple 2\n";

/// Eight nodes at 0 to 700, a keyspace with one replica, and two more nodes that are registered.
pub const EIGHT: &str = "commit 1 register a dc1 r1\n\
            commit 2 register b dc1 r1\n\
            commit 3 register c dc1 r1\n\
            commit 4 register d dc1 r1\n\
            commit 5 register e dc1 r1\n\
            commit 6 register f dc1 r1\n\
            commit 7 register g dc1 r1\n\
            commit 8 register h dc1 r1\n\
            commit 9 unsafe-join 1 0\n\
            commit 10 unsafe-join 2 100\n\
            commit 11 unsafe-join 3 200\n\
            commit 12 unsafe-join 4 300\n\
            commit 13 unsafe-join 5 400\n\
            commit 14 unsafe-join 6 500\n\
            commit 15 unsafe-join 7 600\n\
            commit 16 unsafe-join 8 700\n\
            commit 17 keyspace ks simple 1\n\
            commit 18 register i dc1 r1\n\
            commit 19 register j dc1 r1\n";

/// Six nodes with four tokens each, in three racks, and a keyspace with three replicas.
pub const RACKS: &str = "commit 1 register a dc1 r1\n\
            commit 2 register b dc1 r2\n\
            commit 3 register c dc1 r3\n\
            commit 4 register d dc1 r1\n\
            commit 5 register e dc1 r2\n\
            commit 6 register f dc1 r3\n\
            commit 7 unsafe-join 1 100 1100 2100 3100\n\
            commit 8 unsafe-join 2 200 1200 2200 3200\n\
            commit 9 unsafe-join 3 300 1300 2300 3300\n\
            commit 10 unsafe-join 4 400 1400 2400 3400\n\
            commit 11 unsafe-join 5 500 1500 2500 3500\n\
            commit 12 unsafe-join 6 600 1600 2600 3600\n\
            commit 13 keyspace kt topology dc1:3\n";
