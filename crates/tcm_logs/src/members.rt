//! Runs of `cms`: routes between sets of members, nodes that aren't joined, logs that have no route, lists that are none,
//! and calls of the outside that fail.

use cluster_terms::ByteText;
use file_runs::{
    File, USAGE, calls_of, fail_of, holds, is_shown, is_too_large, status_of, store_of,
    sure_store_of, words_from,
};
use std::alloc::Global;
use std::process::Abort;
use std::test::Fail;
use tcm_edges::{CallList, MemSink, MemSource, MemStore, StoreFailList, SureSink};
use tcm_session::Status;

/// A script after which nodes 1 to 16 and 23 are JOINED. Node 17 is registered and no more, 18 joins, 19 replaces 23,
/// 20 is taken back, 21 moves, 22 leaves, the join of 24 is prepared, and 25 has left.
const SCRIPT: &str = "commit 1 register n1 dc1 r1\n\
    commit 2 register n2 dc1 r1\n\
    commit 3 register n3 dc1 r1\n\
    commit 4 register n4 dc1 r1\n\
    commit 5 register n5 dc1 r1\n\
    commit 6 register n6 dc1 r1\n\
    commit 7 register n7 dc1 r1\n\
    commit 8 register n8 dc1 r1\n\
    commit 9 register n9 dc1 r1\n\
    commit 10 register n10 dc1 r1\n\
    commit 11 register n11 dc1 r1\n\
    commit 12 register n12 dc1 r1\n\
    commit 13 register n13 dc1 r1\n\
    commit 14 register n14 dc1 r1\n\
    commit 15 register n15 dc1 r1\n\
    commit 16 register n16 dc1 r1\n\
    commit 17 register n17 dc1 r1\n\
    commit 18 register n18 dc1 r1\n\
    commit 19 register n19 dc1 r1\n\
    commit 20 register n20 dc1 r1\n\
    commit 21 register n21 dc1 r1\n\
    commit 22 register n22 dc1 r1\n\
    commit 23 register n23 dc1 r1\n\
    commit 24 register n24 dc1 r1\n\
    commit 25 register n25 dc1 r1\n\
    commit 26 unsafe-join 1 10\n\
    commit 27 unsafe-join 2 20\n\
    commit 28 unsafe-join 3 30\n\
    commit 29 unsafe-join 4 40\n\
    commit 30 unsafe-join 5 50\n\
    commit 31 unsafe-join 6 60\n\
    commit 32 unsafe-join 7 70\n\
    commit 33 unsafe-join 8 80\n\
    commit 34 unsafe-join 9 90\n\
    commit 35 unsafe-join 10 100\n\
    commit 36 unsafe-join 11 110\n\
    commit 37 unsafe-join 12 120\n\
    commit 38 unsafe-join 13 130\n\
    commit 39 unsafe-join 14 140\n\
    commit 40 unsafe-join 15 150\n\
    commit 41 unsafe-join 16 160\n\
    commit 42 unsafe-join 21 210\n\
    commit 43 unsafe-join 22 220\n\
    commit 44 unsafe-join 23 230\n\
    commit 45 unsafe-join 25 250\n\
    commit 46 prepare-leave 25\n\
    commit 47 start-leave 25\n\
    commit 48 mid-leave 25\n\
    commit 49 finish-leave 25\n\
    commit 50 prepare-join 18 1000\n\
    commit 51 start-join 18\n\
    commit 52 prepare-replace 19 23\n\
    commit 53 start-replace 19\n\
    commit 54 unregister 20\n\
    commit 55 prepare-move 21 2000\n\
    commit 56 start-move 21\n\
    commit 57 prepare-leave 22\n\
    commit 58 start-leave 22\n\
    commit 59 prepare-join 24 3000\n";

/// The first sixteen nodes, and sixteen numbers of no node.
const SIXTEEN: &str = "1,2,3,4,5,6,7,8,9,10,11,12,13,14,15,16";

const OTHERS: &str = "101,102,103,104,105,106,107,108,109,110,111,112,113,114,115,116";

/// The name of a run, the members before and after it, and the text that is printed.
type Route = (&'static str, &'static str, &'static str, &'static str);

/// Routes that are printed.
const ROUTES: [Route; 15] = [
    (
        "members-change",
        "1,2,3",
        "2,3,4",
        "CMS 3\n\
            START 4 needs 2 of 1,2,3\n\
            FINISH 4 needs 3 of 1,2,3,4\n\
            REMOVE 1 needs 2 of 2,3,4\n",
    ),
    ("the same members", "1,2", "1,2", "CMS 0\n"),
    (
        "one member for another",
        "1",
        "2",
        "CMS 3\n\
            START 2 needs 1 of 1\n\
            FINISH 2 needs 2 of 1,2\n\
            REMOVE 1 needs 1 of 2\n",
    ),
    (
        "one joins",
        "1",
        "1,2",
        "CMS 2\n\
            START 2 needs 1 of 1\n\
            FINISH 2 needs 2 of 1,2\n",
    ),
    (
        "one leaves",
        "1,2",
        "2",
        "CMS 1\n\
            REMOVE 1 needs 1 of 2\n",
    ),
    (
        "sets that share nothing",
        "101,102,103",
        "1,2",
        "CMS 7\n\
            START 1 needs 2 of 101,102,103\n\
            FINISH 1 needs 3 of 1,101,102,103\n\
            START 2 needs 3 of 1,101,102,103\n\
            FINISH 2 needs 3 of 1,2,101,102,103\n\
            REMOVE 101 needs 3 of 1,2,102,103\n\
            REMOVE 102 needs 2 of 1,2,103\n\
            REMOVE 103 needs 2 of 1,2\n",
    ),
    ("a member that is no node stays", "77", "77", "CMS 0\n"),
    (
        "members that are no nodes leave",
        "0,1,4294967295",
        "1",
        "CMS 2\n\
            REMOVE 0 needs 2 of 1,4294967295\n\
            REMOVE 4294967295 needs 1 of 1\n",
    ),
    (
        "a node below all members",
        "5,6",
        "1,5,6",
        "CMS 2\n\
            START 1 needs 2 of 5,6\n\
            FINISH 1 needs 2 of 1,5,6\n",
    ),
    (
        "a node that another is to replace",
        "1",
        "1,23",
        "CMS 2\n\
            START 23 needs 1 of 1\n\
            FINISH 23 needs 2 of 1,23\n",
    ),
    (
        "members that are not JOINED",
        "1,17,25,77",
        "2,17,25,77",
        "CMS 3\n\
            START 2 needs 3 of 1,17,25,77\n\
            FINISH 2 needs 3 of 1,2,17,25,77\n\
            REMOVE 1 needs 3 of 2,17,25,77\n",
    ),
    ("the same sixteen", SIXTEEN, SIXTEEN, "CMS 0\n"),
    (
        "one to sixteen",
        "8",
        SIXTEEN,
        "CMS 30\n\
            START 1 needs 1 of 8\n\
            FINISH 1 needs 2 of 1,8\n\
            START 2 needs 2 of 1,8\n\
            FINISH 2 needs 2 of 1,2,8\n\
            START 3 needs 2 of 1,2,8\n\
            FINISH 3 needs 3 of 1,2,3,8\n\
            START 4 needs 3 of 1,2,3,8\n\
            FINISH 4 needs 3 of 1,2,3,4,8\n\
            START 5 needs 3 of 1,2,3,4,8\n\
            FINISH 5 needs 4 of 1,2,3,4,5,8\n\
            START 6 needs 4 of 1,2,3,4,5,8\n\
            FINISH 6 needs 4 of 1,2,3,4,5,6,8\n\
            START 7 needs 4 of 1,2,3,4,5,6,8\n\
            FINISH 7 needs 5 of 1,2,3,4,5,6,7,8\n\
            START 9 needs 5 of 1,2,3,4,5,6,7,8\n\
            FINISH 9 needs 5 of 1,2,3,4,5,6,7,8,9\n\
            START 10 needs 5 of 1,2,3,4,5,6,7,8,9\n\
            FINISH 10 needs 6 of 1,2,3,4,5,6,7,8,9,10\n\
            START 11 needs 6 of 1,2,3,4,5,6,7,8,9,10\n\
            FINISH 11 needs 6 of 1,2,3,4,5,6,7,8,9,10,11\n\
            START 12 needs 6 of 1,2,3,4,5,6,7,8,9,10,11\n\
            FINISH 12 needs 7 of 1,2,3,4,5,6,7,8,9,10,11,12\n\
            START 13 needs 7 of 1,2,3,4,5,6,7,8,9,10,11,12\n\
            FINISH 13 needs 7 of 1,2,3,4,5,6,7,8,9,10,11,12,13\n\
            START 14 needs 7 of 1,2,3,4,5,6,7,8,9,10,11,12,13\n\
            FINISH 14 needs 8 of 1,2,3,4,5,6,7,8,9,10,11,12,13,14\n\
            START 15 needs 8 of 1,2,3,4,5,6,7,8,9,10,11,12,13,14\n\
            FINISH 15 needs 8 of 1,2,3,4,5,6,7,8,9,10,11,12,13,14,15\n\
            START 16 needs 8 of 1,2,3,4,5,6,7,8,9,10,11,12,13,14,15\n\
            FINISH 16 needs 9 of 1,2,3,4,5,6,7,8,9,10,11,12,13,14,15,16\n",
    ),
    (
        "sixteen to one",
        SIXTEEN,
        "8",
        "CMS 15\n\
            REMOVE 1 needs 8 of 2,3,4,5,6,7,8,9,10,11,12,13,14,15,16\n\
            REMOVE 2 needs 8 of 3,4,5,6,7,8,9,10,11,12,13,14,15,16\n\
            REMOVE 3 needs 7 of 4,5,6,7,8,9,10,11,12,13,14,15,16\n\
            REMOVE 4 needs 7 of 5,6,7,8,9,10,11,12,13,14,15,16\n\
            REMOVE 5 needs 6 of 6,7,8,9,10,11,12,13,14,15,16\n\
            REMOVE 6 needs 6 of 7,8,9,10,11,12,13,14,15,16\n\
            REMOVE 7 needs 5 of 8,9,10,11,12,13,14,15,16\n\
            REMOVE 9 needs 5 of 8,10,11,12,13,14,15,16\n\
            REMOVE 10 needs 4 of 8,11,12,13,14,15,16\n\
            REMOVE 11 needs 4 of 8,12,13,14,15,16\n\
            REMOVE 12 needs 3 of 8,13,14,15,16\n\
            REMOVE 13 needs 3 of 8,14,15,16\n\
            REMOVE 14 needs 2 of 8,15,16\n\
            REMOVE 15 needs 2 of 8,16\n\
            REMOVE 16 needs 1 of 8\n",
    ),
    (
        "sixteen for sixteen others",
        OTHERS,
        SIXTEEN,
        "CMS 48\n\
            START 1 needs 9 of 101,102,103,104,105,106,107,108,109,110,111,112,113,114,115,116\n\
            FINISH 1 needs 9 of 1,101,102,103,104,105,106,107,108,109,110,111,112,113,114,115,116\n\
            START 2 needs 9 of 1,101,102,103,104,105,106,107,108,109,110,111,112,113,114,115,116\n\
            FINISH 2 needs 10 of 1,2,101,102,103,104,105,106,107,108,109,110,111,112,113,114,115,116\n\
            START 3 needs 10 of 1,2,101,102,103,104,105,106,107,108,109,110,111,112,113,114,115,116\n\
            FINISH 3 needs 10 of 1,2,3,101,102,103,104,105,106,107,108,109,110,111,112,113,114,115,116\n\
            START 4 needs 10 of 1,2,3,101,102,103,104,105,106,107,108,109,110,111,112,113,114,115,116\n\
            FINISH 4 needs 11 of 1,2,3,4,101,102,103,104,105,106,107,108,109,110,111,112,113,114,115,116\n\
            START 5 needs 11 of 1,2,3,4,101,102,103,104,105,106,107,108,109,110,111,112,113,114,115,116\n\
            FINISH 5 needs 11 of 1,2,3,4,5,101,102,103,104,105,106,107,108,109,110,111,112,113,114,115,116\n\
            START 6 needs 11 of 1,2,3,4,5,101,102,103,104,105,106,107,108,109,110,111,112,113,114,115,116\n\
            FINISH 6 needs 12 of 1,2,3,4,5,6,101,102,103,104,105,106,107,108,109,110,111,112,113,114,115,116\n\
            START 7 needs 12 of 1,2,3,4,5,6,101,102,103,104,105,106,107,108,109,110,111,112,113,114,115,116\n\
            FINISH 7 needs 12 of 1,2,3,4,5,6,7,101,102,103,104,105,106,107,108,109,110,111,112,113,114,115,116\n\
            START 8 needs 12 of 1,2,3,4,5,6,7,101,102,103,104,105,106,107,108,109,110,111,112,113,114,115,116\n\
            FINISH 8 needs 13 of 1,2,3,4,5,6,7,8,101,102,103,104,105,106,107,108,109,110,111,112,113,114,115,116\n\
            START 9 needs 13 of 1,2,3,4,5,6,7,8,101,102,103,104,105,106,107,108,109,110,111,112,113,114,115,116\n\
            FINISH 9 needs 13 of 1,2,3,4,5,6,7,8,9,101,102,103,104,105,106,107,108,109,110,111,112,113,114,115,116\n\
            START 10 needs 13 of 1,2,3,4,5,6,7,8,9,101,102,103,104,105,106,107,108,109,110,111,112,113,114,115,116\n\
            FINISH 10 needs 14 of 1,2,3,4,5,6,7,8,9,10,101,102,103,104,105,106,107,108,109,110,111,112,113,114,115,116\n\
            START 11 needs 14 of 1,2,3,4,5,6,7,8,9,10,101,102,103,104,105,106,107,108,109,110,111,112,113,114,115,116\n\
            FINISH 11 needs 14 of 1,2,3,4,5,6,7,8,9,10,11,101,102,103,104,105,106,107,108,109,110,111,112,113,114,115,116\n\
            START 12 needs 14 of 1,2,3,4,5,6,7,8,9,10,11,101,102,103,104,105,106,107,108,109,110,111,112,113,114,115,116\n\
            FINISH 12 needs 15 of 1,2,3,4,5,6,7,8,9,10,11,12,101,102,103,104,105,106,107,108,109,110,111,112,113,114,115,116\n\
            START 13 needs 15 of 1,2,3,4,5,6,7,8,9,10,11,12,101,102,103,104,105,106,107,108,109,110,111,112,113,114,115,116\n\
            FINISH 13 needs 15 of 1,2,3,4,5,6,7,8,9,10,11,12,13,101,102,103,104,105,106,107,108,109,110,111,112,113,114,115,116\n\
            START 14 needs 15 of 1,2,3,4,5,6,7,8,9,10,11,12,13,101,102,103,104,105,106,107,108,109,110,111,112,113,114,115,116\n\
            FINISH 14 needs 16 of 1,2,3,4,5,6,7,8,9,10,11,12,13,14,101,102,103,104,105,106,107,108,109,110,111,112,113,114,115,116\n\
            START 15 needs 16 of 1,2,3,4,5,6,7,8,9,10,11,12,13,14,101,102,103,104,105,106,107,108,109,110,111,112,113,114,115,116\n\
            FINISH 15 needs 16 of 1,2,3,4,5,6,7,8,9,10,11,12,13,14,15,101,102,103,104,105,106,107,108,109,110,111,112,113,114,115,116\n\
            START 16 needs 16 of 1,2,3,4,5,6,7,8,9,10,11,12,13,14,15,101,102,103,104,105,106,107,108,109,110,111,112,113,114,115,116\n\
            FINISH 16 needs 17 of 1,2,3,4,5,6,7,8,9,10,11,12,13,14,15,16,101,102,103,104,105,106,107,108,109,110,111,112,113,114,115,116\n\
            REMOVE 101 needs 16 of 1,2,3,4,5,6,7,8,9,10,11,12,13,14,15,16,102,103,104,105,106,107,108,109,110,111,112,113,114,115,116\n\
            REMOVE 102 needs 16 of 1,2,3,4,5,6,7,8,9,10,11,12,13,14,15,16,103,104,105,106,107,108,109,110,111,112,113,114,115,116\n\
            REMOVE 103 needs 15 of 1,2,3,4,5,6,7,8,9,10,11,12,13,14,15,16,104,105,106,107,108,109,110,111,112,113,114,115,116\n\
            REMOVE 104 needs 15 of 1,2,3,4,5,6,7,8,9,10,11,12,13,14,15,16,105,106,107,108,109,110,111,112,113,114,115,116\n\
            REMOVE 105 needs 14 of 1,2,3,4,5,6,7,8,9,10,11,12,13,14,15,16,106,107,108,109,110,111,112,113,114,115,116\n\
            REMOVE 106 needs 14 of 1,2,3,4,5,6,7,8,9,10,11,12,13,14,15,16,107,108,109,110,111,112,113,114,115,116\n\
            REMOVE 107 needs 13 of 1,2,3,4,5,6,7,8,9,10,11,12,13,14,15,16,108,109,110,111,112,113,114,115,116\n\
            REMOVE 108 needs 13 of 1,2,3,4,5,6,7,8,9,10,11,12,13,14,15,16,109,110,111,112,113,114,115,116\n\
            REMOVE 109 needs 12 of 1,2,3,4,5,6,7,8,9,10,11,12,13,14,15,16,110,111,112,113,114,115,116\n\
            REMOVE 110 needs 12 of 1,2,3,4,5,6,7,8,9,10,11,12,13,14,15,16,111,112,113,114,115,116\n\
            REMOVE 111 needs 11 of 1,2,3,4,5,6,7,8,9,10,11,12,13,14,15,16,112,113,114,115,116\n\
            REMOVE 112 needs 11 of 1,2,3,4,5,6,7,8,9,10,11,12,13,14,15,16,113,114,115,116\n\
            REMOVE 113 needs 10 of 1,2,3,4,5,6,7,8,9,10,11,12,13,14,15,16,114,115,116\n\
            REMOVE 114 needs 10 of 1,2,3,4,5,6,7,8,9,10,11,12,13,14,15,16,115,116\n\
            REMOVE 115 needs 9 of 1,2,3,4,5,6,7,8,9,10,11,12,13,14,15,16,116\n\
            REMOVE 116 needs 9 of 1,2,3,4,5,6,7,8,9,10,11,12,13,14,15,16\n",
    ),
];

/// Nodes that don't join, as they aren't JOINED.
const UNJOINED: [Route; 15] = [
    (
        "members-refused",
        "1",
        "17",
        "NO NODE-STATE 17 REGISTERED\n",
    ),
    ("no such node", "1", "77", "NO NO-NODE 77\n"),
    ("node 0", "1", "0", "NO NO-NODE 0\n"),
    (
        "the greatest node",
        "1",
        "4294967295",
        "NO NO-NODE 4294967295\n",
    ),
    (
        "a node that joins",
        "1",
        "18",
        "NO NODE-STATE 18 BOOTSTRAPPING\n",
    ),
    (
        "a node that replaces another",
        "1",
        "19",
        "NO NODE-STATE 19 BOOT_REPLACING\n",
    ),
    ("a node that was taken back", "1", "20", "NO NO-NODE 20\n"),
    ("a node that moves", "1", "21", "NO NODE-STATE 21 MOVING\n"),
    (
        "a node that leaves",
        "1",
        "22",
        "NO NODE-STATE 22 LEAVING\n",
    ),
    (
        "a join that is prepared",
        "1",
        "24",
        "NO NODE-STATE 24 REGISTERED\n",
    ),
    ("a node that has left", "1", "25", "NO NODE-STATE 25 LEFT\n"),
    (
        "the least of three",
        "1",
        "1,2,18,25,77",
        "NO NODE-STATE 18 BOOTSTRAPPING\n",
    ),
    ("the least is no node", "1", "0,18,77", "NO NO-NODE 0\n"),
    (
        "the last of sixteen",
        "1",
        "1,2,3,4,5,6,7,8,9,10,11,12,13,14,15,77",
        "NO NO-NODE 77\n",
    ),
    ("no member is left", "77", "78", "NO NO-NODE 78\n"),
];

/// The lists that name no set of members.
const NO_LISTS: [&str; 24] = [
    "",
    "2,1",
    "1,1",
    "1,2,2",
    "1,3,2",
    ",",
    "1,",
    ",1",
    "1,,2",
    "01",
    "1,02",
    "+1",
    "-1",
    "1, 2",
    "1 ",
    "1;2",
    "4294967296",
    "1,4294967296",
    "a",
    "1,a",
    "1,2,3,4,5,6,7,8,9,10,11,12,13,14,15,16,17",
    "1,2,3,4,5,6,7,8,9,10,11,12,13,14,15,16,",
    "1,2,3,4,5,6,7,8,9,10,11,12,13,14,15,16,a",
    "x",
];

/// Other words that name no command.
const OTHER_WORDS: [&[&str]; 7] = [
    &["cms"],
    &["cms", "x"],
    &["cms", "x", "1"],
    &["cms", "x", "1", "1", "1"],
    &["cms", "", "1", "1"],
    &["Cms", "x", "1", "1"],
    &["cms", "1", "1", "x"],
];

/// A store with the log that the script makes as the file `x`.
fn store_after<A: Abort>(rt: &A, alloc: Global) -> Result<MemStore, Fail> {
    let words = words_from(alloc, &["commit", "x", "c1"])?;
    let script = ByteText::from_vec(SCRIPT.as_bytes().to_vec(alloc)?);
    let mut input = MemSource::new(script, 64, CallList::empty(alloc));
    let mut out = SureSink::new(alloc);
    let mut store = MemStore::new(alloc, StoreFailList::empty(alloc));
    let status = status_of(alloc, &words, &mut input, &mut out, &mut store);
    assert_eq!(rt; status, Status(0));
    assert!(rt; !out.bytes().contains(&b'N'));
    Ok(store)
}

/// Asks for the way between the sets of each row, and compares the status and the text.
fn are_asked<A: Abort>(rt: &A, alloc: Global, rows: &[Route], status: u8) -> Result<(), Fail> {
    let mut store = store_after(rt, alloc)?;
    for row in rows {
        let (name, from, to, text) = *row;
        let words = ["cms", "x", from, to];
        is_shown(alloc, name, &words, &mut store, (status, text))?;
    }
    Ok(())
}

#[test]
fn routes_are_printed(rt: HostRuntime) -> Result<(), Fail> {
    are_asked(&rt, rt.alloc(), &ROUTES, 0)?;
    are_asked(&rt, rt.alloc(), &UNJOINED, 7)
}

/// The name of a run, the file `x`, the members after it, the status, and the text that is printed.
type InLog = (&'static str, File, &'static str, u8, &'static str);

/// Ways from the member 1 by other logs.
const LOGS: [InLog; 14] = [
    ("no file", None, "1", 7, "NO FILE x\n"),
    ("an empty file", Some(""), "1", 0, "CMS 0\n"),
    ("an empty log", Some("H"), "1", 0, "CMS 0\n"),
    (
        "a node in an empty log",
        Some("H"),
        "2",
        7,
        "NO NO-NODE 2\n",
    ),
    ("no whole line", Some("|12"), "1", 0, "CMS 0\n"),
    (
        "a node without a token",
        Some("H1b"),
        "1,2",
        7,
        "NO NODE-STATE 2 REGISTERED\n",
    ),
    (
        "a node that joins",
        Some("H123456"),
        "1,2",
        7,
        "NO NODE-STATE 2 BOOTSTRAPPING\n",
    ),
    (
        "a node that has joined",
        Some("H12345678"),
        "1,2",
        0,
        "CMS 2\n\
            START 2 needs 1 of 1\n\
            FINISH 2 needs 2 of 1,2\n",
    ),
    (
        "a cut tail",
        Some("H1234567|8"),
        "1,2",
        7,
        "NO NODE-STATE 2 BOOTSTRAPPING\n",
    ),
    (
        "another cluster",
        Some("I12345678"),
        "1,2",
        0,
        "CMS 2\n\
            START 2 needs 1 of 1\n\
            FINISH 2 needs 2 of 1,2\n",
    ),
    ("no header", Some("12"), "1", 3, "REFUSED 1 1 FORMAT\n"),
    ("a gap", Some("H13"), "1,2", 3, "REFUSED 1 3 EPOCH 2 3\n"),
    (
        "a command that is refused",
        Some("H1b34"),
        "1,2",
        3,
        "REFUSED 1 5 COMMAND 4 NAME-TAKEN 2\n",
    ),
    (
        "snapshot-in-log",
        Some("H12A"),
        "1,9",
        3,
        "REFUSED 1 4 NOT-ENTRY\n",
    ),
];

/// Asks by each of the logs. The file is unchanged.
fn by_logs<A: Abort>(rt: &A, alloc: Global) -> Result<(), Fail> {
    for row in &LOGS {
        let (name, file, to, status, text) = *row;
        let mut store = sure_store_of(alloc, file)?;
        let words = ["cms", "x", "1", to];
        is_shown(alloc, name, &words, &mut store, (status, text))?;
        assert!(rt; holds(alloc, &store, file)?, "{name}");
    }
    Ok(())
}

/// Words that are answered by the usage line. The file isn't looked at.
fn is_usage(alloc: Global, words: &[&str]) -> Result<(), Fail> {
    let mut store = store_of(alloc, fail_of(alloc, (1, 0))?, Some("H1"))?;
    is_shown(alloc, "no list", words, &mut store, (2, USAGE))
}

#[test]
fn routes_are_refused(rt: HostRuntime) -> Result<(), Fail> {
    by_logs(&rt, rt.alloc())?;
    for list in &NO_LISTS {
        is_usage(rt.alloc(), &["cms", "x", *list, "1"])?;
        is_usage(rt.alloc(), &["cms", "x", "1", *list])?;
    }
    for words in &OTHER_WORDS {
        is_usage(rt.alloc(), words)?;
    }
    Ok(())
}

/// The words of a run that is stopped.
const WORDS: [&str; 4] = ["cms", "x", "1", "1"];

/// The route isn't printed if the write fails.
fn is_unwritten<A: Abort>(rt: &A, alloc: Global) -> Result<(), Fail> {
    let words = words_from(alloc, &WORDS)?;
    let mut input = MemSource::new(ByteText::empty(alloc), 64, calls_of(alloc, 1)?);
    let mut out = MemSink::new(alloc, calls_of(alloc, 1)?);
    let mut store = sure_store_of(alloc, Some("H12"))?;
    let status = status_of(alloc, &words, &mut input, &mut out, &mut store);
    assert_eq!(rt; status, Status(5));
    assert!(rt; holds(alloc, &store, Some("H12"))?);
    Ok(())
}

#[test]
fn routes_are_not_printed(rt: HostRuntime) -> Result<(), Fail> {
    let mut store = store_of(rt.alloc(), fail_of(rt.alloc(), (1, 0))?, Some("H12"))?;
    let name = "a load that fails";
    is_shown(rt.alloc(), name, &WORDS, &mut store, (6, ""))?;
    assert!(rt; holds(rt.alloc(), &store, Some("H12"))?);
    is_unwritten(&rt, rt.alloc())?;
    is_too_large(rt.alloc(), &WORDS)
}
