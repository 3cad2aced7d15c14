//! A log with four movements: its states, and replays that go on from a state.

use file_runs::{is_run, is_shown, sure_store_of};
use std::alloc::Global;
use std::test::Fail;
use tcm_edges::MemStore;

/// Eight joined nodes, two keyspaces, two more nodes, and a movement of each kind, of which the leave ends last.
const SCRIPT: &str = "commit 1 register a dc1 r1\n\
    commit 2 register b dc1 r1\n\
    commit 3 register c dc1 r1\n\
    commit 4 register d dc1 r1\n\
    commit 5 register e dc1 r1\n\
    commit 6 register f dc1 r1\n\
    commit 7 register g dc1 r1\n\
    commit 8 register h dc1 r1\n\
    commit 9 unsafe-join 1 -400\n\
    commit 10 unsafe-join 2 -300\n\
    commit 11 unsafe-join 3 -200\n\
    commit 12 unsafe-join 4 -100\n\
    commit 13 unsafe-join 5 0\n\
    commit 14 unsafe-join 6 100\n\
    commit 15 unsafe-join 7 200\n\
    commit 16 unsafe-join 8 300\n\
    commit 17 keyspace ks simple 1\n\
    commit 18 keyspace ka topology dc2:2 dc1:1\n\
    commit 19 register i dc1 r1\n\
    commit 20 register j dc1 r1\n\
    commit 21 prepare-join 9 -250 -270\n\
    commit 22 prepare-leave 4\n\
    commit 23 start-leave 4\n\
    commit 24 mid-leave 4\n\
    commit 25 prepare-move 8 350\n\
    commit 26 start-move 8\n\
    commit 27 prepare-replace 10 6\n\
    commit 28 finish-leave 4\n";

/// The answers to the script.
const ANSWERS: &str =
    "OK 1\nOK 2\nOK 3\nOK 4\nOK 5\nOK 6\nOK 7\nOK 8\nOK 9\nOK 10\nOK 11\nOK 12\nOK 13\nOK 14\nOK 15\nOK 16\nOK 17\nOK 18\nOK 19\nOK 20\nOK 21\nOK 22\nOK 23\nOK 24\nOK 25\nOK 26\nOK 27\nOK 28\n";

/// The state before the leave ends.
const STATE_27: &str =
    r#"{"snapshot":{"epoch":27,"keyspaces":[{"name":"ka","replication":"topology dc1:1 dc2:2"},{"name":"ks","replication":"simple 1"}],"next":11,"nodes":[{"dc":"dc1","id":1,"left":false,"name":"a","rack":"r1"},{"dc":"dc1","id":2,"left":false,"name":"b","rack":"r1"},{"dc":"dc1","id":3,"left":false,"name":"c","rack":"r1"},{"dc":"dc1","id":4,"left":false,"name":"d","rack":"r1"},{"dc":"dc1","id":5,"left":false,"name":"e","rack":"r1"},{"dc":"dc1","id":6,"left":false,"name":"f","rack":"r1"},{"dc":"dc1","id":7,"left":false,"name":"g","rack":"r1"},{"dc":"dc1","id":8,"left":false,"name":"h","rack":"r1"},{"dc":"dc1","id":9,"left":false,"name":"i","rack":"r1"},{"dc":"dc1","id":10,"left":false,"name":"j","rack":"r1"}],"sequences":[{"in":[],"kind":"leave","node":4,"out":[[-100,4]],"phase":"MID"},{"in":[[350,8]],"kind":"move","node":8,"out":[[300,8]],"phase":"STARTED"},{"in":[[-270,9],[-250,9]],"kind":"join","node":9,"out":[],"phase":"PREPARED"},{"in":[[100,10]],"kind":"replace","node":10,"out":[[100,6]],"phase":"PREPARED"}],"tokens":[[-400,1],[-300,2],[-200,3],[-100,4],[0,5],[100,6],[200,7],[300,8]]}}
"#;

/// The state once the leave has ended.
const STATE_28: &str =
    r#"{"snapshot":{"epoch":28,"keyspaces":[{"name":"ka","replication":"topology dc1:1 dc2:2"},{"name":"ks","replication":"simple 1"}],"next":11,"nodes":[{"dc":"dc1","id":1,"left":false,"name":"a","rack":"r1"},{"dc":"dc1","id":2,"left":false,"name":"b","rack":"r1"},{"dc":"dc1","id":3,"left":false,"name":"c","rack":"r1"},{"dc":"dc1","id":4,"left":true,"name":"d","rack":"r1"},{"dc":"dc1","id":5,"left":false,"name":"e","rack":"r1"},{"dc":"dc1","id":6,"left":false,"name":"f","rack":"r1"},{"dc":"dc1","id":7,"left":false,"name":"g","rack":"r1"},{"dc":"dc1","id":8,"left":false,"name":"h","rack":"r1"},{"dc":"dc1","id":9,"left":false,"name":"i","rack":"r1"},{"dc":"dc1","id":10,"left":false,"name":"j","rack":"r1"}],"sequences":[{"in":[[350,8]],"kind":"move","node":8,"out":[[300,8]],"phase":"STARTED"},{"in":[[-270,9],[-250,9]],"kind":"join","node":9,"out":[],"phase":"PREPARED"},{"in":[[100,10]],"kind":"replace","node":10,"out":[[100,6]],"phase":"PREPARED"}],"tokens":[[-400,1],[-300,2],[-200,3],[0,5],[100,6],[200,7],[300,8]]}}
"#;

/// The report of a replay of the earlier state and the log.
const REPORT: &str = "REPLAY 30 at 28 waiting 0 full 0\n\
    NODES 28 10 3\n\
    1 a dc1 r1 JOINED -400\n\
    2 b dc1 r1 JOINED -300\n\
    3 c dc1 r1 JOINED -200\n\
    4 d dc1 r1 LEFT -\n\
    5 e dc1 r1 JOINED 0\n\
    6 f dc1 r1 JOINED 100\n\
    7 g dc1 r1 JOINED 200\n\
    8 h dc1 r1 MOVING 300\n\
    9 i dc1 r1 REGISTERED -\n\
    10 j dc1 r1 REGISTERED -\n\
    SEQ 8 move STARTED out 300@8 in 350@8\n\
    SEQ 9 join PREPARED out - in -270@9,-250@9\n\
    SEQ 10 replace PREPARED out 100@6 in 100@10\n\
    PLACE 28 ka 11\n\
    (min,-400] read 1 write 1\n\
    (-400,-300] read 2 write 2\n\
    (-300,-270] read 3 write 3\n\
    (-270,-250] read 3 write 3\n\
    (-250,-200] read 3 write 3\n\
    (-200,0] read 5 write 5\n\
    (0,100] read 6 write 6\n\
    (100,200] read 7 write 7\n\
    (200,300] read 8 write 8\n\
    (300,350] read 1 write 1,8\n\
    (350,max] read 1 write 1\n\
    PLACE 28 ks 11\n\
    (min,-400] read 1 write 1\n\
    (-400,-300] read 2 write 2\n\
    (-300,-270] read 3 write 3\n\
    (-270,-250] read 3 write 3\n\
    (-250,-200] read 3 write 3\n\
    (-200,0] read 5 write 5\n\
    (0,100] read 6 write 6\n\
    (100,200] read 7 write 7\n\
    (200,300] read 8 write 8\n\
    (300,350] read 1 write 1,8\n\
    (350,max] read 1 write 1\n";

/// The last command of a log that goes on from the earlier state, and why it is refused: a movement of the state is in
/// its way.
const LOCKED: [(&str, &str); 4] = [
    (
        r#"{"kind":"prepare-move","node":3,"token":-260}"#,
        "LOCKED 4 -270",
    ),
    (r#"{"kind":"prepare-leave","node":1}"#, "LOCKED 8 300"),
    (r#"{"kind":"prepare-leave","node":2}"#, "LOCKED 9 -300"),
    (r#"{"kind":"prepare-leave","node":5}"#, "LOCKED 4 -100"),
];

/// The epochs before and after the last command, with their states.
const SHOWN: [(&str, &str); 2] = [("27", STATE_27), ("28", STATE_28)];

/// Commits the script, and shows the states before and after the last command.
fn shows(alloc: Global, store: &mut MemStore) -> Result<(), Fail> {
    let name = "a log with four movements";
    is_run(
        alloc,
        name,
        &["commit", "x", "c1"],
        SCRIPT,
        store,
        (0, ANSWERS),
    )?;
    for row in &SHOWN {
        let (epoch, state) = *row;
        let words = ["snapshot", "x", epoch];
        is_shown(alloc, epoch, &words, store, (0, state))?;
    }
    Ok(())
}

/// Hands an entry to a follower at the earlier state.
fn is_locked(
    alloc: Global,
    store: &mut MemStore,
    command: &str,
    refusal: &str,
) -> Result<(), Fail> {
    let entry = format!(in alloc; "{{\"command\":{command},\"entry\":28,\"epoch\":28}}\n")?;
    store.put("z", entry.as_bytes())?;
    let text = format!(in alloc; "REFUSED 2 1 COMMAND 28 {refusal}\n")?;
    let words = ["replay", "y", "z"];
    is_shown(alloc, command, &words, store, (3, text.as_str()))
}

#[test]
fn movements_go_on_from_a_state(rt: HostRuntime) -> Result<(), Fail> {
    let mut store = sure_store_of(rt.alloc(), None)?;
    shows(rt.alloc(), &mut store)?;
    store.put("y", STATE_27.as_bytes())?;
    let words = ["replay", "y", "x"];
    is_shown(rt.alloc(), "a replay", &words, &mut store, (0, REPORT))?;
    for row in &LOCKED {
        let (command, refusal) = *row;
        is_locked(rt.alloc(), &mut store, command, refusal)?;
    }
    Ok(())
}
