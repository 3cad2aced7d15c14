//! Scripts that reach the limits of nodes, tokens, keyspaces, epochs and waiting entries, and queries of epochs near
//! those whose images are kept.

use crate::tests::running::{accepted, is_answered};
use std::alloc::Global;
use std::ops::Range;
use std::test::Fail;

#[test]
fn nodes_end_at_1024(rt: HostRuntime) -> Result<(), Fail> {
    let alloc = rt.alloc();
    let mut script = String::new(alloc);
    for i in 1..=1_025 {
        script.push_str(&format!(in alloc; "commit {i} register n{i} dc1 r1\n")?)?;
    }
    script.push_str(
        "commit 1026 unregister 7\ncommit 1027 register n8 dc1 r1\ncommit 1028 register last dc1 r1\n",
    )?;
    let mut want = accepted(alloc, 1, 1_024)?;
    want.push_str("NO NODES-FULL\nOK 1025\nNO NAME-TAKEN 8\nOK 1026\n")?;
    is_answered(&rt, alloc, &script, &want)
}

#[test]
fn keyspaces_end_at_64(rt: HostRuntime) -> Result<(), Fail> {
    let alloc = rt.alloc();
    let mut script = String::new(alloc);
    for i in 1..=65 {
        script.push_str(&format!(in alloc; "commit {i} keyspace k{i} simple 1\n")?)?;
    }
    script.push_str(
        "commit 66 keyspace k64 topology dc1:3\ncommit 67 drop-keyspace k7\ncommit 68 keyspace k65 simple 1\n",
    )?;
    let mut want = accepted(alloc, 1, 64)?;
    want.push_str("NO KEYSPACES-FULL\nOK 65\nOK 66\nOK 67\n")?;
    is_answered(&rt, alloc, &script, &want)
}

/// The id of a commit that joins this node. No node is registered with such an id.
fn join_id(node: u32) -> u64 {
    1_000 + u64::from(node)
}

/// Adds a line that joins a node with 256 tokens, which no other node has.
fn join(alloc: Global, script: &mut String, node: u32) -> Result<(), Fail> {
    let id = join_id(node);
    script.push_str(&format!(in alloc; "commit {id} unsafe-join {node}")?)?;
    for i in 0..256u64 {
        let token = i * 100 + u64::from(node);
        script.push_str(&format!(in alloc; " {token}")?)?;
    }
    script.push_str("\n")?;
    Ok(())
}

#[test]
fn tokens_end_at_16384(rt: HostRuntime) -> Result<(), Fail> {
    let alloc = rt.alloc();
    let mut script = String::new(alloc);
    for i in 1..=65 {
        script.push_str(&format!(in alloc; "commit {i} register n{i} dc1 r1\n")?)?;
    }
    for node in 1..=64 {
        join(alloc, &mut script, node)?;
    }
    script.push_str("commit 2001 unsafe-join 65 -1\ncommit 2002 unsafe-join 65 -1 64\n")?;
    let mut want = accepted(alloc, 1, 129)?;
    want.push_str("NO TOKENS-FULL\nNO TOKEN-TAKEN 64\n")?;
    is_answered(&rt, alloc, &script, &want)
}

/// Commits to a cluster that is full of tokens. An unsafe join, a join or a move would exceed the limit; a replace adds
/// no token.
const TOO_MANY: &str = "commit 2001 unsafe-join 320 -1\n\
    commit 2002 prepare-join 320 -1\n\
    commit 2003 prepare-join 320 -1 -64\n\
    commit 2004 prepare-move 64 -1\n\
    commit 2005 prepare-move 64 -65\n\
    commit 2006 prepare-move 1 -1\n\
    commit 2007 prepare-replace 320 1\n\
    commit 2008 prepare-move 64 -1\n";

#[test]
fn tokens_of_movements_end_at_16384(rt: HostRuntime) -> Result<(), Fail> {
    let alloc = rt.alloc();
    let mut script = String::new(alloc);
    for i in 1..=320 {
        script.push_str(&format!(in alloc; "commit {i} register n{i} dc1 r1\n")?)?;
    }
    for node in 1..=63 {
        join(alloc, &mut script, node)?;
    }
    for node in 64..=319 {
        let id = join_id(node);
        script.push_str(&format!(in alloc; "commit {id} unsafe-join {node} -{node}\n")?)?;
    }
    script.push_str(TOO_MANY)?;
    let mut want = accepted(alloc, 1, 639)?;
    want.push_str(
        "NO TOKENS-FULL\nNO TOKENS-FULL\nNO TOKEN-TAKEN -64\nNO TOKENS-FULL\nNO TOKEN-TAKEN -65\n",
    )?;
    want.push_str("NO NOT-ONE-TOKEN 256\nOK 640\nNO TOKENS-FULL\n")?;
    is_answered(&rt, alloc, &script, &want)
}

/// Commits after the last epoch. An id of the log still answers its epoch, or that it is reused.
const PAST_THE_LIMIT: &str = "commit 65538 unsafe-join 7 0\n\
    commit 1 keyspace ks simple 1\n\
    commit 65536 keyspace ks simple 1\n\
    commit 1 unsafe-join 7 0\n\
    commit 65536 keyspace ks simple 2\n\
    commit 65537 keyspace ks simple 1\n";

#[test]
fn epochs_end_at_65536(rt: HostRuntime) -> Result<(), Fail> {
    let alloc = rt.alloc();
    let mut script = String::new(alloc);
    for i in 1..=65_537 {
        script.push_str(&format!(in alloc; "commit {i} keyspace ks simple 1\n")?)?;
    }
    script.push_str(PAST_THE_LIMIT)?;
    let mut want = accepted(alloc, 1, 65_536)?;
    want.push_str("NO EPOCHS-FULL\nNO EPOCHS-FULL\nOK 1\nOK 65536\n")?;
    want.push_str("NO ID-REUSED 1\nNO ID-REUSED 65536\nNO EPOCHS-FULL\n")?;
    is_answered(&rt, alloc, &script, &want)
}

/// Adds lines that hand the entries of these epochs to a follower, and its answers.
fn deliver(
    alloc: Global,
    script: &mut String,
    want: &mut String,
    epochs: Range<u64>,
    answer: &str,
) -> Result<(), Fail> {
    for epoch in epochs {
        script.push_str(&format!(in alloc; "deliver f {epoch}\n")?)?;
        want.push_str(answer)?;
    }
    Ok(())
}

#[test]
fn waiting_entries_end_at_1024(rt: HostRuntime) -> Result<(), Fail> {
    let alloc = rt.alloc();
    let mut script = String::new(alloc);
    for i in 1..=1_030 {
        script.push_str(&format!(in alloc; "commit {i} keyspace ks simple 1\n")?)?;
    }
    script.push_str("follower f\n")?;
    let mut want = accepted(alloc, 1, 1_030)?;
    want.push_str("AT 0\n")?;
    deliver(alloc, &mut script, &mut want, 2..1_026, "AT 0\n")?;
    deliver(alloc, &mut script, &mut want, 1_026..1_031, "FULL 0\n")?;
    script.push_str("deliver f 1025\ndeliver f 1\ndeliver f 1026\ndeliver f 1028\n")?;
    want.push_str("HELD 0\nAT 1025\nAT 1026\nAT 1026\n")?;
    is_answered(&rt, alloc, &script, &want)
}

/// Seven nodes on a ring, at the epochs up to 14.
const SEVEN: &str = "commit 1 register a dc1 r1\n\
    commit 2 register b dc1 r1\n\
    commit 3 register c dc1 r1\n\
    commit 4 register d dc1 r1\n\
    commit 5 register e dc1 r1\n\
    commit 6 register f dc1 r1\n\
    commit 7 register g dc1 r1\n\
    commit 8 unsafe-join 1 0\n\
    commit 9 unsafe-join 2 100\n\
    commit 10 unsafe-join 3 200\n\
    commit 11 unsafe-join 4 300\n\
    commit 12 unsafe-join 5 400\n\
    commit 13 unsafe-join 6 500\n\
    commit 14 unsafe-join 7 600\n";

/// The epochs that are asked: the first and the last with a keyspace, and those near 256 and 512.
const ASKED: [u64; 10] = [15, 16, 255, 256, 257, 511, 512, 513, 599, 600];

/// The replicas that the keyspace has at an epoch. They differ at epochs that are near one another.
fn replicas_at(epoch: u64) -> u64 {
    1 + epoch % 7
}

/// The first nodes, this many.
fn first_nodes(alloc: Global, count: u64) -> Result<String, Fail> {
    let mut list = String::from_str(alloc, "1")?;
    for id in 2..=count {
        list.push_str(&format!(in alloc; ",{id}")?)?;
    }
    Ok(list)
}

/// The answer to a query of the quorums at the first token.
fn quorum_at(alloc: Global, epoch: u64) -> Result<String, Fail> {
    let replicas = replicas_at(epoch);
    let need = replicas / 2 + 1;
    let nodes = first_nodes(alloc, replicas)?;
    let text = format!(in alloc;
        "QUORUM {epoch} read {need} of {nodes} write {need} of {nodes}\n"
    )?;
    Ok(text)
}

/// Adds queries of an epoch, also by a follower that is handed its image, and their answers.
fn ask(alloc: Global, script: &mut String, want: &mut String, epoch: u64) -> Result<(), Fail> {
    let lines = format!(in alloc; "quorum @{epoch} ks 0\nsnapshot f {epoch}\nquorum f ks 0\n")?;
    script.push_str(lines.as_str())?;
    let quorum = quorum_at(alloc, epoch)?;
    want.push_str(&format!(in alloc; "{quorum}AT {epoch}\n{quorum}")?)?;
    Ok(())
}

#[test]
fn each_epoch_is_answered(rt: HostRuntime) -> Result<(), Fail> {
    let alloc = rt.alloc();
    let mut script = String::from_str(alloc, SEVEN)?;
    for epoch in 15..=600 {
        let replicas = replicas_at(epoch);
        script.push_str(&format!(in alloc; "commit {epoch} keyspace ks simple {replicas}\n")?)?;
    }
    script.push_str("follower f\n")?;
    let mut want = accepted(alloc, 1, 600)?;
    want.push_str("AT 0\n")?;
    for epoch in &ASKED {
        ask(alloc, &mut script, &mut want, *epoch)?;
    }
    script.push_str("quorum @256 ks 0\nquorum @14 ks 0\nquorum @601 ks 0\n")?;
    want.push_str(quorum_at(alloc, 256)?.as_str())?;
    want.push_str("NO KEYSPACE\nNO EPOCH 600\n")?;
    is_answered(&rt, alloc, &script, &want)
}
