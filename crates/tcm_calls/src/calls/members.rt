//! The members of the metadata service: routes from one set of members to another, and changes that are refused.

use cluster_terms::{NodeId, TryCopy};
use cms_members::{Change, Growing, MemberFault, Members, StartFault, route};
use node_sets::NodeSet;
use std::alloc::Global;
use std::process::Abort;
use std::test::Fail;

/// The first node and the number of nodes before a route and after it, and the voting members after each change.
const SHORT: [(u16, u16, u16, u16, &str); 5] = [
    (
        1,
        3,
        2,
        3,
        "START 4 needs 2 of 1 2 3; FINISH 4 needs 3 of 1 2 3 4; REMOVE 1 needs 2 of 2 3 4; ",
    ),
    (1, 2, 1, 2, ""),
    (
        1,
        1,
        5,
        1,
        "START 5 needs 1 of 1; FINISH 5 needs 2 of 1 5; REMOVE 1 needs 1 of 5; ",
    ),
    (
        7,
        1,
        6,
        3,
        "START 6 needs 1 of 7; FINISH 6 needs 2 of 6 7; START 8 needs 2 of 6 7; FINISH 8 needs 2 of 6 7 8; ",
    ),
    (
        0,
        4,
        1,
        2,
        "REMOVE 0 needs 2 of 1 2 3; REMOVE 3 needs 2 of 1 2; ",
    ),
];

/// The first node and the number of nodes before a route and after it, and the number of changes.
const LONG: [(u16, u16, u16, u16, usize); 6] = [
    (1, 1, 1, 16, 30),
    (1, 16, 1, 1, 15),
    (1, 16, 17, 16, 48),
    (17, 16, 1, 16, 48),
    (1, 16, 9, 16, 24),
    (5, 16, 5, 16, 0),
];

/// A number of members, and a node that starts: why it can't, if it can't.
const STARTS: [(u16, u32, Option<StartFault>); 5] = [
    (1, 1, Some(StartFault::Member)),
    (32, 32, Some(StartFault::Member)),
    (32, 33, Some(StartFault::Full(32))),
    (31, 0, None),
    (1, 4_294_967_295, None),
];

/// A number of members, and a node that is removed: why it can't, if it can't, and the number of members afterwards.
const REMOVALS: [(u16, u32, Option<MemberFault>, usize); 5] = [
    (1, 1, Some(MemberFault::Last), 1),
    (1, 2, Some(MemberFault::NotMember), 1),
    (32, 0, Some(MemberFault::NotMember), 32),
    (32, 32, None, 31),
    (2, 1, None, 1),
];

/// A number of nodes, and whether they can be members.
const SIZES: [(u16, bool); 4] = [(0, false), (1, true), (32, true), (33, false)];

/// The voting members, and the node that has started, if there is one.
enum Voters {
    Settled(Members),
    Growing(Growing),
}

/// A set of nodes with ids in a row.
fn set_of(alloc: Global, first: u16, count: u16) -> Result<NodeSet, Fail> {
    let mut ids = Vec::new(alloc);
    for more in 0..count {
        ids.push(NodeId(u32::from(first) + u32::from(more)))?;
    }
    Ok(NodeSet::from_ids(alloc, &ids)?)
}

/// The set that members are made of, and back.
fn set_of_voters(voters: Voters) -> NodeSet {
    match voters {
        Voters::Settled(members) => members.close(),
        Voters::Growing(growing) => growing.stop().close(),
    }
}

/// Makes a change, and tells whether it was accepted.
fn change_voters(voters: Voters, change: Change) -> (Voters, bool) {
    match (voters, change) {
        (Voters::Settled(members), Change::Start(n)) => match members.start(n) {
            Ok(growing) => (Voters::Growing(growing), true),
            Err((members, _)) => (Voters::Settled(members), false),
        },
        (Voters::Settled(members), Change::Remove(n)) => match members.remove(n) {
            Ok(members) => (Voters::Settled(members), true),
            Err((members, _)) => (Voters::Settled(members), false),
        },
        (Voters::Growing(growing), Change::Finish(_)) => match growing.finish() {
            Ok(members) => (Voters::Settled(members), true),
            Err((growing, _)) => (Voters::Growing(growing), false),
        },
        (Voters::Growing(growing), Change::Stop(_)) => (Voters::Settled(growing.stop()), true),
        (voters, _) => (voters, false),
    }
}

/// A change, and how many of which voting members are a majority after it.
fn text_of(alloc: Global, change: Change, voters: &Voters) -> Result<String, Fail> {
    let (needs, set) = match voters {
        Voters::Settled(members) => (members.needs(), members.set()),
        Voters::Growing(growing) => (growing.needs(), growing.set()),
    };
    let mut text = match change {
        Change::Start(n) => format!(in alloc; "START {} needs {needs} of", n.0)?,
        Change::Finish(n) => format!(in alloc; "FINISH {} needs {needs} of", n.0)?,
        Change::Stop(n) => format!(in alloc; "STOP {} needs {needs} of", n.0)?,
        Change::Remove(n) => format!(in alloc; "REMOVE {} needs {needs} of", n.0)?,
    };
    for id in set.ids() {
        text.push_str(&format!(in alloc; " {}", id.0)?)?;
    }
    text.push_str("; ")?;
    Ok(text)
}

/// The texts so far and that of a change.
fn add_text(
    alloc: Global,
    texts: Result<String, Fail>,
    change: Change,
    voters: &Voters,
) -> Result<String, Fail> {
    let mut texts = texts?;
    texts.push_str(&text_of(alloc, change, voters)?)?;
    Ok(texts)
}

/// Makes changes one by one, and returns the set of members in the end, and the text of each change.
fn walk<A: Abort>(
    rt: &A,
    alloc: Global,
    members: Members,
    changes: &[Change],
) -> Result<(NodeSet, String), Fail> {
    let mut voters = Voters::Settled(members);
    let mut texts = Ok(String::new(alloc));
    for change in changes {
        let (next, accepted) = change_voters(voters, *change);
        voters = next;
        assert!(rt; accepted);
        texts = add_text(alloc, texts, *change, &voters);
    }
    let set = set_of_voters(voters);
    Ok((set, texts?))
}

/// The members that are the nodes of a set.
fn members_of(set: NodeSet) -> Result<Members, Fail> {
    match Members::from_set(set) {
        Ok(members) => Ok(members),
        Err(_) => Err("no members")?,
    }
}

/// How many members are made of a set, if it can be made into members.
fn count_of(set: NodeSet) -> Option<usize> {
    let members = Members::from_set(set).ok()?;
    Some(members.close().len())
}

/// Walks the route from one set to another. Returns the number of its changes and their texts.
fn walk_route<A: Abort>(
    rt: &A,
    alloc: Global,
    from: &NodeSet,
    to: &NodeSet,
) -> Result<(usize, String), Fail> {
    assert!(rt; 1 <= from.len() && from.len() <= 16);
    assert!(rt; 1 <= to.len() && to.len() <= 16);
    let changes = route(alloc, from, to)?;
    let members = members_of(from.copy()?)?;
    let (end, texts) = walk(rt, alloc, members, changes.as_slice())?;
    assert_eq!(rt; end.ids(), to.ids());
    Ok((changes.as_slice().len(), texts))
}

/// Starts a node beside members from 1 on. Returns the fault and the number of members afterwards.
fn start(alloc: Global, count: u16, n: u32) -> Result<(Option<StartFault>, usize), Fail> {
    let members = members_of(set_of(alloc, 1, count)?)?;
    match members.start(NodeId(n)) {
        Ok(growing) => Ok((None, growing.stop().close().len())),
        Err((members, fault)) => Ok((Some(fault), members.close().len())),
    }
}

/// Removes a node of members from 1 on. Returns the fault and the number of members afterwards.
fn remove(alloc: Global, count: u16, n: u32) -> Result<(Option<MemberFault>, usize), Fail> {
    let members = members_of(set_of(alloc, 1, count)?)?;
    match members.remove(NodeId(n)) {
        Ok(members) => Ok((None, members.close().len())),
        Err((members, fault)) => Ok((Some(fault), members.close().len())),
    }
}

#[test]
fn short_routes(rt: HostRuntime) -> Result<(), Fail> {
    let alloc = rt.alloc();
    for row in &SHORT {
        let (first, count, next, most, texts) = *row;
        let from = set_of(alloc, first, count)?;
        let to = set_of(alloc, next, most)?;
        let (_, found) = walk_route(&rt, alloc, &from, &to)?;
        assert_eq!(rt; found.as_str(), texts);
    }
    Ok(())
}

#[test]
fn long_routes(rt: HostRuntime) -> Result<(), Fail> {
    let alloc = rt.alloc();
    for row in &LONG {
        let (first, count, next, most, changes) = *row;
        let from = set_of(alloc, first, count)?;
        let to = set_of(alloc, next, most)?;
        let (found, _) = walk_route(&rt, alloc, &from, &to)?;
        assert_eq!(rt; found, changes);
    }
    Ok(())
}

#[test]
fn starts_of_members(rt: HostRuntime) -> Result<(), Fail> {
    for row in &STARTS {
        let (count, n, fault) = *row;
        assert_eq!(rt; start(rt.alloc(), count, n)?, (fault, usize::from(count)));
    }
    Ok(())
}

#[test]
fn removals_of_members(rt: HostRuntime) -> Result<(), Fail> {
    for row in &REMOVALS {
        let (count, n, fault, left) = *row;
        assert_eq!(rt; remove(rt.alloc(), count, n)?, (fault, left));
    }
    Ok(())
}

#[test]
fn sizes_of_members(rt: HostRuntime) -> Result<(), Fail> {
    for size in &SIZES {
        let (count, accepted) = *size;
        let found = count_of(set_of(rt.alloc(), 1, count)?);
        assert_eq!(rt; found, accepted.then_some(usize::from(count)));
    }
    Ok(())
}
