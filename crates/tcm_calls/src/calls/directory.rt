//! Directories of nodes.

use crate::calls::name_of;
use cluster_terms::{NodeId, NodeRow, TryCopy};
use node_directory::Directory;
use std::alloc::Global;
use std::process::Abort;
use std::test::Fail;

/// The ids of two nodes, the name of the second node (the first is called a), and whether the nodes make a directory
/// whose next id is 4.
const ROWS: [(u32, u32, &str, bool); 6] = [
    (1, 3, "b", true),
    (0, 3, "b", false),
    (3, 3, "b", false),
    (3, 1, "b", false),
    (1, 4, "b", false),
    (1, 3, "a", false),
];

fn row_of(alloc: Global, id: u32, name: &str) -> Result<NodeRow, Fail> {
    Ok(NodeRow {
        id: NodeId(id),
        name: name_of(alloc, name)?,
        dc: name_of(alloc, "dc1")?,
        rack: name_of(alloc, "r1")?,
        left: false,
    })
}

fn add<A: Abort>(rt: &A, alloc: Global, nodes: &mut Directory, name: &str) -> Result<u32, Fail> {
    let name = name_of(alloc, name)?;
    assert!(rt; nodes.find(&name).is_none());
    assert!(rt; nodes.next_id() < 9);
    match nodes.register(name, name_of(alloc, "dc1")?, name_of(alloc, "r1")?) {
        Ok(id) => Ok(id.0),
        Err(_) => Err("memory")?,
    }
}

fn leave<A: Abort>(rt: &A, nodes: &mut Directory, n: NodeId) {
    assert!(rt; nodes.place_of(n).is_some());
    nodes.mark_left(n);
}

fn remove<A: Abort>(rt: &A, nodes: &mut Directory, n: NodeId) {
    assert!(rt; nodes.place_of(n).is_some());
    nodes.unregister(n);
}

/// A directory of two nodes: the first has left, and the second was removed and then added again.
fn changed<A: Abort>(rt: &A, alloc: Global) -> Result<Directory, Fail> {
    let mut nodes = Directory::from_rows(alloc, &[], 1)?.ok_or("no directory")?;
    assert_eq!(rt; add(rt, alloc, &mut nodes, "a")?, 1);
    assert_eq!(rt; add(rt, alloc, &mut nodes, "b")?, 2);
    leave(rt, &mut nodes, NodeId(1));
    remove(rt, &mut nodes, NodeId(2));
    assert_eq!(rt; add(rt, alloc, &mut nodes, "b")?, 3);
    Ok(nodes)
}

#[test]
fn nodes_of_a_directory(rt: HostRuntime) -> Result<(), Fail> {
    let alloc = rt.alloc();
    for row in &ROWS {
        let (first, second, name, good) = *row;
        let rows = [row_of(alloc, first, "a")?, row_of(alloc, second, name)?];
        let found = Directory::from_rows(alloc, &rows, 4)?;
        assert_eq!(rt; found.is_some(), good, "{first} {second} {name}");
    }
    let nodes = changed(&rt, alloc)?.copy()?;
    assert_eq!(rt; nodes.find(&name_of(alloc, "a")?), Some(NodeId(1)));
    assert_eq!(rt; nodes.find(&name_of(alloc, "b")?), Some(NodeId(3)));
    assert_eq!(rt; nodes.row(0).map(|row| row.left), Some(true));
    assert_eq!(rt; nodes.len(), 2);
    for (dc, n, found) in [("dc1", 3, true), ("dc1", 2, false), ("r1", 3, false)] {
        let dc = name_of(alloc, dc)?;
        assert_eq!(rt; nodes.rack_in(&dc, NodeId(n)).is_some(), found);
    }
    Ok(())
}
