ghost use Rattle.std.specs.Prelude.{◌≡◌, [], ◌<◌, ◌↔◌, IsTrue, IsSome, IfSome, IfOk, OnOk, IfErr, OnErr, None, slice_get, length};
ghost use Rattle.std.specs.List.{list_all, zip};
ghost use Rattle.std.specs.Option.{option_copied, option_map};
ghost use Rattle.cluster_terms.specs.NodeRow.{row_of};
ghost use Rattle.cluster_terms.specs.Replication.{rack_within};
ghost use Rattle.node_directory.specs.Directory.{is_directory, node_named, place_in, registered, other_rows, marked_left};
ghost use Rattle.node_directory.specs.code.StoredRows.{same_node};
ghost use Rattle.node_directory.specs.code.StoredRows.{IsPlace, IsPlaceOf};
ghost use Rattle.node_directory.specs.Room.{IsRoomFor};

use crate::directory_room::{DirectoryRoom, reserve_at};
use crate::stored_rows::{by_name, ids_ascend, push_copy};
use cluster_terms::{Memory, Name, NodeId, NodeRow, TryCopy};
use indexmap::IndexMap;
use std::alloc::Global;
use std::marker::Model;

/// The registered nodes in order of registration, which is also the order of their ids.
///
/// No two nodes have the same name, including nodes that left. The next id is above all ids. It never decreases but by
/// `renumber`, so without this call no id is used again.
///
/// A directory always has memory for one more node, and for the nodes after it up to the next id that is a multiple of
/// 64.
#[derive(Debug, Drop)]
pub struct Directory {
    /// The rows by name, in order of id.
    nodes: IndexMap<String, NodeRow>,
    next: u32,
}

impl Model for Directory {
    ghost use Rattle.std.specs.Prelude.{◌≤◌};
    ghost use Rattle.std.specs.Map.{values_of};
    ghost use Rattle.indexmap.specs.IndexMap.{spare};
    ghost use Rattle.node_directory.specs.Directory.{Registry};
    ghost use Rattle.node_directory.specs.code.StoredRows.{IsKept};
    ghost use Rattle.node_directory.specs.Room.{reserve_at};

    ghost Value = { Registry };

    ghost view = { λ d. record { rows = values_of d.nodes.entries; next = d.next } };

    ghost invariant = { λ d. IsKept d.nodes.entries d.next × (reserve_at d.next ≤ spare d.nodes) };
}

fn is_same(row: &NodeRow, other: &NodeRow) -> bool
    ensures { result ≡ same_node row.now other.now }
{
    row.id == other.id
        && row.left == other.left
        && row.name.as_str() == other.name.as_str()
        && row.dc.as_str() == other.dc.as_str()
        && row.rack.as_str() == other.rack.as_str()
}

impl Directory {
    /// The directory with these rows, where `next` is the id of the next node. Returns `None` unless the ids ascend,
    /// begin at 1 or more and are below `next`, and no name comes twice. Without rows, `next` may be any number. The
    /// cost is a copy and an insertion by hash for each row.
    pub fn from_rows(
        alloc: Global,
        rows: &[NodeRow],
        next: u32,
    ) -> Result<Option<Directory>, Memory>
        // Promise: rows make a directory if and only if ids ascend from 1 to below the next id, and names differ.
        // Guards: calls/directory.rt, tried.
        ensures valid { IfOk result (λ found. IsSome found ↔ IsTrue (is_directory 1 rows.now next)) }
        ensures registry { IfOk result (λ found.
            IfSome found (λ d. d ≡ record { rows = rows.now; next = next })) }
    {
        if !ids_ascend(rows, next) {
            return Ok(None);
        }
        match by_name(alloc, rows, reserve_at(next))? {
            Some(nodes) => Ok(Some(Directory { nodes, next })),
            None => Ok(None),
        }
    }

    /// The directory with these rows, where `next` is the id of the next node. The ids ascend, begin at 1 or more and
    /// are below `next`, and no name comes twice: it requires what `from_rows` checks. The cost is that of `from_rows`.
    pub fn from_valid(alloc: Global, rows: &[NodeRow], next: u32) -> Result<Directory, Memory>
        requires { IsTrue (is_directory 1 rows.now next) }
        // Promise: rows with ascending ids and different names have a directory. Guards: scripts, tried.
        ensures { IfOk result (λ d. d ≡ record { rows = rows.now; next = next }) }
    {
        match Directory::from_rows(alloc, rows, next)? {
            Some(directory) => Ok(directory),
            None => unreachable!(),
        }
    }

    /// Registers a node in a datacenter and a rack, and returns its id. The name is free: no node has it, not even a
    /// node that left. The next id is below 2^32 - 1. If memory runs out, returns the names and leaves the directory
    /// unchanged.
    pub fn register(
        &mut self,
        name: Name,
        dc: Name,
        rack: Name,
    ) -> Result<NodeId, (Name, Name, Name, Memory)>
        requires free { node_named self.old.rows name ≡ None }
        requires room { self.old.next < u32.MAX }
        // Promise: a new node gets the next id, which rises. Guards: calls/directory.rt, tried.
        ensures id { IfOk result (λ n. n ≡ self.old.next) }
        ensures registry { OnOk result (self.new ≡ registered self.old name dc rack) }
        // Promise: if memory runs out, nothing changes and the names are handed back. Guards: tried.
        ensures unchanged { OnErr result (self.new ≡ self.old) }
        ensures handed_back { IfErr result (λ e. (e.0 ≡ name) × (e.1 ≡ dc) × (e.2 ≡ rack)) }
    {
        let (alloc, count) = (*self.nodes.allocator(), self.nodes.len());
        let room = match DirectoryRoom::for_node(alloc, &name, self.next, count) {
            Ok(room) => room,
            Err(_) => return Err((name, dc, rack, Memory)),
        };
        Ok(self.register_in(name, dc, rack, room))
    }

    /// Registers a node as `register` does, with the memory of a room for this directory and this name. Takes no
    /// memory. If the directory has too little memory to spare, its rows move into the room. The cost is an insertion
    /// by hash, and that move.
    pub fn register_in(&mut self, name: Name, dc: Name, rack: Name, room: DirectoryRoom) -> NodeId
        requires free { node_named self.old.rows name ≡ None }
        requires ids { self.old.next < u32.MAX }
        requires room { IsRoomFor (length self.old.rows) self.old.next name room }
        // Promise: with memory made beforehand, a new node is registered as by `register`, and no memory is taken.
        // Guards: calls/directory.rt, scripts.
        ensures id { result ≡ self.old.next }
        ensures registry { self.new ≡ registered self.old name dc rack }
    {
        let key = room.give(&mut self.nodes, reserve_at(self.next + 1));
        let id = NodeId(self.next);
        let row = NodeRow {
            id,
            name,
            dc,
            rack,
            left: false,
        };
        match self.nodes.insert(key, row) {
            Ok(_) => {}
            Err(_) => unreachable!(),
        }
        self.next += 1;
        id
    }

    /// Removes the row of a registered node. Its id is not used again. The cost is a move of each later row.
    pub fn unregister(&mut self, n: NodeId)
        requires { IsSome (row_of self.old.rows n) }
        // Promise: a node is removed, and its id isn't given again. Guards: calls/directory.rt, tried.
        ensures rows { self.new.rows ≡ other_rows self.old.rows n }
        ensures next { self.new.next ≡ self.old.next }
    {
        let at = self.place(n).unwrap();
        let _removed = self.nodes.shift_remove_index(at);
    }

    /// Marks a registered node as having left the cluster. Its name stays taken. The cost is a binary search.
    pub fn mark_left(&mut self, n: NodeId)
        requires { IsSome (row_of self.old.rows n) }
        // Promise: a node is marked as having left, and its name stays taken. Guards: calls/directory.rt, tried.
        ensures rows { self.new.rows ≡ marked_left self.old.rows n }
        ensures next { self.new.next ≡ self.old.next }
    {
        let at = self.place(n).unwrap();
        self.nodes[at].left = true;
    }

    /// The node with this name, which may be a node that left. Returns `None` if and only if no node has this name. The
    /// cost is a look-up by hash.
    pub fn find(&self, name: &Name) -> Option<NodeId>
        // Promise: a node that left is found by its name. Guards: calls/directory.rt, tried.
        ensures { result ≡ node_named self.now.rows name.now }
    {
        self.nodes.get(name.as_str()).map(|row| row.id)
    }

    /// The datacenter and the rack of a node. Returns `None` if and only if the node is not registered. The cost is a
    /// binary search.
    pub fn place_of(&self, n: NodeId) -> Option<(&Name, &Name)>
        // Promise: a node's datacenter and rack are shown. Guards: tried.
        ensures { option_map (λ place. (place.0.now, place.1.now)) result ≡ place_in self.now.rows n }
    {
        let row = self.row(self.place(n)?)?;
        Some((&row.dc, &row.rack))
    }

    /// The rack of a node in this datacenter. Returns `None` if and only if the node is not registered or is in another
    /// datacenter. The cost is a binary search.
    pub fn rack_in(&self, dc: &Name, n: NodeId) -> Option<&Name>
        // Promise: a node's rack is shown, if it is in a given datacenter. Guards: calls/directory.rt, tried.
        ensures { option_copied result ≡ rack_within dc.now (row_of self.now.rows n) }
    {
        let (home, rack) = self.place_of(n)?;
        if home.as_str() == dc.as_str() {
            Some(rack)
        } else {
            None
        }
    }

    /// Sets the id of the next node, without a node for the ids up to it, as after the removal of their nodes. All ids
    /// are below it. It may be lower than before: then ids of removed nodes are given again. If memory runs out, leaves
    /// the directory unchanged. Takes memory only if there is none to spare for the nodes up to the next id that is a
    /// multiple of 64.
    pub fn renumber(&mut self, next: u32) -> Result<(), Memory>
        requires { IsTrue (is_directory 0 self.old.rows next) }
        // Promise: the id of the next node is set, if all ids are below it, and if memory runs out, nothing changes.
        // Guards: tried.
        ensures renumbered { OnOk result (self.new ≡ record { rows = self.old.rows; next = next }) }
        ensures unchanged { OnErr result (self.new ≡ self.old) }
    {
        self.nodes.reserve(reserve_at(next))?;
        self.next = next;
        Ok(())
    }

    /// Whether the directory has these rows. The cost is a comparison of each row.
    pub fn has_rows(&self, rows: &[NodeRow]) -> bool
        // Promise: it is told whether the directory has these rows. Guards: tried.
        ensures { IsTrue result ↔ (self.now.rows ≡ rows.now) }
    {
        self.len() == rows.len() && self.has_beside(rows)
    }

    /// Whether the rows are equal at each position that both lists have.
    fn has_beside(&self, rows: &[NodeRow]) -> bool
        ensures { result ≡ list_all (λ beside. same_node beside.0 beside.1) (zip self.now.rows rows.now) }
    {
        self.nodes
            .values()
            .zip(rows)
            .all(|(row, other)| is_same(row, other))
    }

    /// The id that the next node gets.
    pub fn next_id(&self) -> u32
        ensures next { result ≡ self.now.next }
        ensures valid { IsTrue (is_directory 0 self.now.rows self.now.next) }
    {
        self.next
    }

    /// The number of registered nodes, including nodes that left.
    pub fn len(&self) -> usize
        ensures len { result ≡ length self.now.rows }
        ensures valid { IsTrue (is_directory 0 self.now.rows self.now.next) }
    {
        self.nodes.len()
    }

    /// Whether no node is registered.
    pub fn is_empty(&self) -> bool
        ensures { IsTrue result ↔ (self.now.rows ≡ []) }
    {
        self.nodes.is_empty()
    }

    /// The row at a position, from 0, in order of registration. Returns `None` if and only if the position is past the
    /// end. The cost is a read by position.
    pub fn row(&self, at: usize) -> Option<&NodeRow>
        ensures { option_copied result ≡ slice_get self.now.rows at }
    {
        let (_name, row) = self.nodes.get_index(at)?;
        Some(row)
    }

    fn is_at(&self, at: usize, n: NodeId) -> bool
        ensures { IsTrue result → IsPlace self.now.rows n at }
    {
        let _next = self.next_id();
        match self.row(at) {
            Some(row) => row.id == n,
            None => false,
        }
    }

    /// The position of a node's row, by a binary search. Returns `None` if and only if the node is not registered.
    fn search(&self, n: NodeId) -> Option<usize>
        ensures { IsPlaceOf self.now.rows n result }
    {
        self.nodes
            .binary_search_by_key(&n.0, |_name, row| row.id.0)
            .ok()
    }

    /// The position of a node's row. Returns `None` if and only if the node is not registered. As long as no node was
    /// removed, the position is the id less one, and nothing is searched.
    fn place(&self, n: NodeId) -> Option<usize>
        ensures { IsPlaceOf self.now.rows n result }
    {
        let at = (n.0 as usize).saturating_sub(1);
        if self.is_at(at, n) {
            return Some(at);
        }
        self.search(n)
    }
}

impl TryCopy for Directory {
    fn copy(&self) -> Result<Directory, Memory> {
        let count = self.nodes.len() + reserve_at(self.next);
        let mut nodes = IndexMap::with_capacity(*self.nodes.allocator(), count)?;
        for row in self.nodes.values() {
            push_copy(&mut nodes, row)?;
        }
        Ok(Directory {
            nodes,
            next: self.next,
        })
    }
}
