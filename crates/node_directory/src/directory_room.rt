ghost use Rattle.std.specs.Prelude.{◌≡◌, ◌+◌, ◌-◌, ◌<◌, ◌≤◌, ◌^◌, max, IfOk, string_bytes};
ghost use Rattle.std.specs.String.{string_eq};
ghost use Rattle.indexmap.specs.IndexMap.{index_map_len, spare, IsEmpty, IsUnique};
ghost use Rattle.node_directory.specs.Room as spec;

use cluster_terms::{Memory, Name, NodeRow};
use indexmap::IndexMap;
use std::alloc::Global;
use std::marker::Model;
use std::mem::swap;

/// Memory for a directory that gains a node: the new node's name and an empty table. Only the table for each 64th id
/// has memory. Contracts see it as the name and the number of nodes that the table has room for.
#[derive(Debug, Drop)]
pub struct DirectoryRoom {
    key: String,
    nodes: IndexMap<String, NodeRow>,
}

impl Model for DirectoryRoom {
    ghost use Rattle.std.specs.Prelude.{string_bytes};
    ghost use Rattle.indexmap.specs.IndexMap.{spare, IsEmpty};
    ghost use Rattle.node_directory.specs.Room.{NodeRoom};

    ghost Value = { NodeRoom };

    ghost view = { λ room. record { name = string_bytes room.key; count = spare room.nodes } };

    ghost invariant = { λ room. IsEmpty room.nodes };
}

/// How many more nodes a directory always has memory for, where `next` is the id of its next node: up to the next
/// multiple of 64. It goes by the next id and not by the number of nodes, as the map may not use a removed row's place
/// again.
pub(crate) fn reserve_at(next: u32) -> usize
    ensures reserve { result ≡ spec.reserve_at next }
    ensures most { result ≤ 64 }
{
    64 - (next % 64) as usize
}

/// A table with room for four times as many nodes as `count` and 128 more, so that rows seldom move. If a directory
/// keeps its reserve by its own memory when the node with the id `next` is registered, the table has no memory.
fn table_for(alloc: Global, next: u32, count: usize) -> Result<IndexMap<String, NodeRow>, Memory>
    ensures empty { IfOk result IsEmpty }
    ensures reserve { IfOk result (λ nodes.
        spec.reserve_at (next + 1) < max (spec.reserve_at next) (spare nodes - count)) }
{
    if next % 64 != 63 {
        return Ok(IndexMap::new(alloc));
    }
    match count.saturating_mul(4).checked_add(128) {
        Some(all) => Ok(IndexMap::with_capacity(alloc, all)?),
        None => Err(Memory),
    }
}

/// Moves the entries into `room`, which is empty and has room for them, and swaps the two maps.
fn move_over(nodes: &mut IndexMap<String, NodeRow>, room: &mut IndexMap<String, NodeRow>)
    requires empty { IsEmpty room.old }
    requires room { index_map_len nodes.old ≤ spare room.old }
    requires unique { IsUnique string_eq nodes.old }
    ensures entries { nodes.new.entries ≡ nodes.old.entries }
    ensures spare { spare room.old ≤ spare nodes.new + index_map_len nodes.old }
{
    match room.append(nodes) {
        Ok(()) => {}
        Err(_) => unreachable!(),
    }
    swap(nodes, room);
}

impl DirectoryRoom {
    /// Room for a new node with this name and the id `next`, in a directory of `count` nodes. Cost: a copy of the
    /// name and, if the id after `next` is a multiple of 64, an empty table for more than four times the nodes.
    pub fn for_node(
        alloc: Global,
        name: &Name,
        next: u32,
        count: usize,
    ) -> Result<DirectoryRoom, Memory>
        // Promise: a room has memory for a node of this name, in a directory with this number of nodes and this next
        // id. Guards: calls/directory.rt, scripts.
        ensures { IfOk result (spec.IsRoomFor count next name.now) }
    {
        let key = String::from_str(alloc, name.as_str())?;
        let nodes = table_for(alloc, next, count)?;
        Ok(DirectoryRoom { key, nodes })
    }

    /// Gives a table room for an entry and `more` after it, and returns the new node's name. If the table has too
    /// little memory to spare, its entries move into the room.
    pub(crate) fn give(self, nodes: &mut IndexMap<String, NodeRow>, more: usize) -> String
        requires { more < max (spare nodes.old) (self.count - index_map_len nodes.old) }
        ensures name { string_bytes result ≡ self.name }
        ensures entries { nodes.new.entries ≡ nodes.old.entries }
        ensures spare { more < spare nodes.new }
    {
        let DirectoryRoom {
            key,
            nodes: mut room,
        } = self;
        if nodes.capacity() - nodes.len() <= more {
            move_over(nodes, &mut room);
        }
        key
    }
}
