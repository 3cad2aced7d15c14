//! A node that is registered.

ghost use Rattle.std.specs.Prelude.{◌≡◌, ◌<◌, ◌^◌, ◌-◌, None, IfOk};
ghost use Rattle.node_directory.specs.Directory.{node_named};
ghost use Rattle.cluster_metadata.specs.code.Nodes as spec;

use cluster_terms::{Memory, Name, NodeId, NodeRow, Room, TryCopy};
use node_directory::DirectoryRoom;
use std::alloc::Global;
use transformations::Image;

/// A node that is registered: its row for the image, a copy of it for the directory, the id of the node after it, and
/// memory for both rows.
#[derive(Drop)]
pub struct NewNode {
    pub row: NodeRow,
    pub entry: NodeRow,
    pub next: u32,
    pub nodes: Room<NodeRow>,
    pub directory: DirectoryRoom,
}

/// The row of a new node.
pub fn new_row(id: u32, name: &Name, dc: &Name, rack: &Name) -> Result<NodeRow, Memory>
    ensures { IfOk result (λ row. row ≡ spec.new_row id name.now dc.now rack.now) }
{
    Ok(NodeRow {
        id: NodeId(id),
        name: name.copy()?,
        dc: dc.copy()?,
        rack: rack.copy()?,
        left: false,
    })
}

/// How many nodes a permit has room for, with this many in the image: the next multiple of 64, and 64 more. So lists
/// seldom move, and permits in a row ask for the same memory: how much changes at every 64th node alone.
fn room_beside(count: usize) -> usize
    requires { count < 2 ^ 63 }
    ensures { count < result }
{
    64 * (count / 64 + 2)
}

impl NewNode {
    /// The new node of a row, with memory for all nodes of the image and 65 to 128 more, and with a room for the
    /// directory. The memory is used only if the image or the directory has none to spare.
    pub fn of_row(alloc: Global, image: &Image, row: NodeRow) -> Result<NewNode, Memory>
        requires next { image.now.next < 2 ^ 32 - 1 }
        requires row { row ≡ spec.new_row image.now.next row.name row.dc row.rack }
        requires free { node_named image.now.nodes row.name ≡ None }
        ensures new { IfOk result (spec.IsNew image.now.nodes image.now.next) }
        ensures row { IfOk result (λ node. node.row ≡ row) }
    {
        let registered = image.nodes.as_slice().len();
        let nodes = Room::for_items(alloc, room_beside(registered))?;
        let directory = DirectoryRoom::for_node(alloc, &row.name, image.next, registered)?;
        Ok(NewNode {
            entry: row.copy()?,
            row,
            next: image.next + 1,
            nodes,
            directory,
        })
    }
}
