//! Changes one node in an image and in its directory. Nothing here allocates memory.

ghost use Rattle.std.specs.Prelude.{◌≡◌, ◌==◌, ◌<◌, not, filter, length};
ghost use Rattle.cluster_metadata.specs.Metadata.{directory_of};
ghost use Rattle.cluster_metadata.specs.code.Nodes.{IsNew, with_node, with_row};

use crate::changes::new_node::NewNode;
use crate::on_heap::OnHeap;
use cluster_terms::{NodeId, NodeRow, NodeRows, Room};
use node_directory::Directory;
use transformations::Image;

/// Adds the row of a new node, which is followed by the node of the id `next`.
pub fn add_row(image: &mut Image, row: NodeRow, next: u32, room: Room<NodeRow>)
    requires { length image.old.nodes < room }
    ensures { image.new ≡ with_row image.old row next }
{
    image.nodes.push_in(row, room);
    image.next = next;
}

/// Registers a node.
#[inline(never)]
pub fn register(image: &mut Image, directory: &mut Directory, node: OnHeap<NewNode>)
    requires directory { directory.old ≡ directory_of image.old }
    requires node { IsNew image.old.nodes image.old.next node }
    ensures image { image.new ≡ with_node image.old node }
    ensures directory { directory.new ≡ directory_of image.new }
{
    let NewNode {
        row,
        entry,
        next,
        nodes,
        directory: room,
    } = node.take();
    let NodeRow {
        id: _,
        name,
        dc,
        rack,
        left: _,
    } = entry;
    add_row(image, row, next, nodes);
    let _id = directory.register_in(name, dc, rack, room);
}

/// Keeps the rows of the other nodes.
pub fn remove_node(rows: &mut NodeRows, node: NodeId)
    ensures { rows.new ≡ filter (λ row. not (row.id == node)) rows.old }
{
    rows.retain(|row| row.id != node);
}
