//! Lists of nodes among the words of the program: `NODE,NODE ..`.

ghost use Rattle.std.specs.Prelude.{◌≡◌, ◌∷◌, ◌<◌, ◌==◌, length, IfSome, IsTrue};
ghost use Rattle.std.specs.List.{slice_split};
ghost use Rattle.std.specs.Option.{option_copied};
ghost use Rattle.tcm_session.specs.Request as spec;
ghost use Rattle.tcm_session.specs.code.Requests.{parts_left};

use cluster_terms::{Few, NodeId};
use memchr::memchr;
use script_lang::node_of;

/// The most nodes of a list.
const MOST_NODES: usize = 16;

/// A list of up to 16 nodes. It takes no memory, so words take none; sets are made once the log is found good.
pub type NodeList = Few<NodeId, 16>;

/// The bytes before the first comma, and the bytes after it, if there is a comma.
fn first_part(text: &[u8]) -> (&[u8], Option<&[u8]>)
    ensures parts { slice_split (λ byte. byte == 44) text.now
        ≡ result.0.now ∷ parts_left (option_copied result.1) }
    ensures shorter { IfSome result.1 (λ rest. length rest.now < length text.now) }
{
    match memchr(b',', text) {
        Some(at) => (&text[..at], Some(&text[at + 1..])),
        None => (text, None),
    }
}

/// Whether each node is below the next.
fn ascend(nodes: &[NodeId]) -> bool
    ensures { result ≡ spec.nodes_ascend nodes.now }
{
    for at in 1..nodes.len() {
        if nodes[at] <= nodes[at - 1] {
            return false;
        }
    }
    true
}

/// Whether a list may have these nodes: there are 1 to 16, and they ascend.
fn are_nodes(nodes: &[NodeId]) -> bool
    ensures { result ≡ spec.are_nodes nodes.now }
{
    !nodes.is_empty() && nodes.len() <= MOST_NODES && ascend(nodes)
}

/// The nodes that a text lists: 1 to 16 that ascend, with a comma between each two. Returns `None` for any other text.
pub fn node_list(text: &[u8]) -> Option<NodeList>
    ensures is { result ≡ spec.node_list text.now }
    ensures nodes { IfSome result (λ nodes. IsTrue (spec.are_nodes nodes)) }
{
    let mut nodes = NodeList::of(NodeId(0));
    let mut rest = Some(text);
    while let Some(left) = rest {
        let (part, more) = first_part(left);
        let node = node_of(part)?;
        if nodes.is_full() {
            return None;
        }
        nodes.push(node);
        rest = more;
    }
    if are_nodes(nodes.as_slice()) {
        Some(nodes)
    } else {
        None
    }
}
