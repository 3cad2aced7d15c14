use crate::changes::left_row::LeftRow;
use crate::changes::new_node::NewNode;
use crate::movements::renewing::Renewed;
use crate::on_heap::OnHeap;
use cluster_terms::{NodeId, PairList};
use placement_deltas::Plan;
use transformations::{KeyspaceRows, SeqRows};

/// The change that a command makes in an image, beside the epoch. It has the new version of each list that changes, or
/// of the row of one node. `at` is the position of a movement among the movements: a movement that takes a step, goes
/// back or ends is changed where it is. Large parts are on the heap, as an enum is as large as its largest variant: so
/// a commit of a keyspace takes a sixth fewer instructions.
#[derive(Drop)]
pub enum Change {
    /// All lists stay as they are.
    Unchanged,
    /// A node is registered.
    Registered(OnHeap<NewNode>),
    /// A node is removed.
    Unregistered {
        node: NodeId,
    },
    /// The pairs of the new ring.
    Tokens(PairList),
    /// The new keyspaces, and the plans and the locks that the movements in flight have under them.
    Keyspaces {
        keyspaces: KeyspaceRows,
        renewed: Renewed,
    },
    /// A movement begins: its plan, and the movements with the plan's row inserted at `at`.
    Begun {
        at: usize,
        plan: OnHeap<Plan>,
        sequences: SeqRows,
    },
    /// A movement starts.
    Started {
        at: usize,
    },
    /// A movement comes half way.
    Mid {
        at: usize,
    },
    /// A movement is finished: the row of the node that has left by it, if any, and the ring after it.
    Finished {
        at: usize,
        left: Option<OnHeap<LeftRow>>,
        tokens: PairList,
    },
    /// A movement that isn't half way is given up.
    Ended {
        at: usize,
    },
    /// A movement that was half way goes back to `Started`.
    BroughtBack {
        at: usize,
    },
}
