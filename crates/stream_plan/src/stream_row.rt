use cluster_terms::{NodeId, RightEnd, SmallList, Token};
use node_sets::NodeSet;

/// The nodes from which a node streams.
#[derive(Debug, Drop)]
pub enum StreamFrom {
    /// This node and no other: the node that streams takes its place.
    Strict(NodeId),
    /// Any of these nodes. The set can be empty.
    AnyOf(NodeSet),
}

/// A node that a movement adds to the replicas of a range, and the nodes from which it streams. The range excludes
/// `left` and includes `right`. If `left` is `None`, the range begins with the least token.
#[derive(Debug, Drop)]
pub struct StreamRow {
    pub left: Option<Token>,
    pub right: RightEnd,
    pub to: NodeId,
    pub from: StreamFrom,
}

/// A list of rows.
pub type StreamRows = SmallList<StreamRow>;
