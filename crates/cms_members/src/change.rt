use cluster_terms::{NodeId, SmallList};

/// A change of the members of the metadata service.
#[derive(Clone, Copy, Debug, PartialEq, Eq)]
pub enum Change {
    /// A node begins to take commits. It doesn't vote yet.
    Start(NodeId),
    /// The node that has started becomes a voting member.
    Finish(NodeId),
    /// The node that has started gives up.
    Stop(NodeId),
    /// A voting member leaves.
    Remove(NodeId),
}

/// A list of changes, in order.
pub type ChangeList = SmallList<Change>;
