use node_sets::NodeSet;

/// At a token: the nodes placed before a movement, the nodes that it adds, and the nodes that it takes away.
#[derive(Drop)]
pub struct Replaced<'a> {
    pub before: &'a NodeSet,
    pub gained: &'a NodeSet,
    pub lost: &'a NodeSet,
}
