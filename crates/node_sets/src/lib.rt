//! Sets of nodes, as ascending lists of their ids.
#![tactic(auto)]

pub mod node_set;

pub use node_set::NodeSet;
