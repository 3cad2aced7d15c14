use cluster_terms::Replication;
use node_directory::Directory;
use std::alloc::Global;

/// A replication, and the directory that has the datacenter of each node: they tell the groups in which nodes are placed.
#[derive(Drop)]
pub struct Grouping<'a> {
    pub alloc: Global,
    pub directory: &'a Directory,
    pub replication: &'a Replication,
}
