ghost use Rattle.std.specs.Prelude.{◌≡◌};

use crate::keyspace::KeyspaceRows;
use crate::sequence::SeqRows;
use cluster_terms::{Memory, NodeRows, PairList, TryCopy};

/// The cluster's metadata after a number of commands (CEP-21's ClusterMetadata): the epoch, which is this number; the
/// id of the next node that is registered; the registered nodes, ascending by id; the pairs of the ring, ascending by
/// token; the keyspaces, ascending by name; and the movements in flight, ascending by node.
#[derive(Debug, Drop)]
pub struct Image {
    pub epoch: u64,
    pub next: u32,
    pub nodes: NodeRows,
    pub tokens: PairList,
    pub keyspaces: KeyspaceRows,
    pub sequences: SeqRows,
}

impl TryCopy for Image {
    fn copy(&self) -> Result<Image, Memory> {
        Ok(Image {
            epoch: self.epoch,
            next: self.next,
            nodes: self.nodes.copy()?,
            tokens: self.tokens.copy()?,
            keyspaces: self.keyspaces.copy()?,
            sequences: self.sequences.copy()?,
        })
    }
}
