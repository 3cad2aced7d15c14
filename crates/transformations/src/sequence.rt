ghost use Rattle.std.specs.Prelude.{◌≡◌};

use cluster_terms::{Memory, NodeId, Ordered, PairList, SmallList, TryCopy};
use std::cmp::Ordering;

/// The kind of a movement (CEP-21's multi-step operations).
#[derive(Clone, Copy, Debug, PartialEq, Eq)]
pub enum Kind {
    /// The node gets its first tokens.
    Join,
    /// The node exchanges its only token for another one.
    Move,
    /// The node gives up all its tokens, and leaves the cluster.
    Leave,
    /// The node takes over all tokens of another node, which leaves the cluster.
    Replace,
}

/// The phase of a movement: how far it has come.
#[derive(Clone, Copy, Debug, PartialEq, Eq)]
pub enum Phase {
    /// Reads and writes don't see the movement yet.
    Prepared,
    /// Writes go by the ring before the movement and by the ring after it. Reads don't see it yet.
    Started,
    /// Reads see the movement as done. Writes still go by both rings.
    Mid,
}

/// The goal of a step: to start a movement, to bring it half way, or to finish it.
#[derive(Clone, Copy, Debug, PartialEq, Eq)]
pub enum Goal {
    /// From `Prepared` to `Started`.
    Start,
    /// From `Started` to `Mid`.
    Mid,
    /// From `Mid` to the end of the movement.
    Finish,
}

/// A movement in flight: its node, its kind, the pairs that it takes out of the ring, the pairs that it puts in, and
/// its phase. Each list of pairs ascends by token.
#[derive(Debug, Drop)]
pub struct SeqRow {
    pub node: NodeId,
    pub kind: Kind,
    pub out_pairs: PairList,
    pub in_pairs: PairList,
    pub phase: Phase,
}

/// Movements in flight, ascending by node.
pub type SeqRows = SmallList<SeqRow>;

impl TryCopy for SeqRow {
    fn copy(&self) -> Result<SeqRow, Memory> {
        Ok(SeqRow {
            node: self.node,
            kind: self.kind,
            out_pairs: self.out_pairs.copy()?,
            in_pairs: self.in_pairs.copy()?,
            phase: self.phase,
        })
    }
}

impl Ordered for SeqRow {
    ghost use Rattle.std.specs.Cmp.{on_total, nat_cmp_total};
    ghost use Rattle.transformations.specs.Orders.{by_node};

    ghost order = { by_node };

    ghost total = { on_total (λ row. row.node) nat_cmp_total };

    fn order(&self, other: &SeqRow) -> Ordering {
        self.node.0.cmp(&other.node.0)
    }
}
