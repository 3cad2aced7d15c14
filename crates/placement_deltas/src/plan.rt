use crate::delta_book::DeltaBook;
use cluster_terms::TokenList;
use token_ring::{LockRows, RangeBook};
use transformations::SeqRow;

/// The plan of a movement, made when it is prepared: its row, the cuts of the image with this row, its ranges under
/// each replication, and the ranges of all other movements (`wide`). Of a plan that `Metadata` keeps, only the row and
/// the deltas are told.
///
/// `gain` adds the gained nodes to the writes. `swap` takes the lost nodes from the reads and adds the gained nodes.
/// `lose` takes the lost nodes from the writes. They are three deltas, so whoever carries out a step reads one list.
#[derive(Drop)]
pub struct Plan {
    pub row: SeqRow,
    pub cuts: TokenList,
    pub ranges: RangeBook,
    pub wide: LockRows,
    pub gain: DeltaBook,
    pub swap: DeltaBook,
    pub lose: DeltaBook,
}
