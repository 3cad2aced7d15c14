ghost use Rattle.std.specs.Prelude.{◌≡◌, None, IfOk};
ghost use Rattle.transformations.specs.Refusals.{early_refusal_of, with_movement};
ghost use Rattle.transformations.specs.Movements.{leave_of};
ghost use Rattle.transformations.specs.Valid.{IsSound};
ghost use Rattle.transformations.specs.declared.command.Command.TheVariants as command;

use crate::row_pairs::owned;
use cluster_terms::{Memory, NodeId, Pair, PairList};
use std::alloc::Global;
use transformations::{Image, Kind, Phase, SeqRow};

/// The row of a prepared leave.
fn leave_with(alloc: Global, ring: &[Pair], node: NodeId) -> Result<SeqRow, Memory>
    ensures { IfOk result (λ row. row ≡ leave_of ring.now node) }
{
    let out_pairs = owned(alloc, ring, node)?;
    let in_pairs = PairList::empty(alloc);
    Ok(SeqRow {
        node,
        kind: Kind::Leave,
        out_pairs,
        in_pairs,
        phase: Phase::Prepared,
    })
}

/// The row of a prepared leave: it takes the node's pairs out, and puts none in. The image has no early refusal of the
/// leave, so it stays sound with this row. It takes memory for its pairs, one for each token of the node. Cost: one
/// pass over the ring.
pub fn leave_row(alloc: Global, image: &Image, node: NodeId) -> Result<SeqRow, Memory>
    requires sound { IsSound image.now }
    requires early { early_refusal_of image.now (command.PrepareLeave node) ≡ None }
    // Promise: a leave is prepared, and takes the node's pairs out. Guards: tried.
    ensures row { IfOk result (λ row. row ≡ leave_of image.now.tokens node) }
    // Promise: the image stays sound with this row. Guards: by `row`.
    ensures sound { IfOk result (λ row. IsSound (with_movement image.now row)) }
{
    leave_with(alloc, image.tokens.as_slice(), node)
}
