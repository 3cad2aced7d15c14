ghost use Rattle.std.specs.Prelude.{◌≡◌, None, IfOk};
ghost use Rattle.transformations.specs.Refusals.{early_refusal_of, with_movement};
ghost use Rattle.transformations.specs.Movements.{replace_of};
ghost use Rattle.transformations.specs.Valid.{IsSound};
ghost use Rattle.transformations.specs.declared.command.Command.TheVariants as command;

use crate::row_pairs::{handed_over, owned};
use cluster_terms::{Memory, NodeId, Pair};
use std::alloc::Global;
use transformations::{Image, Kind, Phase, SeqRow};

/// The row of a prepared replace.
fn replace_with(alloc: Global, ring: &[Pair], node: NodeId, gone: NodeId) -> Result<SeqRow, Memory>
    ensures { IfOk result (λ row. row ≡ replace_of ring.now node gone) }
{
    let out_pairs = owned(alloc, ring, gone)?;
    let in_pairs = handed_over(alloc, out_pairs.as_slice(), node)?;
    Ok(SeqRow {
        node,
        kind: Kind::Replace,
        out_pairs,
        in_pairs,
        phase: Phase::Prepared,
    })
}

/// The row of a prepared replace: it takes out the pairs of `gone`, and puts in the same tokens with the new node. The
/// image has no early refusal of the replace, so it stays sound with this row. It takes memory for its pairs, two for
/// each token of `gone`. Cost: one pass over the ring.
pub fn replace_row(
    alloc: Global,
    image: &Image,
    node: NodeId,
    gone: NodeId,
) -> Result<SeqRow, Memory>
    requires sound { IsSound image.now }
    requires early { early_refusal_of image.now (command.PrepareReplace node gone) ≡ None }
    // Promise: a replace is prepared, takes out the pairs of the node that is gone, and puts in the same tokens with
    // its own node. Guards: a_replace_that_hands_nothing_over.edit, tried.
    ensures row { IfOk result (λ row. row ≡ replace_of image.now.tokens node gone) }
    // Promise: the image stays sound with this row. Guards: by `row`.
    ensures sound { IfOk result (λ row. IsSound (with_movement image.now row)) }
{
    replace_with(alloc, image.tokens.as_slice(), node, gone)
}
