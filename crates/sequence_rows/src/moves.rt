ghost use Rattle.std.specs.Prelude.{◌≡◌, None, IfOk};
ghost use Rattle.transformations.specs.Refusals.{early_refusal_of, with_movement};
ghost use Rattle.transformations.specs.Movements.{move_of};
ghost use Rattle.transformations.specs.Valid.{IsSound};
ghost use Rattle.transformations.specs.declared.command.Command.TheVariants as command;

use crate::row_pairs::{owned, pairs_with};
use cluster_terms::{Memory, NodeId, Pair, Token};
use std::alloc::Global;
use transformations::{Image, Kind, Phase, SeqRow};

/// The row of a prepared move.
fn move_with(alloc: Global, ring: &[Pair], node: NodeId, token: Token) -> Result<SeqRow, Memory>
    ensures { IfOk result (λ row. row ≡ move_of ring.now node token) }
{
    let out_pairs = owned(alloc, ring, node)?;
    let in_pairs = pairs_with(alloc, node, &[token])?;
    Ok(SeqRow {
        node,
        kind: Kind::Move,
        out_pairs,
        in_pairs,
        phase: Phase::Prepared,
    })
}

/// The row of a prepared move: it takes the node's only pair out, and puts in its new token. The image has no early
/// refusal of the move, so it stays sound with this row. It takes memory for its two pairs. Cost: one pass over the
/// ring.
pub fn move_row(alloc: Global, image: &Image, node: NodeId, token: Token) -> Result<SeqRow, Memory>
    requires sound { IsSound image.now }
    requires early { early_refusal_of image.now (command.PrepareMove node token) ≡ None }
    // Promise: a move is prepared, takes the node's pairs out and puts its new token in. Guards: tried.
    ensures row { IfOk result (λ row. row ≡ move_of image.now.tokens node token) }
    // Promise: the image stays sound with this row. Guards: by `row`.
    ensures sound { IfOk result (λ row. IsSound (with_movement image.now row)) }
{
    move_with(alloc, image.tokens.as_slice(), node, token)
}
