ghost use Rattle.std.specs.Prelude.{◌≡◌, true, None, IfOk};
ghost use Rattle.transformations.specs.History.{is_command};
ghost use Rattle.transformations.specs.Refusals.{early_refusal_of, with_movement};
ghost use Rattle.transformations.specs.Movements.{join_of};
ghost use Rattle.transformations.specs.Valid.{IsSound};
ghost use Rattle.transformations.specs.declared.command.Command.TheVariants as command;

use crate::row_pairs::pairs_with;
use cluster_terms::{Memory, NodeId, PairList, Token, TokenList};
use std::alloc::Global;
use transformations::{Image, Kind, Phase, SeqRow};

/// The row of a prepared join.
fn join_with(alloc: Global, node: NodeId, tokens: &[Token]) -> Result<SeqRow, Memory>
    ensures { IfOk result (λ row. row ≡ join_of node tokens.now) }
{
    Ok(SeqRow {
        node,
        kind: Kind::Join,
        out_pairs: PairList::empty(alloc),
        in_pairs: pairs_with(alloc, node, tokens)?,
        phase: Phase::Prepared,
    })
}

/// The row of a prepared join: it takes no pair out, and puts in the node's tokens. The image has no early refusal of
/// the join, so it stays sound with this row. It takes memory for its pairs, one for each token.
pub fn join_row(
    alloc: Global,
    image: &Image,
    node: NodeId,
    tokens: &TokenList,
) -> Result<SeqRow, Memory>
    requires sound { IsSound image.now }
    requires formed { is_command (command.PrepareJoin node tokens.now) ≡ true }
    requires early { early_refusal_of image.now (command.PrepareJoin node tokens.now) ≡ None }
    // Promise: a join is prepared, takes no pair out, and puts in the pairs of its node and tokens. Guards: tried.
    ensures row { IfOk result (λ row. row ≡ join_of node tokens.now) }
    // Promise: the image stays sound with this row. Guards: by `row`.
    ensures sound { IfOk result (λ row. IsSound (with_movement image.now row)) }
{
    let _ = image;
    join_with(alloc, node, tokens.as_slice())
}
