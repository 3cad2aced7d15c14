//! The cancel of a movement.

ghost use Rattle.std.specs.Prelude.{◌≡◌, None};
ghost use Rattle.std.specs.List.Sorted.{IsStrictlySortedBy};
ghost use Rattle.transformations.specs.Orders.{by_node};
ghost use Rattle.transformations.specs.Refusals.{early_refusal_of};
ghost use Rattle.transformations.specs.Rings.{is_mid};
ghost use Rattle.transformations.specs.declared.command.Command.TheVariants as command;
ghost use Rattle.cluster_metadata.specs.code.Change.{IsChange};

use crate::changes::change::Change;
use crate::movements::stepping::position_of;
use cluster_terms::NodeId;
use transformations::{Image, Phase};

/// Whether a movement at a phase is half way.
pub fn is_mid(phase: Phase) -> bool
    ensures { result ≡ is_mid phase }
{
    matches!(phase, Phase::Mid)
}

/// The change that cancels the movement of a node: from `Mid` it goes back to `Started`, from another phase it ends.
pub fn cancel(image: &Image, node: NodeId) -> Change
    requires movements { IsStrictlySortedBy by_node image.now.sequences }
    requires accepted { early_refusal_of image.now (command.Cancel node) ≡ None }
    ensures { IsChange image.now (command.Cancel node) result }
{
    let sequences = image.sequences.as_slice();
    let at = position_of(sequences, node);
    let row = &sequences[at];
    if is_mid(row.phase) {
        return Change::BroughtBack { at };
    }
    Change::Ended { at }
}
