ghost use Rattle.std.specs.Prelude.{◌≡◌};
ghost use Rattle.std.specs.Option.{option_copied};
ghost use Rattle.transformations.specs.Movements.{is_next_step, movement_of, phase_before, takes_part};

use crate::image::Image;
use crate::sequence::{Goal, Kind, Phase, SeqRow};
use crate::state::has_pair;
use cluster_terms::NodeId;

/// The movement of a node. Returns `None` if and only if the node has no movement. The cost is a pass over the
/// movements.
pub fn movement_of(image: &Image, n: NodeId) -> Option<&SeqRow>
    // Promise: it gives a node's movement, if the node has one. Guards: a_movement_of_the_replaced_node.edit.
    ensures { option_copied result ≡ movement_of image.now n }
{
    image.sequences.as_slice().iter().find(|row| row.node == n)
}

/// Whether a node takes part in a movement: it is the movement's node, or the movement takes out a pair of the node.
pub(crate) fn takes_part(n: NodeId, row: &SeqRow) -> bool
    ensures { result ≡ takes_part n row.now }
{
    row.node == n || has_pair(row.out_pairs.as_slice(), n)
}

/// The phase before a step with this goal.
fn phase_before(goal: Goal) -> Phase
    ensures { result ≡ phase_before goal }
{
    match goal {
        Goal::Start => Phase::Prepared,
        Goal::Mid => Phase::Started,
        Goal::Finish => Phase::Mid,
    }
}

/// Whether a step is the next one of a movement.
pub(crate) fn is_next_step(goal: Goal, kind: Kind, row: &SeqRow) -> bool
    ensures { result ≡ is_next_step goal kind row.now }
{
    row.kind == kind && row.phase == phase_before(goal)
}
