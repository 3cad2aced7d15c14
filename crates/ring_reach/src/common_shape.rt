ghost use Rattle.std.specs.Prelude.{◌≡◌, ◌≤◌, IfSome};
ghost use Rattle.node_directory.specs.Members.{group_of};
ghost use Rattle.ring_reach.specs.code.CommonShape as code;

use cluster_terms::Pair;
use node_directory::{Members, Shape, shape_of};

/// The shape of a group, if it is the same in a ring of the fixed pairs and in the widest set of pairs. Returns `None`
/// if and only if the two shapes differ. The cost is that of `node_directory::shape_of`, twice.
pub fn common_shape(members: &Members, fixed: &[Pair], widest: &[Pair]) -> Option<Shape>
    ensures common { result ≡ code.common_shape (group_of members.now) fixed.now widest.now }
    ensures bound { IfSome result (λ shape. shape.wanted ≤ 16) }
{
    let shape = shape_of(members, fixed);
    if shape == shape_of(members, widest) {
        Some(shape)
    } else {
        None
    }
}
