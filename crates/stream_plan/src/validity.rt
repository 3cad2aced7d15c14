//! Facts about stream plans.

ghost use Rattle.std.specs.Prelude.{ℤ};
ghost use Rattle.std.specs.List.{AllByRecursion, Contains};
ghost use Rattle.transformations.specs.Meeting.{HaveReplications};
ghost use Rattle.transformations.specs.Valid.{IsSound};
ghost use Rattle.transformations.specs.declared.image.Image.{Image};
ghost use Rattle.transformations.specs.declared.sequence.SeqRow.{SeqRow};
ghost use Rattle.stream_plan.specs.Readable.{AreSources};

/// Each strict source of a movement at a token is placed there before the movement and not with it, and it is the source
/// of one node alone.
pub fn strict_sources_leave()
    // Promise: each strict source is placed at the token before the movement and not with it, and is the source of one
    // node alone. Guards: law.
    ensures { (image : Image) (s : SeqRow) (x : ℤ) → IsSound image → HaveReplications image
        → Contains image.sequences s
        → AllByRecursion (λ k. AreSources image k.replication s x) image.keyspaces }
{}
