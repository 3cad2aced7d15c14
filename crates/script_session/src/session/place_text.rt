//! Answers to placement queries.

ghost use Rattle.std.specs.Prelude.{◌≡◌, ◌++◌, length, take, OnOk};
ghost use Rattle.placement_maps.specs.Served.{keyspace_of};
ghost use Rattle.script_session.specs.Machine.{placements};

use cluster_metadata::Metadata;
use cluster_terms::{ByteText, Memory, Name};
use script_lang::{no_text, place_text};

/// Adds the placements of a keyspace, or `NO KEYSPACE` if no keyspace has this name. If memory runs out, `out` still
/// begins with its old content.
///
/// Cost: the placement map of the keyspace is read once. No replica is placed.
pub fn placements_text(
    metadata: &Metadata,
    keyspace: &Name,
    out: &mut ByteText,
) -> Result<(), Memory>
    ensures added { OnOk result (out.new
        ≡ out.old ++ placements metadata.now (keyspace_of metadata.now keyspace.now)) }
    ensures kept { take (length out.old) out.new ≡ out.old }
{
    match metadata.placements(keyspace) {
        None => no_text(b"KEYSPACE", out),
        Some(map) => place_text(metadata.epoch(), keyspace, map, out),
    }
}
