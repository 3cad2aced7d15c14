//! Images that differ at most in their numbers: the epoch, and the id of the next node.

ghost use Rattle.std.specs.Prelude.{◌≡◌, [], IsTrue};
ghost use Rattle.cluster_metadata.specs.code.MetadataParts.{DiffersInNumbers};

use cluster_terms::Pair;
use node_directory::Directory;
use transformations::{Image, KeyspaceRow};

fn is_same(row: &KeyspaceRow, other: &KeyspaceRow) -> bool
    ensures { IsTrue result → row.now ≡ other.now }
{
    row.name.as_str() == other.name.as_str() && row.replication.same(&other.replication)
}

fn are_same(rows: &[KeyspaceRow], others: &[KeyspaceRow]) -> bool
    ensures { IsTrue result → rows.now ≡ others.now }
{
    if rows.len() != others.len() {
        return false;
    }
    for at in 0..rows.len() {
        if !is_same(&rows[at], &others[at]) {
            return false;
        }
    }
    true
}

fn is_same_ring(pairs: &[Pair], others: &[Pair]) -> bool
    ensures { IsTrue result → pairs.now ≡ others.now }
{
    if pairs.len() != others.len() {
        return false;
    }
    for at in 0..pairs.len() {
        if pairs[at] != others[at] {
            return false;
        }
    }
    true
}

/// Whether no movement is in flight in two images.
fn are_idle(image: &Image, other: &Image) -> bool
    ensures idle { IsTrue result → image.now.sequences ≡ [] }
    ensures other { IsTrue result → other.now.sequences ≡ [] }
{
    image.sequences.as_slice().is_empty() && other.sequences.as_slice().is_empty()
}

/// Returns `true` only if no movement is in flight in two images, and they differ at most in the epoch and in the id of
/// the next node. The directory must hold the nodes of the first.
pub fn differs_in_numbers(image: &Image, directory: &Directory, other: &Image) -> bool
    requires { directory.now.rows ≡ image.now.nodes }
    ensures { IsTrue result → DiffersInNumbers image.now other.now }
{
    if !are_idle(image, other) {
        return false;
    }
    if !is_same_ring(image.tokens.as_slice(), other.tokens.as_slice()) {
        return false;
    }
    if !are_same(image.keyspaces.as_slice(), other.keyspaces.as_slice()) {
        return false;
    }
    directory.has_rows(other.nodes.as_slice())
}
