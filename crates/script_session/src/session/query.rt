//! Queries of the metadata at an epoch.

ghost use Rattle.std.specs.Prelude.{◌≡◌, ◌++◌, length, take, OnOk};
ghost use Rattle.script_session.specs.Machine as spec;

use crate::session::place_text::placements_text;
use crate::session::quorum_text::{local_text, quorum_text};
use cluster_metadata::Metadata;
use cluster_terms::{ByteText, Memory, Name, Token};
use script_lang::nodes_text;
use std::alloc::Global;

/// A query of the metadata at an epoch.
#[derive(Debug, Drop)]
pub enum Query {
    /// The placements of a keyspace.
    Place(Name),
    /// The nodes, and the movements in flight.
    Nodes,
    /// The replicas of a keyspace at a token, and how many of them QUORUM needs.
    Quorum(Name, Token),
    /// The replicas of a keyspace in a datacenter at a token, and how many of them LOCAL_QUORUM needs.
    Local(Name, Name, Token),
}

/// Adds the answer to a query. If memory runs out, `out` still begins with its old content.
pub fn answer_from(
    alloc: Global,
    metadata: &Metadata,
    query: &Query,
    out: &mut ByteText,
) -> Result<(), Memory>
    ensures added { OnOk result (out.new ≡ out.old ++ spec.answer_from query.now metadata.now) }
    ensures kept { take (length out.old) out.new ≡ out.old }
{
    match query {
        Query::Place(keyspace) => placements_text(metadata, keyspace, out),
        Query::Nodes => nodes_text(alloc, metadata.as_image(), out),
        Query::Quorum(keyspace, t) => quorum_text(metadata, keyspace, *t, out),
        Query::Local(keyspace, dc, t) => local_text(alloc, metadata, keyspace, dc, *t, out),
    }
}
