//! Answers to quorum queries.

ghost use Rattle.std.specs.Prelude.{◌≡◌, ◌<◌, ◌≤◌, ◌++◌, codes, length, option_map, take, is_some, IfSome, IsSome, OnOk};
ghost use Rattle.cluster_terms.specs.Quorum.{datacenter_of};
ghost use Rattle.transformations.specs.Meeting.{datacenters_of};
ghost use Rattle.quorum_sets.specs.Sets.{IfDatacenter};
ghost use Rattle.script_lang.specs.AnswerTexts as spec;
ghost use Rattle.placement_maps.specs.Served.{keyspace_of, served};
ghost use Rattle.script_session.specs.Machine.{local_quorums, quorums};

use cluster_metadata::Metadata;
use cluster_terms::{ByteText, Factors, Memory, Name, Replication, Steps, Token};
use node_sets::NodeSet;
use quorum_sets::{local_quorum, names_datacenter, quorum, within};
use script_lang::{QuorumSets, no_text, sets_text};
use std::alloc::Global;
use std::marker::Brand;
use std::sync::ledger::{Blank, Ledger};

/// The read replicas and the write replicas of a keyspace at a token, as `Metadata::replicas` returns them. Counts no
/// step of the search.
fn replicas<'a>(
    metadata: &'a Metadata,
    keyspace: &Name,
    t: Token,
) -> Option<(&'a NodeSet, &'a NodeSet)>
    ensures sets { option_map (λ sets. (sets.0.now, sets.1.now)) result ≡ served metadata.now keyspace.now t }
    ensures few { IfSome result (λ sets. length sets.1.now ≤ 1024) }
{
    searched::<Brand>(metadata, keyspace, t, Blank::new(1))
}

/// The same, with a counter of steps of its own for the search.
fn searched<'a, L: Ledger>(
    metadata: &'a Metadata,
    keyspace: &Name,
    t: Token,
    blank: Blank,
) -> Option<(&'a NodeSet, &'a NodeSet)>
    requires name { blank.name ≡ L.name }
    requires parts { blank.parts ≡ L.parts }
    requires some { 0 < blank.parts }
    ensures sets { option_map (λ sets. (sets.0.now, sets.1.now)) result ≡ served metadata.now keyspace.now t }
    ensures few { IfSome result (λ sets. length sets.1.now ≤ 1024) }
{
    let mut steps = Steps::<L>::begin(blank);
    metadata.replicas(keyspace, t, &mut steps)
}

/// Adds the read replicas and the write replicas of a keyspace at a token, each with how many of them QUORUM needs; or
/// `NO KEYSPACE` if no keyspace has this name. If memory runs out, `out` still begins with its old content.
pub fn quorum_text(
    metadata: &Metadata,
    keyspace: &Name,
    t: Token,
    out: &mut ByteText,
) -> Result<(), Memory>
    ensures added { OnOk result (out.new
        ≡ out.old ++ quorums metadata.now t (keyspace_of metadata.now keyspace.now)) }
    ensures kept { take (length out.old) out.new ≡ out.old }
{
    let Some(replication) = metadata.replication(keyspace) else {
        return no_text(b"KEYSPACE", out);
    };
    let Some((reads, writes)) = replicas(metadata, keyspace, t) else {
        unreachable!()
    };
    let sets = QuorumSets {
        reads,
        writes,
        needs: quorum(reads, writes, replication),
    };
    sets_text("QUORUM", metadata.epoch(), &sets, out)
}

/// The factors of a replication, if it names the datacenter.
fn factors_naming<'a>(replication: &'a Replication, dc: &Name) -> Option<&'a Factors>
    ensures named { is_some result ≡ is_some (datacenter_of (datacenters_of replication.now) dc.now) }
    ensures factors { IfSome result (λ factors. factors.now ≡ datacenters_of replication.now) }
{
    match replication {
        Replication::Topology(factors) if names_datacenter(factors, dc) => Some(factors),
        _ => None,
    }
}

/// The read replicas and the write replicas in all datacenters.
#[derive(Clone, Copy)]
struct AllReplicas<'a> {
    reads: &'a NodeSet,
    writes: &'a NodeSet,
}

/// Adds the read replicas and the write replicas in a datacenter that the factors name, each with how many of them
/// LOCAL_QUORUM needs.
fn local_sets_text(
    alloc: Global,
    metadata: &Metadata,
    factors: &Factors,
    dc: &Name,
    all: &AllReplicas,
    out: &mut ByteText,
) -> Result<(), Memory>
    requires named { IsSome (datacenter_of factors.now dc.now) }
    requires few { length all.now.writes.now ≤ 1024 }
    ensures added { IfDatacenter factors.now dc.now metadata.now.nodes all.now.reads.now all.now.writes.now
        (λ local. OnOk result (out.new ≡ out.old ++ spec.quorum_text (codes "LOCAL") metadata.now.epoch local)) }
    ensures kept { take (length out.old) out.new ≡ out.old }
{
    let dir = metadata.directory();
    let needs = local_quorum(all.reads, all.writes, dir, factors, dc);
    let local_reads = within(alloc, dir, dc, all.reads)?;
    let local_writes = within(alloc, dir, dc, all.writes)?;
    let local = QuorumSets {
        reads: &local_reads,
        writes: &local_writes,
        needs,
    };
    sets_text("LOCAL", metadata.epoch(), &local, out)
}

/// Adds the read replicas and the write replicas of a keyspace in a datacenter at a token, each with how many of them
/// LOCAL_QUORUM needs; or `NO KEYSPACE` if no keyspace has this name, or `NO DC` if its replication doesn't name the
/// datacenter. If memory runs out, `out` still begins with its old content.
pub fn local_text(
    alloc: Global,
    metadata: &Metadata,
    keyspace: &Name,
    dc: &Name,
    t: Token,
    out: &mut ByteText,
) -> Result<(), Memory>
    ensures added { OnOk result (out.new
        ≡ out.old ++ local_quorums metadata.now dc.now t (keyspace_of metadata.now keyspace.now)) }
    ensures kept { take (length out.old) out.new ≡ out.old }
{
    let Some(replication) = metadata.replication(keyspace) else {
        return no_text(b"KEYSPACE", out);
    };
    let Some(factors) = factors_naming(replication, dc) else {
        return no_text(b"DC", out);
    };
    let Some((reads, writes)) = replicas(metadata, keyspace, t) else {
        unreachable!()
    };
    let all = AllReplicas { reads, writes };
    local_sets_text(alloc, metadata, factors, dc, &all, out)
}
