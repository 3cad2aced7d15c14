ghost use Rattle.std.specs.Prelude.{◌≡◌, ◌≤◌, length, is_some, IfSome, IsSome};
ghost use Rattle.std.specs.Option.{option_copied};
ghost use Rattle.cluster_terms.specs.Quorum.{datacenter_of, pending, quorum_of, read_need, within, write_need};
ghost use Rattle.node_sets.specs.NodeSets.{IsNodeSet};
ghost use Rattle.quorum_sets.specs.Existing.{ExistTogether};
ghost use Rattle.quorum_sets.specs.Sets.{IfDatacenter, whole_sets};

use crate::datacenter::is_within;
use crate::needs::Quorum;
use cluster_terms::{Factors, Name, NodeId, Replication, Rf};
use node_directory::Directory;
use node_sets::NodeSet;

/// Half of the replicas that are asked for, rounded down, plus one.
fn quorum_of(total: u32) -> u32
    ensures { result ≡ quorum_of total }
{
    total / 2 + 1
}

/// The number of pending nodes: the nodes that are written and not read.
fn count_pending(reads: &NodeSet, writes: &NodeSet) -> usize
    ensures count { result ≡ length (pending reads.now writes.now) }
    ensures reads { IsNodeSet reads.now }
    ensures writes { IsNodeSet writes.now }
{
    let _ = reads.ids();
    writes.ids().iter().filter(|n| !reads.has(**n)).count()
}

/// The needs of QUORUM. A read needs half of the replicas that the replication asks for, rounded down, plus one. A
/// write needs this number plus the number of pending nodes, which are written and not read (CEP-21's pending
/// replicas).
///
/// If each node that is read is written, there are enough nodes to write if and only if there are enough to read.
///
/// Takes no memory. Cost: a binary search for each node that is written.
#[tactic(auto, using(crate::proofs::PendingLemmas::few_pending))]
pub fn quorum(reads: &NodeSet, writes: &NodeSet, replication: &Replication) -> Quorum
    requires { length writes.now ≤ 1024 }
    // Promise: a read needs half of the replicas that are asked for, rounded down, plus one. Guards: quorums.rt, tried.
    ensures read { result.read_need ≡ read_need (whole_sets replication.now reads.now writes.now) }
    // Promise: a write needs as many as a read, and one more for each node that is written and not read. Guards:
    // need_without_pending.edit, quorums.rt, tried.
    ensures write { result.write_need ≡ write_need (whole_sets replication.now reads.now writes.now) }
    // Promise: if each node that is read is written, a write quorum exists if and only if a read quorum does. Guards:
    // need_without_pending.edit.
    ensures exist { ExistTogether reads.now result.read_need writes.now result.write_need }
{
    let read_need = quorum_of(replication.total());
    let pending = count_pending(reads, writes) as u32;
    Quorum {
        read_need,
        write_need: read_need + pending,
    }
}

/// The number of pending nodes of a datacenter: the nodes that are written and not read.
fn count_local_pending(reads: &NodeSet, writes: &NodeSet, dir: &Directory, dc: &Name) -> usize
    ensures count { result ≡ length (pending reads.now (within dir.now.rows dc.now writes.now)) }
    ensures reads { IsNodeSet reads.now }
    ensures writes { IsNodeSet writes.now }
{
    let _ = reads.ids();
    writes
        .ids()
        .iter()
        .filter(|n| is_within(dir, dc, **n))
        .filter(|n| !reads.has(**n))
        .count()
}

fn row_of_datacenter<'a>(factors: &'a Factors, dc: &Name) -> Option<&'a (Name, Rf)>
    ensures { option_copied result ≡ datacenter_of factors.now dc.now }
{
    factors
        .rows()
        .iter()
        .find(|row| row.0.as_str() == dc.as_str())
}

/// Whether a replication's factors name a datacenter. Cost: one pass over the factors.
pub fn names_datacenter(factors: &Factors, dc: &Name) -> bool
    // Promise: `names_datacenter` tells whether factors name a datacenter. Guards: quorums.rt, tried.
    ensures { result ≡ is_some (datacenter_of factors.now dc.now) }
{
    row_of_datacenter(factors, dc).is_some()
}

fn factor_of(factors: &Factors, dc: &Name) -> Rf
    requires { IsSome (datacenter_of factors.now dc.now) }
    ensures { IfSome (datacenter_of factors.now dc.now) (λ f. result ≡ f.1) }
{
    match row_of_datacenter(factors, dc) {
        Some(row) => row.1,
        None => unreachable!(),
    }
}

/// The needs of LOCAL_QUORUM in a datacenter. They are computed as `quorum` does, from the datacenter's own factor and
/// from its own nodes among those that are read and written.
///
/// If each of its nodes that is read is written, it has enough nodes to write if and only if it has enough to read.
///
/// Takes no memory. Cost: a look-up of the row and a binary search for each node that is written.
#[tactic(auto, using(crate::proofs::PendingLemmas::few_kept))]
pub fn local_quorum(
    reads: &NodeSet,
    writes: &NodeSet,
    dir: &Directory,
    factors: &Factors,
    dc: &Name,
) -> Quorum
    requires few { length writes.now ≤ 1024 }
    requires named { IsSome (datacenter_of factors.now dc.now) }
    // Promise: in a datacenter its own factor counts, and only its own pending nodes do. Guards: quorums.rt, tried.
    ensures read { IfDatacenter factors.now dc.now dir.now.rows reads.now writes.now
        (λ sets. result.read_need ≡ read_need sets) }
    ensures write { IfDatacenter factors.now dc.now dir.now.rows reads.now writes.now
        (λ sets. result.write_need ≡ write_need sets) }
    ensures exist { ExistTogether
        (within dir.now.rows dc.now reads.now) result.read_need
        (within dir.now.rows dc.now writes.now) result.write_need }
{
    let rf = factor_of(factors, dc);
    let read_need = quorum_of(u32::from(rf.value()));
    let pending = count_local_pending(reads, writes, dir, dc) as u32;
    Quorum {
        read_need,
        write_need: read_need + pending,
    }
}
