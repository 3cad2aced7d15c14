ghost use Rattle.std.specs.Prelude.{◌≡◌, find, map, is_some, IfOk};
ghost use Rattle.std.specs.Option.{option_copied};
ghost use Rattle.cluster_terms.specs.NodeRow.{row_of};
ghost use Rattle.cluster_terms.specs.Replication.{datacenter_group, groups_of, rack_within};
ghost use Rattle.stream_plan.specs.Sources as spec;

use crate::grouping::Grouping;
use crate::replaced::Replaced;
use crate::stream_row::StreamFrom;
use cluster_terms::{Factors, Memory, Name, NodeId, Replication, Rf, TryCopy};
use node_directory::Directory;
use node_sets::NodeSet;
use quorum_sets::within;

/// The lost node in the place of a gained node.
fn paired(gained: &[NodeId], lost: &[NodeId], n: NodeId) -> Option<NodeId>
    ensures { result ≡ spec.paired gained.now lost.now n }
{
    for (to, from) in gained.iter().zip(lost) {
        if n == *to {
            return Some(*from);
        }
    }
    None
}

/// The row of the datacenter in which a node is registered, if the factors name it.
fn home<'a>(directory: &Directory, factors: &'a Factors, n: NodeId) -> Option<&'a (Name, Rf)>
    ensures { option_copied result
        ≡ find (λ f. is_some (rack_within f.0 (row_of directory.now.rows n))) factors.now }
{
    factors
        .rows()
        .iter()
        .find(|row| directory.rack_in(&row.0, n).is_some())
}

/// The node from which a node streams strictly, where the groups are the datacenters of the factors.
fn local_source(
    grouping: &Grouping,
    factors: &Factors,
    replaced: &Replaced,
    n: NodeId,
) -> Result<Option<NodeId>, Memory>
    ensures { IfOk result
        (λ source. source
        ≡ spec.strict_source (map (datacenter_group grouping.now.directory.now.rows) factors.now)
        replaced.now.gained.now replaced.now.lost.now n) }
{
    match home(grouping.directory, factors, n) {
        Some(row) => {
            let gained = within(grouping.alloc, grouping.directory, &row.0, replaced.gained)?;
            let lost = within(grouping.alloc, grouping.directory, &row.0, replaced.lost)?;
            Ok(paired(gained.ids(), lost.ids(), n))
        }
        None => Ok(None),
    }
}

/// The node from which a node streams strictly, if there is one.
fn strict_source(
    grouping: &Grouping,
    replaced: &Replaced,
    n: NodeId,
) -> Result<Option<NodeId>, Memory>
    ensures { IfOk result
        (λ source. source
        ≡ spec.strict_source (groups_of grouping.now.directory.now.rows grouping.now.replication.now)
        replaced.now.gained.now replaced.now.lost.now n) }
{
    match grouping.replication {
        Replication::Simple(_) => Ok(paired(replaced.gained.ids(), replaced.lost.ids(), n)),
        Replication::Topology(factors) => local_source(grouping, factors, replaced, n),
    }
}

/// The nodes from which a node streams that has this strict source, or none.
fn from_source(before: &NodeSet, source: Option<NodeId>) -> Result<StreamFrom, Memory>
    ensures { IfOk result (λ from. from ≡ spec.from_source before.now source) }
{
    match source {
        Some(source) => Ok(StreamFrom::Strict(source)),
        None => Ok(StreamFrom::AnyOf(before.copy()?)),
    }
}

/// The nodes from which a gained node streams.
pub(crate) fn streams_from(
    grouping: &Grouping,
    replaced: &Replaced,
    n: NodeId,
) -> Result<StreamFrom, Memory>
    ensures { IfOk result
        (λ from. from
        ≡ spec.streams_from (groups_of grouping.now.directory.now.rows grouping.now.replication.now)
        replaced.now.before.now replaced.now.gained.now replaced.now.lost.now n) }
{
    let source = strict_source(grouping, replaced, n)?;
    from_source(replaced.before, source)
}
