ghost use Rattle.std.specs.Prelude.{◌≡◌, IfOk};
ghost use Rattle.std.specs.List.{list_any};
ghost use Rattle.cluster_terms.specs.Replication.{same_replication};
ghost use Rattle.placement_deltas.specs.Replications.{replications_of};

use cluster_terms::{Memory, Replication, SmallList, TryCopy};
use std::alloc::Global;
use transformations::KeyspaceRow;

/// A list of replications.
pub type Replications = SmallList<Replication>;

fn has(replications: &[Replication], replication: &Replication) -> bool
    ensures { result ≡ list_any (λ r. same_replication r replication.now) replications.now }
{
    replications.iter().any(|other| other.same(replication))
}

/// The replications of these keyspaces, each once, in the order in which they first appear.
pub fn replications_of(alloc: Global, keyspaces: &[KeyspaceRow]) -> Result<Replications, Memory>
    ensures { IfOk result (λ list. list ≡ replications_of keyspaces.now) }
{
    let mut list = Replications::empty(alloc);
    for row in keyspaces {
        if !has(list.as_slice(), &row.replication) {
            list.push(row.replication.copy()?)?;
        }
    }
    Ok(list)
}
