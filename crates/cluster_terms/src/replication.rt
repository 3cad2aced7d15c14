ghost use Rattle.std.specs.Prelude.{◌≡◌, ◌≤◌, IfOk, OnOk};
ghost use Rattle.std.specs.Cmp.Lexicographic.{pointwise};
ghost use Rattle.std.specs.List.{list_all, zip};
ghost use Rattle.cluster_terms.specs.Replication.{IsReplication, same_factor_row, same_replication, total_of};

use crate::factors::Factors;
use crate::list::TryCopy;
use crate::memory::Memory;
use crate::name::Name;
use crate::rf::Rf;

/// The replication of a keyspace: how many replicas it has in all (SimpleStrategy), or in each named datacenter
/// (NetworkTopologyStrategy).
#[derive(Debug, Drop)]
pub enum Replication {
    /// SimpleStrategy, with its factor.
    Simple(Rf),
    /// NetworkTopologyStrategy, with the factor of each datacenter that it names.
    Topology(Factors),
}

/// Whether two rows have the same datacenter and the same factor.
fn same_row(row: &(Name, Rf), other: &(Name, Rf)) -> bool
    ensures { result ≡ same_factor_row row.now other.now }
{
    row.0.as_str() == other.0.as_str() && row.1 == other.1
}

/// Whether the rows are the same at each position that both lists have.
fn same_beside(rows: &[(Name, Rf)], others: &[(Name, Rf)]) -> bool
    ensures { result ≡ list_all (λ beside. same_factor_row beside.0 beside.1) (zip rows.now others.now) }
{
    rows.iter()
        .zip(others)
        .all(|(row, other)| same_row(row, other))
}

/// Whether two lists have the same rows in the same order.
fn same_rows(rows: &[(Name, Rf)], others: &[(Name, Rf)]) -> bool
    ensures { result ≡ pointwise same_factor_row rows.now others.now }
{
    rows.len() == others.len() && same_beside(rows, others)
}

impl Replication {
    /// The number of replicas asked for in all, from 1 to 256: the factor, or the sum of the factors.
    pub fn total(&self) -> u32
        ensures value { result ≡ total_of self.now }
        ensures low { 1 ≤ result }
        ensures high { result ≤ 256 }
        ensures valid { IsReplication self.now }
    {
        match self {
            Replication::Simple(rf) => u32::from(rf.value()),
            Replication::Topology(factors) => factors.total(),
        }
    }

    /// Whether both replications have the same strategy and the same factors.
    pub fn same(&self, other: &Replication) -> bool
        // Promise: two replications are the same if and only if they are equal, with the lemma
        // `same_replication-exact`. Guards: calls/terms.rt, tried.
        ensures { result ≡ same_replication self.now other.now }
    {
        match (self, other) {
            (Replication::Simple(rf), Replication::Simple(other)) => rf == other,
            (Replication::Topology(factors), Replication::Topology(others)) => {
                same_rows(factors.rows(), others.rows())
            }
            _ => false,
        }
    }
}

impl TryCopy for Replication {
    fn copy(&self) -> Result<Replication, Memory>
        ensures copied { IfOk result (λ copied. copied ≡ self.now) }
        ensures valid { OnOk result (IsReplication self.now) }
    {
        match self {
            Replication::Simple(rf) => Ok(Replication::Simple(rf.copy()?)),
            Replication::Topology(factors) => Ok(Replication::Topology(factors.copy()?)),
        }
    }
}
