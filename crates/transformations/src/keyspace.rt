ghost use Rattle.std.specs.Prelude.{◌≡◌};

use cluster_terms::{Memory, Name, Ordered, Replication, SmallList, TryCopy};
use std::cmp::Ordering;

/// A keyspace and its replication.
#[derive(Debug, Drop)]
pub struct KeyspaceRow {
    pub name: Name,
    pub replication: Replication,
}

/// Keyspaces, ascending by the bytes of their names.
pub type KeyspaceRows = SmallList<KeyspaceRow>;

impl TryCopy for KeyspaceRow {
    fn copy(&self) -> Result<KeyspaceRow, Memory> {
        Ok(KeyspaceRow {
            name: self.name.copy()?,
            replication: self.replication.copy()?,
        })
    }
}

impl Ordered for KeyspaceRow {
    ghost use Rattle.std.specs.Cmp.{on_total, nat_cmp_total};
    ghost use Rattle.std.specs.Cmp.Lexicographic.{lists_total};
    ghost use Rattle.transformations.specs.Orders.{by_name};

    ghost order = { by_name };

    ghost total = { on_total (λ row. row.name) (lists_total nat_cmp_total) };

    fn order(&self, other: &KeyspaceRow) -> Ordering {
        self.name.as_str().cmp(other.name.as_str())
    }
}
