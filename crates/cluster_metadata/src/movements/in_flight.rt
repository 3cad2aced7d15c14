ghost use Rattle.std.specs.Prelude.{◌≡◌, []};

use crate::movements::running::Running;
use locked_ranges::LockTable;
use std::alloc::Global;

/// The movements in flight: a value for each, in the order of their nodes, and the table of their locks.
pub struct InFlight {
    pub running: Vec<Running>,
    pub locks: LockTable,
}

impl InFlight {
    /// No movement, and no lock.
    pub fn empty(alloc: Global) -> InFlight
        ensures running { result.running.items ≡ [] }
        ensures locks { result.locks ≡ [] }
    {
        InFlight {
            running: Vec::new(alloc),
            locks: LockTable::empty(alloc),
        }
    }
}
