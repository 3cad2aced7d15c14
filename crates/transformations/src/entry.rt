ghost use Rattle.std.specs.Prelude.{◌≡◌, ◌↔◌, IsTrue};

use crate::command::Command;
use cluster_terms::{Memory, TryCopy};

/// An entry of the log: a command that was accepted, the id of its commit, and the epoch that it made.
#[derive(Debug, Drop)]
pub struct Entry {
    pub id: u64,
    pub epoch: u64,
    pub cmd: Command,
}

impl Entry {
    /// Returns `true` if and only if the other entry has the same id, the same epoch and an equal command. The cost is
    /// at most one comparison of each field.
    pub fn same(&self, other: &Entry) -> bool
        ensures { IsTrue result ↔ (self.now ≡ other.now) }
    {
        self.id == other.id && self.epoch == other.epoch && self.cmd.same(&other.cmd)
    }
}

impl TryCopy for Entry {
    fn copy(&self) -> Result<Entry, Memory> {
        Ok(Entry {
            id: self.id,
            epoch: self.epoch,
            cmd: self.cmd.copy()?,
        })
    }
}
