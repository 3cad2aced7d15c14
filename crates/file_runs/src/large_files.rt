//! Runs over files that are too large.

ghost use Rattle.tcm_edges.specs.Files.{untold_files};

use crate::comparing::leaves;
use crate::running::is_shown;
use std::alloc::Global;
use std::test::Fail;
use tcm_edges::{LoadFault, Loaded, Store, WriteFault};

/// The size of a file with one byte more than the limit.
const TOO_MANY_BYTES: u64 = 536_870_913;

/// A store in which each file has one byte more than the limit. It doesn't tell its files.
#[derive(Drop)]
struct LargeFiles {
    changes: u64,
}

impl Store for LargeFiles {
    ghost files = { λ _. untold_files };

    ghost shows = { λ _ _. ⊥ };

    ghost faults = { λ _. 0 };

    fn load(&mut self, _name: &str, limit: u64) -> Result<Loaded, LoadFault> {
        if limit < TOO_MANY_BYTES {
            Ok(Loaded::TooLarge(TOO_MANY_BYTES))
        } else {
            Err(LoadFault::Memory)
        }
    }

    fn append(&mut self, _name: &str, _bytes: &[u8]) -> Result<(), WriteFault> {
        self.changes = self.changes.saturating_add(1);
        Ok(())
    }

    fn replace(&mut self, _name: &str, _bytes: &[u8]) -> Result<(), WriteFault> {
        self.changes = self.changes.saturating_add(1);
        Ok(())
    }
}

/// Runs words over a file that is too large. Nothing is read or changed.
pub fn is_too_large(alloc: Global, words: &[&str]) -> Result<(), Fail> {
    let mut store = LargeFiles { changes: 0 };
    let name = "a file too large";
    let wanted = (8, "TOO-LARGE 536870912\n");
    is_shown(alloc, name, words, &mut store, wanted)?;
    leaves(alloc, name, "the store", store.changes == 0)
}
