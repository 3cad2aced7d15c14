ghost use Rattle.std.specs.Prelude.{◌≡◌};
ghost use Rattle.tcm_edges.specs.declared.fault.WriteFault.TheVariants as write;
ghost use Rattle.tcm_edges.specs.declared.fault.LoadFault.TheVariants as load;

use cluster_terms::Memory;
use std::alloc::{AllocError, AllocFailed};
use thiserror::Error;

/// A read from the outside failed.
#[derive(Clone, Copy, Debug, PartialEq, Eq, Error)]
#[error("the read failed")]
pub struct Failed;

/// Why a write or a change of a file failed.
#[derive(Clone, Copy, Debug, PartialEq, Eq, Error)]
pub enum WriteFault {
    /// The outside failed, or took none of the bytes.
    #[error("the write failed")]
    Failed,
    /// Memory ran out. The call that found no memory wrote nothing.
    #[error("out of memory")]
    Memory,
}

/// Why a file was not loaded.
#[derive(Clone, Copy, Debug, PartialEq, Eq, Error)]
pub enum LoadFault {
    /// The outside failed to give the file.
    #[error("the load failed")]
    Failed,
    /// Memory ran out.
    #[error("out of memory")]
    Memory,
}

impl From<Memory> for WriteFault {
    ghost from_gives = { λ _ fault. fault ≡ write.Memory };

    fn from(_memory: Memory) -> WriteFault {
        WriteFault::Memory
    }
}

impl From<Memory> for LoadFault {
    ghost from_gives = { λ _ fault. fault ≡ load.Memory };

    fn from(_memory: Memory) -> LoadFault {
        LoadFault::Memory
    }
}
