//! The faults that end a run early.

ghost use Rattle.std.specs.Prelude.{◌≡◌};
ghost use Rattle.tcm_session.specs.declared.run_fault.RunFault.TheVariants as run;
ghost use Rattle.tcm_session.specs.code.RunFaults.{of_load, of_step, of_write};

use cluster_terms::Memory;
use script_session::StepFault;
use std::alloc::AllocError;
use tcm_edges::{Failed, LoadFault, WriteFault};

/// Why a run ended early.
#[derive(Clone, Copy, Debug, PartialEq, Eq)]
pub enum RunFault {
    /// Memory ran out.
    Memory,
    /// The source failed.
    Source,
    /// The sink failed.
    Sink,
    /// The store failed.
    Store,
}

impl From<Memory> for RunFault {
    ghost from_gives = { λ _ fault. fault ≡ run.Memory };

    fn from(_memory: Memory) -> RunFault {
        RunFault::Memory
    }
}

impl From<AllocError> for RunFault {
    ghost from_gives = { λ _ fault. fault ≡ run.Memory };

    fn from(_error: AllocError) -> RunFault {
        RunFault::Memory
    }
}

impl From<Failed> for RunFault {
    ghost from_gives = { λ _ fault. fault ≡ run.Source };

    fn from(_failed: Failed) -> RunFault {
        RunFault::Source
    }
}

impl From<WriteFault> for RunFault {
    ghost from_gives = { λ cause fault. fault ≡ of_write cause };

    fn from(cause: WriteFault) -> RunFault {
        match cause {
            WriteFault::Failed => RunFault::Sink,
            WriteFault::Memory => RunFault::Memory,
        }
    }
}

impl From<LoadFault> for RunFault {
    ghost from_gives = { λ cause fault. fault ≡ of_load cause };

    fn from(cause: LoadFault) -> RunFault {
        match cause {
            LoadFault::Failed => RunFault::Store,
            LoadFault::Memory => RunFault::Memory,
        }
    }
}

impl From<StepFault> for RunFault {
    ghost from_gives = { λ cause fault. fault ≡ of_step cause };

    fn from(cause: StepFault) -> RunFault {
        match cause {
            StepFault::Memory => RunFault::Memory,
            StepFault::Store => RunFault::Store,
        }
    }
}
