//! The faults that end a step early.

ghost use Rattle.std.specs.Prelude.{◌≡◌};
ghost use Rattle.script_session.specs.declared.fault.StepFault.TheVariants as step;
ghost use Rattle.script_session.specs.Faults.{of_append};

use cluster_terms::Memory;
use tcm_edges::WriteFault;

/// Why a step gave no answer.
#[derive(Clone, Copy, Debug, PartialEq, Eq)]
pub enum StepFault {
    /// Memory ran out.
    Memory,
    /// The store failed to add the line of an entry to the log file.
    Store,
}

impl From<Memory> for StepFault {
    ghost from_gives = { λ _ fault. fault ≡ step.Memory };

    fn from(_memory: Memory) -> StepFault {
        StepFault::Memory
    }
}

impl From<WriteFault> for StepFault {
    ghost from_gives = { λ cause fault. fault ≡ of_append cause };

    fn from(cause: WriteFault) -> StepFault {
        match cause {
            WriteFault::Failed => StepFault::Store,
            WriteFault::Memory => StepFault::Memory,
        }
    }
}
