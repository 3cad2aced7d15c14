ghost use Rattle.std.specs.Prelude.{◌≡◌};
ghost use Rattle.cluster_metadata.specs.declared.admit_fault.AdmitFault.TheVariants as fault;

use transformations::Refusal;

/// Why a command was not admitted.
#[derive(Debug, Drop)]
pub enum AdmitFault {
    /// The image refuses the command.
    Refused(Refusal),
    /// Memory ran out.
    Memory,
}

impl From<cluster_terms::Memory> for AdmitFault {
    ghost from_gives = { λ _ e. e ≡ fault.Memory };

    fn from(_memory: cluster_terms::Memory) -> AdmitFault {
        AdmitFault::Memory
    }
}
