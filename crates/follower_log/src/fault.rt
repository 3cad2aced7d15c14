ghost use Rattle.std.specs.Prelude.{◌≡◌};
ghost use Rattle.follower_log.specs.declared.fault.FollowerFault.TheVariants as fault;

use cluster_terms::Memory;
use transformations::{BadImage, Entry, Refusal};

/// Why a follower refused what it was handed, or could not go on.
#[derive(Debug, Drop)]
pub enum FollowerFault {
    /// Another entry of this epoch waits: the one that waits, and the one that came.
    Fork(u64, Entry, Entry),
    /// The entry of this epoch came to be the next, and its command is refused.
    Refused(u64, Refusal),
    /// The image isn't valid: the first rule of valid images that it breaks, with its value.
    BadImage(BadImage),
    /// Memory ran out, and nothing was taken.
    Memory,
    /// Memory ran out. What was handed was taken. The follower is at this epoch, and the entry of the next one waits.
    MemoryAt(u64),
}

impl From<Memory> for FollowerFault {
    ghost from_gives = { λ _ e. e ≡ fault.Memory };

    fn from(_memory: Memory) -> FollowerFault {
        FollowerFault::Memory
    }
}
