ghost use Rattle.std.specs.Prelude.{length};
ghost use Rattle.durable_log.specs.MemImages.{LeftAt, latest};

use crate::disk_calls::DiskCalls;
use cluster_terms::{ByteText, SmallList};
use std::alloc::Global;

/// What was done to a disk in memory.
#[derive(Debug, Drop)]
pub enum Done {
    /// This many bytes were written at a place, or fewer.
    Wrote(u64, u64),
    /// All of these bytes are on the disk.
    Synced(ByteText),
}

/// A disk in memory, with a list of the calls that are to fail. It keeps all that was done to it, so each call but a
/// read takes memory. Calls of all four kinds are counted together, from 1.
#[derive(Debug, Drop)]
pub struct MemDisk {
    pub(crate) alloc: Global,
    pub(crate) first: ByteText,
    /// The bytes on the disk, once something was written.
    pub(crate) changed: Option<ByteText>,
    pub(crate) done: SmallList<Done>,
    pub(crate) calls: DiskCalls,
    ghost among: { ∥ LeftAt first done (length done) (latest first changed) ∥₁ },
}
