ghost use Rattle.std.specs.Prelude.{◌≡◌, ℕ, Option, IfErr, IfOk, OnOk};
ghost use Rattle.tcm_edges.specs.Causes.{count_load, count_write, OnFailed};
ghost use Rattle.tcm_edges.specs.Files.{Files, IsLoad, ChangesFile, OthersKept, GainsAll, GainsPart, IsReplaced, IsOldOrNew};
ghost use Rattle.tcm_edges.specs.Shown.{CrashLeaves, ShowsNoMore};
ghost use Rattle.tcm_edges.specs.Writes.{KeptAtMemory, TellsAlike};

use crate::fault::{LoadFault, WriteFault};
use cluster_terms::ByteText;

/// The result of a load.
#[derive(Debug, Drop)]
pub enum Loaded {
    /// The whole file.
    Bytes(ByteText),
    /// There is no file of this name.
    Absent,
    /// The file has this many bytes, more than the limit.
    TooLarge(u64),
}

/// Persistent files, by name.
pub trait Store {
    /// The bytes of each file by name, if the store tells them.
    ghost files: { Self → Option Files };

    /// Whether a crash now may leave these files: those that the store tells, and maybe others. If nothing is known of
    /// crashes, as with `FileStore`, there are no such files. Then the clauses about crashes say nothing.
    ghost shows: { Self → Files → Type 0 };

    /// The count of failures. A call that returns `Failed` adds one, at most up to the greatest `u64`; no other call
    /// does.
    ghost faults: { Self → ℕ };

    /// Returns the bytes of the file with this name if there are at most `limit`, and otherwise only their number. No
    /// file changes. Returns `Failed` if the outside failed, and `Memory` if memory ran out; then the count of failures
    /// is unchanged, too.
    fn load(&mut self, name: &str, limit: u64) -> Result<Loaded, LoadFault>
        // Promise: every load, also of a store that tells nothing, gives at most as many bytes as the limit; a file
        // that is too large has more. Guards: edges.rt, tried.
        ensures found { IfOk result (λ loaded. IsLoad (files self.old) name.now limit loaded) }
        ensures kept { files self.new ≡ files self.old }
        // Promise: a load doesn't add to what a crash may leave. Guards: by the contracts of the stores.
        ensures crash { ShowsNoMore (shows self.old) (shows self.new) }
        ensures cause { faults self.new ≡ count_load result (faults self.old) };

    /// Adds bytes at the end of a file, and makes the file if it is absent. No other file changes. After `Failed` the
    /// file is as before or has gained a prefix of the bytes. After `Memory` the files and the count of failures are
    /// unchanged.
    fn append(&mut self, name: &str, bytes: &[u8]) -> Result<(), WriteFault>
        ensures ok { OnOk result
            (ChangesFile (GainsAll bytes.now) (files self.old) (files self.new) name.now) }
        ensures failed { IfErr result (λ fault. OnFailed fault
            (ChangesFile (GainsPart bytes.now) (files self.old) (files self.new) name.now)) }
        ensures others { OthersKept (files self.old) (files self.new) name.now }
        ensures cause { faults self.new ≡ count_write result (faults self.old) }
        ensures memory { KeptAtMemory (files self.old) (files self.new) result }
        // Promise: after `Ok` a crash leaves only the files that the store tells; after any result, files that it might
        // have left before, or these with this file changed. Guards: by the contracts of the stores.
        ensures crash { CrashLeaves (GainsPart bytes.now) (shows self.old) (shows self.new) (files self.new) name.now result }
        ensures told { TellsAlike (files self.old) (files self.new) };

    /// Replaces the contents of a file by these bytes, and makes the file if it is absent. No other file changes. After
    /// `Failed` the file is as before or has the new contents. After `Memory` the files and the count of failures are
    /// unchanged.
    fn replace(&mut self, name: &str, bytes: &[u8]) -> Result<(), WriteFault>
        ensures ok { OnOk result
            (ChangesFile (IsReplaced bytes.now) (files self.old) (files self.new) name.now) }
        ensures failed { IfErr result (λ fault. OnFailed fault
            (ChangesFile (IsOldOrNew bytes.now) (files self.old) (files self.new) name.now)) }
        ensures others { OthersKept (files self.old) (files self.new) name.now }
        ensures cause { faults self.new ≡ count_write result (faults self.old) }
        ensures memory { KeptAtMemory (files self.old) (files self.new) result }
        ensures crash { CrashLeaves (IsOldOrNew bytes.now) (shows self.old) (shows self.new) (files self.new) name.now result }
        ensures told { TellsAlike (files self.old) (files self.new) };
}
