ghost use Rattle.std.specs.Prelude.{◌≡◌, ℕ, ◌<◌, List, [], Option, length, OnOk};
ghost use Rattle.std.specs.Io.KnownBytes.{Appends, WriteAppends};
ghost use Rattle.tcm_edges.specs.Causes.{count_write};
ghost use Rattle.tcm_edges.specs.Owed.{WritesPrefix};
ghost use Rattle.tcm_edges.specs.Writes.{KeptAtMemory, TakesSome, TellsAlike};

use crate::fault::WriteFault;

/// Where bytes go.
pub trait Sink {
    /// The bytes written, if the sink tells them.
    ghost written: { Self → Option (List ℕ) };

    /// The count of failures. A call that returns `Failed` adds one, at most up to the greatest `u64`; no other call
    /// does.
    ghost faults: { Self → ℕ };

    /// Writes a prefix of a piece, which is not empty, and returns its length, at least 1. On an error the bytes that
    /// the sink tells are unchanged. Returns `Failed` if the outside failed or took nothing, and `Memory` if memory ran
    /// out; then the count of failures is unchanged, too.
    fn write(&mut self, bytes: &[u8]) -> Result<usize, WriteFault>
        requires { 0 < length bytes.now }
        ensures bound { TakesSome result bytes.now }
        ensures bytes { WriteAppends (written self.old) (written self.new) result bytes.now }
        ensures cause { faults self.new ≡ count_write result (faults self.old) }
        ensures memory { KeptAtMemory (written self.old) (written self.new) result }
        ensures told { TellsAlike (written self.old) (written self.new) };
}

/// Writes a whole text, with as many writes as the sink needs, and none for an empty text. Returns the error of the
/// first write that fails; a prefix of the text may be written by then.
pub fn write_all<K: Sink>(sink: &mut K, bytes: &[u8]) -> Result<(), WriteFault>
    // Promise: a text is written whole, or a prefix of it. Guards: tried.
    ensures ok { OnOk result (Appends (K.written sink.old) (K.written sink.new) bytes.now) }
    ensures part { WritesPrefix (K.written sink.old) (K.written sink.new) bytes.now }
    ensures cause { K.faults sink.new ≡ count_write result (K.faults sink.old) }
    ensures told { TellsAlike (K.written sink.old) (K.written sink.new) }
    ensures none { bytes.now ≡ [] → sink.new ≡ sink.old }
{
    let mut rest = bytes;
    while !rest.is_empty() {
        let taken = sink.write(rest)?;
        rest = &rest[taken..];
    }
    Ok(())
}
