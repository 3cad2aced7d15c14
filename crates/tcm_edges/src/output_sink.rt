ghost use Rattle.std.specs.Prelude.{◌≡◌, ◌<◌, ◌≤◌, IfSome, take, length, IfOk, IsOkUnless};
ghost use Rattle.std.specs.Io.KnownBytes.{Appends, WriteAppends};
ghost use Rattle.tcm_edges.specs.Causes.{count_write};
ghost use Rattle.tcm_edges.specs.Owed.{WritesPrefix};
ghost use Rattle.tcm_edges.specs.Writes.{KeptAtMemory, TakesSome, TellsAlike, untold};

use crate::fault::WriteFault;
use crate::sink::Sink;
use std::io::Write;
use std::marker::Model;

/// A sink over a writer such as standard output, which it flushes at each write. It tells nothing of the bytes written.
#[derive(Drop)]
pub struct OutputSink<W> {
    writer: W,
    failed: u64,
}

impl<W> Model for OutputSink<W> {
    ghost use Rattle.tcm_edges.specs.Counted.{Counted};

    ghost Value = { Counted W };

    ghost view = { λ sink. record { inner = sink.writer; failures = sink.failed } };
}

impl<W> OutputSink<W> {
    /// A sink over this writer, with a count of 0 failures.
    pub fn new(writer: W) -> Self
        ensures { result ≡ record { inner = writer; failures = 0 } }
    {
        OutputSink { writer, failed: 0 }
    }
}

/// Writes once and flushes. Returns the length taken, or `None` if either call failed or no byte was taken; then a
/// prefix of the bytes may be written.
fn write_out<W: Write>(writer: &mut W, bytes: &[u8]) -> Option<usize>
    ensures some { IfSome result (λ n. (1 ≤ n) × (n ≤ length bytes.now)) }
    ensures bytes { IfSome result (λ n.
        Appends (W.contents writer.old) (W.contents writer.new) (take n bytes.now)) }
    ensures part { WritesPrefix (W.contents writer.old) (W.contents writer.new) bytes.now }
{
    let Ok(n) = writer.write(bytes) else {
        return None;
    };
    if n == 0 {
        return None;
    }
    // A flush that fails counts as a fault, though the bytes may have gone out. No clause can see a flush.
    if writer.flush().is_err() {
        return None;
    }
    Some(n)
}

impl<W: Write> Sink for OutputSink<W> {
    ghost written = { λ _. untold };

    ghost faults = { λ sink. sink.failures };

    /// Returns `Failed` for each error of the writer, and if the writer takes no byte. If the flush fails, a prefix of
    /// the piece may be written.
    fn write(&mut self, bytes: &[u8]) -> Result<usize, WriteFault>
        requires { 0 < length bytes.now }
        ensures bound { TakesSome result bytes.now }
        ensures bytes { WriteAppends untold untold result bytes.now }
        ensures cause { self.new.failures ≡ count_write result self.old.failures }
        ensures memory { KeptAtMemory untold untold result }
        ensures told { TellsAlike untold untold }
        // Promise: an adapter passes on the reader's bytes, and reports no more bytes written than the writer took.
        // Guards: write_claims_all.edit.
        ensures passed { IfOk result (λ n.
            Appends (W.contents self.old.inner) (W.contents self.new.inner) (take n bytes.now)) }
        ensures part { WritesPrefix (W.contents self.old.inner) (W.contents self.new.inner) bytes.now }
        ensures sure { IsOkUnless result WriteFault.Failed }
    {
        match write_out(&mut self.writer, bytes) {
            Some(n) => Ok(n),
            None => {
                self.failed = self.failed.saturating_add(1);
                Err(WriteFault::Failed)
            }
        }
    }
}
