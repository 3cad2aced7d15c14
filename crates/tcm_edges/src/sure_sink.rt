ghost use Rattle.std.specs.Prelude.{◌≡◌, ◌<◌, [], ◌++◌, Some, length, IfOk, IsOkUnless, OnErr, OnOk};
ghost use Rattle.std.specs.Io.KnownBytes.{WriteAppends};
ghost use Rattle.tcm_edges.specs.Causes.{count_write};
ghost use Rattle.tcm_edges.specs.Writes.{KeptAtMemory, TakesSome, TellsAlike};

use crate::fault::WriteFault;
use crate::sink::Sink;
use cluster_terms::Memory;
use std::alloc::Global;
use std::marker::Model;

/// A sink in memory that fails only if memory runs out.
#[derive(Debug, Drop)]
pub struct SureSink {
    written: Vec<u8>,
}

impl Model for SureSink {
    ghost use Rattle.std.specs.Prelude.{List, ℕ};

    ghost Value = { List ℕ };

    ghost view = { λ sink. sink.written.items };
}

impl SureSink {
    /// An empty sink.
    pub fn new(alloc: Global) -> SureSink
        ensures { result ≡ [] }
    {
        SureSink {
            written: Vec::new(alloc),
        }
    }

    /// The bytes written.
    pub fn bytes(&self) -> &[u8]
        ensures { result.now ≡ self.now }
    {
        self.written.as_slice()
    }

    /// Adds bytes at the end. If memory runs out, changes nothing.
    fn push_all(&mut self, bytes: &[u8]) -> Result<(), Memory>
        ensures ok { OnOk result (self.new ≡ self.old ++ bytes.now) }
        ensures err { OnErr result (self.new ≡ self.old) }
    {
        self.written.extend_from_slice(bytes)?;
        Ok(())
    }
}

impl Sink for SureSink {
    ghost written = { λ sink. Some sink };

    ghost faults = { λ _. 0 };

    /// Takes all bytes. Returns `Memory` if memory runs out; then nothing changes.
    fn write(&mut self, bytes: &[u8]) -> Result<usize, WriteFault>
        requires { 0 < length bytes.now }
        ensures bound { TakesSome result bytes.now }
        ensures bytes { WriteAppends (Some self.old) (Some self.new) result bytes.now }
        ensures cause { 0 ≡ count_write result 0 }
        ensures memory { KeptAtMemory (Some self.old) (Some self.new) result }
        ensures told { TellsAlike (Some self.old) (Some self.new) }
        // Promise: a sink in memory takes all that it is given. Guards: edges.rt, tried.
        ensures whole { IfOk result (λ n. n ≡ length bytes.now) }
        ensures after { OnOk result (self.new ≡ self.old ++ bytes.now) }
        ensures sure { IsOkUnless result WriteFault.Memory }
        ensures kept { OnErr result (self.new ≡ self.old) }
    {
        self.push_all(bytes)?;
        Ok(bytes.len())
    }
}
