ghost use Rattle.std.specs.Prelude.{◌≡◌, ◌<◌, [], ◌++◌, ◌↔◌, Some, length, IfErr, IfOk, IsErrOf, IsTrue, OnOk};
ghost use Rattle.std.specs.Io.KnownBytes.{WriteAppends};
ghost use Rattle.tcm_edges.specs.Calls.{fresh_plan, next_fails, call_passed, failed};
ghost use Rattle.tcm_edges.specs.Causes.{count_write, OnFailed, OnMemory};
ghost use Rattle.tcm_edges.specs.Writes.{KeptAtMemory, TakesSome, TellsAlike};

use crate::calls::{CallList, Calls};
use crate::fault::WriteFault;
use crate::sink::Sink;
use crate::sure_sink::SureSink;
use std::alloc::Global;
use std::marker::Model;

/// A sink in memory that fails at the writes with the listed numbers, and otherwise only if memory runs out. A write
/// that runs out of memory is not counted.
#[derive(Debug, Drop)]
pub struct MemSink {
    sink: SureSink,
    calls: Calls<u64>,
}

impl Model for MemSink {
    ghost use Rattle.tcm_edges.specs.FailingText.{FailingText};

    ghost Value = { FailingText };

    ghost view = { λ sink. record { bytes = sink.sink; plan = sink.calls } };
}

impl MemSink {
    /// An empty sink that fails at the writes with these numbers.
    pub fn new(alloc: Global, fails: CallList) -> MemSink
        ensures bytes { result.bytes ≡ [] }
        ensures plan { result.plan ≡ fresh_plan fails }
    {
        MemSink {
            sink: SureSink::new(alloc),
            calls: Calls::new(fails),
        }
    }

    /// The bytes written.
    pub fn bytes(&self) -> &[u8]
        ensures { result.now ≡ self.now.bytes }
    {
        self.sink.bytes()
    }
}

impl Sink for MemSink {
    ghost written = { λ sink. Some sink.bytes };

    ghost faults = { λ sink. sink.plan.faults };

    /// A listed write returns `Failed`, and takes no byte. Any other takes all bytes. Returns `Memory` if memory runs
    /// out; then nothing changes, and the write isn't counted.
    fn write(&mut self, bytes: &[u8]) -> Result<usize, WriteFault>
        requires { 0 < length bytes.now }
        ensures bound { TakesSome result bytes.now }
        ensures bytes { WriteAppends (Some self.old.bytes) (Some self.new.bytes) result bytes.now }
        ensures cause { self.new.plan.faults ≡ count_write result self.old.plan.faults }
        ensures memory { KeptAtMemory (Some self.old.bytes) (Some self.new.bytes) result }
        ensures told { TellsAlike (Some self.old.bytes) (Some self.new.bytes) }
        ensures fails { IsErrOf result WriteFault.Failed ↔ IsTrue (next_fails self.old.plan) }
        ensures whole { IfOk result (λ n. n ≡ length bytes.now) }
        ensures after { OnOk result (self.new
            ≡ record { bytes = self.old.bytes ++ bytes.now; plan = call_passed self.old.plan }) }
        ensures failed { IfErr result (λ fault. OnFailed fault
            (self.new ≡ record self.old { plan = failed self.old.plan })) }
        ensures unchanged { IfErr result (λ fault. OnMemory fault (self.new ≡ self.old)) }
    {
        if self.calls.next_fails() {
            self.calls.fail();
            return Err(WriteFault::Failed);
        }
        let taken = self.sink.write(bytes)?;
        self.calls.pass();
        Ok(taken)
    }
}
