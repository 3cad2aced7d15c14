ghost use Rattle.std.specs.Prelude.{◌≡◌, ◌<◌, length};
ghost use Rattle.std.specs.Io.{ReadsAtMost};
ghost use Rattle.std.specs.Io.KnownBytes.{ReadConsumes};
ghost use Rattle.tcm_edges.specs.Causes.{count_read};
ghost use Rattle.tcm_edges.specs.Writes.{TellsAlike, untold};

use crate::fault::Failed;
use crate::source::Source;
use std::io::Read;
use std::marker::Model;

/// A source over a reader such as standard input. It tells nothing of the bytes to come.
#[derive(Drop)]
pub struct InputSource<R> {
    reader: R,
    failed: u64,
}

impl<R> Model for InputSource<R> {
    ghost use Rattle.tcm_edges.specs.Counted.{Counted};

    ghost Value = { Counted R };

    ghost view = { λ source. record { inner = source.reader; failures = source.failed } };
}

impl<R> InputSource<R> {
    /// A source over this reader, with a count of 0 failures.
    pub fn new(reader: R) -> Self
        ensures { result ≡ record { inner = reader; failures = 0 } }
    {
        InputSource { reader, failed: 0 }
    }
}

impl<R: Read> Source for InputSource<R> {
    ghost left = { λ _. untold };

    ghost faults = { λ source. source.failures };

    /// Returns `Failed` for each error of the reader, and counts the failure.
    fn read(&mut self, buf: &mut [u8]) -> Result<usize, Failed>
        requires { 0 < length buf.old }
        ensures bound { ReadsAtMost result buf.new }
        ensures bytes { ReadConsumes untold untold result buf.new }
        // Promise: an adapter counts each error that it returns, except that memory ran out, and nothing else. Guards:
        // edges.rt, tried.
        ensures cause { self.new.failures ≡ count_read result self.old.failures }
        ensures told { TellsAlike untold untold }
        ensures passed { ReadConsumes (R.remaining self.old.inner) (R.remaining self.new.inner)
            result buf.new }
    {
        match self.reader.read(buf) {
            Ok(n) => Ok(n),
            Err(_) => {
                self.failed = self.failed.saturating_add(1);
                Err(Failed)
            }
        }
    }
}
