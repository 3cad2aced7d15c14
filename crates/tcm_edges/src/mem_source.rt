ghost use Rattle.std.specs.Prelude.{◌≡◌, ◌<◌, ◌≤◌, ◌++◌, ◌↔◌, Some, length, take, drop, IfOk, IsErr, IsTrue, OnErr};
ghost use Rattle.std.specs.Io.{ReadsAtMost};
ghost use Rattle.std.specs.Io.KnownBytes.{ReadConsumes};
ghost use Rattle.tcm_edges.specs.Calls.{fresh_plan, next_fails, call_passed, failed};
ghost use Rattle.tcm_edges.specs.Causes.{count_read};
ghost use Rattle.tcm_edges.specs.Feed.{given_len, after_read};
ghost use Rattle.tcm_edges.specs.Writes.{TellsAlike};

use crate::calls::{CallList, Calls};
use crate::fault::Failed;
use crate::source::Source;
use crate::sure_source::SureSource;
use cluster_terms::ByteText;
use std::marker::Model;

/// A source over bytes in memory that fails at the reads with the listed numbers, and at no other read.
#[derive(Debug, Drop)]
pub struct MemSource {
    source: SureSource,
    calls: Calls<u64>,
}

impl Model for MemSource {
    ghost use Rattle.tcm_edges.specs.FailingFeed.{FailingFeed};

    ghost Value = { FailingFeed };

    ghost view = { λ source. record { feed = source.source; plan = source.calls } };
}

impl MemSource {
    /// A source that gives these bytes, at most `piece` of them in each read, and fails at the reads with these
    /// numbers.
    pub fn new(bytes: ByteText, piece: usize, fails: CallList) -> MemSource
        requires { 1 ≤ piece }
        ensures feed { result.feed ≡ record { bytes = bytes; piece = piece } }
        ensures plan { result.plan ≡ fresh_plan fails }
    {
        MemSource {
            source: SureSource::new(bytes, piece),
            calls: Calls::new(fails),
        }
    }
}

impl Source for MemSource {
    ghost left = { λ source. Some source.feed.bytes };

    ghost faults = { λ source. source.plan.faults };

    /// A listed read returns `Failed`, and gives no byte. Any other gives what `SureSource` gives.
    fn read(&mut self, buf: &mut [u8]) -> Result<usize, Failed>
        requires { 0 < length buf.old }
        ensures bound { ReadsAtMost result buf.new }
        ensures bytes { ReadConsumes (Some self.old.feed.bytes) (Some self.new.feed.bytes) result buf.new }
        ensures cause { self.new.plan.faults ≡ count_read result self.old.plan.faults }
        ensures told { TellsAlike (Some self.old.feed.bytes) (Some self.new.feed.bytes) }
        // Promise: a call fails if and only if it is listed. Guards: edges.rt, tried.
        ensures fails { IsErr result ↔ IsTrue (next_fails self.old.plan) }
        ensures count { IfOk result (λ n. n ≡ given_len self.old.feed (length buf.old)) }
        ensures given { IfOk result (λ n. buf.new ≡ take n self.old.feed.bytes ++ drop n buf.old) }
        ensures after { IfOk result (λ n. self.new
            ≡ record { feed = after_read self.old.feed n; plan = call_passed self.old.plan }) }
        // Promise: a call that failed is counted. Guards: tried.
        ensures kept { OnErr result (self.new ≡ record self.old { plan = failed self.old.plan }) }
        ensures unread { OnErr result (buf.new ≡ buf.old) }
    {
        if self.calls.next_fails() {
            self.calls.fail();
            return Err(Failed);
        }
        let read = self.source.read(buf)?;
        self.calls.pass();
        Ok(read)
    }
}
