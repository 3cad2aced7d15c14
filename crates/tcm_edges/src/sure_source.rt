ghost use Rattle.std.specs.Prelude.{◌≡◌, ◌<◌, ◌≤◌, ◌++◌, Ok, Some, length, take, drop, IfOk};
ghost use Rattle.std.specs.Io.{ReadsAtMost};
ghost use Rattle.std.specs.Io.KnownBytes.{ReadConsumes};
ghost use Rattle.tcm_edges.specs.Causes.{count_read};
ghost use Rattle.tcm_edges.specs.Feed.{given_len, after_read};
ghost use Rattle.tcm_edges.specs.Writes.{TellsAlike};

use crate::fault::Failed;
use crate::source::Source;
use cluster_terms::ByteText;
use std::marker::Model;

/// A source over bytes in memory that never fails.
#[derive(Debug, Drop)]
pub struct SureSource {
    text: ByteText,
    at: usize,
    piece: usize,
}

impl Model for SureSource {
    ghost use Rattle.std.specs.Prelude.{◌≤◌, drop, length};
    ghost use Rattle.tcm_edges.specs.Feed.{Feed};

    ghost Value = { Feed };

    ghost view = { λ source. record { bytes = drop source.at source.text; piece = source.piece } };

    ghost invariant = { λ source. (source.at ≤ length source.text) × (1 ≤ source.piece) };
}

impl SureSource {
    /// A source that gives these bytes, at most `piece` of them in each read.
    pub fn new(bytes: ByteText, piece: usize) -> SureSource
        requires { 1 ≤ piece }
        ensures { result ≡ record { bytes = bytes; piece = piece } }
    {
        SureSource {
            text: bytes,
            at: 0,
            piece,
        }
    }

    /// Copies the next bytes into the front of a buffer, and returns their number.
    fn give(&mut self, buf: &mut [u8]) -> usize
        ensures count { result ≡ given_len self.old (length buf.old) }
        ensures given { buf.new ≡ take result self.old.bytes ++ drop result buf.old }
        ensures after { self.new ≡ after_read self.old result }
        ensures some { 1 ≤ self.old.piece }
    {
        let left = &self.text.as_slice()[self.at..];
        let n = self.piece.min(buf.len()).min(left.len());
        buf[..n].copy_from_slice(&left[..n]);
        self.at += n;
        n
    }
}

impl Source for SureSource {
    ghost left = { λ source. Some source.bytes };

    ghost faults = { λ _. 0 };

    /// Gives as many of the bytes that are left as a piece may have and the buffer has room for. Never fails.
    fn read(&mut self, buf: &mut [u8]) -> Result<usize, Failed>
        requires { 0 < length buf.old }
        ensures bound { ReadsAtMost result buf.new }
        ensures bytes { ReadConsumes (Some self.old.bytes) (Some self.new.bytes) result buf.new }
        ensures cause { 0 ≡ count_read result 0 }
        ensures told { TellsAlike (Some self.old.bytes) (Some self.new.bytes) }
        // Promise: a source in memory gives its bytes in order, a piece at a time, and 0 only at their end. Guards:
        // edges.rt, tried.
        ensures answer { result ≡ Ok (given_len self.old (length buf.old)) }
        ensures given { IfOk result (λ n. buf.new ≡ take n self.old.bytes ++ drop n buf.old) }
        ensures after { IfOk result (λ n. self.new ≡ after_read self.old n) }
    {
        Ok(self.give(buf))
    }
}
