ghost use Rattle.std.specs.Prelude.{◌≡◌, ℕ, ◌<◌, List, Option, length};
ghost use Rattle.std.specs.Io.{ReadsAtMost};
ghost use Rattle.std.specs.Io.KnownBytes.{ReadConsumes};
ghost use Rattle.tcm_edges.specs.Causes.{count_read};
ghost use Rattle.tcm_edges.specs.Writes.{TellsAlike};

use crate::fault::Failed;

/// Where bytes come from.
pub trait Source {
    /// The bytes still to come, if the source tells them.
    ghost left: { Self → Option (List ℕ) };

    /// The count of failures. A call that returns `Failed` adds one, at most up to the greatest `u64`; no other call
    /// does.
    ghost faults: { Self → ℕ };

    /// Reads the next bytes into the front of a buffer, which is not empty, and returns their number. It is 0 if and
    /// only if the input is at its end. Returns `Failed` if the outside failed; then no byte is read.
    fn read(&mut self, buf: &mut [u8]) -> Result<usize, Failed>
        requires { 0 < length buf.old }
        ensures bound { ReadsAtMost result buf.new }
        ensures bytes { ReadConsumes (left self.old) (left self.new) result buf.new }
        ensures cause { faults self.new ≡ count_read result (faults self.old) }
        ensures told { TellsAlike (left self.old) (left self.new) };
}
