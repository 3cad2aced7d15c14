//! Reads a script piece by piece.

ghost use Rattle.std.specs.Prelude.{◌≡◌, ◌<◌, ◌≤◌, length, vec_len, IfOk, IfErr, OnErr, OnOk};
ghost use Rattle.std.specs.Io.KnownBytes.{Keeps};
ghost use Rattle.std.specs.Option.{option_copied};
ghost use Rattle.tcm_edges.specs.Shown.{EachLeft, StaysOnly};
ghost use Rattle.tcm_session.specs.Counts.{counts};
ghost use Rattle.tcm_session.specs.code.RunFaults.{counts_by};
ghost use Rattle.tcm_session.specs.Outcome.{input_limit};
ghost use Rattle.tcm_session.specs.Run.{told};
ghost use Rattle.tcm_session.specs.code.Runs.{IsBegun, LeavesStore, ReadsOnce, ReadsPast, ReadsTo, StopsAt, script_at};
ghost use Rattle.tcm_session.specs.declared.run_fault.RunFault.TheVariants as fault;

use crate::run_fault::RunFault;
use crate::scripts::answering::feed;
use crate::scripts::script::Script;
use std::alloc::Global;
use tcm_edges::{Sink, Source, Store};

/// The most bytes of an input. One more byte is read, to see whether the input is larger.
const INPUT_LIMIT: usize = 536_870_912;

/// The most bytes of one read. This is as much as a pipe holds on Linux; the outcome is the same for pieces of any
/// length.
const PIECE: usize = 65_536;

/// How the reading of a script ends.
#[derive(Clone, Copy, Debug, PartialEq, Eq)]
pub enum ReadEnd {
    /// The input was read to its end.
    AtEnd,
    /// A byte past the limit was read.
    PastLimit,
}

/// Reads a piece, answers the lines that end in it, and returns its length: 0 only at the end of the input.
fn read_piece<S: Source, K: Sink, D: Store>(
    alloc: Global,
    script: &mut Script<'_>,
    buffer: &mut [u8],
    input: &mut S,
    out: &mut K,
    store: &mut D,
) -> Result<usize, RunFault>
    requires buffer { 0 < length buffer.old }
    requires begun { IsBegun script.old.begun.items }
    ensures ok { IfOk result (λ n. ReadsOnce (option_copied script.old.log) n
        (S.left input.old) (S.left input.new)
        (script_at script.old (K.written out.old) (D.files store.old))
        (script_at script.new (K.written out.new) (D.files store.new))) }
    ensures bound { IfOk result (λ n. n ≤ length buffer.old) }
    ensures stays { OnOk result (StaysOnly D.files D.shows store.old store.new) }
    ensures err { IfErr result (λ e. EachLeft D.files D.shows store.old store.new
        (λ left. StopsAt (option_copied script.old.log) e (length buffer.old)
        (S.left input.old) (script_at script.old (K.written out.old) (D.files store.old))
        (told (S.left input.new) (K.written out.new) left))) }
    ensures cause { counts (S.faults input.new) (K.faults out.new) (D.faults store.new)
        ≡ counts_by result (counts (S.faults input.old) (K.faults out.old) (D.faults store.old)) }
    ensures unnamed { LeavesStore (option_copied script.old.log) store.old store.new result }
    ensures log { script.new.log ≡ script.old.log }
{
    let count = input.read(buffer)?;
    feed(alloc, script, &buffer[..count], store, out)?;
    Ok(count)
}

/// A buffer of `len` zero bytes.
fn zeros(alloc: Global, len: usize) -> Result<Vec<u8>, RunFault>
    ensures len { IfOk result (λ bytes. vec_len bytes ≡ len) }
    ensures memory { IfErr result (λ e. e ≡ fault.Memory) }
{
    let bytes = vec![in alloc; 0u8; len]?;
    Ok(bytes)
}

/// Reads one more byte, to see whether the input is larger than the limit.
fn read_past<S: Source>(input: &mut S) -> Result<ReadEnd, RunFault>
    ensures ok { IfOk result (λ ending. ReadsPast ending (S.left input.old) (S.left input.new)) }
    ensures err { OnErr result (Keeps (S.left input.old) (S.left input.new)) }
    ensures cause { counts (S.faults input.new) 0 0
        ≡ counts_by result (counts (S.faults input.old) 0 0) }
{
    let mut byte = [0u8; 1];
    match input.read(&mut byte)? {
        0 => Ok(ReadEnd::AtEnd),
        _ => Ok(ReadEnd::PastLimit),
    }
}

/// Reads a script to its end or up to the limit. Answers each line that a line feed ends before it reads on, and keeps
/// the rest as the line that has begun. At a fault, some of the lines that end among the bytes read are done; at a fault
/// of the source, all of them.
pub fn read_script<S: Source, K: Sink, D: Store>(
    alloc: Global,
    script: &mut Script<'_>,
    input: &mut S,
    out: &mut K,
    store: &mut D,
) -> Result<ReadEnd, RunFault>
    requires begun { IsBegun script.old.begun.items }
    ensures ok { IfOk result (λ ending. ReadsTo (option_copied script.old.log) ending
        (S.left input.old) (S.left input.new)
        (script_at script.old (K.written out.old) (D.files store.old))
        (script_at script.new (K.written out.new) (D.files store.new))) }
    ensures stays { OnOk result (StaysOnly D.files D.shows store.old store.new) }
    ensures err { IfErr result (λ e. EachLeft D.files D.shows store.old store.new
        (λ left. StopsAt (option_copied script.old.log) e input_limit
        (S.left input.old) (script_at script.old (K.written out.old) (D.files store.old))
        (told (S.left input.new) (K.written out.new) left))) }
    ensures cause { counts (S.faults input.new) (K.faults out.new) (D.faults store.new)
        ≡ counts_by result (counts (S.faults input.old) (K.faults out.old) (D.faults store.old)) }
    ensures unnamed { LeavesStore (option_copied script.old.log) store.old store.new result }
    ensures log { script.new.log ≡ script.old.log }
{
    let mut buffer = zeros(alloc, PIECE)?;
    let mut taken = 0;
    while taken < INPUT_LIMIT {
        let room = PIECE.min(INPUT_LIMIT - taken);
        let count = read_piece(alloc, script, &mut buffer[..room], input, out, store)?;
        if count == 0 {
            return Ok(ReadEnd::AtEnd);
        }
        taken += count;
    }
    let ending = read_past(input)?;
    Ok(ending)
}
