//! A run over a store on a disk that may stop at any moment.

ghost use Rattle.std.specs.Prelude.{◌≡◌, ◌<◌, ◌≢◌, ◌-◌, ◌^◌, List, ℕ, false, map, string_bytes, IfSome, MatchOption, None, Some};
ghost use Rattle.durable_log.specs.Images.{Stands, told_files};
ghost use Rattle.durable_log.specs.Records.{files};
ghost use Rattle.tcm_session.specs.Counts.{counts};
ghost use Rattle.tcm_session.specs.Request as spec;
ghost use Rattle.tcm_session.specs.Run.{HasStatus, IsRun, told};

use crate::program::run;
use crate::request::is_file_name;
use crate::status::Status;
use durable_log::{Disk, DurableStore};
use std::alloc::Global;
use tcm_edges::{Sink, Source};

/// The path of a disk and the words after it, for words that begin with `on` and a path that isn't empty. Returns
/// `None` for all other words.
pub fn durable_words(words: &[String]) -> Option<(&str, &[String])>
    // Promise: `on`, a word that isn't empty, and any other words name a disk and the words of a run, and no others do.
    // Guards: rows.rt of tcm_disks.
    ensures { MatchOption result (spec.durable_words (map string_bytes words.now) ≡ None)
        (λ it. spec.durable_words (map string_bytes words.now) ≡ Some (it.0.now, map string_bytes it.1.now)) }
{
    let (on, words) = words.split_first()?;
    let (disk, words) = words.split_first()?;
    if !is_file_name(disk.as_str()) {
        return None;
    }
    match on.as_str() {
        "on" => Some((disk.as_str(), words)),
        _ => None,
    }
}

/// Runs the program, as `run` does, over the files on a disk that may stop at any moment. Returns the status, and the
/// disk.
///
/// First a store is opened on the disk, which syncs it. If this fails, the status is 6, whatever the words are; then
/// nothing is read or printed, and the files are as before.
///
/// The files are those after the records on the disk. At the end of the run, each image that a crash may leave then
/// stands for files that a run may leave: each entry whose answer was printed stands whole in its file. So it is after
/// a run that was killed, too, and after one whose last sync failed. Only a run that ends with status 6 and prints
/// nothing supposes that each image stood for the told files when it began. At the moments between, the clauses of
/// `DurableStore` speak: an image stands for the files before or after one call of the store.
///
/// Cost: beside that of `run`, up to three reads for each record when the store is opened, and again for each file that
/// is loaded. Each entry takes five writes and two syncs of the disk.
pub fn run_durable<S: Source, K: Sink, D: Disk>(
    alloc: Global,
    words: &[String],
    input: &mut S,
    out: &mut K,
    disk: D,
) -> (Status, D)
    // Promise: status, printed bytes, source and files are those of `run` over the files that the disk's content stands
    // for, also with status 6, if the disk can't be opened. Guards: rows.rt of tcm_disks.
    ensures outcome { IsRun (spec.request_of (map string_bytes words.now)) (input.new ≡ input.old)
        (told (S.left input.old) (K.written out.old) (told_files (D.content disk)))
        (told (S.left input.new) (K.written out.new) (told_files (D.content result.1))) result.0.0 }

    // Promise: the same holds of the files of each image that a crash may leave after the run, so an entry whose answer
    // was begun stands whole in the log; only a run that ends with status 6 and prints nothing supposes that each image
    // stood for the told files before it. Guards: stops.rt of tcm_disks.
    ensures crash { (result.0.0 ≡ 6 → out.new ≡ out.old → Stands (D.content disk) (D.image disk (D.moment disk))) →
        (c : List ℕ) → D.image result.1 (D.moment result.1) c →
        IsRun (spec.request_of (map string_bytes words.now)) (input.new ≡ input.old)
        (told (S.left input.old) (K.written out.old) (told_files (D.content disk)))
        (told (S.left input.new) (K.written out.new) (Some (files c))) result.0.0 }

    // Promise: status 4 comes if and only if the source failed, 5 the sink, 6 a call of the disk, then there was one
    // fault, and else none. Guards: stops.rt of tcm_disks.
    ensures status { HasStatus
        (counts (S.faults input.old) (K.faults out.old) (D.faults disk))
        (counts (S.faults input.new) (K.faults out.new) (D.faults result.1)) result.0.0 }

    // Promise: if the disk's count of faults is below the greatest `u64` and doesn't rise, the status isn't 6. Guards:
    // by `status`.
    ensures complete { D.faults disk < 2 ^ 64 - 1 → D.faults result.1 ≡ D.faults disk → result.0.0 ≢ 6 }

    // Promise: if words that name no file end with status 6, nothing was read or printed. Guards: rows.rt of tcm_disks.
    ensures store { spec.names_file (spec.request_of (map string_bytes words.now)) ≡ false
        → (result.0.0 ≡ 6 → (input.new ≡ input.old) × (out.new ≡ out.old)) }

    // Promise: words other than `commit` and `mend2` change no file, whatever the status. Guards: by the contract.
    ensures unchanged { spec.may_change (spec.request_of (map string_bytes words.now)) ≡ false
        → told_files (D.content result.1) ≡ told_files (D.content disk) }
{
    match DurableStore::open(alloc, disk) {
        Ok(mut store) => {
            let status = run(alloc, words, input, out, &mut store);
            (status, store.close())
        }
        Err((disk, _failed)) => (Status(6), disk),
    }
}
