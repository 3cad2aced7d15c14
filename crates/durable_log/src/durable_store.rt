ghost use Rattle.std.specs.Prelude.{◌≡◌, IfErr, IfOk, IfSome, IsOkUnless, MatchResult, OnErr, OnOk};
ghost use Rattle.tcm_edges.specs.Causes.{count_load, count_write, one_more, OnFailed, OnLoadMemory};
ghost use Rattle.tcm_edges.specs.Files.{ChangesFile, IsLoad, OthersKept, GainsAll, GainsPart, IsReplaced, IsOldOrNew};
ghost use Rattle.tcm_edges.specs.Shown.{CrashLeaves, ShowsNoMore};
ghost use Rattle.tcm_edges.specs.Writes.{KeptAtMemory, TellsAlike};
ghost use Rattle.durable_log.specs.Disk.{Changes, Passes};
ghost use Rattle.durable_log.specs.Ends.{AddsRecord};
ghost use Rattle.durable_log.specs.Images.{ClosesGate, SameFiles, SameFilesOr, Shows, Stands, StandsEither, told_files};
ghost use Rattle.durable_log.specs.code.Ends.{write_result};
ghost use Rattle.durable_log.specs.Records.{appending, changed, files, replacing};

use crate::disk::Disk;
use crate::loading::Wanted;
use crate::record_log::RecordLog;
use std::alloc::Global;
use std::marker::Model;
use tcm_edges::{Failed, LoadFault, Loaded, Store, WriteFault};

/// Files on a disk that may stop at any moment. The store is seen as its disk. Its files are those after the records
/// on the disk.
#[derive(Drop)]
pub struct DurableStore<D: Disk> {
    alloc: Global,
    log: RecordLog<D>,
}

impl<D: Disk> Model for DurableStore<D> {
    ghost Value = { D };

    ghost view = { λ store. store.log.disk };
}

/// The result of a write, by that of its calls of the disk.
fn as_write(added: Result<(), Failed>) -> Result<(), WriteFault>
    ensures { result ≡ write_result added }
{
    match added {
        Ok(()) => Ok(()),
        Err(_) => Err(WriteFault::Failed),
    }
}

impl<D: Disk> DurableStore<D> {
    /// Opens the store on a disk. If the records end at an open gate or at the end of the disk, closes the gate there.
    /// Returns the disk, which then stands for the same files, and `Failed` if a call of the disk failed. Takes no
    /// memory: the allocator is for the texts of loaded files. The cost is a read for each record.
    pub fn open(alloc: Global, disk: D) -> Result<DurableStore<D>, (D, Failed)>
        // Each image of a moment since the start stands for the files of an image of the start.
        ensures images { MatchResult result
            (λ store. IfSome (D.content disk) (λ _. Passes D.moment D.image SameFiles disk store))
            (λ e. IfSome (D.content disk) (λ _. Passes D.moment D.image SameFiles disk e.0)) }
        // After `Ok` each image stands for the files that the store tells.
        ensures stands { IfOk result (λ store. Stands (D.content store) (D.image store (D.moment store))) }
        // Promise: a store that is opened has the files of the disk, and has written a single 0 where the records end,
        // or nothing where a closed gate stood there, as a load that no call of the disk stopped. Guards: rows.rt.
        ensures files { MatchResult result
            (λ store. Changes SameFiles (D.content disk) (D.content store))
            (λ e. Changes SameFiles (D.content disk) (D.content e.0)) }
        ensures closes { IfOk result (λ store. Changes ClosesGate (D.content disk) (D.content store)) }
        ensures cause { MatchResult result
            (λ store. D.faults store ≡ D.faults disk)
            (λ e. D.faults e.0 ≡ one_more (D.faults disk)) }
    {
        match RecordLog::open(disk) {
            Ok(log) => Ok(DurableStore { alloc, log }),
            Err(refused) => Err(refused),
        }
    }

    /// Returns the disk.
    pub fn close(self) -> D
        // Promise: the disk is given back. Guards: by the types.
        ensures { result ≡ self }
    {
        let DurableStore { alloc: _, log } = self;
        log.close()
    }
}

impl<D: Disk> Store for DurableStore<D> {
    ghost files = { λ store. told_files (D.content store) };

    ghost shows = { λ store f. Shows (D.content store) (D.image store (D.moment store)) f };

    ghost faults = { λ store. D.faults store };

    /// Returns the bytes of the file, by one pass over the records. If a call before it failed, begins as `open` does.
    /// Returns `Failed` if a call of the disk failed; then the next call begins as `open` does. Returns `Memory` if
    /// memory runs out. The cost is two reads for each record, and one more for each record of the file.
    fn load(&mut self, name: &str, limit: u64) -> Result<Loaded, LoadFault>
        // Promise: a load gives the file after the records, if the limit allows it, and changes no file. Guards:
        // rows.rt, stops.rt.
        ensures found { IfOk result (λ loaded. IsLoad (told_files (D.content self.old)) name.now limit loaded) }
        ensures kept { told_files (D.content self.new) ≡ told_files (D.content self.old) }
        ensures crash { ShowsNoMore (Shows (D.content self.old) (D.image self.old (D.moment self.old)))
            (Shows (D.content self.new) (D.image self.new (D.moment self.new))) }
        ensures cause { D.faults self.new ≡ count_load result (D.faults self.old) }
        // Unless a call of the disk failed, nothing was written, or a single 0 where the records end.
        ensures closes { MatchResult result
            (λ _. Changes ClosesGate (D.content self.old) (D.content self.new))
            (λ fault. OnLoadMemory fault (Changes ClosesGate (D.content self.old) (D.content self.new))) }
        // Each image of a moment since the start stands for the files of an image of the start.
        ensures images { IfSome (D.content self.old) (λ _. Passes D.moment D.image SameFiles self.old self.new) }
        // After `Ok` each image stands for the files that the store tells.
        ensures stands { OnOk result (Stands (D.content self.new) (D.image self.new (D.moment self.new))) }
        // Promise: if each image stood for the files that the store tells, it does so after a load, whatever the
        // result. Guards: by `images` and `kept`.
        ensures still { Stands (D.content self.old) (D.image self.old (D.moment self.old)) →
            Stands (D.content self.new) (D.image self.new (D.moment self.new)) }
    {
        let wanted = Wanted {
            alloc: self.alloc,
            name: name.as_bytes(),
            limit,
        };
        self.log.load(&wanted)
    }

    /// Adds the bytes at the end of a file, and makes the file if it is absent. They count once all of them are on the
    /// disk. The only error is `Failed`; then the next call begins as `open` does. Takes no memory.
    fn append(&mut self, name: &str, bytes: &[u8]) -> Result<(), WriteFault>
        // Promise: `Ok` promises the files of before with the bytes added to the file or put in its place, and no other
        // file changes. Guards: rows.rt.
        ensures ok { OnOk result (ChangesFile (GainsAll bytes.now)
            (told_files (D.content self.old)) (told_files (D.content self.new)) name.now) }
        // Promise: `Ok` means that one record was written where the records ended, with a closed gate behind it, and
        // that no other byte changed. Guards: tried.
        ensures adds { OnOk result (Changes (AddsRecord (appending name.now bytes.now))
            (D.content self.old) (D.content self.new)) }
        ensures failed { IfErr result (λ fault. OnFailed fault (ChangesFile (GainsPart bytes.now)
            (told_files (D.content self.old)) (told_files (D.content self.new)) name.now)) }
        ensures others { OthersKept (told_files (D.content self.old)) (told_files (D.content self.new)) name.now }
        // Promise: if the disk's count of faults doesn't rise, `open`, `append` and `replace` succeed. Guards: by the
        // contract.
        ensures cause { D.faults self.new ≡ count_write result (D.faults self.old) }
        ensures memory { KeptAtMemory (told_files (D.content self.old)) (told_files (D.content self.new)) result }
        // Promise: a crash leaves files that it might have left before, or these with a prefix added or the file
        // replaced, and after `Ok` those that the store tells. Guards: by `images` and `stands`.
        ensures crash { CrashLeaves (GainsPart bytes.now) (Shows (D.content self.old) (D.image self.old (D.moment self.old)))
            (Shows (D.content self.new) (D.image self.new (D.moment self.new))) (told_files (D.content self.new)) name.now result }
        ensures told { TellsAlike (told_files (D.content self.old)) (told_files (D.content self.new)) }
        ensures sure { IsOkUnless result WriteFault.Failed }
        // Promise: each image since the start of a call stands for the files of an image of the start, or for those
        // that `Ok` promises. Guards: gate_before_the_first_sync.edit, stops.rt.
        ensures images { IfSome (D.content self.old) (λ old. Passes D.moment D.image
            (SameFilesOr (changed (files old) (appending name.now bytes.now))) self.old self.new) }
        // Promise: after `Ok`, and until the next call, each image stands for the files that the store tells. Guards:
        // ok_before_the_last_sync.edit, stops.rt.
        ensures stands { OnOk result (Stands (D.content self.new) (D.image self.new (D.moment self.new))) }
        // Promise: if each image stood for the told files, then after `Failed` each stands for those of before or for
        // those that `Ok` promises. Guards: by `images`.
        ensures either { Stands (D.content self.old) (D.image self.old (D.moment self.old)) →
            StandsEither (appending name.now bytes.now) (D.content self.old) (D.image self.new (D.moment self.new)) }
    {
        let added = self.log.add(0, name.as_bytes(), bytes);
        as_write(added)
    }

    /// Replaces the contents of a file by these bytes, and makes the file if it is absent. They count once all of them
    /// are on the disk. The only error is `Failed`; then the next call begins as `open` does. Takes no memory.
    fn replace(&mut self, name: &str, bytes: &[u8]) -> Result<(), WriteFault>
        ensures ok { OnOk result (ChangesFile (IsReplaced bytes.now)
            (told_files (D.content self.old)) (told_files (D.content self.new)) name.now) }
        ensures adds { OnOk result (Changes (AddsRecord (replacing name.now bytes.now))
            (D.content self.old) (D.content self.new)) }
        ensures failed { IfErr result (λ fault. OnFailed fault (ChangesFile (IsOldOrNew bytes.now)
            (told_files (D.content self.old)) (told_files (D.content self.new)) name.now)) }
        ensures others { OthersKept (told_files (D.content self.old)) (told_files (D.content self.new)) name.now }
        ensures cause { D.faults self.new ≡ count_write result (D.faults self.old) }
        ensures memory { KeptAtMemory (told_files (D.content self.old)) (told_files (D.content self.new)) result }
        ensures crash { CrashLeaves (IsOldOrNew bytes.now) (Shows (D.content self.old) (D.image self.old (D.moment self.old)))
            (Shows (D.content self.new) (D.image self.new (D.moment self.new))) (told_files (D.content self.new)) name.now result }
        ensures told { TellsAlike (told_files (D.content self.old)) (told_files (D.content self.new)) }
        ensures sure { IsOkUnless result WriteFault.Failed }
        // Each image of a moment since the start stands for the files of an image of the start, or for those that `Ok`
        // promises.
        ensures images { IfSome (D.content self.old) (λ old. Passes D.moment D.image
            (SameFilesOr (changed (files old) (replacing name.now bytes.now))) self.old self.new) }
        // After `Ok` each image stands for the files that the store tells.
        ensures stands { OnOk result (Stands (D.content self.new) (D.image self.new (D.moment self.new))) }
        // Where this was so before, each image stands for the files of before or for those that `Ok` promises.
        ensures either { Stands (D.content self.old) (D.image self.old (D.moment self.old)) →
            StandsEither (replacing name.now bytes.now) (D.content self.old) (D.image self.new (D.moment self.new)) }
    {
        let added = self.log.add(1, name.as_bytes(), bytes);
        as_write(added)
    }
}
