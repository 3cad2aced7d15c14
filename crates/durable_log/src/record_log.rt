ghost use Rattle.std.specs.Prelude.{◌≡◌, ◌<◌, ◌≤◌, ◌^◌, IfOk, IfSome, MatchResult, OnErr, OnOk};
ghost use Rattle.std.proofs.Props.{props};
ghost use Rattle.tcm_edges.specs.Causes.{count_load, count_read, one_more, OnLoadMemory};
ghost use Rattle.tcm_edges.specs.Files.{IsLoad};
ghost use Rattle.durable_log.specs.Disk.{Changes, Passes};
ghost use Rattle.durable_log.specs.Ends.{AddsRecord, ClosesAt};
ghost use Rattle.durable_log.specs.Images.{ClosesGate, SameFiles, SameFilesOr, Stands, StandsEither, told_files};
ghost use Rattle.durable_log.specs.Records.{changed, files};
ghost use Rattle.durable_log.specs.code.Ends.{change_by, FilesChanged, FilesMayChange, IsSettled};
ghost use Rattle.durable_log.specs.code.Loads.{gate_after};

use crate::adding::add_record;
use crate::disk::Disk;
use crate::loading::Wanted;
use crate::settling::settle;
use tcm_edges::{Failed, LoadFault, Loaded};

/// The place of the closed gate that ends the records, as it is known after a load. A load that failed leaves it open.
fn gate_after(loaded: &Result<Loaded, LoadFault>, gate: u64) -> Option<u64>
    ensures { result ≡ gate_after loaded.now gate }
{
    match loaded {
        Err(LoadFault::Failed) => None,
        Ok(_) | Err(LoadFault::Memory) => Some(gate),
    }
}

/// The records on a disk.
#[derive(Drop)]
pub(crate) struct RecordLog<D: Disk> {
    pub(crate) disk: D,
    /// The place of the closed gate that ends the records, if all of the disk's bytes are known to be on the disk.
    gate: Option<u64>,
    ghost settled: { IfSome gate (λ gate. IfSome (D.content disk) (IsSettled gate (D.image disk (D.moment disk)))) } by { Prim.hlevel props },
    ghost room: { IfSome gate (λ gate. gate < 2 ^ 62) } by { Prim.hlevel props },
}

impl<D: Disk> RecordLog<D> {
    /// Finds the end of the records, and closes the gate there.
    pub(crate) fn open(mut disk: D) -> Result<RecordLog<D>, (D, Failed)>
        ensures stands { IfOk result (λ log.
            Stands (D.content log.disk) (D.image log.disk (D.moment log.disk))) }
        ensures files { MatchResult result
            (λ log. Changes SameFiles (D.content disk) (D.content log.disk))
            (λ e. Changes SameFiles (D.content disk) (D.content e.0)) }
        ensures closes { IfOk result (λ log. Changes ClosesGate (D.content disk) (D.content log.disk)) }
        ensures images { MatchResult result
            (λ log. IfSome (D.content disk) (λ _. Passes D.moment D.image SameFiles disk log.disk))
            (λ e. IfSome (D.content disk) (λ _. Passes D.moment D.image SameFiles disk e.0)) }
        ensures cause { MatchResult result
            (λ log. D.faults log.disk ≡ D.faults disk)
            (λ e. D.faults e.0 ≡ one_more (D.faults disk)) }
    {
        match settle(&mut disk) {
            Ok(gate) => Ok(RecordLog {
                disk,
                gate: Some(gate),
            }),
            Err(failed) => Err((disk, failed)),
        }
    }

    /// Returns the disk.
    pub(crate) fn close(self) -> D
        ensures { result ≡ self.disk }
    {
        let RecordLog { disk, gate: _ } = self;
        disk
    }

    /// The place of the closed gate that ends the records, found anew if it isn't known.
    fn gate(&mut self) -> Result<u64, Failed>
        ensures kept { IfOk result (λ gate. self.new.gate ≡ Some gate) }
        ensures files { Changes SameFiles (D.content self.old.disk) (D.content self.new.disk) }
        ensures closes { IfOk result (λ gate. Changes (ClosesAt gate) (D.content self.old.disk) (D.content self.new.disk)) }
        ensures images { IfSome (D.content self.old.disk)
            (λ _. Passes D.moment D.image SameFiles self.old.disk self.new.disk) }
        ensures cause { D.faults self.new.disk ≡ count_read result (D.faults self.old.disk) }
    {
        match self.gate {
            Some(gate) => Ok(gate),
            None => {
                let gate = settle(&mut self.disk)?;
                self.gate = Some(gate);
                Ok(gate)
            }
        }
    }

    /// Adds a record.
    pub(crate) fn add(&mut self, kind: u8, name: &[u8], bytes: &[u8]) -> Result<(), Failed>
        requires { kind ≤ 1 }
        ensures ok { OnOk result (Changes (FilesChanged (change_by kind name.now bytes.now))
            (D.content self.old.disk) (D.content self.new.disk)) }
        ensures err { OnErr result (Changes (FilesMayChange (change_by kind name.now bytes.now))
            (D.content self.old.disk) (D.content self.new.disk)) }
        ensures adds { OnOk result (Changes (AddsRecord (change_by kind name.now bytes.now))
            (D.content self.old.disk) (D.content self.new.disk)) }
        ensures images { IfSome (D.content self.old.disk) (λ old. Passes D.moment D.image
            (SameFilesOr (changed (files old) (change_by kind name.now bytes.now))) self.old.disk self.new.disk) }
        ensures stands { OnOk result
            (Stands (D.content self.new.disk) (D.image self.new.disk (D.moment self.new.disk))) }
        ensures either { Stands (D.content self.old.disk) (D.image self.old.disk (D.moment self.old.disk)) →
            StandsEither (change_by kind name.now bytes.now) (D.content self.old.disk)
            (D.image self.new.disk (D.moment self.new.disk)) }
        ensures cause { D.faults self.new.disk ≡ count_read result (D.faults self.old.disk) }
    {
        let gate = self.gate()?;
        self.gate = None;
        let end = add_record(&mut self.disk, gate, kind, name, bytes)?;
        self.gate = Some(end);
        Ok(())
    }

    /// Loads a file.
    pub(crate) fn load(&mut self, wanted: &Wanted) -> Result<Loaded, LoadFault>
        ensures found { IfOk result (λ loaded. IsLoad (told_files (D.content self.old.disk))
            wanted.now.name.now wanted.now.limit loaded) }
        ensures files { Changes SameFiles (D.content self.old.disk) (D.content self.new.disk) }
        ensures closes { MatchResult result
            (λ _. Changes ClosesGate (D.content self.old.disk) (D.content self.new.disk))
            (λ fault. OnLoadMemory fault (Changes ClosesGate (D.content self.old.disk) (D.content self.new.disk))) }
        ensures images { IfSome (D.content self.old.disk)
            (λ _. Passes D.moment D.image SameFiles self.old.disk self.new.disk) }
        ensures stands { OnOk result
            (Stands (D.content self.new.disk) (D.image self.new.disk (D.moment self.new.disk))) }
        ensures still { Stands (D.content self.old.disk) (D.image self.old.disk (D.moment self.old.disk)) →
            Stands (D.content self.new.disk) (D.image self.new.disk (D.moment self.new.disk)) }
        ensures cause { D.faults self.new.disk ≡ count_load result (D.faults self.old.disk) }
    {
        let Ok(gate) = self.gate() else {
            return Err(LoadFault::Failed);
        };
        self.gate = None;
        let loaded = wanted.load(&mut self.disk);
        self.gate = gate_after(&loaded, gate);
        loaded
    }
}
