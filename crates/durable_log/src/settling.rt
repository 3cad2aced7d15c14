ghost use Rattle.std.specs.Prelude.{◌≡◌, ◌<◌, ◌≤◌, ◌^◌, [], ◌∷◌, false, IfOk, IfSome, OnOk};
ghost use Rattle.tcm_edges.specs.Causes.{count_read};
ghost use Rattle.durable_log.specs.Disk.{Changes, Only, Passes, Written};
ghost use Rattle.durable_log.specs.Images.{SameFiles};
ghost use Rattle.durable_log.specs.Ends.{ClosesAt, EndsAt};
ghost use Rattle.durable_log.specs.code.Ends.{IsSettled};

use crate::disk::Disk;
use crate::scan::find_end;
use tcm_edges::Failed;

/// Writes a closed gate where the records end, and waits until it is on the disk.
fn close_gate<D: Disk>(disk: &mut D, place: u64) -> Result<(), Failed>
    requires end { IfSome (D.content disk.old) (EndsAt place false) }
    requires only { IfSome (D.content disk.old) (Only (D.image disk.old (D.moment disk.old))) }
    ensures settled { OnOk result
        (IfSome (D.content disk.new) (IsSettled place (D.image disk.new (D.moment disk.new)))) }
    ensures room { OnOk result (place < 2 ^ 62) }
    ensures files { Changes SameFiles (D.content disk.old) (D.content disk.new) }
    ensures closes { OnOk result (Changes (Written place (0 ∷ [])) (D.content disk.old) (D.content disk.new)) }
    ensures images { IfSome (D.content disk.old) (λ _. Passes D.moment D.image SameFiles disk.old disk.new) }
    ensures cause { D.faults disk.new ≡ count_read result (D.faults disk.old) }
{
    disk.write_at(place, &[0])?;
    disk.sync()
}

/// Makes the records end at a closed gate, with all of the disk's bytes on the disk. Returns the place of the gate.
/// Writes at most one byte. The call after one that failed begins so, too: it syncs first and finds the end anew.
pub(crate) fn settle<D: Disk>(disk: &mut D) -> Result<u64, Failed>
    ensures settled { IfOk result (λ gate.
        IfSome (D.content disk.new) (IsSettled gate (D.image disk.new (D.moment disk.new)))) }
    ensures room { IfOk result (λ gate. gate < 2 ^ 62) }
    ensures files { Changes SameFiles (D.content disk.old) (D.content disk.new) }
    ensures closes { IfOk result (λ gate. Changes (ClosesAt gate) (D.content disk.old) (D.content disk.new)) }
    // Each image since the start stands for the files of an image of the start.
    ensures images { IfSome (D.content disk.old) (λ _. Passes D.moment D.image SameFiles disk.old disk.new) }
    ensures cause { D.faults disk.new ≡ count_read result (D.faults disk.old) }
{
    disk.sync()?;
    let end = find_end(disk)?;
    if !end.is_closed {
        close_gate(disk, end.place)?;
    }
    Ok(end.place)
}
