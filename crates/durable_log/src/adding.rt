ghost use Rattle.std.specs.Prelude.{◌≡◌, ◌<◌, ◌≤◌, ◌^◌, [], ◌∷◌, ◌++◌, length, IfOk, OnOk, OnErr, IfSome};
ghost use Rattle.std.specs.Int.{w64, to_be_bytes};
ghost use Rattle.tcm_edges.specs.Causes.{count_read};
ghost use Rattle.durable_log.specs.Disk.{Changes, Passes, Written};
ghost use Rattle.durable_log.specs.Images.{SameFilesOr};
ghost use Rattle.durable_log.specs.code.Ends.{change_by, FilesChanged, FilesMayChange, IsSettled};
ghost use Rattle.durable_log.specs.Records.{body, changed, files};

use crate::disk::Disk;
use crate::put_down::put_down;
use tcm_edges::Failed;

/// The header of a record without its gate.
fn header_of(kind: u8, name_len: u64, bytes_len: u64) -> [u8; 17]
    ensures { result ≡ kind ∷ to_be_bytes w64 name_len ++ to_be_bytes w64 bytes_len }
{
    let n = name_len.to_be_bytes();
    let m = bytes_len.to_be_bytes();
    [
        kind, n[0], n[1], n[2], n[3], n[4], n[5], n[6], n[7], m[0], m[1], m[2], m[3], m[4], m[5],
        m[6], m[7],
    ]
}

/// Adds a record at the closed gate that ends the records: puts it down behind the gate, with a closed gate behind it,
/// and opens the gate once all of it is on the disk. Returns the place of the gate behind it.
pub(crate) fn add_record<D: Disk>(
    disk: &mut D,
    gate: u64,
    kind: u8,
    name: &[u8],
    bytes: &[u8],
) -> Result<u64, Failed>
    requires kind { kind ≤ 1 }
    requires room { gate < 2 ^ 62 }
    requires settled { IfSome (D.content disk.old) (IsSettled gate (D.image disk.old (D.moment disk.old))) }
    ensures settled { IfOk result (λ end.
        IfSome (D.content disk.new) (IsSettled end (D.image disk.new (D.moment disk.new)))) }
    ensures room { IfOk result (λ end. end < 2 ^ 62) }
    ensures ok { OnOk result (Changes (FilesChanged (change_by kind name.now bytes.now))
        (D.content disk.old) (D.content disk.new)) }
    ensures err { OnErr result (Changes (FilesMayChange (change_by kind name.now bytes.now))
        (D.content disk.old) (D.content disk.new)) }
    ensures adds { OnOk result (Changes (Written gate (1 ∷ (body (change_by kind name.now bytes.now) ++ 0 ∷ [])))
        (D.content disk.old) (D.content disk.new)) }
    // Each image since the start stands for the files of an image of the start, or for those that `Ok` promises.
    ensures images { IfSome (D.content disk.old) (λ old. Passes D.moment D.image
        (SameFilesOr (changed (files old) (change_by kind name.now bytes.now))) disk.old disk.new) }
    ensures cause { D.faults disk.new ≡ count_read result (D.faults disk.old) }
{
    let header = header_of(kind, name.len() as u64, bytes.len() as u64);
    // The closed gate behind the record is written with it, or else old bytes could count as a record.
    let end = put_down(disk, gate + 1, &header, name, bytes)?;
    disk.sync()?;
    disk.write_at(gate, &[1])?;
    disk.sync()?;
    Ok(end - 1)
}
