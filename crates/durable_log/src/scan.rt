ghost use Rattle.std.specs.Prelude.{◌≡◌, ◌<◌, ◌≤◌, ◌+◌, ◌^◌, length, take, drop, IfOk, IfSome, IsTrue};
ghost use Rattle.tcm_edges.specs.Causes.{count_read};
ghost use Rattle.durable_log.specs.Disk.{Passes, Same};
ghost use Rattle.durable_log.specs.Ends.{EndsAt};
ghost use Rattle.durable_log.specs.code.Headers.{header_len, whole_header};

use crate::disk::Disk;
use tcm_edges::Failed;

/// Where the records of a disk end.
#[derive(Clone, Copy, Debug)]
pub(crate) struct RecordsEnd {
    pub(crate) place: u64,
    /// Whether a closed gate stands there.
    pub(crate) is_closed: bool,
}

/// The header of a whole record.
#[derive(Clone, Copy, Debug)]
pub(crate) struct RecordHeader {
    pub(crate) kind: u8,
    pub(crate) name_len: u64,
    pub(crate) bytes_len: u64,
}

impl RecordHeader {
    /// The length of the record.
    pub(crate) fn len(self) -> u64
        requires { header_len self < 2 ^ 64 }
        ensures { result ≡ header_len self }
    {
        18 + (self.name_len + self.bytes_len)
    }
}

/// Fills a buffer from a place on, as far as the disk goes, and returns how many bytes it got.
pub(crate) fn read_full<D: Disk>(disk: &mut D, at: u64, buf: &mut [u8]) -> Result<usize, Failed>
    requires { at + length buf.old ≤ 2 ^ 63 }
    ensures bound { IfOk result (λ n. n ≤ length buf.new) }
    ensures bytes { IfOk result (λ n. IfSome (D.content disk.old)
        (λ bytes. (take n buf.new ≡ take n (drop at bytes)) × (n < length buf.new → length bytes ≤ at + n))) }
    ensures kept { D.content disk.new ≡ D.content disk.old }
    ensures images { Passes D.moment D.image Same disk.old disk.new }
    ensures cause { D.faults disk.new ≡ count_read result (D.faults disk.old) }
{
    let mut filled: usize = 0;
    while filled < buf.len() {
        let n = disk.read_at(at + filled as u64, &mut buf[filled..])?;
        if n == 0 {
            return Ok(filled);
        }
        filled += n;
    }
    Ok(filled)
}

/// The header of the record at a place of a disk with this size, or `None` if no whole record stands there.
pub(crate) fn record_at<D: Disk>(
    disk: &mut D,
    at: u64,
    size: u64,
) -> Result<Option<RecordHeader>, Failed>
    requires within { at ≤ size }
    requires size { size ≤ 2 ^ 62 }
    requires told { IfSome (D.content disk.old) (λ bytes. size ≡ length bytes) }
    ensures found { IfOk result (λ header. IfSome (D.content disk.old)
        (λ bytes. header ≡ whole_header (drop at bytes))) }
    ensures room { IfOk result (λ header. IfSome header (λ header. at + header_len header ≤ size)) }
    ensures kept { D.content disk.new ≡ D.content disk.old }
    ensures images { Passes D.moment D.image Same disk.old disk.new }
    ensures cause { D.faults disk.new ≡ count_read result (D.faults disk.old) }
{
    let mut bytes = [0u8; 18];
    let n = read_full(disk, at, &mut bytes)?;
    if n < 18 || bytes[0] != 1 || bytes[1] > 1 {
        return Ok(None);
    }
    let name_len = u64::from_be_bytes([
        bytes[2], bytes[3], bytes[4], bytes[5], bytes[6], bytes[7], bytes[8], bytes[9],
    ]);
    let bytes_len = u64::from_be_bytes([
        bytes[10], bytes[11], bytes[12], bytes[13], bytes[14], bytes[15], bytes[16], bytes[17],
    ]);
    let rest = size - at;
    if name_len > rest || bytes_len > rest || 18 + (name_len + bytes_len) > rest {
        return Ok(None);
    }
    Ok(Some(RecordHeader {
        kind: bytes[1],
        name_len,
        bytes_len,
    }))
}

/// Finds where the records end.
pub(crate) fn find_end<D: Disk>(disk: &mut D) -> Result<RecordsEnd, Failed>
    ensures end { IfOk result (λ end. IfSome (D.content disk.old) (EndsAt end.place end.is_closed)) }
    ensures room { IfOk result (λ end. end.place ≤ 2 ^ 62) }
    ensures before { IfOk result (λ end. IsTrue end.is_closed → end.place < 2 ^ 62) }
    ensures kept { D.content disk.new ≡ D.content disk.old }
    ensures images { Passes D.moment D.image Same disk.old disk.new }
    ensures cause { D.faults disk.new ≡ count_read result (D.faults disk.old) }
{
    let size = disk.size()?;
    let mut at: u64 = 0;
    while let Some(header) = record_at(disk, at, size)? {
        at += header.len();
    }
    let mut gate = [0u8; 1];
    let n = read_full(disk, at, &mut gate)?;
    Ok(RecordsEnd {
        place: at,
        is_closed: n == 1 && gate[0] != 1 && at < size,
    })
}
