//! Writes a file whole.

ghost use Rattle.std.specs.Prelude.{◌≡◌, OnErr, OnOk};
ghost use Rattle.tcm_edges.specs.Shown.{EachLeft, StaysOnly};
ghost use Rattle.tcm_session.specs.Counts.{counts};
ghost use Rattle.tcm_session.specs.code.Loading.{IsKeptOrWritten, IsWritten};
ghost use Rattle.tcm_session.specs.code.RunFaults.{counts_by};

use crate::run_fault::RunFault;
use tcm_edges::{Store, WriteFault};

/// Makes these the bytes of a file, which is made if it is absent. After a fault, the file is as before or has these
/// bytes.
pub fn write_file<D: Store>(name: &str, bytes: &[u8], store: &mut D) -> Result<(), RunFault>
    ensures written { OnOk result (IsWritten name.now bytes.now (D.files store.old) (D.files store.new)) }
    ensures stays { OnOk result (StaysOnly D.files D.shows store.old store.new) }
    ensures stopped { OnErr result (EachLeft D.files D.shows store.old store.new
        (λ left. IsKeptOrWritten name.now bytes.now (D.files store.old) left)) }
    ensures cause { counts 0 0 (D.faults store.new)
        ≡ counts_by result (counts 0 0 (D.faults store.old)) }
{
    match store.replace(name, bytes) {
        Ok(()) => Ok(()),
        Err(WriteFault::Failed) => Err(RunFault::Store),
        Err(WriteFault::Memory) => Err(RunFault::Memory),
    }
}
