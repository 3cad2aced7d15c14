//! The statuses of runs.

ghost use Rattle.std.specs.Prelude.{◌≡◌};
ghost use Rattle.tcm_session.specs.code.Endings as spec;

use crate::run_fault::RunFault;

/// The status of a run; `run` explains each one.
///
/// - 0: what was asked for is done: lines were answered, or a report, a state, counts, a stream plan or a route was
///   printed, or a log file was made.
/// - 1: memory ran out.
/// - 2: the words name no command.
/// - 3: a line of a file is refused.
/// - 4, 5 and 6: the source, the sink or the store failed.
/// - 7: what was asked for isn't there: a file, an epoch, a node's movement, a keyspace, or a node that is JOINED. Or a
///   file that is to be made is there, `FILE-THERE`.
/// - 8: the input or a file is too large.
#[derive(Clone, Copy, Debug, PartialEq, Eq)]
pub struct Status(pub u8);

/// The status of a run that a fault ends.
fn fault_status(fault: RunFault) -> Status
    ensures { result.0 ≡ spec.fault_status fault }
{
    match fault {
        RunFault::Memory => Status(1),
        RunFault::Source => Status(4),
        RunFault::Sink => Status(5),
        RunFault::Store => Status(6),
    }
}

/// The status of a run that ended, by a fault or not.
pub fn status_of(ended: Result<Status, RunFault>) -> Status
    ensures { result.0 ≡ spec.status_by ended }
{
    match ended {
        Ok(status) => status,
        Err(fault) => fault_status(fault),
    }
}
