//! Opens the log in a file.

ghost use Rattle.std.specs.Prelude.{◌≡◌, ◌≤◌, [], IfErr, IfOk, Ok};
ghost use Rattle.std.specs.Option.{option_copied};
ghost use Rattle.script_session.specs.Lines.{open_line, whole_lines};
ghost use Rattle.script_session.specs.LogFiles as spec;
ghost use Rattle.script_session.specs.Machine.{session_over};
ghost use Rattle.tcm_session.specs.code.Loading.{IsAfterHeader, IsOpened, IsUnopened};
ghost use Rattle.tcm_session.specs.declared.files.log_file.LogFault.TheVariants as log_fault;

use crate::scripts::lines::cut_line;
use cluster_terms::{Memory, Name};
use script_session::{Cause, RefusedLine, Session, header_cause};
use std::alloc::Global;

/// The file of a log: its name, and the name of the cluster whose log it is.
#[derive(Debug, Drop)]
pub struct LogFile<'a> {
    pub name: &'a str,
    pub cluster: Name,
}

/// Why the log in a file isn't opened.
#[derive(Debug, Drop)]
pub enum LogFault {
    /// This line is refused.
    Refused(RefusedLine),
    /// Memory ran out.
    Memory,
}

impl From<Memory> for LogFault {
    ghost from_gives = { λ _ fault. fault ≡ log_fault.Memory };

    fn from(_memory: Memory) -> LogFault {
        LogFault::Memory
    }
}

/// The fault at the line with this number.
fn refused_at(line: u64, cause: Cause) -> LogFault
    ensures { result ≡ log_fault.Refused (record { file = 1; line = line; cause = cause }) }
{
    LogFault::Refused(RefusedLine {
        file: 1,
        line,
        cause,
    })
}

/// Takes over the entries in lines of a log file, of which the first has this number, and returns the number of bytes
/// after the last line feed. After a fault, some of the entries may be taken over.
fn load_entries(session: &mut Session, lines: &[u8], first: u64) -> Result<usize, LogFault>
    requires empty { session.old ≡ session_over [] }
    requires first { first ≤ 2 }
    ensures opened { IfOk result (λ size.
        IsOpened (spec.log_from first [] (whole_lines lines.now)) (open_line lines.now) session.new size) }
    ensures fault { IfErr result (λ fault.
        IsUnopened (spec.log_from first [] (whole_lines lines.now)) fault) }
{
    let mut rest = lines;
    while let Some((line, more)) = cut_line(rest) {
        if let Some(cause) = session.take_line(line)? {
            return Err(refused_at(session.last_epoch() + first, cause));
        }
        rest = more;
    }
    Ok(rest.len())
}

/// A session over the entries in lines of a log file, of which the first has this number, and the number of bytes after
/// the last line feed.
fn open_entries(alloc: Global, lines: &[u8], first: u64) -> Result<(Session, usize), LogFault>
    requires { first ≤ 2 }
    ensures opened { IfOk result (λ opened.
        IsOpened (spec.log_from first [] (whole_lines lines.now)) (open_line lines.now) opened.0 opened.1) }
    ensures fault { IfErr result (λ fault.
        IsUnopened (spec.log_from first [] (whole_lines lines.now)) fault) }
{
    let mut session = Session::empty(alloc)?;
    match load_entries(&mut session, lines, first) {
        Ok(size) => Ok((session, size)),
        Err(fault) => {
            session.close();
            Err(fault)
        }
    }
}

/// The bytes of a log file after its header, which must name this cluster, if one is given. A file without a whole line
/// has no header.
fn after_header<'a>(
    alloc: Global,
    cluster: Option<&Name>,
    file: &'a [u8],
) -> Result<&'a [u8], LogFault>
    ensures lines { IfOk result (λ lines. IsAfterHeader (option_copied cluster.entry) file.now lines.now) }
    ensures fault { IfErr result (λ fault.
        IsUnopened (spec.log_for (option_copied cluster.entry) file.now) fault) }
{
    let Some((line, rest)) = cut_line(file) else {
        return Ok(file);
    };
    match header_cause(alloc, cluster, line)? {
        None => Ok(rest),
        Some(cause) => Err(refused_at(1, cause)),
    }
}

/// A session over the log in a file, and the number of bytes after the file's last line feed. These bytes are no line.
/// The header must name this cluster, if one is given.
pub fn open_log(
    alloc: Global,
    cluster: Option<&Name>,
    file: &[u8],
) -> Result<(Session, usize), LogFault>
    ensures opened { IfOk result (λ opened.
        IsOpened (spec.log_for (option_copied cluster.entry) file.now) (open_line file.now) opened.0 opened.1) }
    ensures fault { IfErr result (λ fault.
        IsUnopened (spec.log_for (option_copied cluster.entry) file.now) fault) }
{
    let lines = after_header(alloc, cluster, file)?;
    open_entries(alloc, lines, 2)
}

/// A session over the log in a file of the older format, which has no header.
pub fn open_old_log(alloc: Global, file: &[u8]) -> Result<Session, LogFault>
    ensures opened { IfOk result (λ session. spec.old_log_of file.now ≡ Ok session.log) }
    ensures fault { IfErr result (λ fault. IsUnopened (spec.old_log_of file.now) fault) }
{
    let (session, _size) = open_entries(alloc, file, 1)?;
    Ok(session)
}
