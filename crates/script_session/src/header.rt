//! The header of a log file, its first line.

ghost use Rattle.std.specs.Prelude.{◌≡◌, Ok, option_map, IfOk};
ghost use Rattle.std.specs.Option.{option_copied};
ghost use Rattle.script_session.specs.LogFiles as spec;

use crate::refused_line::Cause;
use cluster_terms::{Memory, Name, TryCopy};
use std::alloc::Global;
use wire_json::{Line, ReadLineFault, read_line};

/// The cause to refuse a header that names the cluster `came`, if another cluster is wanted.
pub fn other_cluster(want: Option<&Name>, came: Name) -> Result<Option<Cause>, Memory>
    ensures { IfOk result (λ cause. cause ≡ spec.other_cluster (option_copied want.entry) came) }
{
    let Some(want) = want else {
        return Ok(None);
    };
    if want.as_str() == came.as_str() {
        return Ok(None);
    }
    Ok(Some(Cause::Cluster(want.copy()?, came)))
}

/// The cause to refuse this content of the first line of a log file, as `header_cause` does.
fn content_cause(want: Option<&Name>, content: Line) -> Result<Option<Cause>, Memory>
    ensures { IfOk result (λ cause. cause ≡ spec.header_read (option_copied want.entry) (Ok content)) }
{
    match content {
        Line::Header(came) => other_cluster(want, came),
        Line::Entry(_entry) => Ok(Some(Cause::Format)),
        Line::Snapshot(_image) => Ok(Some(Cause::Format)),
    }
}

/// The first cause to refuse the first line of a log file, which comes without its line feed: it breaks a rule of
/// `read_line`, it isn't a header, or it names another cluster than the wanted one. On each later line a header is
/// refused before its name is looked at. A format other than `2`, `2.0` too, breaks rule 7.
pub fn header_cause(
    alloc: Global,
    want: Option<&Name>,
    line: &[u8],
) -> Result<Option<Cause>, Memory>
    ensures { IfOk result (λ cause. cause ≡ spec.header_cause (option_copied want.entry) line.now) }
{
    match read_line(alloc, line) {
        Ok(content) => content_cause(want, content),
        Err(ReadLineFault::Bad(rule)) => Ok(Some(Cause::Line(rule))),
        Err(ReadLineFault::Memory) => Err(Memory),
    }
}
