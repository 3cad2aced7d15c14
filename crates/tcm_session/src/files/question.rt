//! What is asked of the log in a file, which is loaded and taken over for it.

ghost use Rattle.std.specs.Prelude.{◌≡◌, IfOk};
ghost use Rattle.script_session.specs.LogFiles.{log_of};
ghost use Rattle.tcm_edges.specs.Shown.{ShowsNoMore};
ghost use Rattle.tcm_session.specs.Counts.{counts};
ghost use Rattle.tcm_session.specs.code.Questions.{IsAsked, said};
ghost use Rattle.tcm_session.specs.code.Replays.{EndsSo};
ghost use Rattle.tcm_session.specs.code.RunFaults.{counts_by};
ghost use Rattle.tcm_session.specs.files.LookedEnds as spec;

use crate::ending::Ending;
use crate::files::log_file::{LogFault, open_log};
use crate::files::member_route::show_route;
use crate::files::plan_lines::show_plan;
use crate::files::state_line::show_state;
use crate::limits::FILE_LIMIT;
use crate::node_list::NodeList;
use crate::run_fault::RunFault;
use cluster_terms::{Memory, Name, NodeId};
use script_session::Session;
use std::alloc::Global;
use tcm_edges::{Loaded, Store};

/// What is asked of a log. `snapshot`, `plan` and `cms` differ in their answers alone, so one place opens the file and
/// ends at a bad one.
#[derive(Drop)]
pub enum Question {
    /// Its state at an epoch.
    State { epoch: u64 },
    /// The stream plan of the movement of a node under a keyspace.
    Plan { node: NodeId, keyspace: Name },
    /// The route from one set of members of the metadata service to another.
    Route { from: NodeList, to: NodeList },
}

impl Question {
    /// The end with the answer, by the session's log.
    fn answer(&self, alloc: Global, session: &Session) -> Result<Ending, Memory>
        requires { IsAsked self.now }
        ensures { IfOk result (λ ending. ending ≡ said self.now session.now.log) }
    {
        match self {
            Question::State { epoch } => show_state(alloc, session, *epoch),
            Question::Plan { node, keyspace } => show_plan(alloc, session, *node, keyspace),
            Question::Route { from, to } => show_route(alloc, session, from, to),
        }
    }

    /// The end with the answer, by the log in a file, or at the first line that is refused.
    fn in_file(&self, alloc: Global, file: &[u8]) -> Result<Ending, Memory>
        requires { IsAsked self.now }
        ensures { IfOk result (λ ending. ending ≡ spec.log_end (said self.now) (log_of file.now)) }
    {
        match open_log(alloc, None, file) {
            Ok((session, _size)) => {
                let ending = self.answer(alloc, &session);
                session.close();
                ending
            }
            Err(LogFault::Refused(refused)) => Ending::refused(alloc, &refused),
            Err(LogFault::Memory) => Err(Memory),
        }
    }

    /// The end at the file with this name, once it is loaded.
    fn once_loaded(&self, alloc: Global, name: &str, loaded: Loaded) -> Result<Ending, Memory>
        requires { IsAsked self.now }
        ensures { IfOk result (λ ending. ending ≡ spec.file_end name.now (said self.now) loaded) }
    {
        match loaded {
            Loaded::Absent => Ending::absent(alloc, name),
            Loaded::TooLarge(_size) => Ending::too_large(alloc),
            Loaded::Bytes(file) => self.in_file(alloc, file.as_slice()),
        }
    }
}

/// Loads the log in a file, and returns the end with the answer to a question; or the end at the first line of the log
/// that is refused, or at a file that is absent or too large. No file changes.
///
/// Cost: the whole log is taken over.
pub fn look<D: Store>(
    alloc: Global,
    name: &str,
    question: &Question,
    store: &mut D,
) -> Result<Ending, RunFault>
    requires { IsAsked question.now }
    ensures ends { IfOk result (λ ending.
        EndsSo (spec.looked_end name.now (said question.now)) ending (D.files store.old)) }
    ensures files { D.files store.new ≡ D.files store.old }
    ensures crash { ShowsNoMore (D.shows store.old) (D.shows store.new) }
    ensures cause { counts 0 0 (D.faults store.new)
        ≡ counts_by result (counts 0 0 (D.faults store.old)) }
{
    let loaded = store.load(name, FILE_LIMIT)?;
    Ok(question.once_loaded(alloc, name, loaded)?)
}
