//! Facts about the definitions of a run: scripts that are sent again, replays, and how long a log file is.

ghost use Rattle.std.specs.Prelude.{◌≡◌, ◌≢◌, ◌≤◌, ℕ, List, length, Option, Some, Ok, IfOk, IsTrue};
ghost use Rattle.std.specs.List.{AllByRecursion};
ghost use Rattle.cluster_terms.specs.Name.{is_name};
ghost use Rattle.script_lang.specs.AnswerTexts.{line};
ghost use Rattle.transformations.specs.History.{most_epochs};
ghost use Rattle.transformations.specs.Log.{IsLog};
ghost use Rattle.transformations.specs.declared.entry.Entry.{Entry};
ghost use Rattle.wire_json.specs.Entries.{IsEntry};
ghost use Rattle.script_session.specs.LogFiles.{log_for};
ghost use Rattle.script_session.specs.Machine.{SessionState, session_after, session_over};
ghost use Rattle.script_session.specs.Taken.{ShowsPrefix};
ghost use Rattle.tcm_edges.specs.Files.{Files, content};
ghost use Rattle.tcm_session.specs.Left.{HoldsAnswered, LeavesLog, StopsIn};
ghost use Rattle.tcm_session.specs.Limits.{input_limit};
ghost use Rattle.tcm_session.specs.Mend.{log_text};
ghost use Rattle.tcm_session.specs.Outcome.{Outcome};
ghost use Rattle.tcm_session.specs.files.Replay.{files_replayed, nothing_replayed, replay_ending};
ghost use Rattle.tcm_session.specs.files.ReplayPrefix.{AreFilesOf, AreHeadedFiles, ReportsPrefix, taken_of_files};
ghost use Rattle.tcm_session.specs.SentAgain.{AreAccepted, ComesToSame, GoesOn, log_at};

/// A script that is sent again. Take the lines of a script, answered from a log, with `OK` and an epoch to each commit,
/// and the log as it is after any number of these lines. All the lines, answered from there, come to the same: each
/// commit is answered with the same text, and the log is the same afterwards.
///
/// The log file that a fault leaves reads as the log after some of the lines. The same lines, sent again, make of it
/// the file that one run without a fault makes. So a run that a fault ended may be repeated. A commit that was refused
/// is decided anew. The file is the log of one cluster.
pub fn scripts_are_sent_again()
    // Promise: the same lines, sent again from the log after any number of them, get the same answer to each commit and
    // lead to the same log, if each was accepted. Guards: law, stops.rt (each run twice).
    ensures log { (log : List Entry) (lines : List (List ℕ)) (n : ℕ) → AreAccepted (session_over log) lines
        → ComesToSame log (log_at log lines n) lines }
    // Promise: the file that a fault left reads as the log after some lines, and the same lines, if accepted, make of
    // it the file of a run without faults. Guards: law, stops.rt (each run twice).
    ensures file { (cluster : List ℕ) (o : Outcome) (printed : List ℕ) (status : ℕ) (file file' : Option (List ℕ))
        → IsTrue (is_name cluster) → log_for (Some cluster) (content file) ≡ Ok o.log
        → LeavesLog cluster o printed status file file' → GoesOn cluster o.log o.lines (content file) (content file') }
{}

/// A replay of files whose whole lines are entries of one log or images of its states, in any order, some lost and some
/// repeated, or headers. At the end of the files, the follower stands for this log and for what it took: the entries
/// and images that weren't answered `Full`. It shows the state of the log at the end of the longest prefix of these
/// without a gap, and the report at status 0 is that of this state. No line is refused, so the status isn't 3, if each
/// header is the first line of its file and all headers name one cluster.
pub fn replays_show_the_longest_prefix()
    // Promise: at the end of files of one log, in any order, lost and repeated, a follower is at the end of the longest
    // prefix without a gap of what it took. Guards: law, replays.rt, headers.rt, snapshots.rt.
    ensures shows { (log : List Entry) (names : List (List ℕ)) (seen : ℕ → Files)
        → IsLog log → AreFilesOf log names seen
        → IfOk (files_replayed 1 nothing_replayed names seen) (λ replay.
        ShowsPrefix log (taken_of_files names seen) replay.follower) }
    // Promise: at status 0 a replay of files of one log reports such a follower. Guards: law, replays.rt, headers.rt,
    // snapshots.rt.
    ensures reports { (log : List Entry) (names : List (List ℕ)) (seen : ℕ → Files)
        → IsLog log → AreFilesOf log names seen → (replay_ending names seen).status ≡ 0
        → ReportsPrefix log (taken_of_files names seen) (replay_ending names seen).text }
    // Promise: no line of files of one log is refused, if headers stand only on first lines and name one cluster.
    // Guards: law, replays.rt, headers.rt, snapshots.rt.
    ensures unrefused { (log : List Entry) (names : List (List ℕ)) (seen : ℕ → Files) (cluster : List ℕ)
        → IsLog log → AreFilesOf log names seen → AreHeadedFiles cluster names seen
        → (replay_ending names seen).status ≢ 3 }
{}

/// What a fault leaves of a script has each entry whose commit was answered. Let a run stop within some lines, with
/// some bytes printed and some added to the log file (`StopsIn`). If the answer to a line is printed whole, the lines
/// of its entry, and of the entries of the lines before it, are added whole. The lines are answered from the log in a
/// file.
pub fn answered_entries_stand()
    // Promise: each answer that is printed whole has the line of its entry, and those of the entries before it, whole
    // in the file. Guards: law, stops.rt.
    ensures { (cluster : Option (List ℕ)) (file : List ℕ) (log : List Entry) (lines : List (List ℕ))
        (last printed added : List ℕ) → log_for cluster file ≡ Ok log
        → StopsIn (session_over log) lines last printed added → HoldsAnswered (session_over log) lines printed added }
{}

/// The file of a log isn't too large to be loaded: the header of a cluster and the lines of at most 65,536 entries have
/// at most as many bytes as a file that is loaded may have. The entries need values that a line can hold. Lines of a
/// script add only such entries, so each log that a run makes from the empty log has only such entries.
pub fn log_files_fit()
    // Promise: the header of a cluster and the lines of a log of at most 65,536 entries have at most as many bytes as a
    // file that is loaded may have. Guards: law.
    ensures fits { (cluster : List ℕ) (log : List Entry) → IsTrue (is_name cluster) → AllByRecursion IsEntry log
        → length log ≤ most_epochs → length (log_text cluster log) ≤ input_limit }
    // Promise: the entries that lines of a script add have values that a line can hold. Guards: law.
    ensures lines { (session : SessionState) (lines : List (List ℕ)) → AllByRecursion IsEntry session.log
        → AllByRecursion IsEntry (session_after session lines).log }
{}
