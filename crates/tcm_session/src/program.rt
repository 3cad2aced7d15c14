//! Runs the program: the words after its name, a script as input, and the printed answers.

ghost use Rattle.std.specs.Prelude.{◌≡◌, ◌≢◌, ◌⊎◌, ℕ, List, false, map, option_map, string_bytes, None, Some, IfErr, IfOk, IfSome};
ghost use Rattle.tcm_edges.specs.Files.{Files};
ghost use Rattle.tcm_edges.specs.Shown.{EachLeft};
ghost use Rattle.tcm_session.specs.Commit.{commit_outcome, commit_to_outcome};
ghost use Rattle.tcm_session.specs.Counts.{counts};
ghost use Rattle.tcm_session.specs.Gen.{gen_ending};
ghost use Rattle.tcm_session.specs.Left.{ChangesOnly, LeavesFiles, LeavesLog};
ghost use Rattle.tcm_session.specs.Mend.{mending};
ghost use Rattle.tcm_session.specs.Outcomes.{outcome};
ghost use Rattle.tcm_session.specs.Request as spec;
ghost use Rattle.tcm_session.specs.Request.{Cms, Commit, CommitTo, Gen, Mend, Plan, Replay, Snapshot};
ghost use Rattle.tcm_session.specs.Run.{ComesSurely, HasStatus, IsRun, Looks, MakesFile, RunsScript, told};
ghost use Rattle.tcm_session.specs.Usage.{usage_end};
ghost use Rattle.tcm_session.specs.files.MemberRoute.{route_ending};
ghost use Rattle.tcm_session.specs.files.Replay.{replay_ending};
ghost use Rattle.tcm_session.specs.files.StateLine.{snapshot_ending};
ghost use Rattle.tcm_session.specs.files.StreamPlan.{plan_ending};
ghost use Rattle.tcm_session.specs.code.Endings.{status_by};
ghost use Rattle.tcm_session.specs.code.Requests.{IsWithin, asked};
ghost use Rattle.tcm_session.specs.code.RunFaults.{counts_by};
ghost use Rattle.tcm_session.specs.code.Runs.{IsEnd, RunsSeen};
ghost use Rattle.tcm_session.specs.declared.run_fault.RunFault.TheVariants as fault;

use crate::ending::Ending;
use crate::files::mend::mend;
use crate::files::question::{Question, look};
use crate::files::report::replay_files;
use crate::generated::count_answers;
use crate::request::{Request, request_of};
use crate::run_fault::RunFault;
use crate::scripts::commit::{commit, commit_to};
use crate::status::{Status, status_of};
use std::alloc::Global;
use tcm_edges::{Sink, Source, Store, SureSink, SureSource, SureStore};

/// Does what is asked for. Stops at the first fault.
fn answer<S: Source, K: Sink, D: Store>(
    alloc: Global,
    request: Request<'_>,
    input: &mut S,
    out: &mut K,
    store: &mut D,
) -> Result<Status, RunFault>
    requires { IsWithin request }
    ensures runs { EachLeft D.files D.shows store.old store.new (λ left. RunsSeen
        (outcome (Some (asked request.entry)))
        (LeavesFiles (Some (asked request.entry)) (D.files store.old) left)
        (input.new ≡ input.old) (told (S.left input.old) (K.written out.old) (D.files store.old))
        (told (S.left input.new) (K.written out.new) left) (status_by result)) }
    ensures cause { counts (S.faults input.new) (K.faults out.new) (D.faults store.new)
        ≡ counts_by result (counts (S.faults input.old) (K.faults out.old) (D.faults store.old)) }
    ensures ended { IfOk result (λ status. IsEnd status.0) }
    ensures unnamed { spec.names_file (Some (asked request.entry)) ≡ false
        → (store.new ≡ store.old) × IfErr result (λ e. e ≢ fault.Store) }
    ensures others { spec.may_change (Some (asked request.entry)) ≡ false → D.files store.new ≡ D.files store.old }
{
    match request {
        Request::Commit => commit(alloc, input, out, store),
        Request::CommitTo { log } => commit_to(alloc, &log, input, out, store),
        Request::Replay { files } => replay_files(alloc, files, store)?.print(out),
        Request::Snapshot { log, epoch } => {
            look(alloc, log, &Question::State { epoch }, store)?.print(out)
        }
        Request::Gen { start, rounds } => count_answers(alloc, start, rounds)?.print(out),
        Request::Mend { old, new } => mend(alloc, old, &new, store)?.print(out),
        Request::Plan {
            log,
            node,
            keyspace,
        } => look(alloc, log, &Question::Plan { node, keyspace }, store)?.print(out),
        Request::Cms { log, from, to } => {
            look(alloc, log, &Question::Route { from, to }, store)?.print(out)
        }
    }
}

/// Does what the words ask for, or prints the usage line. Stops at the first fault.
fn answer_words<S: Source, K: Sink, D: Store>(
    alloc: Global,
    words: &[String],
    input: &mut S,
    out: &mut K,
    store: &mut D,
) -> Result<Status, RunFault>
    ensures runs { EachLeft D.files D.shows store.old store.new (λ left. RunsSeen
        (outcome (spec.request_of (map string_bytes words.now)))
        (LeavesFiles (spec.request_of (map string_bytes words.now)) (D.files store.old) left)
        (input.new ≡ input.old) (told (S.left input.old) (K.written out.old) (D.files store.old))
        (told (S.left input.new) (K.written out.new) left) (status_by result)) }
    ensures cause { counts (S.faults input.new) (K.faults out.new) (D.faults store.new)
        ≡ counts_by result (counts (S.faults input.old) (K.faults out.old) (D.faults store.old)) }
    ensures ended { IfOk result (λ status. IsEnd status.0) }
    ensures unnamed { spec.names_file (spec.request_of (map string_bytes words.now)) ≡ false
        → (store.new ≡ store.old) × IfErr result (λ e. e ≢ fault.Store) }
    ensures others { spec.may_change (spec.request_of (map string_bytes words.now)) ≡ false
        → D.files store.new ≡ D.files store.old }
{
    match request_of(alloc, words) {
        Some(request) => answer(alloc, request, input, out, store),
        None => Ending::usage(alloc)?.print(out),
    }
}

/// Runs the program `tcm`; `words` are the words after its name. All output goes to `out`.
///
/// - `commit` runs the script in `input` from an empty log, and uses no file.
/// - `commit LOG CLUSTER` runs it from the log in the file `LOG` of `store`, which is that of the cluster `CLUSTER`,
///   and adds the line of each new entry to this file before its commit is answered. The first line of the file is a
///   header, which names the cluster. A file that is absent or has no whole line gets this header first. Bytes after
///   the last line feed of the file are cut off, once all its lines were found good.
/// - `replay FILE..`, with 1 to 64 files, hands the entries and the images in the lines of these files to one follower,
///   in their order, and prints a report: the counts of lines, the epoch of the follower and the number of entries that
///   wait at it, and the nodes and the placements at this epoch. No input is read, and no file changes. A file may
///   begin with a header; all headers name one cluster. Bytes after the last line feed of a file are passed over.
/// - `snapshot LOG E`, with an E below 2^64 in decimal digits without leading zeros, prints the state of the log in the
///   file `LOG` at epoch E, as one line. No input is read, and no file changes. The whole log is checked before E is
///   looked at.
/// - `gen START N`, with a START below 2^64 and an N up to 3,000, both in decimal digits without leading zeros, answers
///   the lines of the generated script, and prints how many of its commits were accepted and refused, the last epoch
///   and the epoch of its follower. No input is read, and the store isn't used.
/// - `mend2 OLD NEW CLUSTER` reads the file `OLD` as a log of the older format, which has no header, and makes the file
///   `NEW`, the same log as that of the cluster `CLUSTER`. No input is read, and no other file changes.
/// - `plan LOG NODE KS`, with a NODE below 2^32 in decimal digits without leading zeros and the name of a keyspace,
///   prints the stream plan of the movement of NODE under KS in the last state of the log in the file `LOG`: a row for
///   each range between cuts and each node that the movement adds to its replicas, with the node from which it streams,
///   or a list of the nodes placed before. `stream_plan::streams` says what such a plan is good for. No input is
///   read, and no file changes.
/// - `cms LOG FROM TO`, with lists of 1 to 16 ascending nodes, prints a shortest safe route of the metadata service
///   from the members FROM to the members TO: each change, and how many of the voting members after it are a majority.
///   The nodes of TO that are not in FROM must be JOINED in the last state of the log in the file `LOG`. No input is
///   read, and no file changes.
/// - Other words print the usage line.
///
/// No name of a file is empty, and a cluster has a name as a node has.
///
/// A line of a script ends at a line feed; bytes after the last line feed, if there are any, are the last line. Each
/// line gets one answer, which is written before the next line is looked at. The source may give the script in pieces
/// of any length. A run reads at most 536,870,913 bytes.
///
/// Returns the status of the run:
///
/// - 0: the input was read to its end, and every line was answered; or all files were replayed; or a state, a route or
///   a stream plan was printed; or the answers to the generated script were counted; or a log file was made, and
///   `MENDED` and the number of its entries were printed.
/// - 1: memory ran out.
/// - 2: the words name no command. Nothing was read, and the usage line was printed.
/// - 3: a line of the log file, or of a file that is replayed, is refused. Nothing was read from the input, no file was
///   changed, and `REFUSED`, the number of the file among the words, the number of the line and the first cause were
///   printed, and nothing else; after the cause `FORK` also the lines of the two entries.
/// - 4: the source failed. Exactly the answers to the lines that end among the bytes read were printed. Only `commit`,
///   with or without a file, gives this status.
/// - 5: the sink failed.
/// - 6: the store failed. Only words that name a file give this status.
/// - 7: a file that is to be replayed or made anew, or whose state is to be looked at, is absent, and `NO FILE` and its
///   name were printed; or E is past the last epoch of the log, and `NO EPOCH` and the last epoch were printed; or
///   `NEW` is there, and `FILE-THERE` and its name were printed; or a node of TO that is not in FROM isn't JOINED, and
///   for the least such node `NO NO-NODE` and the node were printed if it isn't registered, and `NO NODE-STATE`, the
///   node and its state if it is; or NODE has no movement, and `NO SEQUENCE` was printed; or no keyspace has the name
///   KS, and `NO KEYSPACE` was printed.
/// - 8: byte 536,870,913 of the input was read, and the lines that end before it were answered; or a file has more than
///   536,870,912 bytes, and no input was read. Then `TOO-LARGE 536870912` was printed.
///
/// A run ends at its first fault: at status 4, 5 or 6 the source, the sink or the store counts one fault more than
/// before, and no other count of faults changes at any status. If the text for status 0, 2, 3, 7 or 8 can't be written,
/// the status is 5, or 1 if the sink runs out of memory. With status 1, 4, 5 or 6, the printed bytes are a prefix of
/// the output of a run without the fault, and some lines of a script are done. The file `LOG` has then its whole lines,
/// or the header if it had none, and the lines of the entries that the script added, and maybe a part of one entry
/// more; or it is as before, and no line is done. It changes only once it was found good. An entry whose answer is
/// printed, or begun, stands whole in it. The file `NEW` is as before, or it was absent and is whole. No other file
/// that the store tells changed; `FileStore` tells none, and may overwrite `LOG.new` or `NEW.new`.
/// `scripts_are_sent_again` says what the same lines make of such a `LOG`.
///
/// Cost: a run keeps in memory the log, the image of each 256th epoch, the metadata at the last epoch and that of each
/// follower, the file while it is loaded, and of the current line at most 16,385 bytes, with its answer. A query of an
/// earlier epoch, and its image for a follower, cost as much as metadata made from the image before it, and committing
/// at most 255 commands again. A replay keeps its follower and one file. `gen` answers up to 60,101 lines, and one more
/// for each epoch that its rounds commit, and keeps their session.
pub fn run<S: Source, K: Sink, D: Store>(
    alloc: Global,
    words: &[String],
    input: &mut S,
    out: &mut K,
    store: &mut D,
) -> Status
    // A clause for each command. Each speaks of the files that the store tells after the run, and of those that a crash
    // may leave then, if before the run it left only what the store told.

    // Words that name no command print the usage line.
    // Promise: words that name no command get the usage line and status 2; `commit`, `replay` with 1 to 64 files, and
    // the others within their limits never end with 2. Guards: lines.rt, words.rt, replays.rt (64 or 65 files),
    // generated.rt, plans.rt, members.rt, tried.
    ensures usage { spec.request_of (map string_bytes words.now) ≡ None
        → EachLeft D.files D.shows store.old store.new (λ files. Looks (λ _. usage_end) (input.new ≡ input.old)
        (told (S.left input.old) (K.written out.old) (D.files store.old))
        (told (S.left input.new) (K.written out.new) files) result.0) }

    // A script without a file is answered from the empty log, and no file changes.
    // Promise: an input past 536,870,912 bytes ends with status 8, after the answers to the lines that end within the
    // limit; one byte more is read, and no run reads further. Guards: limit_one_too_large.edit, by hand.
    // Promise: a script ends with status 0 only at the end of its input. Guards: tried.
    // Promise: whatever the status, the printed bytes of any command are a prefix of those of a run without the fault.
    // Guards: faults.rt.
    // Promise: at a fault of the source, each whole line that was read is answered, and nothing else is printed.
    // Guards: faults.rt.
    // Promise: a `commit` without a file changes no file, whatever the status. Guards: stops.rt, logs.rt.
    // Promise: what each command's clause says of the files holds of all that a crash may leave, if before the run this
    // was only what the store told. Guards: stops.rt of tcm_disks.
    ensures commit { spec.request_of (map string_bytes words.now) ≡ Some Commit
        → EachLeft D.files D.shows store.old store.new (λ files. RunsScript commit_outcome
        (λ o printed ended. files ≡ D.files store.old) (input.new ≡ input.old)
        (told (S.left input.old) (K.written out.old) (D.files store.old))
        (told (S.left input.new) (K.written out.new) files) result.0) }

    // A script is answered from the log in a file, and its entries are added there. A fault leaves in the file what the
    // lines added that were done, and at most a part of one entry more; every other file stays.
    // Promise: a script goes on from the log in the file; a file that is absent, or has no whole line, is an empty log,
    // and gets the cluster's header first. Guards: logs.rt (a log that goes on, header-line), headers.rt.
    // Promise: all whole lines of the log are checked first: the first refused one is printed with its first cause and
    // status 3, and nothing is read or changed. Guards: logs.rt (fork-and-gap, each cause), headers.rt, bad_lines.rt,
    // tried.
    // Promise: an entry or a state on the first line is refused with `FORMAT`, a header of another cluster with
    // `CLUSTER`, a later header with `HEADER`, a later state with `NOT-ENTRY`. Guards: another_cluster_is_taken.edit,
    // headers.rt, snapshots.rt (snapshot-in-log).
    // Promise: the bytes after the file's last line feed are cut off, and no others; lines that are there keep their
    // spelling. Guards: logs.rt (cut-tail, another spelling stays), tried.
    // Promise: a file of more than 536,870,912 bytes ends any command that loads it with status 8, and no input is
    // read. Guards: logs.rt, mends.rt, replays.rt (test `replays_stop`), snapshots.rt, members.rt, plans.rt.
    // Promise: after a fault or lack of memory some lines of a script are done, with answers printed and entries added;
    // or the file is as before, with no answer printed. Guards: stops.rt, logs.rt (store-stops, a header that is
    // written), tried.
    // Promise: of the next answer and its entry's line at most a prefix is there, the line whole once the answer
    // begins, so each printed `OK` has its entry. Guards: stops.rt, logs.rt (store-stops, an append after a cut),
    // tried.
    // Promise: at a fault of the source no part of the next answer or entry is there; no fault changes another file.
    // Guards: stops.rt, logs.rt.
    ensures commit_to { (log cluster : List ℕ) → spec.request_of (map string_bytes words.now) ≡ Some (CommitTo log cluster)
        → EachLeft D.files D.shows store.old store.new (λ files. RunsScript (commit_to_outcome log cluster)
        (λ o printed ended. ChangesOnly log (LeavesLog cluster o printed ended) (D.files store.old) files)
        (input.new ≡ input.old)
        (told (S.left input.old) (K.written out.old) (D.files store.old))
        (told (S.left input.new) (K.written out.new) files) result.0) }

    // The lines of files are handed to one follower, and its report is printed.
    // Promise: a replay hands the entry or image of each whole line, file by file, to one follower, and prints counts,
    // nodes and all keyspaces' placements. Guards: replays.rt (each line twice, replay-cut-line), snapshots.rt.
    // Promise: a line that isn't taken since 1,024 entries wait is counted as full. Guards: replays.rt (1,025 entries),
    // tried.
    // Promise: the first refused line of a replay is printed with its cause and status 3, and after a fork the lines of
    // both entries. Guards: replays.rt (a fork, fork-and-gap), bad_lines.rt, bad_images.rt, tried.
    // Promise: at a file that is absent a replay prints its name and ends with status 7. Guards: replays.rt (no second
    // file, unknown-things), tried.
    // Promise: a header in a replay is only counted; it is refused with `HEADER` if it isn't on a first line, and with
    // `CLUSTER` if an earlier header names another cluster. Guards: headers.rt.
    // Promise: each command but `commit` leaves the input unread, and never ends with status 4. Guards: replays.rt,
    // snapshots.rt, members.rt, plans.rt, words.rt, generated.rt, mends.rt, tried.
    ensures replay { (names : List (List ℕ)) → spec.request_of (map string_bytes words.now) ≡ Some (Replay names)
        → EachLeft D.files D.shows store.old store.new (λ files. Looks (replay_ending names) (input.new ≡ input.old)
        (told (S.left input.old) (K.written out.old) (D.files store.old))
        (told (S.left input.new) (K.written out.new) files) result.0) }

    // The state of a log at an epoch is printed.
    // Promise: `snapshot LOG E` prints the one line of the state at epoch E of the log in the file, and ends with
    // status 0. Guards: snapshots.rt, moving.rt.
    // Promise: a `snapshot` checks the whole log first: the first refused line ends it with status 3; only then an E
    // past the last epoch with `NO EPOCH` and status 7. Guards: snapshots.rt.
    // Promise: a `snapshot` ends with status 7 and `NO FILE` and the name if the file is absent. Guards: snapshots.rt.
    ensures snapshot { (log : List ℕ) (epoch : ℕ) → spec.request_of (map string_bytes words.now) ≡ Some (Snapshot log epoch)
        → EachLeft D.files D.shows store.old store.new (λ files. Looks (snapshot_ending log epoch) (input.new ≡ input.old)
        (told (S.left input.old) (K.written out.old) (D.files store.old))
        (told (S.left input.new) (K.written out.new) files) result.0) }

    // The answers to a generated script are counted.
    // Promise: `gen START N` answers the generated script without a file, and prints how many lines, accepted commits
    // and refusals of each kind came, and both last epochs. Guards: generated.rt, tried.
    ensures generated { (start rounds : ℕ) → spec.request_of (map string_bytes words.now) ≡ Some (Gen start rounds)
        → EachLeft D.files D.shows store.old store.new (λ files. Looks (λ _. gen_ending start rounds) (input.new ≡ input.old)
        (told (S.left input.old) (K.written out.old) (D.files store.old))
        (told (S.left input.new) (K.written out.new) files) result.0) }

    // A log file is made of one of the older format. A fault leaves it as before, or it was absent and is whole.
    // Promise: `mend2 OLD NEW CLUSTER` makes NEW of the header and the line of each entry of OLD, and prints `MENDED`
    // and their number, with status 0. Guards: mend_drops_an_entry.edit, mends.rt (mend-format, another spelling).
    // Promise: a `mend2` checks all of OLD first: its absence ends it with status 7, its first refused line, as any
    // header is, with status 3 and the first cause. Guards: mends.rt (no log, a header), bad_lines.rt.
    // Promise: only then a NEW that is there ends a `mend2` with status 7, `FILE-THERE` and its name, and stays as it
    // is. Guards: mends.rt (the same again, an empty file).
    // Promise: after a fault or lack of memory in a `mend2` NEW is as before, or it was absent and is whole; no other
    // file changes, whatever the status. Guards: mends.rt (test `mends_stop`).
    // Promise: a `mend2` that makes NEW prints nothing before NEW is whole. Guards: mends.rt (test `mends_stop`).
    ensures mend { (old new cluster : List ℕ) → spec.request_of (map string_bytes words.now) ≡ Some (Mend old new cluster)
        → EachLeft D.files D.shows store.old store.new (λ files. MakesFile new (mending old new cluster) (input.new ≡ input.old)
        (told (S.left input.old) (K.written out.old) (D.files store.old))
        (told (S.left input.new) (K.written out.new) files) result.0) }

    // The stream plan of a movement is printed.
    // Promise: `plan LOG NODE KS` prints epoch, node, keyspace and the rows of the stream plan of NODE's movement under
    // KS in the last state, with status 0. Guards: plans.rt (plan-of-join, plan-on-empty-ring).
    // Promise: a `plan` checks the whole log first, with status 3; only then a node without a movement gives
    // `NO SEQUENCE`, else an unknown keyspace `NO KEYSPACE`, with 7. Guards: plans.rt (no movement, no keyspace).
    // Promise: a `plan` ends with status 7 and `NO FILE` and the name if the file is absent. Guards: plans.rt (no
    // file).
    ensures plan { (log : List ℕ) (node : ℕ) (keyspace : List ℕ) → spec.request_of (map string_bytes words.now) ≡ Some (Plan log node keyspace)
        → EachLeft D.files D.shows store.old store.new (λ files. Looks (plan_ending log node keyspace) (input.new ≡ input.old)
        (told (S.left input.old) (K.written out.old) (D.files store.old))
        (told (S.left input.new) (K.written out.new) files) result.0) }

    // The route between two sets of members is printed.
    // Promise: `cms LOG FROM TO` prints the number of changes of the route, and after each change the voting members
    // and how many are a majority, with status 0. Guards: members.rt (members-change, sixteen to one).
    // Promise: a `cms` checks the whole log first, with status 3; only then the least added node that isn't JOINED
    // gives `NO NO-NODE` or `NO NODE-STATE`, with 7. Guards: members.rt (members-refused, a gap).
    // Promise: a `cms` ends with status 7 and `NO FILE` and the name if the file is absent. Guards: members.rt (no
    // file).
    ensures cms { (log from to : List ℕ) → spec.request_of (map string_bytes words.now) ≡ Some (Cms log from to)
        → EachLeft D.files D.shows store.old store.new (λ files. Looks (route_ending log from to) (input.new ≡ input.old)
        (told (S.left input.old) (K.written out.old) (D.files store.old))
        (told (S.left input.new) (K.written out.new) files) result.0) }

    // Promise: without a fault or lack of memory, words, input and files alone decide the status, the printed bytes and
    // the files, as each command's clause says. Guards: one_status_for_all.edit, scripts.rt, logs.rt, tried.
    // Promise: a run ends at its first fault: status 4 comes if and only if the source failed, 5 the sink, 6 the store,
    // and else there was no fault. Guards: one_status_for_all.edit, replays.rt (a load that fails), tried.
    // Promise: no status is above 8. Guards: by each command's clause.
    ensures status { HasStatus
        (counts (S.faults input.old) (K.faults out.old) (D.faults store.old))
        (counts (S.faults input.new) (K.faults out.new) (D.faults store.new)) result.0 }

    // Promise: words that name no file, as those of `gen`, leave the store as it was, and never end with status 6.
    // Guards: words.rt, generated.rt, tried.
    ensures store { spec.names_file (spec.request_of (map string_bytes words.now)) ≡ false
        → (store.new ≡ store.old) × (result.0 ≢ 6) }

    // Promise: words other than `commit` and `mend2` change no file, whatever the status. Guards: replays.rt,
    // snapshots.rt, members.rt, plans.rt, words.rt, generated.rt.
    ensures unchanged { spec.may_change (spec.request_of (map string_bytes words.now)) ≡ false
        → D.files store.new ≡ D.files store.old }
{
    status_of(answer_words(alloc, words, input, out, store))
}

/// Runs the program, as `run` does, over objects that never fail. The status, the printed bytes and the files are those
/// of the outcome, unless the status is 1: memory ran out. Then they are as after a fault of `run`.
pub fn run_surely(
    alloc: Global,
    words: &[String],
    input: &mut SureSource,
    out: &mut SureSink,
    store: &mut SureStore,
) -> Status
    // Promise: over the objects in memory that never fail, a run ends as its outcome says, or with status 1. Guards:
    // limits.rt.
    ensures surely { (result.0 ≡ 1) ⊎ ComesSurely
        (outcome (spec.request_of (map string_bytes words.now)) (λ _. store.old) input.old.bytes)
        out.old out.new store.new result.0 }
    ensures outcome { IsRun (spec.request_of (map string_bytes words.now)) (input.new ≡ input.old)
        (told (Some input.old.bytes) (Some out.old) (Some store.old))
        (told (Some input.new.bytes) (Some out.new) (Some store.new)) result.0 }
{
    run(alloc, words, input, out, store)
}
