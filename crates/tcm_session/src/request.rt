//! The words after the program's name.

ghost use Rattle.std.specs.Prelude.{◌≡◌, ◌≤◌, ◌&&◌, if◌then◌else◌, length, map, option_map, string_bytes, IfSome, IsTrue, None, Some};
ghost use Rattle.std.specs.List.{list_all};
ghost use Rattle.script_lang.specs.Grammar.{number_below};
ghost use Rattle.cluster_terms.specs.Name.{is_name};
ghost use Rattle.tcm_session.specs.Request as spec;
ghost use Rattle.tcm_session.specs.code.Requests.{IsWithin, asked, names_of};

use crate::files::log_file::LogFile;
use crate::node_list::{NodeList, node_list};
use cluster_terms::{Name, NodeId};
use script_lang::{node_of, number_of};
use std::alloc::Global;

/// The most files of a replay.
const MOST_FILES: usize = 64;

/// The most rounds of a generated script. With the opening they make at most 60,050 epochs, so a generated script never
/// comes to `EPOCHS-FULL`.
const MOST_ROUNDS: u64 = 3_000;

/// What the words after the program's name ask for. The words are read once. The names of files are borrowed from them,
/// so none is copied; `asked` has the names themselves.
#[derive(Drop)]
pub enum Request<'a> {
    /// To run a script, without a file.
    Commit,
    /// To run a script from the log in a file, and to add its entries to this file.
    CommitTo {
        log: LogFile<'a>,
    },
    /// To replay 1 to 64 files.
    Replay {
        files: &'a [String],
    },
    /// To print the state of the log in a file at an epoch.
    Snapshot {
        log: &'a str,
        epoch: u64,
    },
    /// To count the answers to a generated script of up to 3,000 rounds.
    Gen {
        start: u64,
        rounds: u64,
    },
    /// To write the log in the file `old`, of the older format, anew as the log file of a cluster.
    Mend {
        old: &'a str,
        new: LogFile<'a>,
    },
    /// To print the stream plan of the movement of a node under a keyspace, by the log in a file.
    Plan {
        log: &'a str,
        node: NodeId,
        keyspace: Name,
    },
    /// To print the route from one set of members of the metadata service to another, by the log in a file.
    Cms {
        log: &'a str,
        from: NodeList,
        to: NodeList,
    },
}

/// Whether a word may be the name of a file: it isn't empty.
pub fn is_file_name(name: &str) -> bool
    ensures { result ≡ spec.is_file_name name.now }
{
    !name.is_empty()
}

/// The log file with these names, if they are the name of a file and that of a cluster.
fn log_file<'a>(alloc: Global, name: &'a str, cluster: &str) -> Option<LogFile<'a>>
    ensures { option_map names_of result
        ≡ (if spec.is_log name.now cluster.now then Some (name.now, cluster.now) else None) }
{
    if !is_file_name(name) {
        return None;
    }
    let cluster = Name::from_bytes(alloc, cluster.as_bytes()).unwrap()?;
    Some(LogFile { name, cluster })
}

/// Whether each word may be the name of a file.
fn have_names(names: &[String]) -> bool
    ensures { result ≡ list_all spec.is_file_name (map string_bytes names.now) }
{
    let mut rest = names;
    while let Some((name, more)) = rest.split_first() {
        if !is_file_name(name.as_str()) {
            return false;
        }
        rest = more;
    }
    true
}

/// Whether these are the names of 1 to 64 files.
fn are_files(names: &[String]) -> bool
    ensures files { result ≡ spec.are_files (map string_bytes names.now) }
    ensures few { IsTrue result → length names.now ≤ 64 }
{
    !names.is_empty() && names.len() <= MOST_FILES && have_names(names)
}

/// The number of rounds that a text writes: a number up to 3,000.
#[tactic(auto, using(script_lang::proofs::Numerals::number_below_is))]
fn rounds_of(text: &str) -> Option<u64>
    ensures is { result ≡ number_below 3001 text.now }
    ensures most { IfSome result (λ rounds. rounds ≤ 3000) }
{
    let rounds = number_of(text.as_bytes())?;
    if rounds <= MOST_ROUNDS {
        Some(rounds)
    } else {
        None
    }
}

/// What the words after `commit` ask for, if anything.
fn commit_request(alloc: Global, words: &[String]) -> Option<Request<'_>>
    ensures is { option_map asked result ≡ spec.commit_request (map string_bytes words.now) }
    ensures within { IfSome result IsWithin }
{
    if words.is_empty() {
        return Some(Request::Commit);
    }
    let [log, cluster] = words else {
        return None;
    };
    let log = log_file(alloc, log.as_str(), cluster.as_str())?;
    Some(Request::CommitTo { log })
}

/// What the words after `replay` ask for, if anything.
fn replay_request(words: &[String]) -> Option<Request<'_>>
    ensures is { option_map asked result ≡ spec.replay_request (map string_bytes words.now) }
    ensures within { IfSome result IsWithin }
{
    if are_files(words) {
        Some(Request::Replay { files: words })
    } else {
        None
    }
}

/// What the words after `snapshot` ask for, if anything.
fn snapshot_request(words: &[String]) -> Option<Request<'_>>
    ensures is { option_map asked result ≡ spec.snapshot_request (map string_bytes words.now) }
    ensures within { IfSome result IsWithin }
{
    match words {
        [log, epoch] if is_file_name(log.as_str()) => {
            let epoch = number_of(epoch.as_str().as_bytes())?;
            let log = log.as_str();
            Some(Request::Snapshot { log, epoch })
        }
        _ => None,
    }
}

/// What the words after `gen` ask for, if anything.
fn gen_request(words: &[String]) -> Option<Request<'_>>
    ensures is { option_map asked result ≡ spec.gen_request (map string_bytes words.now) }
    ensures within { IfSome result IsWithin }
{
    match words {
        [start, rounds] => {
            let start = number_of(start.as_str().as_bytes())?;
            let rounds = rounds_of(rounds.as_str())?;
            Some(Request::Gen { start, rounds })
        }
        _ => None,
    }
}

/// What the words after `mend2` ask for, if anything.
fn mend_request(alloc: Global, words: &[String]) -> Option<Request<'_>>
    ensures is { option_map asked result ≡ spec.mend_request (map string_bytes words.now) }
    ensures within { IfSome result IsWithin }
{
    match words {
        [old, new, cluster] if is_file_name(old.as_str()) => {
            let new = log_file(alloc, new.as_str(), cluster.as_str())?;
            let old = old.as_str();
            Some(Request::Mend { old, new })
        }
        _ => None,
    }
}

/// What the words after `plan` ask for, if anything.
fn plan_request(alloc: Global, words: &[String]) -> Option<Request<'_>>
    ensures is { option_map asked result ≡ spec.plan_request (map string_bytes words.now) }
    ensures within { IfSome result IsWithin }
{
    match words {
        [log, node, keyspace] if is_file_name(log.as_str()) => {
            let keyspace = Name::from_bytes(alloc, keyspace.as_str().as_bytes()).unwrap()?;
            let node = node_of(node.as_str().as_bytes())?;
            let log = log.as_str();
            Some(Request::Plan {
                log,
                node,
                keyspace,
            })
        }
        _ => None,
    }
}

/// What the words after `cms` ask for, if anything.
fn cms_request(words: &[String]) -> Option<Request<'_>>
    ensures is { option_map asked result ≡ spec.cms_request (map string_bytes words.now) }
    ensures within { IfSome result IsWithin }
{
    match words {
        [log, from, to] if is_file_name(log.as_str()) => {
            let from = node_list(from.as_str().as_bytes())?;
            let to = node_list(to.as_str().as_bytes())?;
            let log = log.as_str();
            Some(Request::Cms { log, from, to })
        }
        _ => None,
    }
}

/// What the words after the program's name ask for. Returns `None` for words that name no command.
#[tactic(auto, unfolding(crate::specs::Request::request_of))]
pub fn request_of(alloc: Global, words: &[String]) -> Option<Request<'_>>
    ensures is { option_map asked result ≡ spec.request_of (map string_bytes words.now) }
    ensures within { IfSome result IsWithin }
{
    let (word, words) = words.split_first()?;
    match word.as_str() {
        "commit" => commit_request(alloc, words),
        "replay" => replay_request(words),
        "snapshot" => snapshot_request(words),
        "gen" => gen_request(words),
        "mend2" => mend_request(alloc, words),
        "plan" => plan_request(alloc, words),
        "cms" => cms_request(words),
        _ => None,
    }
}
