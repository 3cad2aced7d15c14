//! Hands the lines of files to one follower, one after another.

ghost use Rattle.std.specs.Prelude.{◌≡◌, ◌+◌, ◌≤◌, length, map, string_bytes, None, Some, Ok, IfOk, IsTrue, OnOk};
ghost use Rattle.tcm_edges.specs.Shown.{ShowsNoMore};
ghost use Rattle.transformations.specs.History.{is_command, most_epochs};
ghost use Rattle.wire_json.specs.Reading as reading;
ghost use Rattle.tcm_session.specs.Counts.{counts};
ghost use Rattle.tcm_session.specs.code.RunFaults.{counts_by};
ghost use Rattle.script_session.specs.Lines.{whole_lines};
ghost use Rattle.tcm_session.specs.files.Replay as spec;
ghost use Rattle.tcm_session.specs.code.Replays.{FoundMemory, GrowsBy, HandsFile, HandsFiles, CanCount, IsFew, LeadsTo};

use crate::ending::Ending;
use crate::limits::FILE_LIMIT;
use crate::run_fault::RunFault;
use crate::scripts::lines::cut_line;
use cluster_terms::{Memory, Name, TryCopy};
use follower_log::{Follower, FollowerFault, Took};
use script_session::{Cause, RefusedLine, other_cluster};
use std::alloc::Global;
use tcm_edges::{Loaded, Store};
use transformations::{Entry, Image};
use wire_json::{Line, ReadLineFault, read_line};

/// A follower that is handed the lines of files, the number of lines that were read, how many of them were answered
/// `Full`, and the cluster that the headers name, if there was a header. The value must be consumed, by `close`.
pub struct Replay {
    pub follower: Follower,
    pub lines: u64,
    pub full: u64,
    pub cluster: Option<Name>,
}

impl Replay {
    /// The replay before the first line.
    pub fn empty(alloc: Global) -> Result<Replay, Memory>
        ensures { IfOk result (λ replay. replay ≡ spec.nothing_replayed) }
    {
        Ok(Replay {
            follower: Follower::empty(alloc)?,
            lines: 0,
            full: 0,
            cluster: None,
        })
    }

    /// Consumes the replay.
    pub fn close(self) {
        let Replay {
            follower,
            lines: _,
            full: _,
            cluster: _,
        } = self;
        follower.close();
    }

    /// Hands over the line with this number of its file, which comes without its line feed; or returns the first cause
    /// to refuse it. If memory runs out, the entry or the image may have been taken by then.
    pub fn hand_line(
        &mut self,
        alloc: Global,
        number: u64,
        line: &[u8],
    ) -> Result<Option<Cause>, Memory>
        requires { CanCount 1 self.old }
        ensures leads { IfOk result (λ cause. LeadsTo cause (spec.line_replayed number self.old line.now) self.new) }
        ensures grows { GrowsBy 1 self.old self.new }
    {
        match read_line(alloc, line) {
            Ok(content) => self.hand_content(number, content),
            Err(ReadLineFault::Bad(rule)) => Ok(Some(Cause::Line(rule))),
            Err(ReadLineFault::Memory) => Err(Memory),
        }
    }

    /// Hands over the content of a line, as `hand_line` does.
    fn hand_content(&mut self, number: u64, content: Line) -> Result<Option<Cause>, Memory>
        requires counts { CanCount 1 self.old }
        requires tokens { reading.HasTokens content }
        requires epoch { reading.HasEpoch content }
        ensures leads { IfOk result (λ cause. LeadsTo cause (spec.read_replayed number self.old (Ok content)) self.new) }
        ensures grows { GrowsBy 1 self.old self.new }
    {
        match content {
            Line::Header(cluster) => self.hand_header(number, cluster),
            Line::Entry(entry) => self.hand_entry(&entry),
            Line::Snapshot(image) => self.hand_image(image),
        }
    }

    /// Counts a header, or returns the cause to refuse it.
    fn hand_header(&mut self, number: u64, cluster: Name) -> Result<Option<Cause>, Memory>
        requires { CanCount 1 self.old }
        ensures leads { IfOk result (λ cause. LeadsTo cause (spec.header_replayed number self.old cluster) self.new) }
        ensures grows { GrowsBy 1 self.old self.new }
    {
        if number != 1 {
            return Ok(Some(Cause::Header));
        }
        if let Some(cause) = other_cluster(self.cluster.as_ref(), cluster.copy()?)? {
            return Ok(Some(cause));
        }
        self.lines += 1;
        self.cluster = Some(cluster);
        Ok(None)
    }

    /// Hands over an entry, as `hand_line` does.
    fn hand_entry(&mut self, entry: &Entry) -> Result<Option<Cause>, Memory>
        requires counts { CanCount 1 self.old }
        requires formed { IsTrue (is_command entry.now.cmd) }
        requires epoch { entry.now.epoch ≤ most_epochs }
        ensures leads { IfOk result (λ cause. LeadsTo cause (spec.entry_replayed self.old entry.now) self.new) }
        ensures grows { GrowsBy 1 self.old self.new }
    {
        let handed = self.follower.deliver(entry);
        self.count(handed)
    }

    /// Hands over an image, as `hand_line` does.
    fn hand_image(&mut self, image: Image) -> Result<Option<Cause>, Memory>
        requires { CanCount 1 self.old }
        ensures leads { IfOk result (λ cause. LeadsTo cause (spec.image_replayed self.old image) self.new) }
        ensures grows { GrowsBy 1 self.old self.new }
    {
        let handed = self.follower.snapshot(image);
        self.count(handed)
    }

    /// Counts a line that the follower was handed, or returns the cause to refuse it.
    fn count(&mut self, handed: Result<Took, FollowerFault>) -> Result<Option<Cause>, Memory>
        requires { CanCount 1 self.old }
        ensures leads { IfOk result (λ cause.
            LeadsTo cause (spec.answered self.old self.old.follower handed) self.new) }
        ensures memory { OnOk result (FoundMemory handed) }
        ensures grows { GrowsBy 1 self.old self.new }
    {
        match handed {
            Ok(took) => {
                self.lines += 1;
                self.full += full_count(took);
                Ok(None)
            }
            Err(FollowerFault::Fork(epoch, held, came)) => {
                Ok(Some(Cause::Fork(epoch, held, came)))
            }
            Err(FollowerFault::Refused(epoch, refusal)) => Ok(Some(Cause::Command(epoch, refusal))),
            Err(FollowerFault::BadImage(bad)) => Ok(Some(Cause::Image(bad))),
            Err(FollowerFault::Memory) => Err(Memory),
            Err(FollowerFault::MemoryAt(_epoch)) => Err(Memory),
        }
    }
}

/// 1 for a line that was answered `Full`, 0 for another one.
fn full_count(took: Took) -> u64
    ensures is { result ≡ spec.full_count took }
    ensures most { result ≤ 1 }
{
    match took {
        Took::Full(_epoch) => 1,
        _ => 0,
    }
}

/// Hands over the whole lines of the file with this number, up to the first line that is refused. If memory runs out,
/// some of the lines may have been taken by then.
fn hand_lines(
    alloc: Global,
    replay: &mut Replay,
    file: u64,
    bytes: &[u8],
) -> Result<Option<RefusedLine>, Memory>
    requires { CanCount (length bytes.now) replay.old }
    ensures leads { IfOk result (λ refused.
        LeadsTo refused (spec.lines_replayed file 1 replay.old (whole_lines bytes.now)) replay.new) }
    ensures grows { GrowsBy (length bytes.now) replay.old replay.new }
{
    let mut number = 1;
    let mut rest = bytes;
    while let Some((line, more)) = cut_line(rest) {
        if let Some(cause) = replay.hand_line(alloc, number, line)? {
            return Ok(Some(RefusedLine {
                file,
                line: number,
                cause,
            }));
        }
        number += 1;
        rest = more;
    }
    Ok(None)
}

/// Hands over the whole lines of the file with this number, and ends at the first line that is refused.
fn hand_bytes(
    alloc: Global,
    replay: &mut Replay,
    file: u64,
    bytes: &[u8],
) -> Result<Option<Ending>, Memory>
    requires { CanCount (length bytes.now) replay.old }
    ensures leads { IfOk result (λ ended.
        LeadsTo ended (spec.file_replayed file replay.old bytes.now) replay.new) }
    ensures grows { GrowsBy (length bytes.now) replay.old replay.new }
{
    match hand_lines(alloc, replay, file, bytes)? {
        None => Ok(None),
        Some(refused) => Ok(Some(Ending::refused(alloc, &refused)?)),
    }
}

/// Hands over the lines of the file with this number and this name, once it is loaded; or returns how the replay ends.
fn hand_loaded(
    alloc: Global,
    replay: &mut Replay,
    file: u64,
    name: &str,
    loaded: Loaded,
) -> Result<Option<Ending>, Memory>
    requires few { IsFew loaded }
    requires counts { CanCount 536870912 replay.old }
    ensures leads { IfOk result (λ ended.
        LeadsTo ended (spec.loaded_replayed file name.now replay.old loaded) replay.new) }
    ensures grows { GrowsBy 536870912 replay.old replay.new }
{
    match loaded {
        Loaded::Absent => Ok(Some(Ending::absent(alloc, name)?)),
        Loaded::TooLarge(_size) => Ok(Some(Ending::too_large(alloc)?)),
        Loaded::Bytes(bytes) => hand_bytes(alloc, replay, file, bytes.as_slice()),
    }
}

/// Loads the file with this number and this name, and hands over its lines; or returns how the replay ends.
fn hand_file<D: Store>(
    alloc: Global,
    replay: &mut Replay,
    file: u64,
    name: &str,
    store: &mut D,
) -> Result<Option<Ending>, RunFault>
    requires counts { CanCount 536870912 replay.old }
    ensures hands { IfOk result (λ ended.
        HandsFile ended file name.now (D.files store.old) replay.old replay.new) }
    ensures grows { GrowsBy 536870912 replay.old replay.new }
    ensures files { D.files store.new ≡ D.files store.old }
    ensures crash { ShowsNoMore (D.shows store.old) (D.shows store.new) }
    ensures cause { counts 0 0 (D.faults store.new)
        ≡ counts_by result (counts 0 0 (D.faults store.old)) }
{
    let loaded = store.load(name, FILE_LIMIT)?;
    Ok(hand_loaded(alloc, replay, file, name, loaded)?)
}

/// Hands over the lines of 1 to 64 files, each of which is loaded once the files before it are done; or returns how the
/// replay ends before the end of the files.
pub fn hand_files<D: Store>(
    alloc: Global,
    replay: &mut Replay,
    names: &[String],
    store: &mut D,
) -> Result<Option<Ending>, RunFault>
    requires few { length names.now ≤ 64 }
    requires begins { replay.old ≡ spec.nothing_replayed }
    ensures hands { IfOk result (λ ended.
        HandsFiles ended (map string_bytes names.now) (D.files store.old) replay.new) }
    ensures files { D.files store.new ≡ D.files store.old }
    ensures crash { ShowsNoMore (D.shows store.old) (D.shows store.new) }
    ensures cause { counts 0 0 (D.faults store.new)
        ≡ counts_by result (counts 0 0 (D.faults store.old)) }
{
    let mut file = 1;
    let mut rest = names;
    while let Some((name, more)) = rest.split_first() {
        if let Some(ending) = hand_file(alloc, replay, file, name.as_str(), store)? {
            return Ok(Some(ending));
        }
        file += 1;
        rest = more;
    }
    Ok(None)
}
