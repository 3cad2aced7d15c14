//! Runs of `commit x c1` on a disk that stops at each of its calls in turn. What is left is recovered, and the same
//! lines are sent again.

use crate::disks::running::{Ran, disk_of, file_in, run_on};
use durable_log::MemDisk;
use std::alloc::Global;
use std::process::Abort;
use std::test::Fail;
use tcm_session::Status;

/// The lines of the script. Each commits a command of another kind, but for the two that register nodes.
const SCRIPT: [&str; 6] = [
    "commit 1 register a dc1 r1\n",
    "commit 2 unsafe-join 1 0\n",
    "commit 3 keyspace ks simple 1\n",
    "commit 4 register b dc1 r1\n",
    "commit 5 prepare-join 2 100\n",
    "commit 6 start-join 2\n",
];

/// Their answers.
const ANSWERS: &str = "OK 1\nOK 2\nOK 3\nOK 4\nOK 5\nOK 6\n";

const ANSWER: usize = 5;

/// The header of the log file, and the lines of its entries.
const LINES: [&str; 7] = [
    "{\"cluster\":\"c1\",\"format\":2}\n",
    "{\"command\":{\"dc\":\"dc1\",\"kind\":\"register\",\"name\":\"a\",\"rack\":\"r1\"},\"entry\":1,\"epoch\":1}\n",
    "{\"command\":{\"kind\":\"unsafe-join\",\"node\":1,\"tokens\":[0]},\"entry\":2,\"epoch\":2}\n",
    "{\"command\":{\"kind\":\"keyspace\",\"name\":\"ks\",\"replication\":\"simple 1\"},\"entry\":3,\"epoch\":3}\n",
    "{\"command\":{\"dc\":\"dc1\",\"kind\":\"register\",\"name\":\"b\",\"rack\":\"r1\"},\"entry\":4,\"epoch\":4}\n",
    "{\"command\":{\"kind\":\"prepare-join\",\"node\":2,\"tokens\":[100]},\"entry\":5,\"epoch\":5}\n",
    "{\"command\":{\"kind\":\"start-join\",\"node\":2},\"entry\":6,\"epoch\":6}\n",
];

/// The first `count` lines of a list, as one text.
fn front_of(alloc: Global, lines: &[&'static str], count: usize) -> Result<String, Fail> {
    let mut text = String::new(alloc);
    for place in 0..count {
        if let Some(line) = lines.get(place) {
            text.push_str(line)?;
        }
    }
    Ok(text)
}

/// The first `count` lines of the script.
fn script(alloc: Global, count: usize) -> Result<String, Fail> {
    front_of(alloc, &SCRIPT, count)
}

/// How many lines a log file has, from its header on; 0 if it is absent. `None` if it has other bytes.
fn lines_in(alloc: Global, bytes: &[u8]) -> Result<Option<usize>, Fail> {
    let Some(file) = file_in(alloc, bytes)? else {
        return Ok(Some(0));
    };
    for count in 1..=LINES.len() {
        let front = front_of(alloc, &LINES, count)?;
        if file.as_slice() == front.as_bytes() {
            return Ok(Some(count));
        }
    }
    Ok(None)
}

/// Whether the file has what a run leaves that printed this many answers: all that was answered, and at most one entry
/// more.
fn is_left(lines: Option<usize>, answers: usize) -> bool {
    match lines {
        Some(0) | Some(1) => answers == 0,
        Some(lines) => lines == answers.saturating_add(1) || lines == answers.saturating_add(2),
        None => false,
    }
}

/// Sends the lines again: all are answered, and the file has all entries, each once.
fn is_done<A: Abort>(rt: &A, alloc: Global, count: usize, disk: MemDisk) -> Result<(), Fail> {
    let script = script(alloc, count)?;
    let ran = run_on(alloc, &["commit", "x", "c1"], script.as_str(), disk)?;
    assert_eq!(rt; ran.status, Status(0));
    assert!(rt; Some(ran.out.bytes()) == ANSWERS.as_bytes().get(..count.saturating_mul(ANSWER)));
    let lines = lines_in(alloc, ran.disk.bytes())?;
    assert_eq!(rt; lines, Some(count.saturating_add(1)));
    Ok(())
}

/// The first place at which two images differ.
fn first_apart(stable: &[u8], content: &[u8]) -> usize {
    for place in 0..content.len() {
        if stable.get(place) != content.get(place) {
            return place;
        }
    }
    content.len()
}

/// Adds zeros up to a length.
fn fill(image: &mut Vec<u8>, size: usize) -> Result<(), Fail> {
    for _ in image.len()..size {
        image.push(0)?;
    }
    Ok(())
}

/// An image in which a front of what was written came to the disk, up to a place.
fn with_front(alloc: Global, stable: &[u8], content: &[u8], place: usize) -> Result<Vec<u8>, Fail> {
    let mut image = content.get(..place).unwrap_or(&[]).to_vec(alloc)?;
    if let Some(rest) = stable.get(place..) {
        image.extend_from_slice(rest)?;
    }
    Ok(image)
}

/// An image in which a back of what was written came to the disk, from a place on.
fn with_back(alloc: Global, stable: &[u8], content: &[u8], place: usize) -> Result<Vec<u8>, Fail> {
    let mut image = stable.get(..place).unwrap_or(stable).to_vec(alloc)?;
    fill(&mut image, place)?;
    if let Some(rest) = content.get(place..) {
        image.extend_from_slice(rest)?;
    }
    Ok(image)
}

/// An image in which zeros stand where something was written.
fn with_zeros(alloc: Global, content: &[u8], place: usize) -> Result<Vec<u8>, Fail> {
    let mut image = content.get(..place).unwrap_or(&[]).to_vec(alloc)?;
    fill(&mut image, content.len())?;
    Ok(image)
}

/// Looks at an image that a crash leaves after a run, and goes on from there.
fn recovers<A: Abort>(
    rt: &A,
    alloc: Global,
    count: usize,
    answers: usize,
    image: &[u8],
) -> Result<(), Fail> {
    assert!(rt; is_left(lines_in(alloc, image)?, answers));
    is_done(rt, alloc, count, disk_of(alloc, image, &[])?)
}

/// The number of answers that a run printed, each of them whole.
fn answers_of<A: Abort>(rt: &A, ran: &Ran) -> usize {
    let printed = ran.out.bytes();
    assert_eq!(rt; printed.len() % ANSWER, 0);
    assert!(rt; Some(printed) == ANSWERS.as_bytes().get(..printed.len()));
    printed.len() / ANSWER
}

/// Goes on from each of five images that a crash may leave: of what was written since the last sync, all came to the disk,
/// nothing, a front, a back, or zeros.
fn recovers_each<A: Abort>(rt: &A, alloc: Global, count: usize, ran: &Ran) -> Result<(), Fail> {
    let answers = answers_of(rt, ran);
    let crash = ran.disk.crash().map_err(|_| "memory")?;
    let stable = crash.as_slice();
    let content = ran.disk.bytes();
    let from = first_apart(stable, content);
    let middle = from.midpoint(content.len());
    recovers(rt, alloc, count, answers, content)?;
    recovers(rt, alloc, count, answers, stable)?;
    let front = with_front(alloc, stable, content, middle)?;
    recovers(rt, alloc, count, answers, front.as_slice())?;
    let back = with_back(alloc, stable, content, middle)?;
    recovers(rt, alloc, count, answers, back.as_slice())?;
    let zeros = with_zeros(alloc, content, from)?;
    recovers(rt, alloc, count, answers, zeros.as_slice())
}

/// Stops a run of the first lines at a call of the disk. Returns whether the run came to this call.
fn stops_at<A: Abort>(rt: &A, alloc: Global, count: usize, call: u64) -> Result<bool, Fail> {
    let script = script(alloc, count)?;
    let disk = disk_of(alloc, b"", &[call])?;
    let ran = run_on(alloc, &["commit", "x", "c1"], script.as_str(), disk)?;
    if ran.status == Status(0) {
        return Ok(false);
    }
    assert_eq!(rt; ran.status, Status(6));
    recovers_each(rt, alloc, count, &ran)?;
    is_done(rt, alloc, count, ran.disk)?;
    Ok(true)
}

/// Stops a run of the first lines at each call of the disk, and returns how many calls there are.
fn stops<A: Abort>(rt: &A, alloc: Global, count: usize) -> Result<u64, Fail> {
    for call in 1..200 {
        if !stops_at(rt, alloc, count, call)? {
            return Ok(call.saturating_sub(1));
        }
    }
    Err(Fail::from("the run makes too many calls"))
}

#[test]
fn a_disk_stops_a_run(rt: HostRuntime) -> Result<(), Fail> {
    let one = stops(&rt, rt.alloc(), 1)?;
    let all = stops(&rt, rt.alloc(), SCRIPT.len())?;
    assert_eq!(&rt; all.saturating_sub(one), 35);
    Ok(())
}
