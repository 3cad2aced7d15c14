//! Deltas of the plans of movements, in the images of scripts.

ghost use Rattle.std.specs.Prelude.{◌≡◌, ◌<◌, IsTrue};
ghost use Rattle.std.specs.List.{Contains};
ghost use Rattle.transformations.specs.History.{is_command};
ghost use Rattle.transformations.specs.Valid.{IsSound};

use crate::tests::calls::deltas::delta_text;
use crate::tests::openings::{EIGHT, FOUR, NOTHING, RACKS, SIX};
use crate::tests::running::Script;
use crate::tests::{joins, locks, racks, steps};
use cluster_metadata::Metadata;
use cluster_terms::{ByteText, Steps, TryCopy};
use placement_deltas::{DeltaBook, Plan};
use script_lang::{ScriptLine, nodes_text, parse_line};
use sequence_plans::plan;
use std::alloc::Global;
use std::marker::Brand;
use std::process::Abort;
use std::sync::ledger::{Blank, Ledger};
use std::test::Fail;
use transformations::{Command, Image, Phase, SeqRow};

/// Movements at each phase, and what follows.
const THREE_PHASES: &str = "commit 20 prepare-join 9 50\n\
        commit 21 prepare-move 3 250\n\
        commit 22 prepare-leave 5\n\
        commit 23 start-move 3\n\
        commit 24 start-leave 5\n\
        commit 25 mid-leave 5\n\
        commit 26 finish-leave 5\n\
        commit 27 mid-move 3\n\
        commit 28 start-join 9\n\
        commit 29 cancel 3\n";

/// A movement beside keyspaces of two replications, with tokens at the ends of the ring.
const TWO_REPLICATIONS: &str = "commit 1 register a dc1 r1\n\
        commit 2 register b dc1 r2\n\
        commit 3 register c dc2 r1\n\
        commit 4 register d dc2 r2\n\
        commit 5 register e dc1 r1\n\
        commit 6 unsafe-join 1 -9223372036854775808\n\
        commit 7 unsafe-join 2 0\n\
        commit 8 unsafe-join 3 50\n\
        commit 9 unsafe-join 4 9223372036854775807\n\
        commit 10 keyspace k1 simple 2\n\
        commit 11 keyspace k2 topology dc1:1 dc2:1\n\
        commit 12 keyspace k3 simple 2\n\
        commit 13 prepare-join 5 -100 100\n";

/// The letter of a script, an epoch, and for each movement at this epoch its node and its deltas.
const CASES: [(u8, u16, &str); 8] = [
    (
        b'j',
        21,
        "node 9\n\
            gain\n\
            50 +9 -\n\
            600 + -\n\
            max +9 -\n\
            swap\n\
            0 +9 -3\n\
            50 +9 -4\n\
            600 + -\n\
            700 +9 -2\n\
            max +9 -3\n\
            lose\n\
            0 + -3\n\
            50 + -4\n\
            600 + -\n\
            700 + -2\n\
            max + -3\n\
            node 10\n\
            gain\n\
            200 + -\n\
            450 +10 -\n\
            max + -\n\
            swap\n\
            200 + -\n\
            300 +10 -6\n\
            400 +10 -7\n\
            450 +10 -8\n\
            max + -\n\
            lose\n\
            200 + -\n\
            300 + -6\n\
            400 + -7\n\
            450 + -8\n\
            max + -\n",
    ),
    (
        b'j',
        25,
        "node 9\n\
            gain\n\
            50 +9 -\n\
            600 + -\n\
            max +9 -\n\
            swap\n\
            0 +9 -3\n\
            50 +9 -4\n\
            600 + -\n\
            700 +9 -2\n\
            max +9 -3\n\
            lose\n\
            0 + -3\n\
            50 + -4\n\
            600 + -\n\
            700 + -2\n\
            max + -3\n",
    ),
    (
        b'w',
        14,
        "node 2\n\
            gain\n\
            0 +3 -\n\
            100 +4 -\n\
            500 + -\n\
            max +3 -\n\
            swap\n\
            0 +3 -2\n\
            100 +4 -2\n\
            500 + -\n\
            max +3 -2\n\
            lose\n\
            100 + -2\n\
            500 + -\n\
            max + -2\n",
    ),
    (
        b'u',
        17,
        "node 7\n\
            gain\n\
            100 + -\n\
            150 +7 -\n\
            1100 + -\n\
            1150 +7 -\n\
            2100 + -\n\
            2150 +7 -\n\
            3100 + -\n\
            3150 +7 -\n\
            max + -\n\
            swap\n\
            100 + -\n\
            150 +7 -4\n\
            1100 + -\n\
            1150 +7 -4\n\
            2100 + -\n\
            2150 +7 -4\n\
            3100 + -\n\
            3150 +7 -4\n\
            max + -\n\
            lose\n\
            100 + -\n\
            150 + -4\n\
            1100 + -\n\
            1150 + -4\n\
            2100 + -\n\
            2150 + -4\n\
            3100 + -\n\
            3150 + -4\n\
            max + -\n",
    ),
    (
        b'u',
        24,
        "node 8\n\
            gain\n\
            200 + -\n\
            500 +8 -\n\
            1200 + -\n\
            1500 +8 -\n\
            2200 + -\n\
            2500 +8 -\n\
            3200 + -\n\
            3500 +8 -\n\
            max + -\n\
            swap\n\
            200 + -\n\
            500 +8 -5\n\
            1200 + -\n\
            1500 +8 -5\n\
            2200 + -\n\
            2500 +8 -5\n\
            3200 + -\n\
            3500 +8 -5\n\
            max + -\n\
            lose\n\
            200 + -\n\
            500 + -5\n\
            1200 + -\n\
            1500 + -5\n\
            2200 + -\n\
            2500 + -5\n\
            3200 + -\n\
            3500 + -5\n\
            max + -\n",
    ),
    (
        b'm',
        13,
        "node 2\n\
            gain\n\
            100 + -\n\
            200 +2 -\n\
            250 + -\n\
            300 +3 -\n\
            max + -\n\
            swap\n\
            100 + -\n\
            200 +2 -1\n\
            250 + -\n\
            300 +3 -2\n\
            max + -\n\
            lose\n\
            100 + -\n\
            200 + -1\n\
            250 + -\n\
            300 + -2\n\
            max + -\n",
    ),
    (
        b'p',
        25,
        "node 3\n\
            gain\n\
            200 + -\n\
            250 +3 -\n\
            max + -\n\
            swap\n\
            200 + -\n\
            250 +3 -4\n\
            max + -\n\
            lose\n\
            200 + -\n\
            250 + -4\n\
            max + -\n\
            node 5\n\
            gain\n\
            300 + -\n\
            400 +6 -\n\
            max + -\n\
            swap\n\
            300 + -\n\
            400 +6 -5\n\
            max + -\n\
            lose\n\
            300 + -\n\
            400 + -5\n\
            max + -\n\
            node 9\n\
            gain\n\
            0 + -\n\
            50 +9 -\n\
            max + -\n\
            swap\n\
            0 + -\n\
            50 +9 -2\n\
            max + -\n\
            lose\n\
            0 + -\n\
            50 + -2\n\
            max + -\n",
    ),
    (
        b'r',
        13,
        "node 5\n\
            gain\n\
            -100 +5 -\n\
            0 + -\n\
            100 +5 -\n\
            max + -\n\
            gain\n\
            -9223372036854775808 + -\n\
            -100 +5 -\n\
            0 + -\n\
            100 +5 -\n\
            max + -\n\
            swap\n\
            -9223372036854775808 +5 -2\n\
            -100 +5 -3\n\
            0 + -\n\
            50 +5 -4\n\
            100 +5 -1\n\
            max + -\n\
            swap\n\
            -9223372036854775808 + -\n\
            -100 +5 -2\n\
            0 + -\n\
            100 +5 -1\n\
            max + -\n\
            lose\n\
            -9223372036854775808 + -2\n\
            -100 + -3\n\
            0 + -\n\
            50 + -4\n\
            100 + -1\n\
            max + -\n\
            lose\n\
            -9223372036854775808 + -\n\
            -100 + -2\n\
            0 + -\n\
            100 + -1\n\
            max + -\n",
    ),
];

/// The nodes and the movements once the lines on three phases have come to their end.
const AT_THE_END: &str = "NODES 29 10 2\n\
    1 a dc1 r1 JOINED 0\n\
    2 b dc1 r1 JOINED 100\n\
    3 c dc1 r1 MOVING 200\n\
    4 d dc1 r1 JOINED 300\n\
    5 e dc1 r1 LEFT -\n\
    6 f dc1 r1 JOINED 500\n\
    7 g dc1 r1 JOINED 600\n\
    8 h dc1 r1 JOINED 700\n\
    9 i dc1 r1 BOOTSTRAPPING -\n\
    10 j dc1 r1 REGISTERED -\n\
    SEQ 3 move STARTED out 200@3 in 250@3\n\
    SEQ 9 join STARTED out - in 50@9\n";

/// The lines of the script with this name.
fn lines_of(scripts: &'static [Script], name: &str) -> Result<&'static str, Fail> {
    for script in scripts {
        let (found, lines, _) = *script;
        if found == name {
            return Ok(lines);
        }
    }
    Err("no script has this name")?
}

/// The opening and the lines of the script that a letter stands for.
pub fn script_of(letter: u8) -> Result<(&'static str, &'static str), Fail> {
    match letter {
        b'j' => Ok((NOTHING, lines_of(&joins::FROM_NOTHING, "two-joins")?)),
        b'w' => Ok((SIX, lines_of(&locks::ON_SIX, "leave-widens")?)),
        b'u' => Ok((RACKS, lines_of(&racks::ON_RACKS, "usual-cluster")?)),
        b'm' => Ok((FOUR, lines_of(&steps::ON_FOUR, "move-started")?)),
        b'p' => Ok((EIGHT, THREE_PHASES)),
        _ => Ok((NOTHING, TWO_REPLICATIONS)),
    }
}

fn apply(metadata: &mut Metadata, command: &Command) -> Result<(), Fail>
    requires below_limit { metadata.old.epoch < 65536 }
    requires formed { IsTrue (is_command command.now) }
{
    metadata.apply(command).map_err(|_| "refused")?;
    Ok(())
}

/// Applies the commit of a line, if its id is the next epoch, and this is at most `last`.
fn commit(alloc: Global, metadata: &mut Metadata, line: &[u8], last: u16) -> Result<(), Fail> {
    let epoch = metadata.epoch();
    if let Some(ScriptLine::Commit(id, command)) = parse_line(alloc, line)? {
        if epoch < u64::from(last) && id == epoch + 1 {
            apply(metadata, &command)?;
        }
    }
    Ok(())
}

/// Applies the commits of lines up to this epoch. The id of each is its epoch.
pub fn commit_to(
    alloc: Global,
    metadata: &mut Metadata,
    lines: &str,
    last: u16,
) -> Result<(), Fail> {
    for line in lines.as_bytes().split(|byte| *byte == b'\n') {
        commit(alloc, metadata, line, last)?;
    }
    Ok(())
}

/// The plan of a movement of an image.
fn planned<L: Ledger>(
    alloc: Global,
    image: &Image,
    row: &SeqRow,
    blank: Blank,
) -> Result<Plan, Fail>
    requires name { blank.name ≡ L.name }
    requires parts { blank.parts ≡ L.parts }
    requires some { 0 < blank.parts }
    requires sound { IsSound image.now }
    requires moves { Contains image.now.sequences row.now }
{
    let mut walks = Steps::<L>::begin(blank);
    let mut row = row.copy()?;
    row.phase = Phase::Prepared;
    Ok(plan(alloc, image, row, &mut walks).map_err(|_| "memory")?)
}

/// A word and the rows of a delta, for each replication.
fn book_text(alloc: Global, word: &str, book: &DeltaBook) -> Result<String, Fail> {
    let mut text = String::new(alloc);
    for row in book.as_slice() {
        text.push_str(word)?;
        text.push_str("\n")?;
        text.push_str(&delta_text(alloc, &row.delta)?)?;
    }
    Ok(text)
}

/// The texts of copies of the deltas of a plan.
fn plan_text(alloc: Global, plan: &Plan) -> Result<String, Fail> {
    let node = plan.row.node.0;
    let gain = book_text(alloc, "gain", &plan.gain.copy()?)?;
    let swap = book_text(alloc, "swap", &plan.swap.copy()?)?;
    let lose = book_text(alloc, "lose", &plan.lose.copy()?)?;
    Ok(format!(in alloc; "node {node}\n{gain}{swap}{lose}")?)
}

/// The deltas of each movement of an image.
fn plans_text(alloc: Global, image: &Image) -> Result<String, Fail>
    requires { IsSound image.now }
{
    let mut text = String::new(alloc);
    for row in image.sequences.as_slice() {
        let plan = planned::<Brand>(alloc, image, row, Blank::new(1))?;
        text.push_str(&plan_text(alloc, &plan)?)?;
    }
    Ok(text)
}

/// The deltas of each movement of a script at an epoch.
fn shown_at(
    alloc: Global,
    metadata: &mut Metadata,
    letter: u8,
    epoch: u16,
) -> Result<String, Fail> {
    let (opening, lines) = script_of(letter)?;
    commit_to(alloc, metadata, opening, epoch)?;
    commit_to(alloc, metadata, lines, epoch)?;
    plans_text(alloc, metadata.as_image())
}

/// Compares the deltas of the movements of a script at an epoch with those wanted.
fn shows<A: Abort>(
    rt: &A,
    alloc: Global,
    letter: u8,
    epoch: u16,
    wanted: &str,
) -> Result<(), Fail> {
    let mut metadata = Metadata::empty(alloc)?;
    let shown = shown_at(alloc, &mut metadata, letter, epoch);
    metadata.close();
    let shown = shown?;
    assert_eq!(rt; shown.as_str(), wanted, "at {epoch}");
    Ok(())
}

#[test]
fn deltas_of_movements(rt: HostRuntime) -> Result<(), Fail> {
    let alloc = rt.alloc();
    for case in &CASES {
        let (letter, epoch, wanted) = *case;
        shows(&rt, alloc, letter, epoch, wanted)?;
    }
    Ok(())
}

/// The movements of an image go on to the end of the lines.
fn go_on<A: Abort>(rt: &A, alloc: Global, metadata: &mut Metadata) -> Result<(), Fail> {
    commit_to(alloc, metadata, THREE_PHASES, 29)?;
    let mut text = ByteText::empty(alloc);
    nodes_text(alloc, metadata.as_image(), &mut text)?;
    assert_eq!(rt; text.as_slice(), AT_THE_END.as_bytes());
    Ok(())
}

/// Metadata with the image of other metadata at which movements stand at each phase.
fn resumed<A: Abort>(rt: &A, alloc: Global, metadata: &mut Metadata) -> Result<(), Fail> {
    commit_to(alloc, metadata, EIGHT, 25)?;
    commit_to(alloc, metadata, THREE_PHASES, 25)?;
    match Metadata::from_image(alloc, metadata.image()?) {
        Ok(mut other) => {
            let tested = go_on(rt, alloc, &mut other);
            other.close();
            tested
        }
        Err(_) => Err("memory".into()),
    }
}

#[test]
fn movements_go_on_from_an_image(rt: HostRuntime) -> Result<(), Fail> {
    let mut metadata = Metadata::empty(rt.alloc())?;
    let tested = resumed(&rt, rt.alloc(), &mut metadata);
    metadata.close();
    tested
}
