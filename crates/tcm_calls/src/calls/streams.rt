//! Stream plans of movements: the nodes from which the nodes that a movement adds stream each range.

ghost use Rattle.std.specs.Prelude.{◌<◌, IsTrue};
ghost use Rattle.transformations.specs.History.{is_command};

use crate::calls::name_of;
use cluster_metadata::Metadata;
use cluster_terms::{NodeId, RightEnd, Token};
use script_lang::{ScriptLine, parse_line};
use std::alloc::Global;
use std::process::Abort;
use std::test::Fail;
use stream_plan::{StreamFrom, StreamRow, streams};
use transformations::Command;

/// A node that joins the empty ring.
const NO_RING: &str = "commit 1 register a dc1 r1\n\
            commit 2 register b dc1 r1\n\
            commit 3 keyspace ks simple 1\n\
            commit 4 prepare-join 1 0\n";

/// Four nodes at 0 to 300, a keyspace with three replicas, and two more nodes that are registered.
const FOUR: &str = "commit 1 register a dc1 r1\n\
            commit 2 register b dc1 r1\n\
            commit 3 register c dc1 r1\n\
            commit 4 register d dc1 r1\n\
            commit 5 unsafe-join 1 0\n\
            commit 6 unsafe-join 2 100\n\
            commit 7 unsafe-join 3 200\n\
            commit 8 unsafe-join 4 300\n\
            commit 9 keyspace ks simple 3\n\
            commit 10 register e dc1 r1\n\
            commit 11 register f dc1 r1\n";

/// What follows on four nodes: a join, a replace, a move and a leave.
const JOIN: &str = "commit 12 prepare-join 5 150\n\
            commit 13 start-join 5\n\
            commit 14 mid-join 5\n";

const REPLACE: &str = "commit 12 prepare-replace 5 2\n\
            commit 13 start-replace 5\n\
            commit 14 mid-replace 5\n";

const MOVE: &str = "commit 12 prepare-move 2 250\n\
            commit 13 start-move 2\n\
            commit 14 mid-move 2\n";

const LEAVE: &str = "commit 12 prepare-leave 3\n\
            commit 13 start-leave 3\n\
            commit 14 mid-leave 3\n";

/// A join in the first of two datacenters. The keyspaces ask for more nodes there than there are, for none there, and
/// for one there.
const TWO_DATACENTERS: &str = "commit 1 register a dc1 r1\n\
            commit 2 register b dc1 r2\n\
            commit 3 register c dc2 r1\n\
            commit 4 register d dc2 r1\n\
            commit 5 register e dc1 r1\n\
            commit 6 unsafe-join 1 0\n\
            commit 7 unsafe-join 2 100\n\
            commit 8 unsafe-join 3 50\n\
            commit 9 unsafe-join 4 150\n\
            commit 10 keyspace kb topology dc1:3 dc2:1\n\
            commit 11 keyspace kl topology dc2:1\n\
            commit 12 keyspace kn topology dc1:1 dc2:1\n\
            commit 13 prepare-join 5 120\n\
            commit 14 start-join 5\n\
            commit 15 mid-join 5\n";

/// Movements at each phase.
const THREE_PHASES: &str = "commit 1 register a dc1 r1\n\
            commit 2 register b dc1 r1\n\
            commit 3 register c dc1 r1\n\
            commit 4 register d dc1 r1\n\
            commit 5 register e dc1 r1\n\
            commit 6 register f dc1 r1\n\
            commit 7 unsafe-join 1 0\n\
            commit 8 unsafe-join 2 100\n\
            commit 9 unsafe-join 3 200\n\
            commit 10 unsafe-join 4 300\n\
            commit 11 unsafe-join 5 400\n\
            commit 12 keyspace ks simple 1\n\
            commit 13 prepare-join 6 50\n\
            commit 14 prepare-move 3 250\n\
            commit 15 prepare-leave 5\n\
            commit 16 start-move 3\n\
            commit 17 start-leave 5\n\
            commit 18 mid-leave 5\n";

/// The rows of a join of node 5 at 150 on four nodes, and of the same node in the place of node 2.
const JOINED: &str =
    "(min,0] to 5 from 3; (0,100] to 5 from 4; (100,150] to 5 from 1; (300,max] to 5 from 3; ";

const IN_PLACE: &str =
    "(min,0] to 5 from 2; (0,100] to 5 from 2; (200,300] to 5 from 2; (300,max] to 5 from 2; ";

/// The rows of a move of node 2 to 250, and of a leave of node 3, on four nodes.
const MOVED: &str = "(100,200] to 2 from 1; (250,300] to 3 from 2; ";

const LEFT: &str =
    "(min,0] to 4 from 3; (0,100] to 1 from 3; (100,200] to 2 from 3; (300,max] to 4 from 3; ";

/// The rows of a join in a datacenter that has fewer nodes than replicas.
const ADDED: &str = "(min,0] to 5 any 1 2 3; (0,50] to 5 any 1 2 3; (50,100] to 5 any 1 2 4; \
            (100,120] to 5 any 1 2 4; (120,150] to 5 any 1 2 4; (150,max] to 5 any 1 2 3; ";

/// The opening and the lines of a script, the last epoch, a node and a keyspace, and the rows of the plan.
const CASES: [(&str, &str, u16, u32, &str, &str); 26] = [
    (
        NO_RING,
        "",
        4,
        1,
        "ks",
        "(min,0] to 1 any; (0,max] to 1 any; ",
    ),
    (NO_RING, "", 4, 2, "ks", "none"),
    (NO_RING, "", 4, 1, "kt", "none"),
    (NO_RING, "", 3, 1, "ks", "none"),
    (FOUR, JOIN, 12, 5, "ks", JOINED),
    (FOUR, JOIN, 13, 5, "ks", JOINED),
    (FOUR, JOIN, 14, 5, "ks", JOINED),
    (FOUR, JOIN, 14, 3, "ks", "none"),
    (FOUR, REPLACE, 12, 5, "ks", IN_PLACE),
    (FOUR, REPLACE, 13, 5, "ks", IN_PLACE),
    (FOUR, REPLACE, 14, 5, "ks", IN_PLACE),
    (FOUR, REPLACE, 14, 2, "ks", "none"),
    (FOUR, MOVE, 12, 2, "ks", MOVED),
    (FOUR, MOVE, 13, 2, "ks", MOVED),
    (FOUR, MOVE, 14, 2, "ks", MOVED),
    (FOUR, LEAVE, 12, 3, "ks", LEFT),
    (FOUR, LEAVE, 14, 3, "ks", LEFT),
    (TWO_DATACENTERS, "", 13, 5, "kb", ADDED),
    (TWO_DATACENTERS, "", 15, 5, "kb", ADDED),
    (TWO_DATACENTERS, "", 13, 5, "kl", ""),
    (TWO_DATACENTERS, "", 15, 5, "kl", ""),
    (TWO_DATACENTERS, "", 13, 5, "kn", "(100,120] to 5 from 1; "),
    (TWO_DATACENTERS, "", 15, 5, "kn", "(100,120] to 5 from 1; "),
    (THREE_PHASES, "", 18, 6, "ks", "(0,50] to 6 from 2; "),
    (THREE_PHASES, "", 18, 3, "ks", "(200,250] to 3 from 4; "),
    (THREE_PHASES, "", 18, 5, "ks", "(300,400] to 1 from 5; "),
];

/// Applies a command, which is accepted.
fn apply(metadata: &mut Metadata, command: &Command) -> Result<(), Fail>
    requires below_limit { metadata.old.epoch < 65536 }
    requires formed { IsTrue (is_command command.now) }
{
    metadata.apply(command).map_err(|_| "refused")?;
    Ok(())
}

/// Applies the commit of a line, if its id is the next epoch, and this is at most `last`.
fn commit(alloc: Global, metadata: &mut Metadata, line: &[u8], last: u16) -> Result<(), Fail> {
    let epoch = metadata.epoch();
    if let Some(ScriptLine::Commit(id, command)) = parse_line(alloc, line)? {
        if epoch < u64::from(last) && id == epoch + 1 {
            apply(metadata, &command)?;
        }
    }
    Ok(())
}

/// Applies the commits of lines up to this epoch. The id of each is its epoch.
fn commit_to(alloc: Global, metadata: &mut Metadata, lines: &str, last: u16) -> Result<(), Fail> {
    for line in lines.as_bytes().split(|byte| *byte == b'\n') {
        commit(alloc, metadata, line, last)?;
    }
    Ok(())
}

/// The text of a range.
fn range_text(alloc: Global, left: Option<Token>, right: RightEnd) -> Result<String, Fail> {
    let mut text = match left {
        None => String::from_str(alloc, "(min,")?,
        Some(token) => format!(in alloc; "({},", token.value())?,
    };
    match right {
        RightEnd::At(token) => text.push_str(&format!(in alloc; "{}]", token.value())?)?,
        RightEnd::Max => text.push_str("max]")?,
    }
    Ok(text)
}

/// The text of the nodes from which a node streams.
fn from_text(alloc: Global, from: &StreamFrom) -> Result<String, Fail> {
    match from {
        StreamFrom::Strict(source) => Ok(format!(in alloc; "from {}", source.0)?),
        StreamFrom::AnyOf(nodes) => {
            let mut text = String::from_str(alloc, "any")?;
            for id in nodes.ids() {
                text.push_str(&format!(in alloc; " {}", id.0)?)?;
            }
            Ok(text)
        }
    }
}

/// The texts of rows.
fn rows_text(alloc: Global, rows: &[StreamRow]) -> Result<String, Fail> {
    let mut text = String::new(alloc);
    for row in rows {
        text.push_str(&range_text(alloc, row.left, row.right)?)?;
        text.push_str(&format!(in alloc; " to {} ", row.to.0)?)?;
        text.push_str(&from_text(alloc, &row.from)?)?;
        text.push_str("; ")?;
    }
    Ok(text)
}

/// The text of the plan of a node under a keyspace.
fn plan_text(
    alloc: Global,
    metadata: &Metadata,
    node: u32,
    keyspace: &str,
) -> Result<String, Fail> {
    let keyspace = name_of(alloc, keyspace)?;
    match streams(metadata, NodeId(node), &keyspace)? {
        Some(rows) => rows_text(alloc, rows.as_slice()),
        None => Ok(String::from_str(alloc, "none")?),
    }
}

/// The text of the plan of a row of the table, by metadata before the first command.
fn shown(
    alloc: Global,
    metadata: &mut Metadata,
    row: &(&str, &str, u16, u32, &str, &str),
) -> Result<String, Fail> {
    let (opening, lines, last, node, keyspace, _) = *row;
    commit_to(alloc, metadata, opening, last)?;
    commit_to(alloc, metadata, lines, last)?;
    plan_text(alloc, metadata, node, keyspace)
}

#[test]
fn streams_of_movements(rt: HostRuntime) -> Result<(), Fail> {
    let alloc = rt.alloc();
    for row in &CASES {
        let mut metadata = Metadata::empty(alloc)?;
        let text = shown(alloc, &mut metadata, row);
        let epoch = metadata.epoch();
        metadata.close();
        assert_eq!(rt; epoch, u64::from(row.2));
        assert_eq!(rt; text?.as_str(), row.5);
    }
    Ok(())
}
