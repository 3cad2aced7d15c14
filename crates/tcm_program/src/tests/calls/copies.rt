//! Copies of the values of a usual cluster while a node leaves it.

use crate::tests::calls::plans::{commit_to, script_of};
use cluster_metadata::Metadata;
use cluster_terms::{ByteText, Name, NodeRow, Replication, SmallList, TryCopy, rows_between};
use locked_ranges::LockTable;
use range_placements::{MapRow, PlacementMap};
use script_lang::{ScriptLine, parse_line};
use std::alloc::Global;
use std::fmt::Debug;
use std::process::Abort;
use std::test::Fail;
use tcm_edges::CallList;
use token_ring::Ring;
use transformations::{Entry, Image, cuts};

/// Compares a copy with its value. The debug text of a value shows all of it.
fn is_equal<A: Abort, T: Debug>(rt: &A, alloc: Global, value: &T, copied: &T) -> Result<(), Fail> {
    let wanted = format!(in alloc; "{value:?}")?;
    let text = format!(in alloc; "{copied:?}")?;
    assert_eq!(rt; text.as_str(), wanted.as_str());
    Ok(())
}

fn is_copied<A: Abort, T: TryCopy + Debug + Drop>(
    rt: &A,
    alloc: Global,
    value: &T,
) -> Result<(), Fail> {
    is_equal(rt, alloc, value, &value.copy()?)
}

fn list_is_copied<A: Abort, T: TryCopy + Debug + Drop>(
    rt: &A,
    alloc: Global,
    list: &SmallList<T>,
) -> Result<(), Fail> {
    is_equal(rt, alloc, list, &list.copy()?)
}

/// The command of a line and its entry.
fn command_is_copied<A: Abort>(rt: &A, alloc: Global, line: &[u8]) -> Result<(), Fail> {
    if let Some(ScriptLine::Commit(id, cmd)) = parse_line(alloc, line)? {
        is_copied(rt, alloc, &cmd)?;
        let epoch = id;
        is_copied(rt, alloc, &Entry { id, epoch, cmd })?;
    }
    Ok(())
}

/// The commands of lines and their entries.
fn commands_are_copied<A: Abort>(rt: &A, alloc: Global, lines: &str) -> Result<(), Fail> {
    for line in lines.as_bytes().split(|byte| *byte == b'\n') {
        command_is_copied(rt, alloc, line)?;
    }
    Ok(())
}

/// A row of a node, its name and its id.
fn node_is_copied<A: Abort>(rt: &A, alloc: Global, node: &NodeRow) -> Result<(), Fail> {
    is_copied(rt, alloc, node)?;
    is_copied(rt, alloc, &node.name)?;
    is_copied(rt, alloc, &node.id)
}

/// A replication and its factors.
fn replication_is_copied<A: Abort>(
    rt: &A,
    alloc: Global,
    replication: &Replication,
) -> Result<(), Fail> {
    is_copied(rt, alloc, replication)?;
    let Replication::Topology(factors) = replication else {
        return Err("no factors")?;
    };
    is_copied(rt, alloc, factors)?;
    let factor = factors.rows().first().ok_or("no factor")?;
    is_copied(rt, alloc, factor)?;
    is_copied(rt, alloc, &factor.1)
}

/// An image and its lists, and the ring of its pairs.
fn image_is_copied<A: Abort>(rt: &A, alloc: Global, image: &Image) -> Result<(), Fail> {
    is_copied(rt, alloc, image)?;
    list_is_copied(rt, alloc, &image.nodes)?;
    list_is_copied(rt, alloc, &image.tokens)?;
    list_is_copied(rt, alloc, &image.keyspaces)?;
    list_is_copied(rt, alloc, &image.sequences)?;
    let ring = Ring::from_pairs(alloc, image.tokens.as_slice())?.ok_or("a token comes twice")?;
    is_copied(rt, alloc, &ring)
}

/// The rows of an image.
fn rows_are_copied<A: Abort>(rt: &A, alloc: Global, image: &Image) -> Result<(), Fail> {
    let node = image.nodes.as_slice().first().ok_or("no node")?;
    node_is_copied(rt, alloc, node)?;
    let pair = image.tokens.as_slice().first().ok_or("no pair")?;
    is_copied(rt, alloc, pair)?;
    is_copied(rt, alloc, &pair.token)?;
    let keyspace = image.keyspaces.as_slice().first().ok_or("no keyspace")?;
    is_copied(rt, alloc, keyspace)?;
    replication_is_copied(rt, alloc, &keyspace.replication)?;
    let movement = image.sequences.as_slice().first().ok_or("no movement")?;
    is_copied(rt, alloc, movement)
}

/// Locked ranges.
fn locks_are_copied<A: Abort>(rt: &A, alloc: Global, locks: &LockTable) -> Result<(), Fail> {
    is_equal(rt, alloc, locks, &locks.copy()?)?;
    let lock = locks.rows().first().ok_or("no lock")?;
    is_copied(rt, alloc, lock)?;
    list_is_copied(rt, alloc, &lock.ranges)?;
    let row = lock.ranges.as_slice().first().ok_or("no ranges")?;
    is_copied(rt, alloc, row)?;
    is_copied(rt, alloc, &row.ranges)?;
    let range = row.ranges.as_slice().first().ok_or("no range")?;
    is_copied(rt, alloc, range)
}

/// The map of a keyspace, and a row and a set of it.
fn map_is_copied<A: Abort>(rt: &A, alloc: Global, map: &PlacementMap) -> Result<(), Fail> {
    is_copied(rt, alloc, map)?;
    let row = map.rows().first().ok_or("no row")?;
    is_copied(rt, alloc, row)?;
    is_copied(rt, alloc, &row.writes)
}

/// The maps of the keyspace `kt`.
fn maps_are_copied<A: Abort>(rt: &A, alloc: Global, metadata: &Metadata) -> Result<(), Fail> {
    let name = Name::from_text(alloc, "kt")?.ok_or("no name")?;
    let map = metadata.placements(&name).ok_or("no map")?;
    map_is_copied(rt, alloc, map)?;
    let replication = metadata.replication(&name).ok_or("no replication")?;
    let row = MapRow {
        replication: replication.copy()?,
        map: map.copy()?,
    };
    is_copied(rt, alloc, &row)
}

/// Bytes, numbers, and the cuts of an image with the rows between them.
fn plain_lists_are_copied<A: Abort>(
    rt: &A,
    alloc: Global,
    lines: &str,
    image: &Image,
) -> Result<(), Fail> {
    let bytes = ByteText::from_vec(lines.as_bytes().to_vec(alloc)?);
    list_is_copied(rt, alloc, &bytes)?;
    let mut epochs = CallList::empty(alloc);
    epochs.push(image.epoch).map_err(|_| "memory")?;
    list_is_copied(rt, alloc, &epochs)?;
    let cuts = cuts(alloc, image)?;
    list_is_copied(rt, alloc, &cuts)?;
    list_is_copied(rt, alloc, &rows_between(alloc, cuts.as_slice())?)
}

/// The values of the cluster at epoch 21, while node 4 leaves.
fn values_are_copied<A: Abort>(rt: &A, alloc: Global, metadata: &mut Metadata) -> Result<(), Fail> {
    let (opening, lines) = script_of(b'u')?;
    commands_are_copied(rt, alloc, opening)?;
    commands_are_copied(rt, alloc, lines)?;
    commit_to(alloc, metadata, opening, 21)?;
    commit_to(alloc, metadata, lines, 21)?;
    plain_lists_are_copied(rt, alloc, lines, metadata.as_image())?;
    image_is_copied(rt, alloc, metadata.as_image())?;
    rows_are_copied(rt, alloc, metadata.as_image())?;
    is_copied(rt, alloc, metadata.directory())?;
    locks_are_copied(rt, alloc, metadata.locks())?;
    maps_are_copied(rt, alloc, metadata)
}

#[test]
fn values_of_a_usual_cluster_are_copied(rt: HostRuntime) -> Result<(), Fail> {
    let alloc = rt.alloc();
    let mut metadata = Metadata::empty(alloc)?;
    let tested = values_are_copied(&rt, alloc, &mut metadata);
    metadata.close();
    tested
}
