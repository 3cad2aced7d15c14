//! The keyspaces of an image, and the commands that set or drop one.

ghost use Rattle.std.specs.Prelude.{◌≡◌, ◌<◌, ◌^◌, ◌-◌, not, None, Some, filter, option_map, IfOk, IsTrue, OnOk};
ghost use Rattle.std.specs.Option.{option_copied};
ghost use Rattle.std.specs.Str.{bytes_eq};
ghost use Rattle.cluster_terms.specs.Ascending.{put};
ghost use Rattle.cluster_terms.specs.Replication.{IsReplication};
ghost use Rattle.placement_maps.specs.Served as spec;
ghost use Rattle.transformations.specs.History.{most_epochs};
ghost use Rattle.transformations.specs.Orders.{by_name};
ghost use Rattle.transformations.specs.Refusals.{early_refusal_of, first_overlap, keyspace_row, refusal_of};
ghost use Rattle.transformations.specs.Valid.{IsSound, IsValid};
ghost use Rattle.transformations.specs.declared.command.Command.TheVariants as command;
ghost use Rattle.cluster_metadata.specs.Permission.{AdmitsUnless};
ghost use Rattle.cluster_metadata.specs.code.Change.{BringsKeyspaces, IsChange, rekeyed};

use crate::admit_fault::AdmitFault;
use crate::changes::change::Change;
use crate::movements::renewing::{overlap_refusal, replan, with_keyspaces};
use cluster_terms::{Memory, Name, Replication, TryCopy};
use node_directory::Directory;
use std::alloc::Global;
use transformations::{Image, KeyspaceRow, KeyspaceRows};

/// The keyspace with this name. Returns `None` if and only if there is none.
pub fn keyspace_of<'a>(image: &'a Image, name: &Name) -> Option<&'a KeyspaceRow>
    ensures { option_copied result ≡ spec.keyspace_of image.now name.now }
{
    image
        .keyspaces
        .as_slice()
        .iter()
        .find(|row| row.name.as_str() == name.as_str())
}

/// Whether a keyspace of this name has this replication already.
fn has_keyspace(image: &Image, name: &Name, replication: &Replication) -> bool
    ensures { IsTrue result
        → option_map (λ row. row.replication) (spec.keyspace_of image.now name.now) ≡ Some replication.now }
{
    match keyspace_of(image, name) {
        Some(row) => row.replication.same(replication),
        None => false,
    }
}

/// Makes a keyspace in a list, or gives it another replication.
pub fn put_keyspace(
    rows: &mut KeyspaceRows,
    name: &Name,
    replication: &Replication,
) -> Result<(), Memory>
    ensures rows { OnOk result (rows.new ≡ put by_name (keyspace_row name.now replication.now) rows.old) }
    ensures replicated { OnOk result (IsReplication replication.now) }
{
    rows.put(KeyspaceRow {
        name: name.copy()?,
        replication: replication.copy()?,
    })?;
    Ok(())
}

/// Keeps the keyspaces of other names.
pub fn remove_keyspace(rows: &mut KeyspaceRows, name: &Name)
    ensures { rows.new ≡ filter (λ row. not (bytes_eq row.name name.now)) rows.old }
{
    rows.retain(|row| row.name.as_str() != name.as_str());
}

/// The change to these keyspaces, with a new plan and a new lock for each movement in flight. The directory must hold
/// the nodes of the image.
///
/// Errors: `Refused` if movements in flight overlap under these keyspaces; `Memory` if memory runs out.
fn unless_overlapping(
    alloc: Global,
    image: &Image,
    directory: &Directory,
    keyspaces: KeyspaceRows,
) -> Result<Change, AdmitFault>
    requires epochs { image.now.epoch < 2 ^ 64 - 1 }
    requires sound { IsSound (rekeyed image.now keyspaces) }
    requires nodes { directory.now.rows ≡ image.now.nodes }
    ensures change { IfOk result (BringsKeyspaces image.now keyspaces) }
    ensures refusal { AdmitsUnless (first_overlap (rekeyed image.now keyspaces) image.now.sequences) result }
{
    let next = with_keyspaces(image, &keyspaces)?;
    let renewed = replan(alloc, &next, directory)?;
    if let Some(refusal) = overlap_refusal(alloc, &next, &renewed.locks)? {
        return Err(AdmitFault::Refused(refusal));
    }
    Ok(Change::Keyspaces { keyspaces, renewed })
}

/// The change that makes a keyspace, or gives it another replication. Each movement in flight gets a new plan and a new
/// lock. Without movements, a keyspace that has the replication already stays as it is. The directory must hold the nodes
/// of the image.
///
/// Errors: `Refused` if movements in flight would overlap under the keyspace; `Memory` if memory runs out.
pub fn set_keyspace(
    alloc: Global,
    image: &Image,
    directory: &Directory,
    name: &Name,
    replication: &Replication,
) -> Result<Change, AdmitFault>
    requires below_limit { image.now.epoch < most_epochs }
    requires valid { IsValid image.now }
    requires nodes { directory.now.rows ≡ image.now.nodes }
    requires early { early_refusal_of image.now (command.Keyspace name.now replication.now) ≡ None }
    ensures change { IfOk result (IsChange image.now (command.Keyspace name.now replication.now)) }
    ensures replicated { OnOk result (IsReplication replication.now) }
    ensures refusal { AdmitsUnless (refusal_of image.now (command.Keyspace name.now replication.now)) result }
{
    // Such a command changes nothing but the epoch. Without this case, sixteen followers need a third more
    // instructions.
    if image.sequences.as_slice().is_empty() && has_keyspace(image, name, replication) {
        // For the proof: a replication with a total is valid.
        let _total = replication.total();
        return Ok(Change::Unchanged);
    }
    let mut keyspaces = image.keyspaces.copy_for(1)?;
    put_keyspace(&mut keyspaces, name, replication)?;
    unless_overlapping(alloc, image, directory, keyspaces)
}

/// The change that removes a keyspace. Each movement in flight gets a new plan and a new lock. The directory must hold
/// the nodes of the image.
pub fn drop_keyspace(
    alloc: Global,
    image: &Image,
    directory: &Directory,
    name: &Name,
) -> Result<Change, Memory>
    requires below_limit { image.now.epoch < most_epochs }
    requires valid { IsValid image.now }
    requires nodes { directory.now.rows ≡ image.now.nodes }
    requires early { early_refusal_of image.now (command.DropKeyspace name.now) ≡ None }
    ensures { IfOk result (IsChange image.now (command.DropKeyspace name.now)) }
{
    let mut keyspaces = image.keyspaces.copy()?;
    remove_keyspace(&mut keyspaces, name);
    let next = with_keyspaces(image, &keyspaces)?;
    let renewed = replan(alloc, &next, directory)?;
    Ok(Change::Keyspaces { keyspaces, renewed })
}
