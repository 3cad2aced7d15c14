ghost use Rattle.std.specs.Prelude.{◌≡◌, IfOk};
ghost use Rattle.transformations.specs.Refusals.{early_refusal_of};
ghost use Rattle.transformations.specs.Valid.{IsSound};
ghost use Rattle.cluster_metadata.specs.code.Change.{grown_to};

use crate::changes::change::Change;
use crate::movements::spare::Spare;
use cluster_terms::Memory;
use node_directory::Directory;
use placement_maps::MapChange;
use std::alloc::Global;
use std::marker::Model;
use std::snapshot::Snapshot;
use transformations::{Command, Image, Refusal, early_refusal, register_refusal};

/// How many movements there are after a change that begins one, and 0 for any other change.
pub fn grown_to(change: &Change) -> usize
    ensures { result ≡ grown_to change.now }
{
    match change {
        Change::Begun { sequences, .. } => sequences.as_slice().len(),
        _ => 0,
    }
}

/// The first refusal of a command, apart from `Locked`. The name of a new node is looked up in the directory, which
/// must hold the nodes of the image, and not in the image's list.
pub fn first_refusal(
    alloc: Global,
    image: &Image,
    directory: &Directory,
    cmd: &Command,
) -> Result<Option<Refusal>, Memory>
    requires sound { IsSound image.now }
    requires nodes { directory.now.rows ≡ image.now.nodes }
    ensures { IfOk result (λ found. found ≡ early_refusal_of image.now cmd.now) }
{
    match cmd {
        Command::Register { name, .. } => Ok(register_refusal(image, directory.find(name))),
        _ => early_refusal(alloc, image, cmd),
    }
}

/// The permission to enact a command in an image that accepts it. Contracts see it as this image and this command,
/// which it keeps as values that only clauses see, so nothing is compared at run time. It holds the memory that the
/// command needs. For a prepare this includes the ranges that the movement locks, and room for them in the table of
/// locks, but neither a table of locks nor a key.
///
/// The value must be consumed once: `Metadata::enact` carries out the command, and `decline` gives the permit up.
pub struct Permit {
    pub(crate) change: Change,
    pub(crate) spare: Spare,
    pub(crate) maps: MapChange,
    pub(crate) image: Snapshot<Image>,
    pub(crate) command: Snapshot<Command>,
}

impl Model for Permit {
    ghost use Rattle.std.specs.Prelude.{◌≡◌, ◌≤◌, vec_capacity, vec_len};
    ghost use Rattle.cluster_metadata.specs.code.Change.{grown_to};
    ghost use Rattle.cluster_metadata.specs.code.MapSteps.{BringsMaps};
    ghost use Rattle.cluster_metadata.specs.Permission.{Permission};
    ghost use Rattle.cluster_metadata.specs.code.PermitParts.{IsPermitted};

    ghost Value = { Permission };

    ghost view = { λ p. record { image = p.image.value; command = p.command.value } };

    ghost invariant = { λ p. IsPermitted p.image.value p.command.value p.change × (vec_len p.spare.room ≡ 0)
        × (grown_to p.change ≤ vec_capacity p.spare.room)
        × BringsMaps p.image.value p.change p.maps
        × (grown_to p.change ≤ p.spare.lock) };
}

impl Permit {
    /// Gives up the permit. The metadata doesn't change.
    pub fn decline(self) {
        let Permit {
            change: _,
            spare,
            maps: _,
            image: _,
            command: _,
        } = self;
        spare.destroy();
    }
}
