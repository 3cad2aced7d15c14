ghost use Rattle.std.specs.Prelude.{◌≡◌, ◌*◌, ◌-◌, ◌<◌, ◌≤◌, ◌^◌, ◌↔◌, if◌then◌else◌, ℤ, [], true, false, None, length, map, option_map, IfErr, IfOk, IfSome, IsNone, IsSome, IsTrue, MatchResult, OnErr, OnOk};
ghost use Rattle.std.specs.List.{All, Contains};
ghost use Rattle.std.specs.Option.{option_copied};
ghost use Rattle.std.specs.Ordering.{int_eq};
ghost use Rattle.std.specs.Set.{is_member};
ghost use Rattle.cluster_terms.specs.Row.{rows_between};
ghost use Rattle.cluster_terms.specs.declared.replication.Replication.{Replication};
ghost use Rattle.transformations.specs.CutSteps.{SameAcross};
ghost use Rattle.transformations.specs.History.{empty_image, is_command, most_epochs, next_image};
ghost use Rattle.transformations.specs.ImageRules.{bad_of};
ghost use Rattle.transformations.specs.declared.keyspace.KeyspaceRow.{KeyspaceRow as Keyspace};
ghost use Rattle.transformations.specs.Movements.{movement_of};
ghost use Rattle.transformations.specs.declared.sequence.Phase.TheVariants as phase;
ghost use Rattle.transformations.specs.declared.sequence.SeqRow.{SeqRow as MovementRow};
ghost use Rattle.transformations.specs.Meeting.{HaveReplications, MeetsAfter, QuorumsExistTogether, QuorumsMeet, ReadsAreWritten, is_unsafe_join, makes_movement_epoch};
ghost use Rattle.transformations.specs.Refusals.{early_refusal_of, prepared_by, refusal_of};
ghost use Rattle.transformations.specs.Rings.{cuts, writes_at};
ghost use Rattle.transformations.specs.Valid.{IsValid};
ghost use Rattle.cluster_metadata.specs.Metadata.{directory_of};
ghost use Rattle.cluster_metadata.specs.CutDeltas.{ActsByDelta, CutsMove, DeltasSameAcross};
ghost use Rattle.cluster_metadata.specs.code.MetadataParts.{DiffersInNumbers};
ghost use Rattle.cluster_metadata.specs.ImageFaults.{IsCause};
ghost use Rattle.sequence_plans.specs.Locks.{AreLocksOf};
ghost use Rattle.sequence_plans.specs.PlanDeltas.{HasDeltas};
ghost use Rattle.placement_maps.specs.Maps.{placement_rows};
ghost use Rattle.placement_maps.specs.Served as spec;

use crate::admit_fault::AdmitFault;
use crate::changes::command_change::change_of;
use crate::changes::enact::{exchange, make};
use crate::changes::keyspaces::keyspace_of;
use crate::changes::maps_after::maps_for;
use crate::changes::next_image::empty_image;
use crate::image_fault::ImageFault;
use crate::image_numbers::differs_in_numbers;
use crate::metadata_parts::parts_of;
use crate::movements::in_flight::InFlight;
use crate::movements::running::{close_all, find_running};
use crate::movements::spare::Spare;
use crate::permit::{Permit, first_refusal, grown_to};
use cluster_terms::{Memory, Name, NodeId, Replication, Steps, Token, TryCopy};
use locked_ranges::LockTable;
use node_directory::Directory;
use node_sets::NodeSet;
use placement_deltas::Plan;
use placement_maps::{MapBook, find_map};
use range_placements::PlacementMap;
use std::alloc::Global;
use std::marker::Model;
use std::mem::replace;
use std::snapshot::Snapshot;
use std::sync::ledger::Ledger;
use transformations::{Command, Image, KeyspaceRow};

/// The metadata of a cluster: a valid image, and the movements in flight, each as a value of its phase. Contracts see
/// it as the image. Beside the image it keeps a directory, a value for each movement and the placement maps.
///
/// Each movement in flight keeps the row and the deltas of its plan. The plan is made when the movement is prepared or
/// comes with an image, and anew if a keyspace is set or dropped. The deltas are exact in the image as it is: at each
/// token, under each keyspace, they are the nodes that the movement gains and loses.
///
/// Under each keyspace, a token is in the ranges of at most one movement. The ranges are CEP-21's locked ranges, by a
/// rule of this project: the tokens whose replicas the movement may change, whatever happens to the other movements.
///
/// The ranges of each movement in flight are held by a lock in a table, from the prepare until the movement is finished
/// or cancelled. The movement holds the key to its lock. The table has the locks of the nodes of the movements, and no
/// other: without movements it has none.
///
/// The value must be consumed, by `close`.
pub struct Metadata {
    alloc: Global,
    image: Image,
    directory: Directory,
    maps: MapBook,
    in_flight: InFlight,
}

impl Model for Metadata {
    ghost use Rattle.transformations.specs.declared.image.Image.{Image};
    ghost use Rattle.cluster_metadata.specs.code.MetadataParts.{IsMetadata};

    ghost Value = { Image };

    ghost view = { λ m. m.image };

    ghost invariant = { λ m. IsMetadata m.image m.directory m.maps m.in_flight.running.items
        m.in_flight.locks };
}

impl Metadata {
    ghost use Rattle.transformations.specs.Ranges.{AreApart, AreOutcomes, ArePlacedByOutcomes, KeepsRanges, PlacedByRanges};
    ghost use Rattle.cluster_metadata.specs.Permission.{AdmitsUnless};

    /// The metadata before the first command: epoch 0, no node and no keyspace.
    pub fn empty(alloc: Global) -> Result<Metadata, Memory>
        // Promise: it begins with the image before the first command. Guards: calls/metadata.rt, tried.
        ensures { IfOk result (λ metadata. metadata ≡ empty_image) }
    {
        let image = empty_image(alloc);
        let directory = Directory::from_valid(alloc, &[], 1)?;
        Ok(Metadata {
            alloc,
            image,
            directory,
            maps: MapBook::empty(alloc),
            in_flight: InFlight::empty(alloc),
        })
    }

    /// The metadata of an image.
    ///
    /// Fails, and returns the image, with `Bad` if the image breaks a rule of valid images, and with `Memory` if memory
    /// runs out. `Bad` has the first rule that the image breaks, with its value: `transformations::bad_image` lists
    /// rules 1 to 17. Rule 18 is that no movement overlaps the movement of a lesser node, and its value is the node of
    /// the first movement that does.
    ///
    /// Cost: that of `transformations::bad_image`, a copy of the nodes, and a plan for each movement in flight, as
    /// `sequence_plans::plan_in` makes it. For m movements and r replications, this is m copies of the image and m·m·r
    /// calls of `ring_reach::reached`. Each plan also walks rings: under each replication, two walks for each row
    /// between cuts that is in its movement's ranges. Under each replication, the placement maps take three rings of
    /// all pairs, and three walks for each row between cuts; without movements, one ring and one walk.
    pub fn from_image(alloc: Global, image: Image) -> Result<Metadata, (Image, ImageFault)>
        // Promise: metadata made of an image has this image, and its movements go on from their phases; if none is
        // made, the image is handed back. Guards: calls/plans.rt, moving.rt, calls/follower.rt.
        ensures ok { IfOk result (λ metadata. metadata ≡ image) }
        ensures handed_back { IfErr result (λ e. e.0 ≡ image) }
        // Promise: metadata is made only of an image that breaks no rule; `Bad` has the first rule of all 18 that it
        // breaks, with its value, and `Memory` tells nothing. Guards: takes_overlapping_image.edit, bad_images.rt,
        // ImageRows.antt.
        ensures bad { MatchResult result (λ _. bad_of image ≡ None) (λ e. IsCause (bad_of image) e.1) }
    {
        match parts_of(alloc, &image) {
            Ok((directory, maps, in_flight)) => Ok(Metadata {
                alloc,
                image,
                directory,
                maps,
                in_flight,
            }),
            Err(fault) => Err((image, fault)),
        }
    }

    /// The allocator of which the metadata takes its memory.
    pub fn allocator(&self) -> Global {
        self.alloc
    }

    /// The epoch: the number of commands that have been enacted.
    pub fn epoch(&self) -> u64
        ensures { result ≡ self.now.epoch }
    {
        self.image.epoch
    }

    /// The image. It is valid, and the replication of each keyspace names each of its datacenters once.
    pub fn as_image(&self) -> &Image
        // Promise: it shows its image, which is valid, and its epoch. Guards: calls/metadata.rt.
        ensures image { result.now ≡ self.now }
        ensures valid { IsValid self.now }
        // Promise: each keyspace of its image has a replication. Guards: law.
        ensures replications { HaveReplications self.now }
    {
        &self.image
    }

    /// A copy of the image, with all its lists. The image is valid, and the replication of each keyspace names each of
    /// its datacenters once.
    pub fn image(&self) -> Result<Image, Memory>
        ensures image { IfOk result (λ image. image ≡ self.now) }
        ensures valid { IsValid self.now }
        ensures replications { HaveReplications self.now }
    {
        self.image.copy()
    }

    /// A copy of the metadata if no movement is in flight, and otherwise `None`: the lock of a movement has one holder.
    ///
    /// Cost: copies of the image, the directory and the rows of the placement maps.
    pub fn idle_copy(&self) -> Result<Option<Metadata>, Memory>
        // Promise: a copy equals the metadata, and there is one if and only if no movement is in flight. Guards:
        // followers.rt, tried.
        ensures copy { IfOk result (λ copy. IfSome copy (λ other. other ≡ self.now)) }
        ensures idle { IfOk result (λ copy. IsSome copy ↔ (self.now.sequences ≡ [])) }
    {
        if !self.image.sequences.as_slice().is_empty() {
            return Ok(None);
        }
        let (image, directory) = (self.image.copy()?, self.directory.copy()?);
        let maps = self.maps.copy()?;
        Ok(Some(Metadata {
            alloc: self.alloc,
            image,
            directory,
            maps,
            in_flight: InFlight::empty(self.alloc),
        }))
    }

    /// Becomes equal to other metadata that has no movement in flight, and returns whether it did: if a movement is in
    /// flight there, leaves the metadata as they are, since the lock of a movement has one holder. If memory runs out,
    /// nothing changes.
    ///
    /// Cost: a comparison of the tokens, the keyspaces and the nodes. If one of these differs, or a movement is in
    /// flight here, the cost is that of `idle_copy`.
    pub fn follow(&mut self, other: &Metadata) -> Result<bool, Memory>
        // Promise: metadata that follow others without a movement in flight become equal to these; if one is in flight
        // there, or memory runs out, they stay as they are. Guards: followers.rt, tried.
        ensures followed { IfOk result (λ followed. self.new ≡ (if followed then other.now else self.old)) }
        ensures unchanged { OnErr result (self.new ≡ self.old) }
        ensures idle { IfOk result (λ followed. IsTrue followed ↔ (other.now.sequences ≡ [])) }
    {
        if differs_in_numbers(&self.image, &self.directory, &other.image) {
            self.renumber(other)?;
            return Ok(true);
        }
        match other.idle_copy()? {
            Some(copy) => {
                replace(self, copy).close();
                Ok(true)
            }
            None => Ok(false),
        }
    }

    /// Takes over the epoch and the id of the next node from metadata that differ in nothing else. No movement is in
    /// flight.
    fn renumber(&mut self, other: &Metadata) -> Result<(), Memory>
        requires { DiffersInNumbers self.old other.now }
        ensures followed { OnOk result (self.new ≡ other.now) }
        ensures unchanged { OnErr result (self.new ≡ self.old) }
    {
        self.directory.renumber(other.directory.next_id())?;
        self.image.epoch = other.image.epoch;
        self.image.next = other.image.next;
        Ok(())
    }

    /// Returns a permit if the image accepts the command. The permit holds all memory that the command needs.
    ///
    /// Errors: `Refused` with the first refusal of the command; `Memory` if memory runs out. Locked ranges are checked
    /// last. `Locked` shows the least node whose movement shares a token with the new movement, in the ranges of both
    /// under one keyspace, and the right end of the first row that they share. `KeyspaceLocked` shows the least node
    /// whose movement would share a token with that of a greater node if the keyspace were set, the least such greater
    /// node, and the right end of the first row that they would share.
    ///
    /// Cost: a copy of each list that the command changes. The nodes aren't copied: a register, an unregister and a
    /// finish change one row of the image and of the directory. A register takes memory for the nodes once more, and
    /// for the directory at each 64th id alone; it stays unused if they have memory to spare. A finish and a cancel copy
    /// the movements only to find the cuts of the next image: the list is changed in place. A command that prepares no
    /// movement counts no walk.
    ///
    /// If the command prepares a movement, its plan is made, as `sequence_plans::plan_in` makes it: the movements are
    /// copied, and for m movements with the new one and r replications, `ring_reach::reached` is called m·r times. Under
    /// each replication, two walks are counted for each row between cuts that is in the ranges of the new movement.
    /// `Locked` is the only refusal that comes after walks that `walks` counts.
    ///
    /// If a keyspace is set or dropped, the image is copied, and a plan is made for each movement in flight, as for one
    /// that is prepared, but its walks are counted on a counter of their own. Then the ranges of each two movements are
    /// compared.
    ///
    /// The placement maps stay if a node is registered or unregistered. A start, the step half way and a cancel half
    /// way make new sets for the rows that the deltas of the movement change, and search the delta for each row. If a
    /// movement begins or ends, the cuts of the next image are made, by one pass over the tokens. Under each replication
    /// one pass over the rows between these makes the rows that are new or change, and takes memory for all rows, which
    /// stays unused if the map has memory to spare. An unsafe join places the maps anew: under each replication, one walk
    /// for each row between the cuts of the next image, which `walks` doesn't count. A command on keyspaces places the
    /// map of a new replication, and keeps the others. It takes memory for the list of the maps, and none for the rows of
    /// those that stay. A keyspace that is given the replication that it has costs nothing but the look for it.
    ///
    /// Under each keyspace, a token is in the ranges of at most one movement. Whichever movements are done or given up,
    /// the placement at a token depends only on the movements that have it in their ranges. Reads and writes are
    /// placements after such outcomes, so at most one movement matters to them.
    #[tactic(auto, using(crate::proofs::PermitOutcomes::placed, crate::proofs::PermitOutcomes::rings, crate::proofs::PermitOutcomes::placements))]
    pub fn admit<L: Ledger>(
        &self,
        cmd: &Command,
        walks: &mut Steps<L>,
    ) -> Result<Permit, AdmitFault>
        requires below_limit { self.now.epoch < most_epochs }
        requires formed { IsTrue (is_command cmd.now) }
        // Promise: a permit is for this image and this command. Guards: tried.
        ensures permit { IfOk result (λ permit. permit ≡ record { image = self.now; command = cmd.now }) }
        // Promise: a permit is given only for a command that the image accepts, and a refusal that is shown is the
        // first one. Guards: always_locked.edit, scripts, tried.
        // Promise: a movement whose ranges are locked gets no permit, and if nothing else refuses it, shows the least
        // node that locks them and the end of the first shared row. Guards: always_locked.edit, scripts, tried.
        ensures refusal { AdmitsUnless (refusal_of self.now cmd.now) result }
        // Promise: no walk is counted for a command that prepares no movement, or that has another refusal than locked
        // ranges. Guards: tried.
        ensures uncounted { prepared_by self.now.tokens cmd.now ≡ None → walks.new ≡ walks.old }
        ensures early { IsSome (early_refusal_of self.now cmd.now) → walks.new ≡ walks.old }
        // Promise: at most one movement has a token in its ranges, and whatever the outcomes, the placement at a token
        // depends only on the movements that have it in theirs. Guards: law, scripts.
        ensures apart { AreApart self.now }
        ensures outcomes { PlacedByRanges self.now }
        ensures rings { AreOutcomes self.now }
        ensures placements { ArePlacedByOutcomes self.now }
    {
        let (alloc, image, directory) = (self.alloc, &self.image, &self.directory);
        if let Some(refusal) = first_refusal(alloc, image, directory, cmd)? {
            return Err(AdmitFault::Refused(refusal));
        }
        let InFlight { running, locks } = &self.in_flight;
        let change = change_of(alloc, image, directory, locks, cmd, walks)?;
        let running = running.as_slice();
        let maps = maps_for(alloc, image, directory, &self.maps, running, &change)?;
        let spare = Spare::for_movements(alloc, grown_to(&change))?;
        Ok(Permit {
            change,
            spare,
            maps,
            image: Snapshot::of(image),
            command: Snapshot::of(cmd),
        })
    }

    /// Carries out the permit's command and returns the new epoch. It can't be refused and allocates no memory: it
    /// uses the memory that the permit holds. A new movement takes the plan that the permit holds.
    ///
    /// Each movement that goes on keeps its ranges, and under each keyspace a token is still in the ranges of at most
    /// one movement. Reads and writes are still placements after outcomes, as `admit` says.
    ///
    /// Under each keyspace for which the command makes a movement epoch, each write quorum of the image before shares a
    /// replica with each read quorum of the image after, and the other way round. This holds for QUORUM at every token,
    /// and for LOCAL_QUORUM in each datacenter that the replication names. Such a keyspace stays as it is.
    ///
    /// Under it the command changes the reads and the writes by its delta. A command that gives no tokens at once changes
    /// the cuts by the movement that begins or ends.
    /// After every command, the reads and the writes at a token that is no cut are those at the token after it, and
    /// each movement in flight gains and loses the same nodes at both. So a token at which its delta changes is a cut
    /// as long as the movement is in flight.
    ///
    /// Cost: a register adds one row to the nodes and to the directory, and moves the others only if there is no memory
    /// to spare. An unregister moves the rows after the removed one. A finish changes one row in place. If a movement
    /// ends, the rows of later movements move, and one pass over the locks unlocks its ranges; any other step, and a
    /// cancel half way, sets the phase of one row. If a movement begins or ends, rows of the placement maps are moved
    /// past those that come or go, or to new memory if the map has none to spare. If a command on keyspaces brings
    /// another list of replications, the maps that stay move to a new list, and their rows stay where they are; each
    /// movement in flight takes a new plan, for m movements at the cost of m·m moves of such a value.
    pub fn enact(&mut self, permit: Permit) -> u64
        requires { permit.image ≡ self.old }
        // Promise: what is enacted is the command of the permit. Guards: cancel_at_mid_ends.edit, scripts, tried.
        // Promise: a step is taken by the movement of its own node. Guards: scripts, tried.
        // Promise: each command that is enacted is one epoch, which is returned. Guards: scripts.
        ensures image { self.new ≡ next_image self.old permit.command }
        ensures epoch { result ≡ self.new.epoch }
        ensures apart { AreApart self.new }
        ensures outcomes { PlacedByRanges self.new }
        ensures rings { AreOutcomes self.new }
        ensures placements { ArePlacedByOutcomes self.new }
        // Promise: an enacted command leaves the ranges of each movement that goes on as they are, under each keyspace
        // of the image before. Guards: by `image`.
        ensures ranges { KeepsRanges self.old self.new }
        // Promise: under each keyspace for which a command makes a movement epoch, which stays, quorums before and
        // after it meet in both directions, at every token and in each named datacenter. Guards: by `image`, law.
        ensures meets { (k : Keyspace) → Contains self.old.keyspaces k
            → makes_movement_epoch k.name permit.command ≡ true → MeetsAfter self.old self.new k }
        // Promise: a command changes reads and writes by its delta, at each token under each keyspace for which it
        // makes a movement epoch. Guards: by `image`.
        ensures acts { ActsByDelta self.old self.new permit.command }
        // Promise: a command but `unsafe-join` changes the cuts by the movement that begins or ends. Guards: by
        // `image`.
        ensures cuts { is_unsafe_join permit.command ≡ false → CutsMove self.old self.new permit.command }
        // Promise: after each command, the reads and the writes at a token that is no cut are those at the token after
        // it. Guards: by `image`, law.
        ensures across { (r : Replication) (t : ℤ) → is_member int_eq (cuts self.new) t ≡ false
            → SameAcross self.new r t }
        // Promise: each movement in flight gains and loses the same nodes at a token that is no cut and at the token
        // after it. Guards: by `image`.
        ensures live { (r : Replication) (t : ℤ) → is_member int_eq (cuts self.new) t ≡ false
            → All (λ s. DeltasSameAcross self.new r s t) self.new.sequences }
    {
        let Permit {
            change,
            spare,
            maps,
            image: _,
            command: _,
        } = permit;
        exchange(&mut self.maps, maps);
        let (image, directory) = (&mut self.image, &mut self.directory);
        make(image, directory, &mut self.in_flight, change, spare);
        self.image.epoch
    }

    /// The nodes that are read at a token under a keyspace, and the nodes that are written. The nodes that are read are
    /// the replicas on the ring that reads see. The nodes that are written are the replicas on the ring before the
    /// movements and on the ring that writes see. Returns `None` if and only if no keyspace has this name.
    ///
    /// Each node that is read is written, and at most 1,024 nodes are written. Each write quorum of the image shares a
    /// replica with each of its read quorums, and a write quorum exists if and only if a read quorum does.
    ///
    /// Takes no memory. Cost: a comparison with each keyspace and each replication, and a binary search in the
    /// placement map, whose comparisons `steps` counts. For n rows between the cuts of the image, 2^steps is more than
    /// n / 2 and at most 2 n. If no keyspace has this name, no step is counted.
    pub fn replicas<L: Ledger>(
        &self,
        keyspace: &Name,
        t: Token,
        steps: &mut Steps<L>,
    ) -> Option<(&NodeSet, &NodeSet)>
        // Promise: the nodes that are read and the nodes that are written, at most 1,024; `None` if and only if no
        // keyspace has the name. Guards: mid_drops_writes.edit, scripts, tried.
        ensures sets { option_map (λ sets. (sets.0.now, sets.1.now)) result ≡ spec.served self.now keyspace.now t }
        ensures few { IfSome result (λ sets. length sets.1.now ≤ 1024) }
        // Promise: at every token under every keyspace, each read node is written, a write quorum exists if and only if
        // a read quorum does, and the two meet. Guards: law.
        ensures itself { QuorumsMeet self.now self.now }
        ensures together { QuorumsExistTogether self.now }
        ensures written { ReadsAreWritten self.now }
        // Promise: a lookup counts s comparisons, and for n rows between the cuts 2^s is at most 2 n, and more than n /
        // 2; for no keyspace it counts none. Guards: by `cost` and `enough` of `PlacementMap::at`, tried.
        ensures none { IsNone result → steps.new ≡ steps.old }
        ensures rises { steps.old ≤ steps.new }
        ensures bound { 2 ^ (steps.new - steps.old) ≤ 2 * length (rows_between (cuts self.now)) }
        ensures enough { IfSome result
            (λ _. length (rows_between (cuts self.now)) < 2 * 2 ^ (steps.new - steps.old)) }
    {
        match self.map(keyspace) {
            Some(map) => Some(map.at(t, steps)),
            None => None,
        }
    }

    /// The placement map of a keyspace: for each row between the cuts of the image, the nodes that are read and the
    /// nodes that are written. Returns `None` if and only if no keyspace has this name.
    ///
    /// Takes no memory. Cost: a comparison with each keyspace and each replication.
    pub fn placements(&self, keyspace: &Name) -> Option<&PlacementMap>
        // Promise: the placement map of a keyspace has the nodes read and written in each row between the cuts; `None`
        // if and only if no keyspace has the name. Guards: mid_drops_writes.edit, scripts.
        ensures { option_copied result ≡ option_map (λ row. placement_rows self.now row.replication)
            (spec.keyspace_of self.now keyspace.now) }
    {
        self.map(keyspace)
    }

    /// The placement map of a keyspace. The contract also says what holds of the placements of all keyspaces.
    fn map(&self, keyspace: &Name) -> Option<&PlacementMap>
        ensures found { option_copied result ≡ option_map (λ row. placement_rows self.now row.replication)
            (spec.keyspace_of self.now keyspace.now) }
        ensures few { (r : Replication) (x : ℤ) → length (writes_at self.now r x) ≤ 1024 }
        ensures itself { QuorumsMeet self.now self.now }
        ensures together { QuorumsExistTogether self.now }
        ensures written { ReadsAreWritten self.now }
    {
        match self.keyspace(keyspace) {
            Some(row) => find_map(&self.maps, &row.replication),
            None => None,
        }
    }

    /// The keyspace with this name. The contract also says what holds of the placements of all keyspaces.
    fn keyspace(&self, name: &Name) -> Option<&KeyspaceRow>
        ensures found { option_copied result ≡ spec.keyspace_of self.now name.now }
        ensures few { (r : Replication) (x : ℤ) → length (writes_at self.now r x) ≤ 1024 }
        ensures itself { QuorumsMeet self.now self.now }
        ensures together { QuorumsExistTogether self.now }
        ensures written { ReadsAreWritten self.now }
    {
        keyspace_of(&self.image, name)
    }

    /// The replication of a keyspace. Returns `None` if and only if no keyspace has this name.
    pub fn replication(&self, keyspace: &Name) -> Option<&Replication>
        // Promise: a keyspace's replication; `None` if and only if no keyspace has the name. Guards: scripts, tried.
        ensures { option_copied result ≡ option_map (λ row. row.replication)
            (spec.keyspace_of self.now keyspace.now) }
    {
        match self.keyspace(keyspace) {
            Some(row) => Some(&row.replication),
            None => None,
        }
    }

    /// The registered nodes, and the id of the next node that is registered.
    pub fn directory(&self) -> &Directory
        // Promise: the registered nodes and the next id. Guards: scripts, tried.
        ensures { result.now ≡ directory_of self.now }
    {
        &self.directory
    }

    /// The locks of the movements in flight, in the order of nodes. For each movement the table has its node and the
    /// tokens of its ranges, under each replication of the keyspaces. Without movements it has no lock.
    pub fn locks(&self) -> &LockTable
        // Promise: the locks of the movements are in a table, in the order of nodes, each with its ranges under each
        // replication; without movements there is none. Guards: law, locks.rt, tried.
        ensures nodes { map (λ row. row.node) result.now ≡ map (λ s. s.node) self.now.sequences }
        ensures locks { AreLocksOf self.now self.now.sequences result.now }
    {
        &self.in_flight.locks
    }

    /// The plan of the movement of a node. Returns `None` if and only if the node has no movement. The plan was made
    /// when the movement was prepared or came with an image, or anew when a keyspace was last set or dropped.
    ///
    /// Its row is that of the movement at `Prepared`. Its deltas are exact in the image as it is: at each token, under
    /// each replication of the keyspaces, they are the nodes that the movement gains and loses.
    ///
    /// Nothing is told of its cuts, its ranges and `wide`: they may be left out, or be those of an earlier image. The
    /// ranges in the image as it is are in `locks`, and `transformations::cuts` makes its cuts anew.
    ///
    /// Takes no memory. Cost: a comparison with each movement.
    pub fn plan_of(&self, node: NodeId) -> Option<&Plan>
        // Promise: each movement in flight keeps its own value, at its phase, with the row and the deltas of its plan.
        // Guards: calls/streams.rt, scripts, tried.
        ensures row { option_map (λ plan. plan.now.row) result
            ≡ option_map (λ (s : MovementRow). record s { phase = phase.Prepared }) (movement_of self.now node) }
        // Promise: the plan of each movement in flight has the movement's deltas in the image as it is, under each
        // replication of its keyspaces. Guards: old_deltas_stay.edit, renewals.rt, calls/plans.rt, tried.
        ensures deltas { IfSome result (λ plan. HasDeltas self.now plan.now) }
    {
        match find_running(self.in_flight.running.as_slice(), node) {
            Some(movement) => Some(movement.plan()),
            None => None,
        }
    }

    /// Consumes the metadata, with the values of the movements in flight and their locks. This brings the values to
    /// their end, and changes nothing of the cluster.
    pub fn close(self) {
        let Metadata {
            alloc: _,
            image: _,
            directory: _,
            maps: _,
            in_flight,
        } = self;
        close_all(in_flight);
    }
}
