//! Makes a change in an image, in its directory, in the values of its movements in flight and in the table of their
//! locks. Nothing here allocates memory.

ghost use Rattle.std.specs.Prelude.{◌≡◌, ◌+◌, ◌<◌, ◌≤◌, ◌^◌, ◌-◌, List, length, map, vec_capacity, vec_len};
ghost use Rattle.std.specs.List.{insert, remove};
ghost use Rattle.std.specs.List.Sorted.{IsStrictlySortedBy};
ghost use Rattle.transformations.specs.Orders.{by_node};
ghost use Rattle.transformations.specs.declared.sequence.Phase.{Phase};
ghost use Rattle.transformations.specs.declared.sequence.Phase.TheVariants as phase;
ghost use Rattle.transformations.specs.declared.sequence.SeqRow.{SeqRow as MovementRow};
ghost use Rattle.cluster_metadata.specs.code.Change.{BringsNothing, FitsNodes, Follows, StandsAt, changed, grown_to, in_phase, kept_plan, phased, plans_after};
ghost use Rattle.cluster_metadata.specs.Metadata.{directory_of};
ghost use Rattle.cluster_metadata.specs.code.Locking.{IsFree, MayLock, locks_after};
ghost use Rattle.cluster_metadata.specs.code.Change.{plan_lock};
ghost use Rattle.placement_maps.specs.code.MapChanges.{ArePlacementMaps, maps_after};
ghost use Rattle.cluster_metadata.specs.code.Running.{IsRunning, movement_row, phase_after, plan_of};

use crate::changes::change::Change;
use crate::changes::next_image::change_image;
use crate::changes::node_changes::register;
use crate::movements::in_flight::InFlight;
use crate::movements::renewing::parted;
use crate::movements::running::Running;
use crate::movements::spare::Spare;
use node_directory::Directory;
use placement_deltas::Plan;
use placement_maps::{MapBook, MapChange};
use std::mem::swap;
use transformations::{Image, SeqRow};

/// Inserts the value of a movement. The vector has room for it.
fn put(running: &mut Vec<Running>, at: usize, movement: Running)
    requires place { at ≤ vec_len running.old }
    requires room { vec_len running.old < vec_capacity running.old }
    ensures { running.new.items ≡ insert running.old.items at movement }
{
    match running.insert(at, movement) {
        Ok(()) => {}
        Err(_) => unreachable!(),
    }
}

/// Moves the values into `room`, which is empty and has room for one more, and swaps the two vectors.
fn move_over(running: &mut Vec<Running>, room: &mut Vec<Running>)
    requires empty { vec_len room.old ≡ 0 }
    requires room { vec_len running.old + 1 ≤ vec_capacity room.old }
    ensures items { running.new.items ≡ running.old.items }
    ensures room { vec_len running.new < vec_capacity running.new }
    ensures empty { vec_len room.new ≡ 0 }
{
    match room.append(running) {
        Ok(()) => {}
        Err(_) => unreachable!(),
    }
    swap(running, room);
}

/// Locks the ranges of a movement that begins, and inserts its value. The lock takes the same place in the table.
#[tactic(auto, using(crate::proofs::in_flight::RunningLemmas::map_insert))]
fn begin(sequences: &[SeqRow], in_flight: &mut InFlight, at: usize, plan: Plan, spare: Spare)
    requires running { IsRunning sequences.now in_flight.old.running.items }
    requires names { map (λ row. row.node) in_flight.old.locks ≡ map (λ s. s.node) sequences.now }
    requires place { at ≤ length sequences.now }
    requires phase { plan.row.phase ≡ phase.Prepared }
    requires empty { vec_len spare.room ≡ 0 }
    requires room { length sequences.now + 1 ≤ vec_capacity spare.room }
    requires lock { length sequences.now < spare.lock }
    requires free { IsFree plan in_flight.old.locks }
    ensures running { IsRunning (insert sequences.now at plan.row) in_flight.new.running.items }
    ensures plans { map plan_of in_flight.new.running.items
        ≡ insert (map plan_of in_flight.old.running.items) at (kept_plan plan) }
    ensures locks { in_flight.new.locks ≡ insert in_flight.old.locks at (plan_lock plan) }
{
    let Spare { mut room, lock } = spare;
    let InFlight { running, locks } = in_flight;
    let (ranges, plan) = parted(*running.allocator(), plan);
    let row = &plan.row;
    let key = locks.lock_in(at, row.node, ranges, lock);
    move_over(running, &mut room);
    room.destroy_empty();
    put(running, at, Running::begin(plan, key));
}

/// Takes the value of a movement to the phase after its own.
fn next_phase_at(running: &mut Vec<Running>, at: usize)
    requires { at < length running.old.items }
    ensures running { (rows : List MovementRow) (p : Phase) → IsRunning rows running.old.items → StandsAt rows at p
        → IsRunning (phased rows at (phase_after p)) running.new.items }
    ensures plans { map plan_of running.new.items ≡ map plan_of running.old.items }
{
    let movement = running.remove(at);
    put(running, at, movement.next_phase());
}

/// Removes the value of a movement, and unlocks its ranges.
fn close_at(in_flight: &mut InFlight, at: usize)
    requires movements { IsStrictlySortedBy by_node (map movement_row in_flight.old.running.items) }
    requires names { map (λ row. row.node) in_flight.old.locks
        ≡ map (λ s. s.node) (map movement_row in_flight.old.running.items) }
    requires place { at < length in_flight.old.running.items }
    ensures running { in_flight.new.running.items ≡ remove in_flight.old.running.items at }
    ensures locks { in_flight.new.locks ≡ remove in_flight.old.locks at }
{
    let key = in_flight.running.remove(at).close();
    in_flight.locks.unlock(key);
}

/// Gives each movement in flight the plan at its position, from the last to the first. The plans have the rows of the
/// movements at `Prepared`.
fn renew_plans(running: &mut Vec<Running>, plans: Vec<Plan>)
    requires { map (λ p. p.row) plans.items
        ≡ map (λ m. in_phase phase.Prepared (plan_of m).row) running.old.items }
    ensures plans { map plan_of running.new.items ≡ plans.items }
    ensures rows { map movement_row running.new.items ≡ map movement_row running.old.items }
{
    let mut left = plans;
    while let Some(plan) = left.pop() {
        let at = left.len();
        let movement = running.remove(at);
        put(running, at, movement.renewed(plan));
    }
}

/// Changes the placement maps.
pub fn exchange(maps: &mut MapBook, change: MapChange)
    requires { ArePlacementMaps (maps_after change maps.old) }
    ensures { maps.new ≡ maps_after change maps.old }
{
    match change {
        MapChange::Keep => {}
        MapChange::Anew(next) => *maps = next,
        MapChange::Arranged(arrangement) => maps.arrange(arrangement),
        MapChange::Sets(changes) => maps.exchange(changes),
        MapChange::Rows(edits) => maps.edit(edits),
    }
}

/// Makes a change in the directory of an image, in the values of its movements and in the table of their locks. The
/// change brings neither a node nor a movement nor a plan.
#[tactic(auto, using(placement_maps::proofs::ArrangedMaps::map_remove))]
fn change_parts(image: &Image, directory: &mut Directory, in_flight: &mut InFlight, change: &Change)
    requires directory { directory.old ≡ directory_of image.now }
    requires nodes { FitsNodes image.now change.now }
    requires running { IsRunning image.now.sequences in_flight.old.running.items }
    requires follows { Follows image.now.sequences change.now }
    requires movements { IsStrictlySortedBy by_node image.now.sequences }
    requires names { map (λ row. row.node) in_flight.old.locks ≡ map (λ s. s.node) image.now.sequences }
    requires brings { BringsNothing change.now }
    ensures directory { directory.new ≡ directory_of (changed image.now change.now) }
    ensures running { IsRunning (changed image.now change.now).sequences in_flight.new.running.items }
    ensures plans { map plan_of in_flight.new.running.items
        ≡ plans_after (map plan_of in_flight.old.running.items) change.now }
    ensures locks { in_flight.new.locks ≡ locks_after in_flight.old.locks change.now }
{
    match change {
        Change::Unregistered { node } => directory.unregister(*node),
        Change::Started { at } => next_phase_at(&mut in_flight.running, *at),
        Change::Mid { at } => next_phase_at(&mut in_flight.running, *at),
        Change::BroughtBack { at } => next_phase_at(&mut in_flight.running, *at),
        Change::Finished { at, left, .. } => {
            close_at(in_flight, *at);
            if let Some(left) = left {
                directory.mark_left(left.get().row.id);
            }
        }
        Change::Ended { at } => close_at(in_flight, *at),
        Change::Unchanged | Change::Tokens(_) => {}
        Change::Registered(_) | Change::Keyspaces { .. } | Change::Begun { .. } => unreachable!(),
    }
}

/// Makes a change in an image, in its directory, in the values of its movements and in the table of their locks. If a
/// movement begins, `spare` is memory for its value and its lock. New keyspaces bring new plans and locks for all
/// movements.
pub fn make(
    image: &mut Image,
    directory: &mut Directory,
    in_flight: &mut InFlight,
    change: Change,
    spare: Spare,
)
    requires epochs { image.old.epoch < 2 ^ 64 - 1 }
    requires directory { directory.old ≡ directory_of image.old }
    requires nodes { FitsNodes image.old change }
    requires running { IsRunning image.old.sequences in_flight.old.running.items }
    requires follows { Follows image.old.sequences change }
    requires empty { vec_len spare.room ≡ 0 }
    requires room { grown_to change ≤ vec_capacity spare.room }
    requires movements { IsStrictlySortedBy by_node image.old.sequences }
    requires names { map (λ row. row.node) in_flight.old.locks ≡ map (λ s. s.node) image.old.sequences }
    requires lock { grown_to change ≤ spare.lock }
    requires free { MayLock in_flight.old.locks change }
    ensures made { image.new ≡ changed image.old change }
    ensures directory { directory.new ≡ directory_of image.new }
    ensures running { IsRunning image.new.sequences in_flight.new.running.items }
    ensures plans { map plan_of in_flight.new.running.items
        ≡ plans_after (map plan_of in_flight.old.running.items) change }
    ensures locks { in_flight.new.locks ≡ locks_after in_flight.old.locks change }
{
    match change {
        Change::Registered(node) => {
            spare.destroy();
            register(image, directory, node);
            image.epoch += 1;
        }
        Change::Begun {
            at,
            plan,
            sequences,
        } => {
            let before = image.sequences.as_slice();
            begin(before, in_flight, at, plan.take(), spare);
            image.sequences = sequences;
            image.epoch += 1;
        }
        Change::Keyspaces { keyspaces, renewed } => {
            spare.destroy();
            renew_plans(&mut in_flight.running, renewed.plans);
            in_flight.locks.relock(renewed.locks);
            image.keyspaces = keyspaces;
            image.epoch += 1;
        }
        change => {
            spare.destroy();
            change_parts(image, directory, in_flight, &change);
            change_image(*in_flight.running.allocator(), image, change);
        }
    }
}
