//! The steps of a movement.

ghost use Rattle.std.specs.Prelude.{◌≡◌, ◌<◌, ◌==◌, None, find, length, position, IfOk, IsSome};
ghost use Rattle.std.specs.List.{slice_get};
ghost use Rattle.transformations.specs.Refusals.{early_refusal_of};
ghost use Rattle.transformations.specs.Movements as spec;
ghost use Rattle.transformations.specs.Valid.{IsSound};
ghost use Rattle.transformations.specs.declared.command.Command.TheVariants as command;
ghost use Rattle.cluster_metadata.specs.code.Change.{IsChange, in_phase};

use crate::changes::change::Change;
use crate::changes::left_row::{leaver, left_row};
use crate::changes::ring_pairs::with_pairs;
use cluster_terms::{Memory, NodeId, PairList, TryCopy};
use std::alloc::Global;
use std::slice::from_ref;
use transformations::{Goal, Image, Kind, Phase, SeqRow, fixed_among};

/// A copy of a movement's row, at another phase.
pub fn at_phase(row: &SeqRow, phase: Phase) -> Result<SeqRow, Memory>
    ensures { IfOk result (λ changed. changed ≡ in_phase phase row.now) }
{
    let mut row = row.copy()?;
    row.phase = phase;
    Ok(row)
}

/// The ring after a movement is done: without its outgoing pairs, and with its incoming pairs. Cost: a binary search
/// among the outgoing pairs for each pair of the ring, and that of `with_pairs`.
fn ring_after(alloc: Global, image: &Image, row: &SeqRow) -> Result<PairList, Memory>
    requires { IsSound image.now }
    ensures { IfOk result (λ ring. ring ≡ spec.ring_after image.now.tokens row.now) }
{
    let ring = fixed_among(alloc, &image.tokens, from_ref(row))?;
    with_pairs(alloc, ring.as_slice(), row.in_pairs.as_slice())
}

/// The position of a node's movement. Returns `None` if and only if the node has no movement.
fn found_at(sequences: &[SeqRow], node: NodeId) -> Option<usize>
    ensures { result ≡ position (λ s. s.node == node) sequences.now }
{
    sequences.iter().position(|row| row.node == node)
}

/// The position of the movement of a node that has one.
#[tactic(auto, using(crate::proofs::in_flight::MovementPlaces::found_at, placement_maps::proofs::ArrangedMaps::found_within, crate::proofs::in_flight::MovementPlaces::some_place))]
pub fn position_of(sequences: &[SeqRow], node: NodeId) -> usize
    requires { IsSome (find (λ s. s.node == node) sequences.now) }
    ensures bound { result < length sequences.now }
    ensures place { slice_get sequences.now result ≡ find (λ s. s.node == node) sequences.now }
{
    match found_at(sequences, node) {
        Some(at) => at,
        None => unreachable!(),
    }
}

/// The change by which the movement of a node takes a step.
#[tactic(auto, using(crate::proofs::in_flight::AcceptedSteps::some_movement))]
pub fn step(
    alloc: Global,
    image: &Image,
    goal: Goal,
    kind: Kind,
    node: NodeId,
) -> Result<Change, Memory>
    requires sound { IsSound image.now }
    requires accepted { early_refusal_of image.now (command.Step goal kind node) ≡ None }
    ensures { IfOk result (IsChange image.now (command.Step goal kind node)) }
{
    let sequences = image.sequences.as_slice();
    let at = position_of(sequences, node);
    let row = &sequences[at];
    match goal {
        Goal::Start => Ok(Change::Started { at }),
        Goal::Mid => Ok(Change::Mid { at }),
        Goal::Finish => Ok(Change::Finished {
            at,
            left: left_row(alloc, image, leaver(row))?,
            tokens: ring_after(alloc, image, row)?,
        }),
    }
}
