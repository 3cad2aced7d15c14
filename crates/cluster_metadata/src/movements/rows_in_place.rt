//! Changes of one movement in the list of movements, in place.

ghost use Rattle.std.specs.Prelude.{◌≡◌, ◌<◌, length, IfOk};
ghost use Rattle.std.specs.List.{remove};
ghost use Rattle.cluster_metadata.specs.code.Change.{phased};

use cluster_terms::{Memory, TryCopy};
use std::alloc::Global;
use std::mem::replace;
use transformations::{Phase, SeqRows};

/// Brings the movement at a position to a phase. Takes no memory.
pub fn bring_to(alloc: Global, rows: &mut SeqRows, at: usize, phase: Phase)
    requires { at < length rows.old }
    ensures { rows.new ≡ phased rows.old at phase }
{
    let mut items = replace(rows, SeqRows::empty(alloc)).into_vec();
    items[at].phase = phase;
    *rows = SeqRows::from_vec(items);
}

/// Removes the movement at a position, and moves each later one. Takes no memory.
pub fn remove_at(alloc: Global, rows: &mut SeqRows, at: usize)
    requires { at < length rows.old }
    ensures { rows.new ≡ remove rows.old at }
{
    let mut items = replace(rows, SeqRows::empty(alloc)).into_vec();
    let _removed = items.remove(at);
    *rows = SeqRows::from_vec(items);
}

/// A copy of the movements without the one at a position.
pub fn others(alloc: Global, rows: &SeqRows, at: usize) -> Result<SeqRows, Memory>
    requires { at < length rows.now }
    ensures { IfOk result (λ others. others ≡ remove rows.now at) }
{
    let mut others = rows.copy()?;
    remove_at(alloc, &mut others, at);
    Ok(others)
}
