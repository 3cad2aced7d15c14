ghost use Rattle.std.specs.Prelude.{◌≡◌, IfOk, MatchResult};
ghost use Rattle.transformations.specs.History.{begun};
ghost use Rattle.transformations.specs.Refusals.{with_movement};
ghost use Rattle.transformations.specs.Valid.{IsSound, IsValid};
ghost use Rattle.transformations.specs.declared.sequence.Phase.TheVariants as phase;
ghost use Rattle.sequence_plans.specs.PlanDeltas.{StaysExact};
ghost use Rattle.sequence_plans.specs.Plan.{IsPlan};

use crate::basis::Basis;
use crate::plan_deltas::DeltaBooks;
use crate::wide_image::WideImage;
use cluster_terms::{Memory, Steps, TokenList};
use node_directory::Directory;
use placement_deltas::Plan;
use std::alloc::Global;
use std::sync::ledger::Ledger;
use token_ring::{LockRows, RangeBook};
use transformations::{Image, SeqRow, cuts_among};

/// A plan without its row.
#[derive(Drop)]
struct Parts {
    cuts: TokenList,
    ranges: RangeBook,
    wide: LockRows,
    books: DeltaBooks,
}

/// The plan of a movement without its row, in the image with this movement.
fn planned<L: Ledger>(
    alloc: Global,
    image: &Image,
    directory: &Directory,
    row: &SeqRow,
    walks: &mut Steps<L>,
) -> Result<Parts, Memory>
    requires sound { IsSound (with_movement image.now row.now) }
    requires nodes { directory.now.rows ≡ image.now.nodes }
    ensures { IfOk result (λ parts. IsPlan (with_movement image.now row.now) row.now
        (record {
          row = row.now;
          cuts = parts.cuts;
          ranges = parts.ranges;
          wide = parts.wide;
          gain = parts.books.gain;
          swap = parts.books.swap;
          lose = parts.books.lose;
        })) }
{
    let with_row = WideImage::new(image, row)?;
    let basis = Basis::of_image(alloc, &with_row, directory)?;
    let cuts = cuts_among(alloc, with_row.tokens(), with_row.sequences())?;
    let ranges = basis.book_of(row)?;
    let books = basis.deltas_of(row, ranges.as_slice(), cuts.as_slice(), walks)?;
    let wide = basis.locks_beside(row.node)?;
    Ok(Parts {
        cuts,
        ranges,
        wide,
        books,
    })
}

/// The plan of a movement that is to be prepared, in the image with this movement: the cuts, its ranges, the ranges of
/// the other movements, and its deltas. There are ranges and deltas under each replication that a keyspace has. A book
/// has one row for each replication, however many keyspaces have it. If memory runs out, `Err` returns the row.
///
/// The deltas stay exact whatever other movements do: as long as the movement lives, they are its deltas in each later
/// image, under each keyspace that is neither set nor dropped.
///
/// Cost: makes the directory of the image, and does what `plan_in` does.
pub fn plan<L: Ledger>(
    alloc: Global,
    image: &Image,
    row: SeqRow,
    walks: &mut Steps<L>,
) -> Result<Plan, (SeqRow, Memory)>
    requires prepared { row.phase ≡ phase.Prepared }
    requires sound { IsSound (with_movement image.now row) }
    // Promise: a plan has its row, and the cuts of the image with it. Guards: locks.rt, tried.
    // Promise: it has the ranges of the row under each replication of the keyspaces, each once. Guards: locks.rt,
    // tried.
    // Promise: it has the ranges of all other movements, in the image with the row, and no others. Guards:
    // mid_unlocks.edit, locks.rt, tried.
    // Promise: its ranges are those of reach, and not only the rows whose replicas it changes. Guards:
    // locks_only_changed_rows.edit.
    // Promise: under each replication, at each token, `gain` and `swap` gain the nodes that the movement gains, `swap`
    // and `lose` lose those that it loses, and nothing else changes. Guards: deltas_of_the_first_replication.edit,
    // joins.rt (join-started), calls/plans.rt, tried.
    // Promise: if memory runs out, the row is handed back. Guards: tried.
    ensures plan { MatchResult result (IsPlan (with_movement image.now row) row) (λ e. e.0 ≡ row) }
    // Promise: the deltas stay exact after each list of accepted commands through which the movement lives, under each
    // keyspace that none of them sets or drops. Guards: by plan, by deltas_persist, calls/plans.rt.
    ensures persists { IfOk result
        (λ plan. IsValid (begun image.now row) → StaysExact (begun image.now row) plan) }
{
    let directory = match Directory::from_valid(alloc, image.nodes.as_slice(), image.next) {
        Ok(directory) => directory,
        Err(memory) => return Err((row, memory)),
    };
    plan_in(alloc, image, &directory, row, walks)
}

/// The plan that `plan` makes, for a caller that has a directory with the nodes of the image.
///
/// Cost: copies the movements, and makes the fixed ring, the widest set of pairs and the two rings of
/// the movement once. The cuts cost what `cuts_among` says. For m movements with the new one and r replications,
/// `reached` is called m·r times. Under each replication two walks are counted for each row between cuts that is in the
/// movement's ranges, and none elsewhere. Outside the ranges the deltas cost two binary searches in the cuts for each
/// range.
pub fn plan_in<L: Ledger>(
    alloc: Global,
    image: &Image,
    directory: &Directory,
    row: SeqRow,
    walks: &mut Steps<L>,
) -> Result<Plan, (SeqRow, Memory)>
    requires prepared { row.phase ≡ phase.Prepared }
    requires sound { IsSound (with_movement image.now row) }
    requires nodes { directory.now.rows ≡ image.now.nodes }
    ensures plan { MatchResult result (IsPlan (with_movement image.now row) row) (λ e. e.0 ≡ row) }
    ensures persists { IfOk result
        (λ plan. IsValid (begun image.now row) → StaysExact (begun image.now row) plan) }
{
    match planned(alloc, image, directory, &row, walks) {
        Ok(parts) => Ok(Plan {
            row,
            cuts: parts.cuts,
            ranges: parts.ranges,
            wide: parts.wide,
            gain: parts.books.gain,
            swap: parts.books.swap,
            lose: parts.books.lose,
        }),
        Err(memory) => Err((row, memory)),
    }
}
