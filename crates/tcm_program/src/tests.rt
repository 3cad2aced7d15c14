//! Worked scripts, each a run over objects in memory, and calls that no script makes.

mod calls;
mod cancels;
mod followers;
mod ids;
mod joins;
mod limits;
mod lines;
mod locks;
mod openings;
mod quorums;
mod racks;
mod refusals;
mod renewals;
mod replies;
mod running;
mod scripts;
mod steps;
mod together;

use openings::{EIGHT, FOUR, NOTHING, RACKS, SIX, THREE};
use running::{Script, go_on};
use std::test::Fail;

/// Tables of scripts, each with the opening that its scripts go on from.
const TABLES: [(&str, &[Script]); 27] = [
    (NOTHING, &lines::FORMS),
    (NOTHING, &ids::FROM_NOTHING),
    (FOUR, &ids::ON_FOUR),
    (NOTHING, &scripts::PLACEMENTS),
    (NOTHING, &scripts::NODES),
    (NOTHING, &refusals::FROM_NOTHING),
    (FOUR, &refusals::ON_FOUR),
    (FOUR, &joins::ON_FOUR),
    (NOTHING, &joins::FROM_NOTHING),
    (THREE, &steps::ON_THREE),
    (FOUR, &steps::ON_FOUR),
    (THREE, &cancels::ON_THREE),
    (FOUR, &cancels::ON_FOUR),
    (EIGHT, &together::ON_EIGHT),
    (EIGHT, &renewals::ON_EIGHT),
    (SIX, &renewals::ON_SIX),
    (SIX, &locks::ON_SIX),
    (FOUR, &locks::ON_FOUR),
    (RACKS, &racks::ON_RACKS),
    (FOUR, &quorums::ON_FOUR),
    (RACKS, &quorums::ON_RACKS),
    (NOTHING, &quorums::FROM_NOTHING),
    (NOTHING, &scripts::PLACES),
    (FOUR, &followers::ON_FOUR),
    (FOUR, &replies::ON_FOUR),
    (RACKS, &followers::ON_RACKS),
    (NOTHING, &followers::FROM_NOTHING),
];

#[test]
fn scripts_have_their_answers(rt: HostRuntime) -> Result<(), Fail> {
    for row in &TABLES {
        let (opening, scripts) = *row;
        for piece in [7, 4_096] {
            go_on(&rt, rt.alloc(), opening, scripts, piece)?;
        }
    }
    Ok(())
}
