//! Plans of movements, made when the movements are prepared.
#![tactic(auto)]

mod basis;
mod movement_rings;
mod near_cuts;
mod plan_deltas;
mod planning;
mod row_changes;
mod wide_image;

pub use planning::{plan, plan_in};
