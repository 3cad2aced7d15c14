//! Reach: the tokens whose placement may change when pairs of a ring come or go.
#![tactic(auto)]

mod common_shape;
mod differ;
mod groups;
mod reach;
mod ring_change;
mod rows;
mod walk_back;
mod windows;

pub use differ::shape_differs;
pub use reach::reached;
