//! The rows of prepared movements, for each kind of movement (CEP-21's multi-step operations).
#![tactic(auto)]

pub mod join;
pub mod leaves;
pub mod moves;
pub mod replaces;
pub mod row_pairs;

pub use join::join_row;
pub use leaves::leave_row;
pub use moves::move_row;
pub use replaces::replace_row;
pub use row_pairs::pairs_with;
