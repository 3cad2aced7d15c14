//! The plan of a movement: its ranges, the nodes that it adds to the reads and writes or takes from them at each token,
//! and the ranges of the other movements.
#![tactic(auto)]

pub mod changes;
pub mod delta;
pub mod delta_book;
pub mod delta_row;
mod joined_rows;
pub mod plan;
mod replications;
pub mod side;
pub mod unchanged;

pub use changes::Changes;
pub use delta::Delta;
pub use delta_book::{DeltaBook, DeltaBookRow};
pub use delta_row::{DeltaRow, DeltaRows};
pub use plan::Plan;
pub use replications::{Replications, replications_of};
pub use side::Side;
pub use unchanged::Unchanged;
