//! The ranges that movements in flight lock, and the keys to these locks.
#![tactic(auto)]

mod first_conflict;
mod first_end;
mod key;
mod overlap;
mod table;

pub use key::LockKey;
pub use overlap::first_overlap;
pub use table::LockTable;
