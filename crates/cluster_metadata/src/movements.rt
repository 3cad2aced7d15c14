//! The movements in flight: how they begin, go on and end.

pub mod cancelling;
pub mod in_flight;
pub mod preparing;
pub mod renewing;
pub mod rows_in_place;
pub mod running;
pub mod spare;
pub mod stepping;
