//! Calls that no script makes, beside the worked scripts whose openings and texts they share.

mod copies;
mod deltas;
mod maps;
mod metadata;
mod plans;
mod rings;
mod sets;
