//! Generated scripts: their lines, the session that answers them, and the summary of the answers. Commits and
//! deliveries are made as text, and are parsed like those of any script.
#![tactic(auto)]

mod command_lines;
mod draw;
pub mod generation;
pub mod kinds;
mod opening;
mod rounds;
mod summary;

pub use summary::generate;
