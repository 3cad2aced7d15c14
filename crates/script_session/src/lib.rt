//! The session of a script: the log of accepted commands and its followers, and the answer to each line.
#![tactic(auto)]

mod fault;
mod header;
mod limits;
pub mod refused_line;
pub mod session;

pub use fault::StepFault;
pub use header::{header_cause, other_cluster};
pub use limits::TEXT_ROOM;
pub use refused_line::{Cause, RefusedLine, refused_line_text};
pub use session::Session;
pub use session::place_text::placements_text;
