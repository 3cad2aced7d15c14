//! A script is read in pieces, cut into lines, and answered.

pub mod answering;
pub mod commit;
pub mod lines;
pub mod pieces;
pub mod script;
