//! Reads and writes the lines of files. Each line is a JSON object: that of a header, of an entry or of a snapshot.
#![tactic(auto)]

mod command_values;
mod commands;
mod json_lists;
mod line;
mod line_reading;
mod object_members;
mod snapshot_reading;
mod snapshot_values;
mod token_lists;
mod validity;
mod values;
mod writing;

pub use line::{Line, ReadLineFault};
pub use line_reading::read_line;
pub use validity::{
    entries_read_back, entry_lines_fit, headers_read_back, images_read_back, sound_images_fit,
};
pub use writing::{entry_line, header_line, snapshot_line};
