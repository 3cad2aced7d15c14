//! Runs over files in memory, for the tests of whole runs: files that are told by letters, runs of words and scripts over
//! them, and comparisons of what a run printed and left. A comparison fails with the name of its run.
#![tactic(auto)]

mod comparing;
mod large_files;
mod replaying;
mod running;
mod told;

pub use large_files::is_too_large;
pub use replaying::{AT_0, AT_2, AT_3, REPLAY, Replayed, holds_second, replays};
pub use running::{USAGE, calls_of, fail_of, is_run, is_shown, status_of, words_from, words_in};
pub use told::{
    ENTRY_1, ENTRY_2, ENTRY_3, File, HEADER, STATE_0, add_item, bytes_of, holds, keeps_other,
    put_file, store_of, sure_store_of,
};
