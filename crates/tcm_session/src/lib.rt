//! A run of the program: it reads a script, answers its lines, and keeps a log file; it replays files, prints a state,
//! a route between two sets of members or a stream plan, counts the answers to a generated script, and writes a log
//! file anew.
#![tactic(auto)]

mod durable;
mod ending;
mod files;
mod generated;
mod limits;
mod node_list;
mod outcome_laws;
mod program;
mod request;
mod run_fault;
mod scripts;
mod status;
mod validity;

pub use durable::{durable_words, run_durable};
pub use outcome_laws::{
    plans_cover_what_is_added, printed_quorums_meet, routes_are_safe, scripts_lead_followers,
};
pub use program::{run, run_surely};
pub use script_session::{Session, StepFault};
pub use session_laws::{
    catch_up_skips_nothing, followers_show_prefixes, lines_are_answered, lines_make_the_input,
    shown_quorums_meet,
};
pub use status::Status;
pub use validity::{
    answered_entries_stand, log_files_fit, replays_show_the_longest_prefix, scripts_are_sent_again,
};
