//! Files of lines: a log that is taken over, lines that are handed to a follower, a state, a route and a stream plan
//! that are printed, and a log that is written anew.

pub mod log_file;
pub mod member_route;
pub mod member_walk;
pub mod mend;
pub mod plan_lines;
pub mod question;
pub mod replay;
pub mod report;
pub mod state_line;
pub mod written;
