//! Laws of the session machine: what holds of the answers to any lines, and of the followers after them.
#![tactic(auto)]

pub mod validity;

pub use validity::{
    catch_up_skips_nothing, followers_show_prefixes, lines_are_answered, lines_make_the_input,
    shown_quorums_meet,
};
