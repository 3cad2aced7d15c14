//! Laws of many processes of `share` over one log: what holds after any events, whatever is lost, repeated or late.
#![tactic(auto)]

pub mod validity;

pub use validity::{
    answered_commits_stand, answers_are_linear, lone_processes_offer_once, processes_run_share,
    processes_share_one_log, shared_quorums_meet, stores_keep_order,
};
