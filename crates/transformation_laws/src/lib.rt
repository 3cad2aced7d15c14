//! Laws of the images that commands lead to: what is true of every valid image, of every history, and of an image and the
//! image after it.
#![tactic(auto)]

pub mod validity;

pub use validity::{
    adjacent_epochs_meet, cuts_follow_movements, deltas_act, deltas_persist, histories_are_valid,
    ids_act_once, keyspaces_lock, locked_ranges_overlap, movements_are_apart,
    rows_stand_for_tokens, valid_images_break_no_rule,
};
