//! The language of scripts: reads its lines, and writes the texts of answers.
#![tactic(auto)]

mod answer_lists;
mod answers;
mod command_words;
mod grammar;
mod node_lines;
mod number;
mod placements;
mod quorum_lines;
mod refusal_texts;
mod script_line;
mod shown;
mod token_words;
mod words;

pub use answer_lists::list_text;
pub use answers::{
    epoch_text, no_epoch_text, no_reply_text, no_text, ok_text, refused_text, reply_text,
};
pub use grammar::parse_line;
pub use node_lines::nodes_text;
pub use number::{node_of, number_of, one_spelling};
pub use placements::place_text;
pub use quorum_lines::{QuorumSets, sets_text};
pub use refusal_texts::refusal_text;
pub use script_line::{ScriptLine, Target};
pub use shown::{Shown, labelled};
