//! The room of a text.

/// The bytes for which the text of a line or of an answer has room at once. Most have fewer.
pub const TEXT_ROOM: usize = 64;
