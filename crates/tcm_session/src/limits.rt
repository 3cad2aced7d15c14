//! The limit of a file, and the text for a file that is past it.

/// The most bytes of a file.
pub const FILE_LIMIT: u64 = 536_870_912;

/// The text that is printed for an input or a file that is too large, with the limit in bytes.
pub const TOO_LARGE: &str = "TOO-LARGE 536870912\n";
