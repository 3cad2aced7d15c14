use cluster_terms::{Memory, Name};
use transformations::{Entry, Image};

/// The format of logs whose first line is a header.
pub const LOG_FORMAT: u64 = 2;

/// The content of a line of a file, as `read_line` returns it.
#[derive(Debug, Drop)]
pub enum Line {
    /// A header: the name of the cluster whose log this is.
    Header(Name),
    /// An entry: a command, the id that its sender gave it, and the epoch that it made.
    Entry(Entry),
    /// A snapshot: the image of some epoch.
    Snapshot(Image),
}

/// Why `read_line` returned no line.
#[derive(Clone, Copy, Debug, PartialEq, Eq)]
pub enum ReadLineFault {
    /// The line breaks this rule, and no rule with a smaller number. `read_line` lists the rules, 1 to 7.
    Bad(u8),
    /// Memory ran out.
    Memory,
}

impl From<Memory> for ReadLineFault {
    ghost use Rattle.std.specs.Prelude.{◌≡◌};
    ghost use Rattle.wire_json.specs.declared.line.ReadLineFault.TheVariants.{Memory};

    ghost from_gives = { λ _ fault. fault ≡ Memory };

    fn from(_memory: Memory) -> ReadLineFault {
        ReadLineFault::Memory
    }
}
