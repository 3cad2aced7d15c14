ghost use Rattle.std.specs.Prelude.{◌≡◌, position};
ghost use Rattle.tcm_edges.specs.code.StoredFiles as spec;

use std::marker::Model;

/// A file in memory.
#[derive(Debug, Drop)]
pub(crate) struct StoredFile {
    pub(crate) name: String,
    pub(crate) bytes: Vec<u8>,
}

impl Model for StoredFile {
    ghost use Rattle.std.specs.Prelude.{List, ℕ, string_bytes};

    ghost Value = { List ℕ × List ℕ };

    ghost view = { λ file. (string_bytes file.name, file.bytes.items) };
}

impl StoredFile {
    fn is_named(&self, name: &str) -> bool
        ensures { result ≡ spec.is_named name.now self.now }
    {
        name == self.name.as_str()
    }
}

/// The position of the first file with this name, if any.
pub(crate) fn position_of(files: &[StoredFile], name: &str) -> Option<usize>
    ensures { result ≡ position (spec.is_named name.now) files.now }
{
    files.iter().position(|file| file.is_named(name))
}
