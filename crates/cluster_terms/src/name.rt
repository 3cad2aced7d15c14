ghost use Rattle.std.specs.Prelude.{◌≡◌, ◌↔◌, if◌then◌else◌, Some, None, IfOk, IfSome, IsOk, IsSome, IsTrue};
ghost use Rattle.std.specs.List.{list_all};
ghost use Rattle.cluster_terms.specs.Name as spec;

use crate::list::TryCopy;
use crate::memory::Memory;
use arrayvec::ArrayString;
use std::alloc::Global;
use std::marker::Model;

/// The greatest number of bytes in a name.
const MOST_BYTES: usize = 32;

/// The name of a node, a datacenter, a rack or a keyspace: 1 to 32 of the characters `A-Z a-z 0-9 _ - .`. The bytes are
/// stored inline, so a copy allocates nothing. It isn't `Copy`, since the checker fails on an option of it that goes
/// through `or_else`.
#[derive(Debug, Drop)]
pub struct Name {
    text: ArrayString<MOST_BYTES>,
}

impl Model for Name {
    ghost use Rattle.std.specs.Prelude.{List, ℕ, IsTrue};
    ghost use Rattle.cluster_terms.specs.Name.{is_name};

    ghost Value = { List ℕ };

    ghost view = { λ name. name.text.bytes };

    ghost invariant = { λ name. IsTrue (is_name name.text.bytes) };
}

fn is_name(text: &str) -> bool
    ensures { result ≡ spec.is_name text.now }
{
    1 <= text.len() && text.len() <= MOST_BYTES && has_name_bytes(text.as_bytes())
}

/// Whether a name may contain each of these bytes.
fn has_name_bytes(bytes: &[u8]) -> bool
    ensures { result ≡ list_all spec.is_name_byte bytes.now }
{
    bytes.iter().all(|byte| is_name_byte(*byte))
}

fn is_name_byte(byte: u8) -> bool
    ensures { result ≡ spec.is_name_byte byte }
{
    byte.is_ascii_alphanumeric() || byte == b'_' || byte == b'-' || byte == b'.'
}

impl Name {
    /// The name with this text. Returns `None` if and only if the text is not a name. Never returns `Memory`.
    pub fn from_text(_alloc: Global, text: &str) -> Result<Option<Name>, Memory>
        // Promise: a name is 1 to 32 of its characters. Guards: tried.
        ensures valid { IfOk result (λ found. IsSome found ↔ IsTrue (spec.is_name text.now)) }
        ensures value { IfOk result (λ found. IfSome found (λ name. name ≡ text.now)) }
        ensures sure { IsOk result }
    {
        if !is_name(text) {
            return Ok(None);
        }
        let text = ArrayString::from(text).unwrap();
        Ok(Some(Name { text }))
    }

    /// The name with these bytes. Returns `None` if and only if they are not a name. Never returns `Memory`.
    #[tactic(auto, using(crate::proofs::texts::NameTexts::no_name))]
    pub fn from_bytes(alloc: Global, bytes: &[u8]) -> Result<Option<Name>, Memory>
        ensures name { IfOk result (λ found. found ≡ (if spec.is_name bytes.now then Some bytes.now else None)) }
        ensures sure { IsOk result }
    {
        match std::str::from_utf8(bytes) {
            Ok(text) => Name::from_text(alloc, text),
            Err(_) => Ok(None),
        }
    }

    /// The name's text.
    pub fn as_str(&self) -> &str
        ensures text { result.now ≡ self.now }
        ensures valid { IsTrue (spec.is_name self.now) }
    {
        self.text.as_str()
    }
}

impl TryCopy for Name {
    fn copy(&self) -> Result<Name, Memory>
        ensures copied { IfOk result (λ copied. copied ≡ self.now) }
        ensures valid { IsTrue (spec.is_name self.now) }
    {
        Ok(Name { text: self.text })
    }
}
