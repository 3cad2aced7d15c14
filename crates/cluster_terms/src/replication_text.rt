//! The texts of replications: `simple RF`, and `topology DC:RF ..`.

ghost use Rattle.std.specs.Prelude.{◌≡◌, ◌++◌, flat_map, length, map, option_and_then, take, Some, IfOk, OnOk};
ghost use Rattle.std.specs.List.{position};
ghost use Rattle.std.specs.Str.{bytes_eq};
ghost use Rattle.cluster_terms.specs.Replication.{IsReplication};
ghost use Rattle.cluster_terms.specs.ReplicationText as spec;
ghost use Rattle.cluster_terms.specs.declared.replication.Replication.{Replication as AnyReplication};

use crate::factors::Factors;
use crate::list::{ByteText, SmallList};
use crate::memory::Memory;
use crate::name::Name;
use crate::replication::Replication;
use crate::rf::Rf;
use std::alloc::Global;

impl Replication {
    /// Parses `simple RF`, or `topology` and 1 to 16 words `DC:RF` with different datacenters in any order. Single
    /// spaces separate the words, DC is a name, and RF is 1 to 16 without a leading zero. Returns `None` if and only if
    /// the text has neither form.
    pub fn parse(alloc: Global, text: &str) -> Result<Option<Replication>, Memory>
        // Promise: a text is read as the replication that it stands for, and every other text as none. Guards:
        // calls/terms.rt, tried.
        ensures { IfOk result (λ found. found ≡ spec.replication_of text.now) }
    {
        let words = words_of(alloc, text.as_bytes())?;
        Replication::from_words(alloc, words.as_slice())
    }

    /// Parses the words of a replication's text. Returns `None` if and only if they have neither form of `parse`.
    #[tactic(auto, unfolding(crate::specs::ReplicationText::replication_of_words))]
    pub fn from_words(alloc: Global, words: &[&[u8]]) -> Result<Option<Replication>, Memory>
        ensures { IfOk result
            (λ found. found ≡ spec.replication_of_words (map (λ word. word.now) words.now)) }
    {
        match words {
            [word, words @ ..] if is_word(word, b"simple") => Ok(simple_of(words)),
            [word, words @ ..] if is_word(word, b"topology") => {
                let factors = factors_of(alloc, words)?;
                Ok(factors.map(Replication::Topology))
            }
            _ => Ok(None),
        }
    }

    /// Appends the replication's text, with the datacenters in ascending order. If memory runs out, `out` still begins
    /// with its earlier bytes, and part of the text may follow.
    #[tactic(auto, unfolding(crate::specs::ReplicationText::text_of))]
    pub fn write(&self, out: &mut ByteText) -> Result<(), Memory>
        // Promise: a replication has one text. Guards: calls/terms.rt, tried.
        ensures text { OnOk result (out.new ≡ out.old ++ spec.text_of self.now) }
        ensures kept { take (length out.old) out.new ≡ out.old }
        ensures valid { OnOk result (IsReplication self.now) }
    {
        match self {
            Replication::Simple(rf) => {
                out.extend(b"simple ")?;
                rf.write(out)
            }
            Replication::Topology(factors) => {
                out.extend(b"topology")?;
                write_rows(factors.rows(), out)
            }
        }
    }
}

/// The words of a text, separated by single spaces.
fn words_of(alloc: Global, text: &[u8]) -> Result<Vec<&[u8]>, Memory>
    ensures { IfOk result (λ words. map (λ word. word.now) words.items ≡ spec.words_of text.now) }
{
    let words = text.split(|byte| *byte == b' ').collect(alloc)?;
    Ok(words)
}

fn is_word(word: &[u8], wanted: &[u8]) -> bool
    ensures { result ≡ bytes_eq word.now wanted.now }
{
    word == wanted
}

/// Parses the words after `simple`, which must be one word RF. Returns `None` for any other words.
fn simple_of(words: &[&[u8]]) -> Option<Replication>
    ensures { result ≡ spec.simple_of (map (λ word. word.now) words.now) }
{
    match words {
        [rf] => Rf::from_text(rf).map(Replication::Simple),
        _ => None,
    }
}

/// Parses the words after `topology`. Returns `None` if and only if they make up no factors.
fn factors_of(alloc: Global, words: &[&[u8]]) -> Result<Option<Factors>, Memory>
    ensures { IfOk result
        (λ found. found ≡ option_and_then spec.factors_of (spec.rows_of (map (λ word. word.now) words.now))) }
{
    match rows_of(alloc, words)? {
        Some(rows) => Factors::from_rows(alloc, rows.as_slice()),
        None => Ok(None),
    }
}

/// Parses words DC:RF, in their order. Returns `None` if and only if a word does not have this form.
fn rows_of(alloc: Global, words: &[&[u8]]) -> Result<Option<SmallList<(Name, Rf)>>, Memory>
    ensures { IfOk result (λ found. found ≡ spec.rows_of (map (λ word. word.now) words.now)) }
{
    let mut rows = SmallList::empty(alloc);
    for word in words {
        match factor_row_of(alloc, word)? {
            Some(row) => rows.push(row)?,
            None => return Ok(None),
        }
    }
    Ok(Some(rows))
}

/// Parses a word DC:RF. Returns `None` if and only if the word does not have this form.
#[tactic(auto, using(crate::proofs::texts::ReplicationTexts::no_colon), unfolding(crate::specs::ReplicationText::factor_row_of))]
fn factor_row_of(alloc: Global, word: &[u8]) -> Result<Option<(Name, Rf)>, Memory>
    ensures { IfOk result (λ found. found ≡ spec.factor_row_of word.now) }
{
    let Some(colon) = colon_of(word) else {
        return Ok(None);
    };
    let Some(rf) = Rf::from_text(&word[colon + 1..]) else {
        return Ok(None);
    };
    let dc = Name::from_bytes(alloc, &word[..colon])?;
    Ok(dc.map(|dc| (dc, rf)))
}

/// The position of the first colon, if there is one.
fn colon_of(word: &[u8]) -> Option<usize>
    ensures { result ≡ position spec.is_colon word.now }
{
    word.iter().position(|byte| *byte == b':')
}

/// Appends the word of each row, after a space.
fn write_rows(rows: &[(Name, Rf)], out: &mut ByteText) -> Result<(), Memory>
    ensures added { OnOk result (out.new ≡ out.old ++ flat_map spec.row_text rows.now) }
    ensures kept { take (length out.old) out.new ≡ out.old }
{
    for row in rows {
        write_row(row, out)?;
    }
    Ok(())
}

/// Appends the word of a row, after a space.
fn write_row(row: &(Name, Rf), out: &mut ByteText) -> Result<(), Memory>
    ensures added { OnOk result (out.new ≡ out.old ++ spec.row_text row.now) }
    ensures kept { take (length out.old) out.new ≡ out.old }
{
    let (dc, rf) = row;
    out.extend(b" ")?;
    out.extend(dc.as_str().as_bytes())?;
    out.extend(b":")?;
    rf.write(out)
}

/// Parsing the text of a valid replication gives the replication back.
#[tactic(auto, using(crate::proofs::texts::RoundTrip::round_trip))]
pub fn texts_read_back()
    // Promise: the text of a replication is read as the same replication. Guards: law, calls/terms.rt.
    ensures { (r : AnyReplication) → IsReplication r → spec.replication_of (spec.text_of r) ≡ Some r }
{}
