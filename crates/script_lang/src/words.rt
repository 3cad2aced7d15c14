//! The words of a line.

ghost use Rattle.std.specs.Prelude.{◌≡◌, map, IfOk, IsTrue};
ghost use Rattle.std.specs.Str.{bytes_eq};
ghost use Rattle.cluster_terms.specs.ReplicationText as spec;

use cluster_terms::{Few, Memory};
use std::alloc::Global;

/// How many words a usual line has at most.
pub const USUAL_WORDS: usize = 8;

/// Makes `words` the words of a line, separated by single spaces. Returns whether there was room for all of them.
pub fn put_words<'a>(words: &mut Few<&'a [u8], USUAL_WORDS>, bytes: &'a [u8]) -> bool
    ensures { IsTrue result → map (λ word. word.now) words.new ≡ spec.words_of bytes.now }
{
    words.clear();
    for word in bytes.split(|byte| *byte == b' ') {
        if words.is_full() {
            return false;
        }
        words.push(word);
    }
    true
}

/// The words of a line, separated by single spaces.
pub fn words_of(alloc: Global, bytes: &[u8]) -> Result<Vec<&[u8]>, Memory>
    ensures { IfOk result (λ words. map (λ word. word.now) words.items ≡ spec.words_of bytes.now) }
{
    let mut words = Vec::with_capacity(alloc, 4 * USUAL_WORDS)?;
    for word in bytes.split(|byte| *byte == b' ') {
        words.push(word)?;
    }
    Ok(words)
}

/// Whether a word equals `wanted`.
pub fn is_word(word: &[u8], wanted: &[u8]) -> bool
    ensures { result ≡ bytes_eq word.now wanted.now }
{
    word == wanted
}
