//! Tokens as script lines write them.

ghost use Rattle.std.specs.Prelude.{◌≡◌, ◌+◌, ◌^◌, ◌&&◌, if◌then◌else◌, pos, neg_ℤ, map, Some, None, IfOk, nat_lt, nat_le};
ghost use Rattle.script_lang.specs.Grammar as spec;

use crate::number::number_of;
use cluster_terms::{Memory, Token, TokenList, put_in_order};
use std::alloc::Global;

/// The most tokens that a command may give to a node.
const MOST_TOKENS: usize = 256;

/// The token that a text writes: a number below 2^63, or a minus sign and a number from 1 to 2^63.
#[tactic(auto, using(crate::proofs::TokenTexts::token_plain, crate::proofs::TokenTexts::token_minus))]
pub fn token_of(text: &[u8]) -> Option<Token>
    ensures { result ≡ spec.token_of text.now }
{
    match text {
        [b'-', digits @ ..] => below_zero(number_of(digits)?),
        _ => from_zero(number_of(text)?),
    }
}

/// The token n.
fn from_zero(n: u64) -> Option<Token>
    ensures { result ≡ (if nat_lt n (2 ^ 63) then Some (pos n) else None) }
{
    let n = i64::try_from(n).ok()?;
    Some(Token::new(n))
}

/// The token -n, where n is not 0.
fn below_zero(n: u64) -> Option<Token>
    ensures { result ≡ (if nat_le 1 n && nat_lt n (2 ^ 63 + 1) then Some (neg_ℤ (pos n)) else None) }
{
    let past_one = i64::try_from(n.checked_sub(1)?).ok()?;
    Some(Token::new(-1 - past_one))
}

/// The tokens in these words, in ascending order; the words may come in any order. Returns `None` if and only if a word
/// isn't a token, a token comes twice, or there are no words or more than 256.
pub fn tokens_in_words(alloc: Global, words: &[&[u8]]) -> Result<Option<TokenList>, Memory>
    ensures { IfOk result (λ found. found ≡ spec.tokens_in_words (map (λ word. word.now) words.now)) }
{
    match each_token_in_words(alloc, words)? {
        Some(tokens) => kept_tokens(alloc, tokens.as_slice()),
        None => Ok(None),
    }
}

/// The tokens in these words, in the order of the words, if each word is a token.
fn each_token_in_words(alloc: Global, words: &[&[u8]]) -> Result<Option<TokenList>, Memory>
    ensures { IfOk result (λ found. found ≡ spec.each_token_in_words (map (λ word. word.now) words.now)) }
{
    let mut tokens = TokenList::empty(alloc);
    for word in words {
        match token_of(word) {
            Some(token) => tokens.push(token)?,
            None => return Ok(None),
        }
    }
    Ok(Some(tokens))
}

/// The tokens in ascending order, if there are 1 to 256 and none comes twice. Tokens are kept ascending, as datacenters
/// are, so the token of `TOKEN-TAKEN` is the least.
fn kept_tokens(alloc: Global, tokens: &[Token]) -> Result<Option<TokenList>, Memory>
    ensures { IfOk result (λ found. found ≡ spec.kept_tokens tokens.now) }
{
    if tokens.is_empty() || MOST_TOKENS < tokens.len() {
        return Ok(None);
    }
    let mut ascending = Vec::from_slice(alloc, tokens)?;
    put_in_order(&mut ascending);
    if ascending.len() < tokens.len() {
        return Ok(None);
    }
    Ok(Some(TokenList::from_vec(ascending)))
}
