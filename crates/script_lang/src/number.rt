//! Numbers as script lines write them.

ghost use Rattle.std.specs.Prelude.{◌≡◌, ◌↔◌, ◌<◌, ◌≤◌, ◌==◌, ◌&&◌, ◌||◌, ◌^◌, ◌+◌, ◌*◌, ℕ, ℤ, List, length, slice_index, Some, SomeIff, nat_le, decimal};
ghost use Rattle.std.specs.Char.{digit_value};
ghost use Rattle.std.specs.Fmt.{signed_decimal};
ghost use Rattle.std.specs.Str.Parse.{AllDigits, digits_value};
ghost use Rattle.cluster_terms.specs.Arc.{IsToken};
ghost use Rattle.script_lang.specs.Grammar as spec;

use cluster_terms::NodeId;

/// The most entries that a reply may be asked to have.
const MOST_ENTRIES: u64 = 1_024;

/// The number below 2^64 that a text writes in decimal digits. Returns `None` if and only if the text is anything else;
/// a sign or a leading zero is refused.
pub fn number_of(text: &[u8]) -> Option<u64>
    // Promise: a number in decimal digits below 2^64, without leading zeros, is read, and no other text. Guards:
    // lines.rt, tried.
    ensures { result ≡ spec.number_below (2 ^ 64) text.now }
{
    if is_empty_or_has_leading_zero(text) {
        return None;
    }
    value_of(text)
}

fn is_empty_or_has_leading_zero(text: &[u8]) -> bool
    ensures { result ≡ (length text.now == 0)
        || ((slice_index text.now 0 == 48) && nat_le 2 (length text.now)) }
{
    matches!(text, [] | [b'0', _, ..])
}

/// The number that decimal digits write. Returns `None` if and only if a byte is not a digit or the number is not below
/// 2^64. The digits are added up here, as `parse` needs UTF-8 and takes a plus sign and zeros in front; this saves 2%
/// of the instructions of `gen`.
fn value_of(digits: &[u8]) -> Option<u64>
    ensures { SomeIff result (AllDigits 10 digits.now × (digits_value 10 digits.now < 2 ^ 64)) (digits_value 10 digits.now) }
{
    let mut value = 0;
    for byte in digits {
        value = with_digit(value, *byte)?;
    }
    Some(value)
}

/// The number with one more digit at its end. Returns `None` if and only if the byte is not a digit or the number is not
/// below 2^64.
fn with_digit(number: u64, byte: u8) -> Option<u64>
    ensures { SomeIff result ((digit_value byte < 10) × (number * 10 + digit_value byte < 2 ^ 64)) (number * 10 + digit_value byte) }
{
    if !byte.is_ascii_digit() {
        return None;
    }
    number.checked_mul(10)?.checked_add(u64::from(byte - b'0'))
}

/// The number of entries that a text writes, at most those of a reply: 1 to 1,024. Returns `None` if and only if the
/// text is anything else.
#[tactic(auto, using(crate::proofs::Numerals::number_below_is))]
pub fn max_of(text: &[u8]) -> Option<u64>
    ensures { result ≡ spec.max_of text.now }
{
    let max = number_of(text)?;
    if max == 0 || max > MOST_ENTRIES {
        return None;
    }
    Some(max)
}

/// The node whose id a text writes: a number below 2^32.
#[tactic(auto, using(crate::proofs::Numerals::number_below_is))]
pub fn node_of(text: &[u8]) -> Option<NodeId>
    ensures { result ≡ spec.node_of text.now }
{
    let id = u32::try_from(number_of(text)?).ok()?;
    Some(NodeId(id))
}

/// Scripts write each number below 2^64 and each token in exactly one way: as answers print it.
pub fn one_spelling()
    // Promise: a number and a token have one spelling, the one that is printed. Guards: law.
    ensures number { (limit n : ℕ) (text : List ℕ) → limit ≤ 2 ^ 64
        → (spec.number_below limit text ≡ Some n) ↔ ((text ≡ decimal n) × (n < limit)) }
    ensures token { (t : ℤ) (text : List ℕ)
        → (spec.token_of text ≡ Some t) ↔ ((text ≡ signed_decimal t) × IsToken t) }
{}
