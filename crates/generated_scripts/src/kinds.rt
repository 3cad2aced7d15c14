//! The kinds of answers, and how many answers are of a kind.

ghost use Rattle.std.specs.Prelude.{◌≡◌, ◌≤◌, filter, length, map};
ghost use Rattle.generated_scripts.specs.Generated as spec;

/// The kind of an answer: two bytes for each line. Kinds are counted at the end, so no bound of a count is carried.
#[derive(Clone, Copy, Debug, PartialEq, Eq)]
pub enum AnswerKind {
    /// A commit is accepted.
    Accepted,
    /// A commit is refused, with the refusal of this number.
    Refused(u8),
    /// Any other answer.
    Other,
}

/// The texts that the answers to refused commits begin with, by the number of the refusal, from 1 on. The bytes of an
/// answer tell its refusal, as none of these texts is a prefix of another.
const REFUSALS: [&[u8]; 20] = [
    b"NO NAME-TAKEN",
    b"NO NODES-FULL",
    b"NO NO-NODE",
    b"NO NODE-STATE",
    b"NO IN-SEQUENCE",
    b"NO NO-SEQUENCE",
    b"NO WRONG-STEP",
    b"NO TOKEN-TAKEN",
    b"NO NO-TOKENS",
    b"NO TOKENS-FULL",
    b"NO NOT-ONE-TOKEN",
    b"NO OTHER-RACK",
    b"NO NOT-IDLE",
    b"NO NO-KEYSPACE",
    b"NO KEYSPACES-FULL",
    b"NO TOO-FEW-NODES",
    b"NO LOCKED",
    b"NO ID-REUSED",
    b"NO EPOCHS-FULL",
    b"NO KEYSPACE-LOCKED",
];

#[tactic(auto, unfolding(crate::specs::Generated::begins))]
fn begins(text: &[u8], front: &[u8]) -> bool
    ensures { result ≡ spec.begins text.now front.now }
{
    text.starts_with(front)
}

/// The refusal of the first of these texts that an answer begins with; they are counted from 1 on.
fn refused_kind(text: &[u8], fronts: &[&[u8]]) -> AnswerKind
    requires { length fronts.now ≤ 20 }
    ensures { result ≡ spec.refused_kind 1 (map (λ front. front.now) fronts.now) text.now }
{
    let mut number = 1;
    for front in fronts {
        if begins(text, front) {
            return AnswerKind::Refused(number);
        }
        number += 1;
    }
    AnswerKind::Other
}

/// The kind of an answer.
#[tactic(auto, unfolding(crate::specs::Generated::kind_of))]
pub fn kind_of(text: &[u8]) -> AnswerKind
    ensures { result ≡ spec.kind_of text.now }
{
    if begins(text, b"OK ") {
        AnswerKind::Accepted
    } else {
        refused_kind(text, &REFUSALS)
    }
}

fn is_accepted(kind: &AnswerKind) -> bool
    ensures { result ≡ spec.is_accepted kind.now }
{
    matches!(kind, AnswerKind::Accepted)
}

fn is_refused(number: u8, kind: &AnswerKind) -> bool
    ensures { result ≡ spec.is_refused number kind.now }
{
    matches!(kind, AnswerKind::Refused(n) if *n == number)
}

/// The number of accepted commits.
pub fn accepted_count(kinds: &[AnswerKind]) -> u64
    ensures { result ≡ length (filter spec.is_accepted kinds.now) }
{
    kinds.iter().filter(|kind| is_accepted(kind)).count() as u64
}

/// The number of commits that are refused with the refusal of this number.
pub fn refused_count(kinds: &[AnswerKind], number: u8) -> u64
    ensures { result ≡ length (filter (spec.is_refused number) kinds.now) }
{
    kinds.iter().filter(|kind| is_refused(number, kind)).count() as u64
}
