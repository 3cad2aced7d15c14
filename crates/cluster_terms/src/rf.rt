ghost use Rattle.std.specs.Prelude.{◌++◌, MatchResult, decimal, ◌≡◌, ◌↔◌, ◌≤◌, IfOk, IfSome, IsSome};
ghost use Rattle.cluster_terms.specs.Rf.{IsFactor, factor_of};

use crate::list::{ByteText, TryCopy};
use crate::memory::Memory;
use std::marker::Model;

/// A replication factor: the number of replicas asked for, from 1 to 16.
#[derive(Clone, Copy, Debug, PartialEq, Eq, PartialOrd, Ord)]
pub struct Rf {
    value: u8,
}

impl Model for Rf {
    ghost use Rattle.std.specs.Prelude.{ℕ, ◌≤◌};

    ghost Value = { ℕ };

    ghost view = { λ rf. rf.value };

    ghost invariant = { λ rf. (1 ≤ rf.value) × (rf.value ≤ 16) };

    ghost inverse = { λ n. record { value = n } };
}

impl Rf {
    /// The factor with this number. Returns `None` if and only if the number is not from 1 to 16.
    pub fn new(n: u8) -> Option<Rf>
        // Promise: a factor is 1 to 16. Guards: tried.
        ensures valid { IsSome result ↔ ((1 ≤ n) × (n ≤ 16)) }
        ensures value { IfSome result (λ rf. rf ≡ n) }
    {
        if 1 <= n && n <= 16 {
            Some(Rf { value: n })
        } else {
            None
        }
    }

    /// Parses a number from 1 to 16 in decimal digits, without a leading zero. Returns `None` for any other text.
    #[tactic(auto, using(crate::proofs::texts::FactorTexts::no_factor))]
    pub fn from_text(text: &[u8]) -> Option<Rf>
        ensures { result ≡ factor_of text.now }
    {
        match text {
            [digit @ b'1'..=b'9'] => Some(Rf {
                value: digit - b'0',
            }),
            [b'1', digit @ b'0'..=b'6'] => Some(Rf {
                value: 10 + (digit - b'0'),
            }),
            _ => None,
        }
    }

    /// Appends the factor in decimal digits. If memory runs out, leaves `out` unchanged.
    #[tactic(auto, using(crate::proofs::texts::FactorTexts::two_digits, std::proofs::lemmas::Fmt::decimal_digit))]
    pub fn write(self, out: &mut ByteText) -> Result<(), Memory>
        ensures text { MatchResult result (λ _. out.new ≡ out.old ++ decimal self) (λ _. out.new ≡ out.old) }
        ensures valid { IsFactor self }
    {
        let n = self.value();
        if n < 10 {
            out.extend(&[b'0' + n])
        } else {
            out.extend(&[b'1', b'0' + (n - 10)])
        }
    }

    /// The factor's number, from 1 to 16.
    pub fn value(self) -> u8
        ensures value { result ≡ self }
        ensures low { 1 ≤ result }
        ensures high { result ≤ 16 }
    {
        self.value
    }
}

impl TryCopy for Rf {
    fn copy(&self) -> Result<Rf, Memory>
        ensures copied { IfOk result (λ copied. copied ≡ self.now) }
        ensures low { 1 ≤ self.now }
        ensures high { self.now ≤ 16 }
    {
        Ok(Rf { value: self.value })
    }
}
