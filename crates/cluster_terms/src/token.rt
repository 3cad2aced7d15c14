ghost use Rattle.std.specs.Prelude.{◌≡◌, IfOk};
ghost use Rattle.cluster_terms.specs.Arc.{IsToken};
ghost use Rattle.cluster_terms.specs.Row as spec;

use crate::list::TryCopy;
use crate::memory::Memory;
use crate::node::NodeId;
use std::marker::Model;

/// A place on the ring of the Murmur3 partitioner: a whole number from -2^63 to 2^63 - 1.
#[derive(Clone, Copy, Debug, PartialEq, Eq, PartialOrd, Ord)]
pub struct Token {
    value: i64,
}

impl Model for Token {
    ghost use Rattle.std.specs.Prelude.{ℤ};

    ghost Value = { ℤ };

    ghost view = { λ t. t.value };

    ghost inverse = { λ z. record { value = z } };
}

impl Token {
    /// The token with this number. Every `i64` is a token.
    pub fn new(v: i64) -> Token
        ensures { result ≡ v }
    {
        Token { value: v }
    }

    /// The token's number.
    pub fn value(self) -> i64
        ensures { result ≡ self }
    {
        self.value
    }
}

impl TryCopy for Token {
    fn copy(&self) -> Result<Token, Memory>
        ensures copied { IfOk result (λ copied. copied ≡ self.now) }
        ensures token { IsToken self.now }
    {
        Ok(Token { value: self.value })
    }
}

/// A token and the node that has it.
#[derive(Clone, Copy, Debug, PartialEq, Eq)]
pub struct Pair {
    pub token: Token,
    pub node: NodeId,
}

impl TryCopy for Pair {
    fn copy(&self) -> Result<Pair, Memory> {
        Ok(*self)
    }
}

/// The right end of a range: a token, or the place past the greatest token.
#[derive(Clone, Copy, Debug, PartialEq, Eq)]
pub enum RightEnd {
    /// This token, which is in the range.
    At(Token),
    /// Past the greatest token, which is in the range.
    Max,
}

impl RightEnd {
    /// The last token of a range with this right end. It is 2^63 - 1 if the right end is `Max`.
    pub fn last_token(self) -> Token
        // Promise: the last token of a range with a right end. Guards: scripts.
        ensures { result ≡ spec.last_token self }
    {
        match self {
            RightEnd::At(token) => token,
            RightEnd::Max => Token::new(i64::MAX),
        }
    }
}
