ghost use Rattle.std.specs.Prelude.{◌⊎◌, ◌<ℤ◌, ◌≤ℤ◌, IsFalse, IsTrue};

use cluster_terms::Token;

/// Tokens at which a delta changes nothing: those from `first` up to `last`.
#[derive(Clone, Copy, Debug)]
pub struct Unchanged {
    pub first: Token,
    pub last: Token,
}

impl Unchanged {
    /// Whether a token is one of these.
    pub fn has(self, t: Token) -> bool
        ensures within { IsTrue result → (self.first ≤ℤ t) × (t ≤ℤ self.last) }
        ensures beyond { IsFalse result → (t <ℤ self.first) ⊎ (self.last <ℤ t) }
    {
        self.first <= t && t <= self.last
    }
}
