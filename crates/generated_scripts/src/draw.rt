//! Draws tokens.

ghost use Rattle.std.specs.Prelude.{◌≡◌, ◌<◌, ◌^◌};
ghost use Rattle.generated_scripts.specs.GeneratedLines as spec;

use cluster_terms::Token;

/// All numbers that are drawn are below 2^31.
pub const DRAW_LIMIT: u64 = 2_147_483_648;

/// The number that is drawn after `s`.
pub fn drawn(s: u64) -> u64
    requires { s < 2 ^ 31 }
    ensures is { result ≡ spec.drawn s }
    ensures below { result < 2 ^ 31 }
{
    (s * 1_103_515_245 + 12_345) % DRAW_LIMIT
}

/// The token of a number that was drawn: 8000000000 times the number, less 8589934592000000000. All values on the way
/// are tokens, so nothing overflows.
pub fn drawn_token(s: u64) -> Token
    requires { s < 2 ^ 31 }
    ensures { result ≡ spec.drawn_token s }
{
    Token::new((s as i64 - 1_073_741_824) * 8_000_000_000)
}
