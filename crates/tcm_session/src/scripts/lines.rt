//! Cuts the pieces of a script into lines, and keeps the line that has begun.

ghost use Rattle.std.specs.Prelude.{◌≡◌, ◌∷◌, ◌++◌, length, IfNone, IfSome, OnErr, OnOk};
ghost use Rattle.script_session.specs.Lines.{HasNoFeed};
ghost use Rattle.tcm_session.specs.code.Runs.{IsBegun, kept_of};

use cluster_terms::Memory;
use memchr::memchr;

/// The most bytes that are kept of a line that has begun: one more than a line may have, so a line that is too long
/// stays too long, and its answer is the same (`reply-kept`).
const MOST_KEPT: usize = 16_385;

/// The bytes before the first line feed, and the bytes after it. Returns `None` if and only if there is no line feed.
pub fn cut_line(bytes: &[u8]) -> Option<(&[u8], &[u8])>
    ensures none { IfNone result (HasNoFeed bytes.now) }
    ensures some { IfSome result (λ cut. HasNoFeed cut.0.now × (bytes.now ≡ cut.0.now ++ 10 ∷ cut.1.now)) }
{
    let at = memchr(b'\n', bytes)?;
    Some((&bytes[..at], &bytes[at + 1..]))
}

/// Adds bytes to what is kept of a line that has begun. The bytes past the most that are kept are passed over. If
/// memory runs out, `begun` is unchanged.
pub fn keep_begun(begun: &mut Vec<u8>, bytes: &[u8]) -> Result<(), Memory>
    requires { IsBegun begun.old.items }
    // Promise: of a line that has begun at most 16,385 bytes are kept. Guards: lines.rt, by hand.
    ensures ok { OnOk result (begun.new.items ≡ kept_of (begun.old.items ++ bytes.now)) }
    ensures err { OnErr result (begun.new.items ≡ begun.old.items) }
{
    let room = MOST_KEPT - begun.len();
    let kept = room.min(bytes.len());
    begun.extend_from_slice(&bytes[..kept])?;
    Ok(())
}
