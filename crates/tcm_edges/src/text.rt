ghost use Rattle.std.specs.Prelude.{◌≡◌, IfOk};

use cluster_terms::{ByteText, Memory};
use std::alloc::Global;

/// A copy of the bytes.
pub(crate) fn text_of(alloc: Global, bytes: &[u8]) -> Result<ByteText, Memory>
    ensures { IfOk result (λ text. text ≡ bytes.now) }
{
    let mut text = ByteText::empty(alloc);
    text.extend(bytes)?;
    Ok(text)
}
