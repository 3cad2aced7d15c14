//! Answers of one line. Each function adds its answer at the end of `out`. If memory runs out, `out` still begins with
//! its old content.

ghost use Rattle.std.specs.Prelude.{◌≡◌, ◌++◌, codes, decimal, take, length, OnOk};
ghost use Rattle.script_lang.specs.AnswerTexts as spec;

use crate::refusal_texts::refusal_text;
use crate::shown::labelled;
use cluster_terms::{ByteText, Memory};
use transformations::Refusal;

/// Adds `OK epoch`, the answer to a commit that is accepted as this epoch.
pub fn ok_text(epoch: u64, out: &mut ByteText) -> Result<(), Memory>
    ensures added { OnOk result (out.new ≡ out.old ++ spec.ok_text epoch) }
    ensures kept { take (length out.old) out.new ≡ out.old }
{
    labelled(b"OK ", &epoch, out)?;
    out.extend(b"\n")
}

/// Adds `NO reason`, the answer to a line that is refused.
pub fn no_text(reason: &[u8], out: &mut ByteText) -> Result<(), Memory>
    ensures added { OnOk result (out.new ≡ out.old ++ spec.no_text reason.now) }
    ensures kept { take (length out.old) out.new ≡ out.old }
{
    out.extend(b"NO ")?;
    out.extend(reason)?;
    out.extend(b"\n")
}

/// Adds the answer to a command that is refused: `NO` and the text of the refusal.
pub fn refused_text(refusal: &Refusal, out: &mut ByteText) -> Result<(), Memory>
    ensures added { OnOk result (out.new ≡ out.old ++ spec.no_text (spec.refusal_text refusal.now)) }
    ensures kept { take (length out.old) out.new ≡ out.old }
{
    out.extend(b"NO ")?;
    refusal_text(refusal, out)?;
    out.extend(b"\n")
}

/// Adds `NO EPOCH last`, the answer to a query for an epoch after the last epoch.
pub fn no_epoch_text(last: u64, out: &mut ByteText) -> Result<(), Memory>
    ensures added { OnOk result (out.new ≡ out.old ++ spec.no_text (codes "EPOCH " ++ decimal last)) }
    ensures kept { take (length out.old) out.new ≡ out.old }
{
    labelled(b"NO EPOCH ", &last, out)?;
    out.extend(b"\n")
}

/// Adds `WORD epoch`, the answer to a line on a follower.
pub fn epoch_text(word: &[u8], epoch: u64, out: &mut ByteText) -> Result<(), Memory>
    ensures added { OnOk result (out.new ≡ out.old ++ spec.epoch_text word.now epoch) }
    ensures kept { take (length out.old) out.new ≡ out.old }
{
    out.extend(word)?;
    labelled(b" ", &epoch, out)?;
    out.extend(b"\n")
}

/// Adds `REPLY number word epoch`.
fn start_text(number: u64, word: &[u8], epoch: u64, out: &mut ByteText) -> Result<(), Memory>
    ensures added { OnOk result (out.new
        ≡ out.old ++ (codes "REPLY " ++ decimal number ++ codes " " ++ word.now ++ codes " " ++ decimal epoch)) }
    ensures kept { take (length out.old) out.new ≡ out.old }
{
    labelled(b"REPLY ", &number, out)?;
    out.extend(b" ")?;
    out.extend(word)?;
    labelled(b" ", &epoch, out)
}

/// Adds ` entries count`, and ends the line.
fn count_text(count: u64, out: &mut ByteText) -> Result<(), Memory>
    ensures added { OnOk result (out.new ≡ out.old ++ spec.line (codes " entries " ++ decimal count)) }
    ensures kept { take (length out.old) out.new ≡ out.old }
{
    labelled(b" entries ", &count, out)?;
    out.extend(b"\n")
}

/// Adds `REPLY number word epoch entries count`, the answer to a follower that asks for a reply. The word tells what
/// the reply starts from: `image`, the image of the epoch, or `since`, the epoch asked from.
pub fn reply_text(
    number: u64,
    word: &[u8],
    epoch: u64,
    count: u64,
    out: &mut ByteText,
) -> Result<(), Memory>
    ensures added { OnOk result (out.new ≡ out.old ++ spec.reply_text number word.now epoch count) }
    ensures kept { take (length out.old) out.new ≡ out.old }
{
    start_text(number, word, epoch, out)?;
    count_text(count, out)
}

/// Adds `NO REPLY last`, the answer to a line that gives a reply whose number isn't that of any reply; `last` is the
/// number of the last reply, or 0.
pub fn no_reply_text(last: u64, out: &mut ByteText) -> Result<(), Memory>
    ensures added { OnOk result (out.new ≡ out.old ++ spec.no_text (codes "REPLY " ++ decimal last)) }
    ensures kept { take (length out.old) out.new ≡ out.old }
{
    labelled(b"NO REPLY ", &last, out)?;
    out.extend(b"\n")
}
