//! Lists in answers: texts separated by commas, or a dash for an empty list.

ghost use Rattle.std.specs.Prelude.{◌≡◌, ◌++◌, codes, take, length, OnOk};
ghost use Rattle.std.specs.List.{flat_map};
ghost use Rattle.script_lang.specs.AnswerTexts as spec;

use crate::shown::Shown;
use cluster_terms::{ByteText, Memory};

/// Adds the texts of the items, separated by commas, or a dash if there are no items. If memory runs out, `out` still
/// begins with its old content.
pub fn list_text<T: Shown>(items: &[T], out: &mut ByteText) -> Result<(), Memory>
    ensures added { OnOk result (out.new ≡ out.old ++ spec.listed T.text items.now) }
    ensures kept { take (length out.old) out.new ≡ out.old }
{
    match items.split_first() {
        None => out.extend(b"-"),
        Some((first, others)) => {
            first.show(out)?;
            add_others(others, out)
        }
    }
}

/// Adds the texts of the items, each after a comma.
fn add_others<T: Shown>(items: &[T], out: &mut ByteText) -> Result<(), Memory>
    ensures added { OnOk result (out.new ≡ out.old ++ flat_map (λ item. codes "," ++ T.text item) items.now) }
    ensures kept { take (length out.old) out.new ≡ out.old }
{
    for item in items {
        out.extend(b",")?;
        item.show(out)?;
    }
    Ok(())
}
