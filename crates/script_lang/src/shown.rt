//! The texts of single values: numbers, names, tokens, pairs, and the words of states, kinds and phases.

ghost use Rattle.std.specs.Prelude.{◌≡◌, ◌++◌, ℕ, List, decimal, take, length, OnOk};
ghost use Rattle.std.specs.Fmt.{signed_decimal};
ghost use Rattle.transformations.specs.Words.{movement_word, phase_word};
ghost use Rattle.script_lang.specs.AnswerTexts as spec;

use cluster_terms::{ByteText, Memory, Name, NodeId, Pair, RightEnd, Token};
use itoa::Buffer;
use transformations::{BadImage, Kind, NodeState, Phase};

/// A value that has exactly one text in answers.
pub trait Shown {
    ghost text: { Self → List ℕ };

    /// Adds the text of the value. If memory runs out, `out` still begins with its old content.
    fn show(&self, out: &mut ByteText) -> Result<(), Memory>
        ensures added { OnOk result (out.new ≡ out.old ++ text self.now) }
        // Promise: whatever the result, the output begins with what it held. Guards: tried.
        ensures kept { take (length out.old) out.new ≡ out.old };
}

/// Adds a label and the text of a value. If memory runs out, `out` still begins with its old content.
#[inline(always)]
pub fn labelled<T: Shown>(label: &[u8], item: &T, out: &mut ByteText) -> Result<(), Memory>
    ensures added { OnOk result (out.new ≡ out.old ++ (label.now ++ T.text item.now)) }
    ensures kept { take (length out.old) out.new ≡ out.old }
{
    out.extend(label)?;
    item.show(out)
}

impl Shown for u32 {
    ghost text = { decimal };

    fn show(&self, out: &mut ByteText) -> Result<(), Memory> {
        out.extend(Buffer::new().format(*self).as_bytes())
    }
}

impl Shown for u64 {
    ghost text = { decimal };

    #[inline(always)]
    fn show(&self, out: &mut ByteText) -> Result<(), Memory> {
        out.extend(Buffer::new().format(*self).as_bytes())
    }
}

impl Shown for NodeId {
    ghost text = { decimal };

    #[inline(always)]
    fn show(&self, out: &mut ByteText) -> Result<(), Memory> {
        out.extend(Buffer::new().format(self.0).as_bytes())
    }
}

impl Shown for Token {
    ghost text = { signed_decimal };

    #[inline(always)]
    fn show(&self, out: &mut ByteText) -> Result<(), Memory> {
        out.extend(Buffer::new().format(self.value()).as_bytes())
    }
}

impl Shown for Name {
    ghost text = { λ name. name };

    fn show(&self, out: &mut ByteText) -> Result<(), Memory> {
        out.extend(self.as_str().as_bytes())
    }
}

impl Shown for Pair {
    ghost text = { spec.pair_text };

    fn show(&self, out: &mut ByteText) -> Result<(), Memory> {
        self.token.show(out)?;
        out.extend(b"@")?;
        self.node.show(out)
    }
}

impl Shown for RightEnd {
    ghost text = { spec.right_text };

    fn show(&self, out: &mut ByteText) -> Result<(), Memory> {
        match self {
            RightEnd::At(token) => token.show(out),
            RightEnd::Max => out.extend(b"max"),
        }
    }
}

impl Shown for (NodeId, RightEnd) {
    ghost text = { spec.locked_text };

    fn show(&self, out: &mut ByteText) -> Result<(), Memory> {
        self.0.show(out)?;
        out.extend(b" ")?;
        self.1.show(out)
    }
}

impl Shown for NodeState {
    ghost text = { spec.state_text };

    fn show(&self, out: &mut ByteText) -> Result<(), Memory> {
        match self {
            NodeState::Left => out.extend(b"LEFT"),
            NodeState::Bootstrapping => out.extend(b"BOOTSTRAPPING"),
            NodeState::Moving => out.extend(b"MOVING"),
            NodeState::Leaving => out.extend(b"LEAVING"),
            NodeState::BootReplacing => out.extend(b"BOOT_REPLACING"),
            NodeState::Joined => out.extend(b"JOINED"),
            NodeState::Registered => out.extend(b"REGISTERED"),
        }
    }
}

impl Shown for Kind {
    ghost text = { movement_word };

    fn show(&self, out: &mut ByteText) -> Result<(), Memory> {
        match self {
            Kind::Join => out.extend(b"join"),
            Kind::Move => out.extend(b"move"),
            Kind::Leave => out.extend(b"leave"),
            Kind::Replace => out.extend(b"replace"),
        }
    }
}

impl Shown for Phase {
    ghost text = { phase_word };

    fn show(&self, out: &mut ByteText) -> Result<(), Memory> {
        match self {
            Phase::Prepared => out.extend(b"PREPARED"),
            Phase::Started => out.extend(b"STARTED"),
            Phase::Mid => out.extend(b"MID"),
        }
    }
}

// The rule that an image breaks, and its value.
impl Shown for BadImage {
    ghost text = { spec.bad_image_text };

    fn show(&self, out: &mut ByteText) -> Result<(), Memory> {
        u64::from(self.rule).show(out)?;
        out.extend(b" ")?;
        out.extend(Buffer::new().format(self.value).as_bytes())
    }
}

// The kind and the phase of a movement.
impl Shown for (Kind, Phase) {
    ghost text = { spec.progress_text };

    fn show(&self, out: &mut ByteText) -> Result<(), Memory> {
        self.0.show(out)?;
        labelled(b" ", &self.1, out)
    }
}
