//! Lines on the replies to followers: a follower asks for one, or is given one.

ghost use Rattle.std.specs.Prelude.{◌≡◌, ◌++◌, ◌∷◌, ◌≤◌, [], codes, decimal, length, take, None, IfOk, MatchResult, OnOk};
ghost use Rattle.std.specs.Option.{option_copied};
ghost use Rattle.catch_up.specs.Replies.{catch_up_reply};
ghost use Rattle.script_lang.specs.AnswerTexts.{no_text};
ghost use Rattle.script_session.specs.Machine as machine;
ghost use Rattle.script_session.specs.Machine.{ask_of, asked_text, give_to, on_follower};
ghost use Rattle.script_session.specs.code.StepParts.{Alone, OnlyAnswers, session_at};

use super::handing_over::give_reply;
use super::{Session, refuse_line};
use crate::fault::StepFault;
use crate::session::followers::{follower_named, place_of};
use catch_up::{Reply, base, reply};
use cluster_terms::{ByteText, Memory, Name};
use script_lang::{epoch_text, no_reply_text, reply_text};

/// The most replies of a session.
const MOST_REPLIES: usize = 64;

/// The reply with a number; the first one has number 1. Returns `None` if and only if there is none.
fn reply_numbered(replies: &[Reply], number: u64) -> Option<&Reply>
    ensures { option_copied result ≡ machine.reply_numbered replies.now number }
{
    let place = usize::try_from(number).ok()?.checked_sub(1)?;
    replies.get(place)
}

/// Adds the answer to a follower that asked for this reply. If memory runs out, `out` still begins with its old
/// content.
fn add_asked(number: u64, made: &Reply, out: &mut ByteText) -> Result<(), Memory>
    ensures text { OnOk result (out.new ≡ out.old ++ asked_text number made.now) }
    ensures kept { take (length out.old) out.new ≡ out.old }
{
    let count = made.entries.as_slice().len() as u64;
    match &made.image {
        None => reply_text(number, b"since", made.since, count, out),
        Some(image) => reply_text(number, b"image", image.epoch, count, out),
    }
}

/// Keeps a reply as the last one. If memory runs out, it isn't kept.
fn keep_reply(replies: &mut Vec<Reply>, made: Reply) -> Result<(), Memory>
    ensures { MatchResult result (λ _. replies.new.items ≡ replies.old.items ++ made ∷ [])
        (λ _. replies.new.items ≡ replies.old.items) }
{
    replies.push(made)?;
    Ok(())
}

/// Answers a line that gives a reply whose number isn't that of any reply; `last` is the number of the last reply.
fn past_last_reply(last: u64, out: &mut ByteText) -> Result<(), StepFault>
    ensures only { OnlyAnswers (no_text (codes "REPLY " ++ decimal last)) out.old out.new result }
{
    no_reply_text(last, out)?;
    Ok(())
}

impl Session {
    /// Makes the reply to the follower with this name, which asks for at most `max` entries, 1 to 1,024, and keeps it
    /// as the last reply, unless there are 64 replies.
    pub(crate) fn ask(&mut self, name: &Name, max: u64, out: &mut ByteText) -> Result<(), StepFault>
        requires { (1 ≤ max) × (max ≤ 1024) }
        ensures steps { Alone None (on_follower self.old name.now (ask_of self.old max))
            (session_at self.old out.old) (session_at self.new out.new) result }
    {
        let Some(named) = follower_named(&self.followers, name.as_str()) else {
            return refuse_line(b"FOLLOWER", out);
        };
        let since = named.follower.epoch();
        if self.replies.len() >= MOST_REPLIES {
            return refuse_line(b"REPLIES-FULL", out);
        }
        let made = self.reply_since(since, max)?;
        add_asked(self.replies.len() as u64 + 1, &made, out)?;
        keep_reply(&mut self.replies, made)?;
        Ok(())
    }

    /// The reply to a follower at epoch `since` that asks for at most `max` entries, 1 to 1,024.
    fn reply_since(&self, since: u64, max: u64) -> Result<Reply, Memory>
        requires since { since ≤ length self.now.log }
        requires bounded { (1 ≤ max) × (max ≤ 1024) }
        ensures { IfOk result (λ made. made ≡ catch_up_reply self.now.log since max) }
    {
        let image = match base(self.log.last_epoch(), since, max) {
            Some(epoch) => Some(self.image_at(epoch)?),
            None => None,
        };
        match reply(self.alloc, &self.log, since, max, image) {
            Ok(made) => Ok(made),
            Err((_image, memory)) => Err(memory),
        }
    }

    /// Gives the reply with a number to the follower with this name, and answers with the epoch that the follower
    /// reaches. The reply is handed over as `snapshot` and `deliver` do it. The answer is the epoch alone, as the
    /// follower asks again from it.
    pub(crate) fn give(
        &mut self,
        name: &Name,
        number: u64,
        out: &mut ByteText,
    ) -> Result<(), StepFault>
        ensures steps { Alone (machine.follower_named self.old.followers name.now)
            (on_follower self.old name.now
            (λ f. give_to self.old name.now f (machine.reply_numbered self.old.replies number)))
            (session_at self.old out.old) (session_at self.new out.new) result }
    {
        let Some(place) = place_of(&self.followers, name) else {
            return refuse_line(b"FOLLOWER", out);
        };
        let Some(given) = reply_numbered(&self.replies, number) else {
            return past_last_reply(self.replies.len() as u64, out);
        };
        let named = &mut self.followers[place];
        give_reply(&self.log, &self.metadata, &mut named.follower, given)?;
        epoch_text(b"AT", named.follower.epoch(), out)?;
        Ok(())
    }
}
