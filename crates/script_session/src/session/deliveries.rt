//! Lines that make a follower, or hand it an entry of the log or an image of it.

ghost use Rattle.std.specs.Prelude.{◌≡◌, ◌≤◌, length, None, IfOk};
ghost use Rattle.epoch_log.specs.Epochs.{entry_at};
ghost use Rattle.transformations.specs.History.{state_after};
ghost use Rattle.transformations.specs.Log.{commands_of};
ghost use Rattle.script_session.specs.Machine.{deliver_to, follower_named, follower_reply, image_at, on_follower, snapshot_to};
ghost use Rattle.script_session.specs.code.StepParts.{Alone, session_at};

use super::handing_over::hand_over;
use super::{Session, past_last, refuse_line};
use crate::fault::StepFault;
use crate::session::followers::{MOST_FOLLOWERS, add_follower, answer_handed, is_taken, place_of};
use cluster_terms::{ByteText, Memory, Name};
use script_lang::epoch_text;
use transformations::Image;

impl Session {
    /// Makes a follower at epoch 0, unless its name is taken or there are 16 followers.
    pub(crate) fn make_follower(&mut self, name: Name, out: &mut ByteText) -> Result<(), StepFault>
        ensures steps { Alone None (follower_reply self.old name) (session_at self.old out.old) (session_at self.new out.new) result }
    {
        if is_taken(&self.followers, name.as_str()) {
            return refuse_line(b"FOLLOWER-TAKEN", out);
        }
        if self.followers.len() >= MOST_FOLLOWERS {
            return refuse_line(b"FOLLOWERS-FULL", out);
        }
        // The answer is made first, so without memory for it no follower is made.
        epoch_text(b"AT", 0, out)?;
        add_follower(self.alloc, &mut self.followers, name)?;
        Ok(())
    }

    /// Hands the log's entry of an epoch to the follower with this name, and answers what became of it. The answer is
    /// made after the follower acted. Without memory the follower is where the line led it, or on the way, and the run
    /// ends; `LeavesSession` has both.
    pub(crate) fn deliver(
        &mut self,
        name: &Name,
        epoch: u64,
        out: &mut ByteText,
    ) -> Result<(), StepFault>
        ensures steps { Alone (follower_named self.old.followers name.now)
            (on_follower self.old name.now
            (λ f. deliver_to self.old name.now f (entry_at self.old.log epoch)))
            (session_at self.old out.old) (session_at self.new out.new) result }
    {
        let Some(place) = place_of(&self.followers, name) else {
            return refuse_line(b"FOLLOWER", out);
        };
        let Some(entry) = self.log.entry(epoch) else {
            return past_last(self.log.last_epoch(), out);
        };
        let named = &mut self.followers[place];
        answer_handed(
            hand_over(&self.log, &self.metadata, &mut named.follower, entry),
            out,
        )
    }

    /// Hands the image of an epoch to the follower with this name, and answers what became of it. The follower acts
    /// before the answer is made, as in `deliver`.
    pub(crate) fn snapshot(
        &mut self,
        name: &Name,
        epoch: u64,
        out: &mut ByteText,
    ) -> Result<(), StepFault>
        ensures steps { Alone (follower_named self.old.followers name.now)
            (on_follower self.old name.now
            (λ f. snapshot_to self.old name.now f (image_at (commands_of self.old.log) epoch)))
            (session_at self.old out.old) (session_at self.new out.new) result }
    {
        let Some(place) = place_of(&self.followers, name) else {
            return refuse_line(b"FOLLOWER", out);
        };
        let last = self.log.last_epoch();
        if epoch > last {
            return past_last(last, out);
        }
        let image = self.image_at(epoch)?;
        let named = &mut self.followers[place];
        answer_handed(named.follower.snapshot(image), out)
    }

    /// The image of an epoch of the log.
    pub fn image_at(&self, epoch: u64) -> Result<Image, Memory>
        requires { epoch ≤ length self.now.log }
        ensures { IfOk result (λ image. image ≡ state_after (commands_of self.now.log) epoch) }
    {
        if epoch == self.log.last_epoch() {
            return self.metadata.image();
        }
        self.snapshots.image_at(&self.log, epoch)
    }
}
