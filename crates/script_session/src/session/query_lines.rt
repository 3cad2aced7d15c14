//! Queries of a past epoch, the last one, or a follower.

ghost use Rattle.std.specs.Prelude.{◌≡◌, ◌≤◌, ◌++◌, length, take, OnOk, IfOk};
ghost use Rattle.transformations.specs.History.{state_after};
ghost use Rattle.transformations.specs.Log.{commands_of};
ghost use Rattle.script_session.specs.Machine as machine;
ghost use Rattle.script_session.specs.Machine.{image_at, image_named, image_of, query_text};
ghost use Rattle.script_session.specs.code.StepParts.{OnlyAnswers};

use super::Session;
use crate::fault::StepFault;
use crate::session::followers::follower_named;
use crate::session::query::{Query, answer_from};
use cluster_metadata::Metadata;
use cluster_terms::{ByteText, Memory, Name};
use script_lang::{Target, no_epoch_text, no_text};

impl Session {
    /// Answers a query, as `step` does.
    pub(crate) fn answer_query(
        &self,
        target: Target,
        query: Query,
        out: &mut ByteText,
    ) -> Result<(), StepFault>
        ensures only { OnlyAnswers (query_text (image_of self.now target) query) out.old out.new result }
    {
        match target {
            Target::Epoch(epoch) => self.query(epoch, query, out)?,
            Target::Named(name) => self.query_follower(&name, query, out)?,
        }
        Ok(())
    }

    /// Answers a query from the image of a follower. If memory runs out, `out` still begins with its old content.
    fn query_follower(&self, name: &Name, query: Query, out: &mut ByteText) -> Result<(), Memory>
        ensures text { OnOk result (out.new
            ≡ out.old ++ query_text (image_named (machine.follower_named self.now.followers name.now)) query) }
        ensures kept { take (length out.old) out.new ≡ out.old }
    {
        match follower_named(&self.followers, name.as_str()) {
            Some(named) => answer_from(self.alloc, named.follower.metadata(), &query, out),
            None => no_text(b"FOLLOWER", out),
        }
    }

    /// Answers a query from the metadata at an epoch. If memory runs out, `out` still begins with its old content.
    ///
    /// Cost: the metadata at the last epoch is kept. The metadata at an earlier epoch costs as `Snapshots::state_at`
    /// says.
    fn query(&self, epoch: u64, query: Query, out: &mut ByteText) -> Result<(), Memory>
        ensures text { OnOk result (out.new
            ≡ out.old ++ query_text (image_at (commands_of self.now.log) epoch) query) }
        ensures kept { take (length out.old) out.new ≡ out.old }
    {
        let last = self.log.last_epoch();
        if epoch > last {
            return no_epoch_text(last, out);
        }
        if epoch == last {
            return answer_from(self.alloc, &self.metadata, &query, out);
        }
        let metadata = self.metadata_at(epoch)?;
        let answered = answer_from(self.alloc, &metadata, &query, out);
        metadata.close();
        answered
    }

    /// The metadata at an epoch of the log.
    pub fn metadata_at(&self, epoch: u64) -> Result<Metadata, Memory>
        requires { epoch ≤ length self.now.log }
        ensures { IfOk result (λ metadata. metadata ≡ state_after (commands_of self.now.log) epoch) }
    {
        self.snapshots.state_at(&self.log, epoch)
    }
}
