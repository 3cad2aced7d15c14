//! Commands that are admitted with a counter of their own, as scripts, past states and followers need no counter of
//! walks.

ghost use Rattle.std.specs.Prelude.{◌≡◌, ◌<◌, IfOk, IsTrue, OnErr, OnOk};
ghost use Rattle.transformations.specs.History.{is_command, most_epochs, next_image};
ghost use Rattle.transformations.specs.Refusals.{refusal_of};
ghost use Rattle.cluster_metadata.specs.Permission.{AdmitsUnless};

use crate::admit_fault::AdmitFault;
use crate::metadata::Metadata;
use crate::permit::Permit;
use cluster_terms::Steps;
use std::marker::Brand;
use std::sync::ledger::{Blank, Ledger};
use transformations::Command;

/// A permit for a command, or its first refusal, with a counter of the blank's ledger.
fn counted<L: Ledger>(
    metadata: &Metadata,
    command: &Command,
    blank: Blank,
) -> Result<Permit, AdmitFault>
    requires name { blank.name ≡ L.name }
    requires parts { blank.parts ≡ L.parts }
    requires some { 0 < blank.parts }
    requires below_limit { metadata.now.epoch < most_epochs }
    requires formed { IsTrue (is_command command.now) }
    ensures permit { IfOk result (λ permit. permit ≡ record { image = metadata.now; command = command.now }) }
    ensures refusal { AdmitsUnless (refusal_of metadata.now command.now) result }
{
    let mut walks = Steps::<L>::begin(blank);
    metadata.admit(command, &mut walks)
}

impl Metadata {
    /// A permit for a command, as `admit` gives it. Admission counts on a counter of its own.
    ///
    /// Errors and cost: those of `admit`.
    pub fn permit(&self, command: &Command) -> Result<Permit, AdmitFault>
        requires below_limit { self.now.epoch < most_epochs }
        requires formed { IsTrue (is_command command.now) }
        // Promise: a permit that counts on a counter of its own is that of `admit`, and a command that is applied
        // leaves the next image, or the image as it was. Guards: scripts, calls/follower.rt.
        ensures permit { IfOk result (λ permit. permit ≡ record { image = self.now; command = command.now }) }
        ensures refusal { AdmitsUnless (refusal_of self.now command.now) result }
    {
        counted::<Brand>(self, command, Blank::new(1))
    }

    /// Admits a command and enacts it.
    ///
    /// Errors: `Refused` with the first refusal of the command; `Memory` if memory runs out. After an error, the
    /// metadata is unchanged. Cost: that of `admit` and `enact`.
    pub fn apply(&mut self, command: &Command) -> Result<(), AdmitFault>
        requires below_limit { self.old.epoch < most_epochs }
        requires formed { IsTrue (is_command command.now) }
        ensures ok { OnOk result (self.new ≡ next_image self.old command.now) }
        ensures refusal { AdmitsUnless (refusal_of self.old command.now) result }
        ensures err { OnErr result (self.new ≡ self.old) }
    {
        let permit = self.permit(command)?;
        let _epoch = self.enact(permit);
        Ok(())
    }
}
