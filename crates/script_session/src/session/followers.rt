//! The followers of a session, and what they are handed.

ghost use Rattle.std.specs.Prelude.{◌≡◌, ◌++◌, ◌∷◌, [], codes, is_some, length, position, take, Ok, IfOk, OnErr, OnOk};
ghost use Rattle.std.specs.Option.{option_copied};
ghost use Rattle.std.specs.Str.{bytes_eq};
ghost use Rattle.script_lang.specs.AnswerTexts as spec;
ghost use Rattle.script_session.specs.Machine.{handed_text, new_follower};
ghost use Rattle.script_session.specs.Machine as machine;
ghost use Rattle.script_session.specs.code.StepParts.{AnswersHanded, IsOfOneLog};

use crate::fault::StepFault;
use cluster_terms::{ByteText, Memory, Name};
use follower_log::{Follower, FollowerFault, Took};
use script_lang::epoch_text;
use std::alloc::Global;

/// The most followers of a session. They are so few that one is found by a look at one after another.
pub const MOST_FOLLOWERS: usize = 16;

/// A follower and its name.
pub struct NamedFollower {
    pub name: Name,
    pub follower: Follower,
}

/// The position of the first follower with this name. Returns `None` if and only if there is none.
pub fn place_of(followers: &[NamedFollower], name: &Name) -> Option<usize>
    ensures { result ≡ position (λ f. bytes_eq f.name name.now) followers.now }
{
    followers
        .iter()
        .position(|f| f.name.as_str() == name.as_str())
}

/// The first follower with this name.
pub fn follower_named<'a>(followers: &'a [NamedFollower], name: &str) -> Option<&'a NamedFollower>
    ensures { option_copied result ≡ machine.follower_named followers.now name.now }
{
    followers.iter().find(|f| f.name.as_str() == name)
}

/// Whether a follower has this name.
pub fn is_taken(followers: &[NamedFollower], name: &str) -> bool
    ensures { result ≡ is_some (machine.follower_named followers.now name.now) }
{
    match follower_named(followers, name) {
        Some(_named) => true,
        None => false,
    }
}

/// The epoch of the first follower with this name, or 0 if there is none.
pub fn epoch_of(followers: &[NamedFollower], name: &str) -> u64
    ensures { result ≡ machine.epoch_of_follower (machine.follower_named followers.now name.now) }
{
    match follower_named(followers, name) {
        Some(f) => f.follower.epoch(),
        None => 0,
    }
}

/// Adds a follower at epoch 0. If memory runs out, none is added.
pub fn add_follower(
    alloc: Global,
    followers: &mut Vec<NamedFollower>,
    name: Name,
) -> Result<(), Memory>
    ensures ok { OnOk result (followers.new.items ≡ followers.old.items ++ new_follower name ∷ []) }
    ensures err { OnErr result (followers.new.items ≡ followers.old.items) }
{
    let follower = Follower::empty(alloc)?;
    match followers.push(NamedFollower { name, follower }) {
        Ok(()) => Ok(()),
        Err(failed) => {
            let NamedFollower { name: _, follower } = failed.value;
            follower.close();
            Err(Memory)
        }
    }
}

/// Adds the answer to what a follower took. If memory runs out, `out` still begins with its old content.
fn took_text(took: Took, out: &mut ByteText) -> Result<(), Memory>
    ensures text { OnOk result (out.new ≡ out.old ++ handed_text (Ok took)) }
    ensures kept { take (length out.old) out.new ≡ out.old }
{
    match took {
        Took::At(epoch) => epoch_text(b"AT", epoch, out),
        Took::Old(epoch) => epoch_text(b"OLD", epoch, out),
        Took::Held(epoch) => epoch_text(b"HELD", epoch, out),
        Took::Full(epoch) => epoch_text(b"FULL", epoch, out),
    }
}

/// What became of what a follower was handed, if memory didn't run out. A session hands over what its log says, so a
/// fork, a refusal and a bad image don't come: they come in replays alone.
pub fn taken(handed: Result<Took, FollowerFault>) -> Result<Took, Memory>
    requires { IsOfOneLog handed }
    ensures { IfOk result (λ took. handed ≡ Ok took) }
{
    match handed {
        Ok(took) => Ok(took),
        Err(FollowerFault::Memory) => Err(Memory),
        Err(FollowerFault::MemoryAt(_)) => Err(Memory),
        Err(FollowerFault::Fork(_, _, _)) => unreachable!(),
        Err(FollowerFault::Refused(_, _)) => unreachable!(),
        Err(FollowerFault::BadImage(_)) => unreachable!(),
    }
}

/// Answers a line that handed something to a follower, with what became of it.
pub fn answer_handed(
    handed: Result<Took, FollowerFault>,
    out: &mut ByteText,
) -> Result<(), StepFault>
    requires { IsOfOneLog handed }
    ensures { AnswersHanded handed out.old out.new result }
{
    let took = taken(handed)?;
    took_text(took, out)?;
    Ok(())
}

/// Consumes the followers.
pub fn close_followers(mut followers: Vec<NamedFollower>) {
    while let Some(named) = followers.pop() {
        let NamedFollower { name: _, follower } = named;
        follower.close();
    }
    followers.destroy_empty();
}
