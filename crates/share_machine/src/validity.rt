//! Facts about one process of `share`, whatever comes to it.

ghost use Rattle.std.specs.Prelude.{◌≡◌, ◌≢◌, ℕ, false, List, Some, Err};
ghost use Rattle.script_session.specs.LogFiles.{header_cause};
ghost use Rattle.script_session.specs.declared.refused_line.Cause.{Cause};
ghost use Rattle.share_machine.specs.Sharing.{Asked, Nothing, PutEntry, Script, Sharing, Stands, once_told, taken_over, told_end, turn_of};

/// A script line of `share` first comes to a request to the store. It isn't answered yet, and nothing changes that the
/// process knows. An offer stands only if the reply begins with its line, and a reply without a line ends the process. A
/// header that is refused isn't taken over.
pub fn entries_wait_for_the_store()
    // Promise: a script line of `share` first comes to a request, and changes nothing that the process knows. Guards:
    // law, no_without_a_read.edit, a_lost_entry_stays.edit.
    ensures asks { (cluster : List ℕ) (s : Sharing) (bytes : List ℕ) → s.waits ≡ Script
        → (turn_of cluster s bytes).after.waits ≢ Script }
    ensures knows { (cluster : List ℕ) (s : Sharing) (bytes : List ℕ) → s.waits ≡ Script
        → (turn_of cluster s bytes).after.session ≡ s.session }
    // Promise: an offer stands only if the reply begins with the offered line. Guards: law,
    // ok_before_the_line_stands.edit.
    ensures stands { (text answer first : List ℕ) → once_told (PutEntry text answer) first ≡ Stands answer → text ≡ first }
    // Promise: a reply to an offer that has no line ends the process, and the offer is taken neither for lost nor for
    // put. Guards: law, unknown_taken_for_put.edit, unknown_taken_for_lost.edit.
    ensures unknown { (cluster : List ℕ) (s : Sharing) (line text answer : List ℕ)
        → (told_end cluster s line (PutEntry text answer)).after.waits ≡ Nothing }
    // Promise: a header that a log file of the cluster may not have is refused. Guards: law,
    // another_header_is_taken.edit.
    ensures header { (cluster : List ℕ) (s : Sharing) (text : List ℕ) (cause : Cause) → s.headed ≡ false
        → header_cause (Some cluster) text ≡ Some cause → taken_over cluster s text ≡ Err cause }
{}
