//! A reply from a log stays one while the log goes on.

ghost use Rattle.std.specs.Prelude.{◌++◌, ◌≤◌, ℕ, List, length};
ghost use Rattle.transformations.specs.declared.entry.Entry.{Entry};
ghost use Rattle.catch_up.specs.Replies.{IsReplyFrom, catch_up_reply};
ghost use Rattle.catch_up.specs.declared.message.Reply.{Reply};

/// The reply to a follower is a reply from the log. A reply from a log stays one when entries are added to the log.
#[tactic(auto, using(crate::proofs::KeptReplies::made_now, crate::proofs::KeptReplies::made_before))]
pub fn replies_stay()
    // Promise: a reply is one from the log, and stays one while the log goes on. Guards: law.
    ensures made { (log : List Entry) (since max : ℕ) → since ≤ length log
        → IsReplyFrom log (catch_up_reply log since max) }
    ensures kept { (log more : List Entry) (reply : Reply) → IsReplyFrom log reply
        → IsReplyFrom (log ++ more) reply }
{}
