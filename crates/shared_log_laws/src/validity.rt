//! Facts about systems of processes over one shared log.

ghost use Rattle.std.specs.Prelude.{◌≡◌, [], ◌∷◌, ◌++◌, ◌^◌, ◌<◌, ◌≤◌, ℕ, List, Some, IsTrue, length, take};
ghost use Rattle.std.specs.List.{AllByRecursion, Contains};
ghost use Rattle.cluster_terms.specs.Name.{is_name};
ghost use Rattle.transformations.specs.declared.command.Command.{Command};
ghost use Rattle.wire_json.specs.EntryTexts.{entry_text};
ghost use Rattle.script_lang.specs.AnswerTexts.{ok_text};
ghost use Rattle.script_lang.specs.Grammar.{line_of};
ghost use Rattle.script_lang.specs.declared.script_line.ScriptLine.TheVariants.{Commit};
ghost use Rattle.script_session.specs.Machine.{reply};
ghost use Rattle.share_machine.specs.Sharing.{Asked};
ghost use Rattle.transformations.specs.Log.{commands_of};
ghost use Rattle.transformations.specs.declared.entry.Entry.{Entry};
ghost use Rattle.shared_log_laws.specs.Promises.{IsReplyEvent, IsReplyOf, IsStoreEvent, KeepsOrder};
ghost use Rattle.shared_log_laws.specs.SharedLog.{AnswersOnce, FollowersAgree, HasLine, HasLog, IsAhead, IsLinear, IsSharedLog, IsUpTo, PrintsAnswer, RunsShare, SharedQuorumsMeet, StandsAt, StaysIn, WasWhole, one_offer, one_read};
ghost use Rattle.shared_log_laws.specs.System.{Answer, Event, Offer, Process, System, after_events, system_of};

/// After any events the lines of the store are a log of the cluster, and each of its states is valid. What stands in the
/// store stays. Each process knows the log of the store's first lines, and refuses none of them.
pub fn processes_share_one_log()
    // Promise: whatever processes of `share` do, and whatever is lost, repeated or late, the lines of the store are a
    // log of the cluster, and its states are valid images. Guards: law, a_line_is_put_anywhere.edit.
    ensures log { (cluster : List ℕ) (events : List Event) → IsTrue (is_name cluster)
        → IsSharedLog cluster (system_of cluster events).store }
    // Promise: what stands in the store stays at its place. Guards: law.
    ensures stays { (cluster : List ℕ) (events more : List Event)
        → StaysIn (system_of cluster events).store (system_of cluster (events ++ more)).store }
    // Promise: each process knows the log of the store's first lines, asks for the place after them, and refuses none.
    // Guards: law.
    ensures known { (cluster : List ℕ) (events : List Event) (number : ℕ) → IsTrue (is_name cluster)
        → IsUpTo cluster (system_of cluster events).store ((system_of cluster events).processes number) }
{}

/// If a process answers a commit with `OK` and an epoch, the entry of this id and command stands at the epoch's place in
/// the store, then and after any more events. All who commit an id get the same epoch.
pub fn answered_commits_stand()
    // Promise: a commit that any process answers with an epoch has its entry at this epoch's place, then and ever after.
    // Guards: law.
    ensures stands { (cluster : List ℕ) (events more : List Event) (a : Answer) (id : ℕ) (c : Command) (e : ℕ)
        → IsTrue (is_name cluster) → Contains (system_of cluster events).answers a
        → line_of a.line ≡ Some (Commit id c) → e < 2 ^ 64 → a.text ≡ ok_text e
        → StandsAt (system_of cluster (events ++ more)).store e id c }
    // Promise: whoever sends an id how often to whichever process, all who are answered with an epoch get the same.
    // Guards: law.
    ensures once { (cluster : List ℕ) (events : List Event) (a b : Answer) (id : ℕ) (c d : Command) (e f : ℕ)
        → IsTrue (is_name cluster) → Contains (system_of cluster events).answers a
        → Contains (system_of cluster events).answers b → line_of a.line ≡ Some (Commit id c)
        → line_of b.line ≡ Some (Commit id d) → e < 2 ^ 64 → f < 2 ^ 64 → a.text ≡ ok_text e
        → b.text ≡ ok_text f → e ≡ f }
{}

/// Each answer is that of the session machine on a log that was the whole log at some moment between the coming of the
/// script line and its answer. The machine adds nothing there: a refusal and a query change no log, and the entry of an
/// accepted command is in the log already.
///
/// The store grows by one line at a time, so each front of it was the whole store once.
pub fn answers_are_linear()
    // Promise: each answer is the session machine's on the whole log as it was at some moment between the line's coming
    // and its answer. Guards: law, a_reply_is_stale.edit.
    ensures linear { (cluster : List ℕ) (events : List Event) (a : Answer) → IsTrue (is_name cluster)
        → Contains (system_of cluster events).answers a → IsLinear cluster (system_of cluster events).store a }
    ensures moments { (cluster : List ℕ) (events : List Event) (n : ℕ)
        → n ≤ length (system_of cluster events).store → WasWhole cluster events n }
{}

/// A process of the system is `share` over its own input: what it prints is what `share_outcome` prints. Script lines have
/// no line feed.
pub fn processes_run_share()
    // Promise: what a process of the system prints is what `share` prints over the script lines and the replies that
    // came to it. Guards: law.
    ensures runs { (cluster : List ℕ) (events : List Event) (number : ℕ) → IsTrue (is_name cluster)
        → AllByRecursion HasLine events → RunsShare cluster ((system_of cluster events).processes number) }
    ensures answers { (cluster : List ℕ) (events : List Event) (a : Answer) → IsTrue (is_name cluster)
        → AllByRecursion HasLine events → Contains (system_of cluster events).answers a → PrintsAnswer cluster a }
{}

/// The quorums that processes show meet, whichever process showed which: take the answers to one question, at the same
/// epoch, or at an epoch and the next epoch if that is a movement epoch. Each write quorum of one answer has a replica in
/// common with each read quorum of the other. Followers of different processes show the same state for an epoch.
pub fn shared_quorums_meet()
    // Promise: quorums that any two processes show to the same question meet, at one epoch, or at an epoch and the next,
    // a movement epoch. Guards: law.
    ensures meet { (cluster : List ℕ) (events : List Event) (log : List Entry) → IsTrue (is_name cluster)
        → HasLog cluster (system_of cluster events).store log
        → SharedQuorumsMeet (system_of cluster events) (commands_of log) }
    // Promise: followers of different processes never show different states for one epoch. Guards: law.
    ensures followers { (cluster : List ℕ) (events : List Event) → IsTrue (is_name cluster)
        → FollowersAgree (system_of cluster events) }
{}

/// The events are all that a store of order may do: each change that keeps its promises comes by an event, and so does each
/// reply. An offer knew the first lines of the store. So while the store keeps its promises, the line before an offer's
/// place is the one that the offer knew; another one there shows a store that was set back.
pub fn stores_keep_order()
    // Promise: what the store may do by its promises are events of the system. Guards: law.
    ensures puts { (cluster : List ℕ) (s : System) (store' : List (List ℕ)) → KeepsOrder s.offers s.store store'
        → IsStoreEvent cluster s store' }
    ensures replies { (store : List (List ℕ)) (p : Process) (asked : Asked) (lines : List (List ℕ))
        → IsReplyOf store p asked lines → IsReplyEvent store p lines }
    // Promise: what a process knew when it sent an offer are the first lines of the store. Guards: law.
    ensures knew { (cluster : List ℕ) (events : List Event) (o : Offer) → IsTrue (is_name cluster)
        → Contains (system_of cluster events).offers o
        → take (length o.knew) (system_of cluster events).store ≡ o.knew }
{}

/// A process that knows the whole log decides a line once, if no other process comes in between: an accepted command takes
/// one offer, and any other line one read. Then it knows the whole log again.
pub fn lone_processes_offer_once()
    // Promise: if the store answers and no other process acts in between, one offer is enough for an accepted command,
    // and the process knows the whole log again. Guards: law.
    ensures offer { (cluster : List ℕ) (events : List Event) (number : ℕ) (line : List ℕ) (entry : Entry)
        → IsTrue (is_name cluster) → IsAhead (system_of cluster events) number
        → (reply ((system_of cluster events).processes number).sharing.session line).added ≡ entry ∷ []
        → AnswersOnce (system_of cluster events)
        (after_events cluster (system_of cluster events) (one_offer (system_of cluster events) number line)) number
        (reply ((system_of cluster events).processes number).sharing.session line).text (entry_text entry ∷ []) }
    // Promise: a line that adds nothing takes one read and no offer. Guards: law.
    ensures read { (cluster : List ℕ) (events : List Event) (number : ℕ) (line : List ℕ)
        → IsTrue (is_name cluster) → IsAhead (system_of cluster events) number
        → (reply ((system_of cluster events).processes number).sharing.session line).added ≡ []
        → AnswersOnce (system_of cluster events)
        (after_events cluster (system_of cluster events) (one_read number line)) number
        (reply ((system_of cluster events).processes number).sharing.session line).text [] }
{}
