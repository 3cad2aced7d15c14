//! Facts about the definitions of a session: the lines of an input, the quorums in answers, what followers show, and
//! where replies lead.

ghost use Rattle.std.specs.Prelude.{◌≡◌, ◌≢◌, ℕ, ◌++◌, [], List, None, Some, Ok, flat_map};
ghost use Rattle.std.specs.List.{AllByRecursion};
ghost use Rattle.script_lang.specs.Grammar.{line_of};
ghost use Rattle.script_lang.specs.AnswerTexts.{line};
ghost use Rattle.transformations.specs.Log.{commands_of};
ghost use Rattle.transformations.specs.declared.entry.Entry.{Entry};
ghost use Rattle.transformations.specs.declared.image.Image.{Image};
ghost use Rattle.follower_log.specs.Follower.{FollowerState, hand_entry, hand_image};
ghost use Rattle.script_session.specs.Lines.{HasNoFeed, open_line, whole_lines};
ghost use Rattle.script_session.specs.LogFiles.{log_of};
ghost use Rattle.script_session.specs.Machine.{SessionState, answers, reply, session_after, session_over};
ghost use Rattle.script_session.specs.Taken.{AnswerAsLog, FollowersShow, TellsEpoch};
ghost use Rattle.session_laws.specs.CatchUp.{RepliesSkipNothing};
ghost use Rattle.session_laws.specs.Shown.{IsOfNoQuorum, LinesAreShown, Shown, ShownMeet, shown, shown_by, shown_text};

/// Cutting an input into lines loses nothing: its whole lines, each with a line feed after it, and then its open line
/// make the input again. Neither a whole line nor the open line contains a line feed.
pub fn lines_make_the_input()
    // Promise: the whole lines of an input, each with its line feed, and its open line make the input, and no line
    // contains a line feed. Guards: law.
    ensures whole { (input : List ℕ) → flat_map line (whole_lines input) ++ open_line input ≡ input }
    ensures lines { (input : List ℕ) → AllByRecursion HasNoFeed (whole_lines input) }
    ensures rest { (input : List ℕ) → HasNoFeed (open_line input) }
{}

/// The quorums in the answers of a script. If a line asks for the quorums of a keyspace at a token, or for the local
/// quorums of a datacenter, and isn't refused, its answer is the text of these quorums. No other answer begins with
/// `QUORUM` or `LOCAL`.
///
/// Answers consist of whole lines. Each of these lines that begins with `QUORUM` or `LOCAL` is the text of a shown
/// answer. Take two shown answers to the same question, at the same epoch, or at an epoch and the next epoch if that is
/// a movement epoch: each write quorum of one answer has a replica in common with each read quorum of the other.
///
/// The first line is answered from the log in a file; a file without lines is the empty log.
#[tactic(auto, using(crate::proofs::quorums::ShownAnswers::texts, crate::proofs::quorums::ShownAnswers::others))]
pub fn shown_quorums_meet()
    // Promise: the answer to a query of quorums is their text, and no other answer, and no other line of an answer,
    // begins with `QUORUM` or `LOCAL`. Guards: law.
    ensures texts { (session : SessionState) (bytes : List ℕ) (s : Shown)
        → shown_by session (line_of bytes) ≡ Some s → (reply session bytes).text ≡ shown_text s }
    ensures others { (session : SessionState) (bytes : List ℕ)
        → shown_by session (line_of bytes) ≡ None → IsOfNoQuorum (reply session bytes).text }
    ensures whole { (file : List ℕ) (log : List Entry) (lines : List (List ℕ)) → log_of file ≡ Ok log
        → open_line (answers (session_over log) lines) ≡ [] }
    ensures lines { (file : List ℕ) (log : List Entry) (lines : List (List ℕ)) → log_of file ≡ Ok log
        → LinesAreShown (answers (session_over log) lines) (shown (session_over log) lines) }
    // Promise: quorums in two answers of a script to the same question meet, also of followers, at one epoch, or at an
    // epoch and the next, a movement epoch. Guards: law.
    ensures meet { (file : List ℕ) (log : List Entry) (lines : List (List ℕ)) → log_of file ≡ Ok log
        → ShownMeet (commands_of (session_after (session_over log) lines).log)
        (shown (session_over log) lines) }
{}

/// Each follower shows the longest prefix without a gap of what it took. Take the lines of a script up to any of them:
/// after these lines each follower is at a state of the log. The epoch of this state is reached without a gap, from
/// epoch 0 or from an image that the follower took, by entries that it took; no later epoch is reached so. An entry
/// that is answered `FULL` isn't taken.
///
/// After the answer `AT` and an epoch, the follower is at this epoch. A query of a follower is answered from the
/// state of the log at the follower's epoch.
///
/// The first line is answered from the log in a file; a file without lines is the empty log.
pub fn followers_show_prefixes()
    // Promise: after each line of a script each follower is at a state of the log, at the end of the longest prefix
    // without a gap of what it took. Guards: law.
    ensures prefixes { (file : List ℕ) (log : List Entry) (lines : List (List ℕ)) → log_of file ≡ Ok log
        → FollowersShow log lines }
    // Promise: what is answered `AT` and an epoch leaves the follower at this epoch. Guards: law.
    ensures at { (follower : FollowerState) (entry : Entry) (image : Image)
        → TellsEpoch (hand_entry follower entry) × TellsEpoch (hand_image follower image) }
    // Promise: a query of a follower is answered from the state of the log at the follower's epoch. Guards: law,
    // followers.rt (a follower answers from its own epoch, local quorums of a follower), tried.
    ensures queries { (file : List ℕ) (log : List Entry) (lines : List (List ℕ)) → log_of file ≡ Ok log
        → AnswerAsLog (session_after (session_over log) lines) }
{}

/// Each line of a script is answered by at least one byte. Only a fork, a refused entry and a bad image would be answered
/// by no text, and none of them comes: a follower of a session is handed only entries and images of the session's log.
///
/// The first line is answered from the log in a file; a file without lines is the empty log.
pub fn lines_are_answered()
    // Promise: each line of a script is answered by at least one byte. Guards: law.
    ensures { (file : List ℕ) (log : List Entry) (lines : List (List ℕ)) (bytes : List ℕ) → log_of file ≡ Ok log
        → (reply (session_after (session_over log) lines) bytes).text ≢ [] }
{}

/// Replies skip nothing, whether they are lost, come twice or come late. Each reply of a session is one from its log:
/// it was made when the log had its first entries, maybe not all that it has now.
///
/// Let a follower have reached the epoch that the reply was asked from. Given the reply, it comes at least to the lesser
/// of two epochs: the last one when the reply was made, and the one that is `MAX` after the one asked from. Given the
/// same reply again, nothing changes. No line takes a follower back to an earlier epoch. All this holds after each line
/// of a script.
///
/// The first line is answered from the log in a file; a file without lines is the empty log.
pub fn catch_up_skips_nothing()
    // Promise: each reply of a session is one from its log. Guards: law.
    // Promise: a follower that has reached the epoch from which a reply was asked comes by it to the last epoch of that
    // time, or `max` epochs after that epoch, whichever is less; again it changes nothing. Guards: law.
    // Promise: no line takes a follower back to an earlier epoch. Guards: law.
    ensures { (file : List ℕ) (log : List Entry) (lines : List (List ℕ)) → log_of file ≡ Ok log
        → RepliesSkipNothing log lines }
{}
