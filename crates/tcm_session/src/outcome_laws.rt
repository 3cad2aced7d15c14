//! Facts about the outcomes of a run: the quorums that are printed, what followers show, routes and stream plans.

ghost use Rattle.std.specs.Prelude.{◌≡◌, ◌≢◌, ℕ, List, Ok, Some};
ghost use Rattle.std.specs.Io.{StartsWith};
ghost use Rattle.tcm_edges.specs.Files.{Files};
ghost use Rattle.transformations.specs.declared.entry.Entry.{Entry};
ghost use Rattle.script_session.specs.LogFiles.{log_of};
ghost use Rattle.script_session.specs.Taken.{FollowersShow};
ghost use Rattle.session_laws.specs.CatchUp.{RepliesSkipNothing};
ghost use Rattle.session_laws.specs.Shown.{PrintsMeeting};
ghost use Rattle.tcm_session.specs.Outcome.{printed_by};
ghost use Rattle.tcm_session.specs.Outcomes.{outcome};
ghost use Rattle.tcm_session.specs.Request.{Cms, request_of};
ghost use Rattle.tcm_session.specs.files.MemberRoute.{IsSafeRoute};
ghost use Rattle.tcm_session.specs.files.StreamPlan.{IsCoveringPlan, last_state};

/// The quorums that a run prints meet. Take what any words, files and input lead to, and a prefix of its bytes, as a
/// run prints it. Each of its lines that begins with `QUORUM` or `LOCAL` is the text of a shown answer. Two answers to
/// the same question meet, at the same epoch, or at an epoch and the next one, which is a movement epoch for their
/// keyspace. At status 7 the name of a file is printed, which may hold any line.
pub fn printed_quorums_meet()
    // Promise: unless the status is 7, the quorums in the printed lines meet, at one epoch, or at an epoch and the next
    // one, a movement epoch. Guards: law, quorums.rt.
    ensures { (words : List (List ℕ)) (seen : ℕ → Files) (input printed : List ℕ)
        → (outcome (request_of words) seen input).status ≢ 7
        → StartsWith (printed_by (outcome (request_of words) seen input)) printed
        → PrintsMeeting (outcome (request_of words) seen input).log (outcome (request_of words) seen input).lines printed }
{}

/// The followers of a script show its log, and replies lead them on. After each line that a run answers, each follower
/// is at the end of the longest prefix without a gap of what it took. Each reply is one from the log, leads on a
/// follower that is ready for it, and no line takes a follower back to an earlier epoch.
pub fn scripts_lead_followers()
    // Promise: after each line of a script each follower is at a state of the log, at the end of the longest prefix
    // without a gap of what it took, replies included. Guards: law, replies.rt (replies-out-of-order).
    ensures followers { (words : List (List ℕ)) (seen : ℕ → Files) (input : List ℕ)
        → FollowersShow (outcome (request_of words) seen input).log (outcome (request_of words) seen input).lines }
    // Promise: each reply leads a follower that is ready for it to the epoch asked for, changes nothing when it is
    // given again, and no follower goes back. Guards: law.
    ensures replies { (words : List (List ℕ)) (seen : ℕ → Files) (input : List ℕ)
        → RepliesSkipNothing (outcome (request_of words) seen input).log (outcome (request_of words) seen input).lines }
{}

/// Each route that `cms LOG FROM TO` prints is safe: its changes are accepted and lead from FROM to TO, the majorities
/// before and after each change meet, there are never fewer voting members than the lesser of the two counts, and no
/// accepted list of changes is shorter.
pub fn routes_are_safe()
    // Promise: the printed route is accepted, leads from FROM to TO, keeps majorities meeting, never has fewer voting
    // members than the lesser count, and none is shorter. Guards: law, route_starts_and_stops_a_node.edit,
    // remove_takes_two_members.edit.
    ensures { (words : List (List ℕ)) (log from to : List ℕ) → request_of words ≡ Some (Cms log from to) → IsSafeRoute from to }
{}

/// Each plan that `plan LOG NODE KS` prints covers what the movement adds, and keeps quorums readable: each node that
/// is placed with it and not before it has one row at each token, and no other node has one; and a quorum of the nodes
/// placed with it has a node that is in a given quorum of those placed before, or streams strictly from a node of it.
pub fn plans_cover_what_is_added()
    // Promise: the printed plan has one row for each node that the movement adds, and each quorum with it has a node of
    // a quorum before, or one that streams strictly from there. Guards: law, least_node_as_the_source.edit.
    ensures { (file : List ℕ) (log : List Entry) (node : ℕ) (keyspace : List ℕ) → log_of file ≡ Ok log
        → IsCoveringPlan (last_state log) node keyspace }
{}
