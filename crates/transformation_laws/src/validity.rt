//! Facts about the images that commands lead to.

ghost use Rattle.std.specs.Prelude.{◌≡◌, ◌↔◌, ◌+◌, ◌++◌, ◌<◌, ◌≤◌, ℕ, ℤ, true, false, [], List, Some, None, Ok, IsTrue, length, nat_eq};
ghost use Rattle.std.specs.List.{All, AllByRecursion, Any, Contains, list_any};
ghost use Rattle.std.specs.List.Sorted.{IsStrictlySortedBy};
ghost use Rattle.std.specs.Ordering.{int_cmp, int_eq};
ghost use Rattle.std.specs.Set.{is_member};
ghost use Rattle.cluster_terms.specs.Arc.{IsToken};
ghost use Rattle.cluster_terms.specs.Quorum.{AreSome, Meet, Sets, read_need, write_need};
ghost use Rattle.cluster_terms.specs.Replication.{total_of};
ghost use Rattle.cluster_terms.specs.Row.{last_token};
ghost use Rattle.cluster_terms.specs.declared.replication.Replication.{Replication};
ghost use Rattle.cluster_terms.specs.declared.token.RightEnd.{RightEnd};
ghost use Rattle.transformations.specs.CutSteps.{CutsFollow, SameAcross};
ghost use Rattle.transformations.specs.DeltaSteps.{ChangesByDeltas};
ghost use Rattle.transformations.specs.MovementDeltas.{KeepsDeltas, LivesOn, RowsStandForDeltas, gained_at, lives_through, lost_at};
ghost use Rattle.transformations.specs.History.{IsHistory, are_accepted, empty_image, image_after, is_command, most_epochs, next_image};
ghost use Rattle.transformations.specs.ImageRules.{bad_of, broken_rule};
ghost use Rattle.transformations.specs.Log.{IsLog, commit_of};
ghost use Rattle.transformations.specs.Meeting.{HaveReplications, QuorumsExistTogether, QuorumsMeet, QuorumsMeetAcross, ReadsAreWritten, is_unsafe_join};
ghost use Rattle.transformations.specs.Ranges.{AreApart, AreOutcomes, ArePlacedByOutcomes, IsLockedBy, KeepsRanges, PlacedByRanges, RowsStandInRanges, first_shared, in_both, in_ranges};
ghost use Rattle.transformations.specs.Refusals.{IsKeyspaceLocked, IsLockedOf, keyspace_locked, keyspace_row, locked, refusal_of, with_keyspace};
ghost use Rattle.transformations.specs.Rings.{RowsStandForTokens, cuts, reads_at};
ghost use Rattle.transformations.specs.Movements.{others};
ghost use Rattle.transformations.specs.Valid.{IsSound, IsValid};
ghost use Rattle.transformations.specs.declared.command.Command.{Command};
ghost use Rattle.transformations.specs.declared.command.Command.TheVariants as command;
ghost use Rattle.transformations.specs.declared.entry.Entry.{Entry};
ghost use Rattle.transformations.specs.declared.image.Image.{Image};
ghost use Rattle.transformations.specs.declared.keyspace.KeyspaceRow.{KeyspaceRow};
ghost use Rattle.transformations.specs.declared.refusal.Refusal.TheVariants.{KeyspaceLocked, Locked};
ghost use Rattle.transformations.specs.declared.sequence.SeqRow.{SeqRow};

/// If an image is valid and has an epoch left, a command that it accepts leads to a valid image. So each history leads
/// to a valid image.
#[tactic(auto, using(transformations::proofs::histories::ValidLemmas::valid_next, transformations::proofs::histories::HistoryLemmas::valid_after))]
pub fn histories_are_valid()
    // Promise: an accepted command leads from a valid image to a valid image, in which no two movements overlap, so
    // each history leads to a valid image. Guards: law.
    ensures kept { (image : Image) (c : Command) → IsValid image → IsTrue (is_command c)
        → refusal_of image c ≡ None → image.epoch < most_epochs → IsValid (next_image image c) }
    ensures reached { (h : List Command) → IsHistory h → IsValid (image_after empty_image h) }
{}

/// Each commit leads from a log to a log: its epochs are 1, 2 and so on, no id stands in it twice, and its commands are
/// a history. An id acts once: a commit with the id of an entry of the log adds nothing, whatever its command is. With
/// the command of this entry, it is answered with the entry's epoch.
pub fn ids_act_once()
    // Promise: a log stays a log, an id stands in it at most once, a commit whose id is there adds nothing, and an
    // entry sent again gets its epoch. Guards: law.
    ensures kept { (log : List Entry) (id : ℕ) (c : Command) → IsLog log → IsTrue (is_command c)
        → IsLog (log ++ (commit_of log id c).added) }
    ensures once { (log : List Entry) (entry : Entry) (c : Command) → IsLog log → Contains log entry
        → (commit_of log entry.id c).added ≡ [] }
    ensures again { (log : List Entry) (entry : Entry) → IsLog log → Contains log entry
        → (commit_of log entry.id entry.cmd).answer ≡ Ok entry.epoch }
{}

/// The ranges of movements in each valid image. Under each keyspace, a token is in the ranges of at most one movement.
/// Whichever movements are done or given up, the placement at a token depends only on the movements that have it in
/// their ranges. The rings of reads and writes are rings after such outcomes, so the nodes that are read and written
/// are placements after them. A command that is accepted keeps the ranges of each movement that goes on.
pub fn movements_are_apart()
    // Promise: at most one movement of a valid image has a token in its ranges, under each keyspace. Guards: law.
    ensures apart { (image : Image) → IsValid image → AreApart image }
    // Promise: whichever movements of a valid image are done or given up, the placement at a token depends only on
    // the movements that have it in their ranges. Guards: law.
    ensures placed { (image : Image) → IsValid image → PlacedByRanges image }
    // Promise: the low, read and high ring are rings after such outcomes, and the reads and both halves of the
    // writes are placements after them. Guards: law.
    ensures outcomes { (image : Image) → IsValid image → AreOutcomes image }
    ensures placements { (image : Image) → IsValid image → ArePlacedByOutcomes image }
    // Promise: a command that is accepted leaves the ranges of each movement that goes on as they are, under each
    // keyspace of the image before. Guards: law.
    ensures kept { (image : Image) (c : Command) → IsValid image → IsTrue (is_command c)
        → refusal_of image c ≡ None → KeepsRanges image (next_image image c) }
{}

/// The cuts of an image ascend. Under every replication, the same nodes are read at all tokens of a row between cuts,
/// and the same nodes are written. In a sound image, each movement has all tokens of a row in its ranges, or none.
pub fn rows_stand_for_tokens()
    // Promise: cuts ascend, and at each token of a row between them reads, writes and, in a sound image, ranges are
    // as at its last token. Guards: law.
    ensures ascend { (image : Image) → IsStrictlySortedBy int_cmp (cuts image) }
    ensures rows { (image : Image) → RowsStandForTokens image }
    ensures ranges { (image : Image) → IsSound image → RowsStandInRanges image }
{}

/// The nodes that a movement gains and loses at a token under a keyspace don't change once it is prepared, until the
/// keyspace is set or dropped. If a command is accepted in a valid image, each movement that goes on keeps its deltas, at
/// each token and under each keyspace as it was. The same holds of a list of accepted commands, under each keyspace that
/// none of them sets or drops, if the movement lives through them and there are epochs left for them.
///
/// In a sound image, a movement gains and loses nothing at tokens outside its ranges. In every image, the placement
/// without a movement and the placement with it are the same at all tokens of a row between cuts.
pub fn deltas_persist()
    // Promise: if a command is accepted in a valid image, each movement that goes on keeps its deltas, at each
    // token, under each keyspace as it was before. Guards: law, calls/plans.rt.
    ensures step { (image : Image) (c : Command) → IsValid image → IsTrue (is_command c)
        → refusal_of image c ≡ None → KeepsDeltas image (next_image image c) }
    // Promise: so they are the same after accepted commands through which the movement lives, under each keyspace
    // that none of the commands sets or drops. Guards: law, calls/plans.rt.
    ensures kept { (image : Image) (s : SeqRow) (commands : List Command) → IsValid image
        → Contains image.sequences s → IsTrue (are_accepted image commands)
        → image.epoch + length commands ≤ most_epochs → IsTrue (lives_through image s.node commands)
        → LivesOn image (image_after image commands) commands s }
    // Promise: in a sound image a movement gains and loses nothing outside its ranges. Guards: law.
    ensures outside { (image : Image) (r : Replication) (s : SeqRow) (x : ℤ) → IsSound image
        → Contains image.sequences s → in_ranges image r s x ≡ false
        → (gained_at image r s x ≡ []) × (lost_at image r s x ≡ []) }
    // Promise: at each token of a row between cuts the placement before a movement and the placement with it are as
    // at its last token. Guards: law.
    ensures rows { (image : Image) → RowsStandForDeltas image }
{}

/// The deltas of movements act. If a command is accepted in a valid image, it changes the nodes that are read and the
/// nodes that are written by the deltas of its movement, at each token and under each keyspace for which it makes a
/// movement epoch. A start adds the nodes gained to the writes. The step half way adds them to the reads, and removes the
/// nodes lost from the reads. A finish removes the nodes lost from the writes. A cancel undoes the last step, if one was
/// taken. No other such command changes what is read or written; one that sets or drops a keyspace changes it under no
/// other keyspace.
pub fn deltas_act()
    // Promise: in a valid image, accepted commands change reads and writes by their movement's deltas, under each
    // keyspace for which they make a movement epoch, and no other such command does. Guards: law, StepRows.antt.
    ensures acts { (image : Image) (c : Command) → IsValid image → IsTrue (is_command c)
        → refusal_of image c ≡ None → ChangesByDeltas image c }
{}

/// How the cuts change if a command is accepted in a sound image and gives no tokens at once. A prepare adds the tokens
/// that its movement puts in. A finish adds no cut, and removes only cuts at tokens of its movement. A cancel at
/// PREPARED or STARTED does the same. No other such command changes the cuts.
///
/// In every image, the reads and the writes at a token that is no cut are those at the token after it.
pub fn cuts_follow_movements()
    // Promise: in a sound image a prepare adds the tokens put in, a finish and an ending cancel remove only cuts of
    // their movement, any other but `unsafe-join` keeps the cuts. Guards: law, StepRows.antt.
    ensures follow { (image : Image) (c : Command) → IsSound image → IsTrue (is_command c)
        → refusal_of image c ≡ None → is_unsafe_join c ≡ false → CutsFollow image c }
    // Promise: the reads and the writes at a token that is no cut are those at the token after it. Guards: law.
    ensures across { (image : Image) (r : Replication) (t : ℤ) → is_member int_eq (cuts image) t ≡ false
        → SameAcross image r t }
{}

/// The quorums of QUORUM, and of LOCAL_QUORUM in each datacenter, in each valid image, at each token and under each
/// keyspace. Each node that is read is written, no more nodes are read than replicas are asked for, and a write quorum
/// exists if and only if a read quorum does.
///
/// The quorums of one image meet: each write quorum shares a replica with each read quorum. If a command is accepted and
/// there is an epoch left, the quorums of the images before and after it meet too, both ways, under each keyspace for
/// which it makes a movement epoch. For both, the keyspaces must have replications. In each image that `Metadata` holds,
/// they do.
pub fn adjacent_epochs_meet()
    // Promise: at each token of a valid image, under each keyspace, each node that is read is written, and no more
    // are read than replicas are asked for. Guards: law.
    ensures within { (image : Image) → IsValid image → ReadsAreWritten image }
    ensures few { (image : Image) → IsValid image → (x : ℤ) → IsToken x
        → AllByRecursion
        (λ k. length (reads_at image k.replication x) ≤ total_of k.replication) image.keyspaces }
    // Promise: a write quorum exists if and only if a read quorum does, for QUORUM and for LOCAL_QUORUM in each
    // datacenter. Guards: law.
    ensures needs { (image : Image) → IsValid image → QuorumsExistTogether image }
    // Promise: the quorums of a valid image meet, and those before and after an accepted command, under keyspaces
    // with a movement epoch, if the keyspaces have replications. Guards: law.
    ensures itself { (image : Image) → IsValid image → HaveReplications image → QuorumsMeet image image }
    ensures adjacent { (image : Image) (c : Command) → IsValid image → HaveReplications image
        → IsTrue (is_command c) → refusal_of image c ≡ None
        → image.epoch < most_epochs → QuorumsMeetAcross image c }
    // Promise: a write quorum and a read quorum of sets that meet have a node in common. Guards: law.
    ensures common { (one other : Sets) (written read : List ℕ) → Meet one other
        → AreSome (write_need one) one.writes written → AreSome (read_need other) other.reads read
        → IsTrue (list_any (is_member nat_eq written) read) }
{}

/// The meaning of locked ranges. If `first_shared` finds no row between cuts for two movements, they share no token. If
/// it finds a row, the last token of the row is in the ranges of both.
///
/// So a movement that isn't locked overlaps no other movement. A movement that is locked overlaps the movement whose
/// node is shown, at the last token of the row whose right end is shown. No movement of a lesser node overlaps it, and
/// no earlier row between cuts is in the ranges of both. If a command is refused as LOCKED, this holds for the movement
/// that it prepares.
pub fn locked_ranges_overlap()
    // Promise: two movements for which no shared row is found share no token, those with one share its last token,
    // and one that isn't locked overlaps no other. Guards: law.
    ensures none_shared { (image : Image) (s q : SeqRow) → IsSound image → Contains image.sequences s
        → Contains image.sequences q → first_shared image s q ≡ None → (x : ℤ) → IsToken x
        → in_both image s q x ≡ false }
    ensures shared { (image : Image) (s q : SeqRow) (right : RightEnd) → first_shared image s q ≡ Some right
        → in_both image s q (last_token right) ≡ true }
    ensures free { (image : Image) (s : SeqRow) → IsSound image → Contains image.sequences s
        → locked image s ≡ None → (x : ℤ) → IsToken x
        → All (λ q. in_both image s q x ≡ false) (others image.sequences s.node) }
    // Promise: a locked movement overlaps that of the node shown, at the last token of the row shown, no lesser
    // node's movement overlaps it, and no earlier row is shared. Guards: law.
    ensures taken { (image : Image) (s : SeqRow) (n : ℕ) (right : RightEnd)
        → locked image s ≡ Some (Locked n right)
        → Any (λ q. (q.node ≡ n) × (in_both image s q (last_token right) ≡ true))
        (others image.sequences s.node) }
    ensures least { (image : Image) (s : SeqRow) (n : ℕ) (right : RightEnd) → IsSound image
        → Contains image.sequences s
        → locked image s ≡ Some (Locked n right) → IsLockedBy image s n right }
    // Promise: a command that is refused as locked prepares such a movement, and the refusal shows this node and
    // row. Guards: law.
    ensures refused { (image : Image) (c : Command) (n : ℕ) (right : RightEnd) → IsSound image
        → IsTrue (is_command c)
        → refusal_of image c ≡ Some (Locked n right) → IsLockedOf image c n right }
{}

/// The meaning of KEYSPACE-LOCKED. If it doesn't come, no two movements overlap once the keyspace is set. If a command
/// is refused as KEYSPACE-LOCKED, the movements of the two nodes that are shown would overlap. They are the least such
/// nodes, and the row that ends at the right end that is shown is the first in the ranges of both under the replication
/// of the command. The cuts must be tokens. In each image that `Metadata` holds, they are.
pub fn keyspaces_lock()
    // Promise: a keyspace that isn't locked leaves the movements apart, and a refusal as locked shows the least
    // nodes whose movements would overlap, and the first such row. Guards: law.
    ensures free { (image : Image) (k : KeyspaceRow) → IsSound image → keyspace_locked image k ≡ None
        → AreApart (with_keyspace image k) }
    ensures taken { (image : Image) (k : KeyspaceRow) (n o : ℕ) (right : RightEnd) → IsValid image
        → AllByRecursion IsToken (cuts image)
        → keyspace_locked image k ≡ Some (KeyspaceLocked n o right) → IsKeyspaceLocked image k n o right }
    ensures refused { (image : Image) (name : List ℕ) (replication : Replication) (n o : ℕ) (right : RightEnd)
        → IsValid image → AllByRecursion IsToken (cuts image)
        → refusal_of image (command.Keyspace name replication) ≡ Some (KeyspaceLocked n o right)
        → IsKeyspaceLocked image (keyspace_row name replication) n o right }
{}

/// An image is sound if and only if it breaks none of the rules but the last one, and valid if and only if it breaks
/// none of the rules.
pub fn valid_images_break_no_rule()
    // Promise: an image is sound if and only if it breaks none of the first 17 rules, and valid if and only if it
    // breaks none of the 18. Guards: law, ImageRows.antt.
    ensures sound { (image : Image) → IsSound image ↔ broken_rule image ≡ None }
    ensures valid { (image : Image) → IsValid image ↔ bad_of image ≡ None }
{}
