ghost use Rattle.std.specs.Prelude.{◌≡◌, ◌≢◌, ℕ, ◌<◌, ◌≤◌, ◌↔◌, true, false, not, [], ◌∷◌, ◌++◌, length, is_some, IsNone, IsTrue, IfOk, IfErr, MatchResult};
ghost use Rattle.std.specs.List.{AllByRecursion, AllPairs, insert};
ghost use Rattle.std.specs.List.Sorted.{IsStrictlySortedBy};
ghost use Rattle.std.specs.Ordering.{int_cmp};
ghost use Rattle.token_ring.specs.TokenRanges.{AreCutOut};
ghost use Rattle.locked_ranges.specs.Conflict.{conflict_of};
ghost use Rattle.locked_ranges.specs.Sharing.{ShareNoToken};
ghost use Rattle.locked_ranges.specs.Table.{AreWider, IsLockTable, has_row, other_locks, lock_row};

use crate::first_conflict::first_conflict;
use crate::key::LockKey;
use cluster_terms::{Memory, NodeId, RightEnd, Room, Token};
use std::alloc::Global;
use std::marker::Model;
use token_ring::{LockRow, LockRows, RangeBook};

/// The ranges that movements in flight lock (CEP-21's locked ranges). A row has the node of a movement and its ranges
/// under each replication. Contracts see the table as the list of its rows, in the order in which callers put them.
///
/// The nodes are distinct, and no token is in the ranges of two rows under one replication: by a rule of this project,
/// at most one movement at a time changes the replicas of a token.
///
/// Books are compared row by row, and nothing looks at their replications. So all books of a table, and those that are
/// compared with it, have to list the same replications in the same order, as those of one cluster do.
#[derive(Debug, Drop)]
pub struct LockTable {
    rows: LockRows,
}

impl Model for LockTable {
    ghost use Rattle.std.specs.Prelude.{List};
    ghost use Rattle.token_ring.specs.declared.range_book.LockRow.{LockRow};
    ghost use Rattle.locked_ranges.specs.Table.{IsLockTable};

    ghost Value = { List LockRow };

    ghost view = { λ table. table.rows };

    ghost invariant = { λ table. IsLockTable table.rows };
}

impl LockTable {
    /// The table of no movement. Takes no memory.
    pub fn empty(alloc: Global) -> LockTable
        // Promise: a table begins without rows. Guards: calls/rings.rt, calls/copies.rt.
        ensures { result ≡ [] }
    {
        LockTable {
            rows: LockRows::empty(alloc),
        }
    }

    /// The rows, in their order.
    pub fn rows(&self) -> &[LockRow]
        // Promise: the nodes of a table are distinct, and no two rows share a token. Guards: by the invariant of
        // `LockTable`.
        ensures rows { result.now ≡ self.now }
        ensures table { IsLockTable self.now }
    {
        self.rows.as_slice()
    }

    /// An equal table. Makes no key.
    pub fn copy(&self) -> Result<LockTable, Memory>
        // Promise: a copy equals the table and has no key. Guards: calls/rings.rt, calls/copies.rt.
        ensures { IfOk result (λ copied. copied ≡ self.now) }
    {
        let rows = self.rows.copy()?;
        Ok(LockTable { rows })
    }

    /// The first movement of `wide`, in the order of its rows, that shares a row between cuts with `ranges` under one
    /// replication, and the right end of the first such row. Returns `None` if and only if `ranges` shares no token
    /// with any movement of `wide`. Then it shares none with this table, so `lock` may follow. Where the rows of `wide`
    /// ascend by node, the first movement is that of the least node.
    ///
    /// All books list the same replications in the same order: row i of one is compared with row i of the other alone.
    ///
    /// `wide` has the ranges of the same movements in the image with the new movement. It has a row for each node of
    /// this table, and the row's ranges contain those of the table. The cuts ascend. The bounds of `ranges` and `wide`
    /// are cuts.
    ///
    /// The cost is one pass over the ranges of both for each movement and replication and, for r replications and c
    /// cuts, at most 2·r·(c + 1) binary searches for the movement found. Takes no memory.
    pub fn conflict(
        &self,
        ranges: &RangeBook,
        wide: &LockRows,
        cuts: &[Token],
    ) -> Option<(NodeId, RightEnd)>
        requires names { AllByRecursion (λ row. has_row wide.now row.node ≡ true) self.now }
        requires contains { AreWider wide.now self.now }
        requires ascending { IsStrictlySortedBy int_cmp cuts.now }
        requires own_cut { AllByRecursion (λ r. AreCutOut cuts.now r.ranges) ranges.now }
        requires wide_cut { AllByRecursion
            (λ row. AllByRecursion (λ r. AreCutOut cuts.now r.ranges) row.ranges) wide.now }
        // Promise: the first movement of `wide` that shares a row with new ranges is found, and the right end of the
        // first such row. Guards: compares_stale_ranges.edit, ConflictExamples.antt, tried.
        ensures conflict { result ≡ conflict_of ranges.now wide.now cuts.now }
        // Promise: no conflict is found if and only if no token is in both, and then none is in a row of the table
        // either. Guards: compares_stale_ranges.edit.
        ensures free { IsNone result ↔ AllByRecursion (λ row. ShareNoToken ranges.now row.ranges) wide.now }
        ensures table { IsNone result → AllByRecursion (λ row. ShareNoToken ranges.now row.ranges) self.now }
    {
        first_conflict(ranges.as_slice(), wide.as_slice(), cuts)
    }

    /// Whether no token is both in `ranges` and in a row of the table, under one replication. Then `lock` may follow.
    ///
    /// The cuts ascend. The bounds of `ranges` and of the rows are cuts. The cost is that of `conflict`. Allocates
    /// nothing.
    pub fn is_free(&self, ranges: &RangeBook, cuts: &[Token]) -> bool
        requires ascending { IsStrictlySortedBy int_cmp cuts.now }
        requires own_cut { AllByRecursion (λ r. AreCutOut cuts.now r.ranges) ranges.now }
        requires rows_cut { AllByRecursion
            (λ row. AllByRecursion (λ r. AreCutOut cuts.now r.ranges) row.ranges) self.now }
        // Promise: new ranges are free if and only if no row of the table shares a row between cuts, and then they
        // share no token with it. Guards: snapshots.rt.
        ensures free { IsTrue result → AllByRecursion (λ row. ShareNoToken ranges.now row.ranges) self.now }
        ensures conflict { result ≡ not (is_some (conflict_of ranges.now self.now cuts.now)) }
    {
        first_conflict(ranges.as_slice(), self.rows.as_slice(), cuts).is_none()
    }

    /// Locks the ranges of a movement, and returns the key. The node has no row yet, and no row shares a token with
    /// `ranges`, which has to list the replications of the other books, in their order. The new row comes last. If
    /// memory runs out, returns the ranges and leaves the table unchanged.
    pub fn lock(&mut self, node: NodeId, ranges: RangeBook) -> Result<LockKey, (RangeBook, Memory)>
        requires new { has_row self.old node ≡ false }
        requires apart { AllByRecursion (λ row. ShareNoToken ranges row.ranges) self.old }
        // Promise: a lock adds one row and gives its key, and if memory runs out, nothing changes and the ranges are
        // handed back. Guards: scripts.
        ensures table { MatchResult result (λ _. self.new ≡ self.old ++ lock_row node ranges ∷ [])
            (λ _. self.new ≡ self.old) }
        ensures key { IfOk result (λ key. key ≡ node) }
        ensures ranges { IfErr result (λ e. e.0 ≡ ranges) }
    {
        match self.rows.push(LockRow { node, ranges }) {
            Ok(()) => Ok(LockKey::of(node)),
            Err((row, memory)) => {
                let LockRow { node: _, ranges } = row;
                Err((ranges, memory))
            }
        }
    }

    /// Locks the ranges of a movement as `lock` does, and puts the new row at position `at`, which is at most the
    /// length. If the table has no memory to spare, its rows move into the room, which has room for one row more than
    /// the table has. Takes no memory.
    pub fn lock_in(
        &mut self,
        at: usize,
        node: NodeId,
        ranges: RangeBook,
        room: Room<LockRow>,
    ) -> LockKey
        requires new { has_row self.old node ≡ false }
        requires apart { AllByRecursion (λ row. ShareNoToken ranges row.ranges) self.old }
        requires place { at ≤ length self.old }
        requires room { length self.old < room }
        // Promise: with memory made beforehand, a lock takes no memory. Guards: scripts.
        ensures table { self.new ≡ insert self.old at (lock_row node ranges) }
        ensures key { result ≡ node }
    {
        self.rows.insert_in(at, LockRow { node, ranges }, room);
        LockKey::of(node)
    }

    /// Exchanges all ranges. The new rows have the nodes of the table, each once, and no two of them share a token under
    /// one replication. The keys stay. Takes no memory.
    pub fn relock(&mut self, rows: LockRows)
        requires names { (n : ℕ) → has_row rows n ≡ has_row self.old n }
        requires once { AllPairs (λ one other. one.node ≢ other.node) rows }
        requires apart { AllPairs (λ one other. ShareNoToken one.ranges other.ranges) rows }
        // Promise: new ranges of which no two share a token take the places of the old ones, the keys stay, and no
        // memory is taken. Guards: renewals.rt.
        ensures { self.new ≡ rows }
    {
        self.rows = rows;
    }

    /// Spends a key and unlocks the ranges of its movement, which has a row. Always succeeds, and takes no memory. The
    /// cost is one pass over the rows.
    pub fn unlock(&mut self, key: LockKey)
        requires { has_row self.old key ≡ true }
        // Promise: a key removes the row of its node and no other, with no memory and no error. Guards:
        // unlocks_another_row.edit.
        ensures { self.new ≡ other_locks self.old key }
    {
        let node = key.spend();
        keep_others(&mut self.rows, node);
    }
}

fn keep_others(rows: &mut LockRows, node: NodeId)
    ensures { rows.new ≡ other_locks rows.old node }
{
    rows.retain(|row| row.node != node);
}
