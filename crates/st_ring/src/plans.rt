//! The planned rows of the levels (entries in flight), oldest first: the ticks R (operands there)
//! and C (complete), and the arrival ticks of operands, which `st_rows` computed when the entry
//! became a level. docs/timetable.md has the rules of these ticks.
//!
//! levels.rt keeps this ring in step with the ring of levels, so that row k belongs to level k, and
//! completes a level at `c`. filling.rt reads `fills`; `st_ahead` shows by `r` that a level is
//! ready. Only clauses read the snapshot `issue`.
//!
//! Proved: the list is that of pushes at the end and removals at the front, each row with the ticks
//! that `push` was given (`planned_row` in specs/PlannedRows.antt). That these ticks are those of
//! the level's entry is proved in levels.rt (`AreAhead` in specs/Levels.antt).
//!
//! Pinned, by `IsLevel` of specs/Levels.antt: the fields. A new field needs its value in
//! `planned_row` and its meaning in `IsLevel`. Pinned, by ring.rt: eight slots. Free: the ring, as
//! long as `window` gives the list.
ghost use Rattle.std.specs.Prelude.{◌≡◌, ◌+◌, ◌<◌, ◌≤◌, [], ◌∷◌, ◌++◌, length, drop, slice_get, Some};
ghost use Rattle.st_ring.specs.PlannedRows.{planned_row};

use st_rows::{Filled, IssueState};
use std::marker::Model;
use std::snapshot::Snapshot;

// The largest number of levels.
const SLOTS: usize = 8;

/// The planned row of a level.
#[derive(Drop)]
pub struct PlannedRow {
    /// The issue state that the row was computed from; only clauses read it.
    pub issue: Snapshot<IssueState>,
    /// R, the tick at which the operands of the level arrive.
    pub r: u64,
    /// C, the tick at which the level completes.
    pub c: u64,
    /// The arrival ticks of the first two operand words that are not registers; 0 for a missing
    /// word.
    pub fills: [u64; 2],
}

/// The planned rows of at most eight levels. Contracts see their list, oldest first.
#[derive(Drop)]
pub struct PlannedRowRing {
    slots: [PlannedRow; SLOTS],
    head: usize,
    len: usize,
}

// The view is the list of rows, oldest first.
impl Model for PlannedRowRing {
    ghost use Rattle.std.specs.Prelude.{List};
    ghost use Rattle.st_fetch.specs.Queue.{window, IsRing};
    ghost use Rattle.st_ring.specs.declared.plans.PlannedRow.{PlannedRow as PlannedRowOf};

    ghost Value = { List PlannedRowOf };

    ghost view = { λ ring. window ring.head ring.len ring.slots };

    ghost invariant = { λ ring. IsRing 8 ring.head ring.len ring.slots };
}

impl PlannedRowRing {
    /// A ring without rows.
    pub fn new() -> PlannedRowRing
        ensures { result ≡ [] }
    {
        PlannedRowRing {
            slots: [
                no_plan(),
                no_plan(),
                no_plan(),
                no_plan(),
                no_plan(),
                no_plan(),
                no_plan(),
                no_plan(),
            ],
            head: 0,
            len: 0,
        }
    }

    /// The number of rows, at most 8.
    pub fn len(&self) -> usize
        ensures value { result ≡ length self.now }
        ensures within { result ≤ 8 }
    {
        self.len
    }

    /// Appends the row of an entry that is issued from `issue` with the ticks `filled`, as the
    /// youngest row. There must be room.
    pub fn push(&mut self, issue: &IssueState, filled: &Filled)
        requires { length self.old < 8 }
        ensures rows { self.new ≡ self.old ++ planned_row issue.now filled.now ∷ [] }
        ensures len { length self.new ≡ length self.old + 1 }
    {
        let at = (self.head + self.len) % SLOTS;
        plan_into(&mut self.slots[at], issue, filled);
        self.len += 1;
    }

    /// Row k, which must exist; row 0 is the oldest.
    pub fn get(&self, k: usize) -> &PlannedRow
        requires { k < length self.now }
        ensures { slice_get self.now k ≡ Some result.now }
    {
        &self.slots[(self.head + k) % SLOTS]
    }

    /// Removes the oldest row, which must exist.
    pub fn drop_first(&mut self)
        requires { 0 < length self.old }
        ensures rows { self.new ≡ drop 1 self.old }
        ensures len { length self.new + 1 ≡ length self.old }
    {
        self.head = (self.head + 1) % SLOTS;
        self.len -= 1;
    }

    /// Removes all rows.
    pub fn clear(&mut self)
        ensures { self.new ≡ [] }
    {
        self.len = 0;
    }
}

// The content of an unused slot.
fn no_plan() -> PlannedRow {
    PlannedRow {
        issue: Snapshot::of(&IssueState::default()),
        r: 0,
        c: 0,
        fills: [0; 2],
    }
}

// Sets the slot to the row of an entry that is issued from `issue` with the ticks `filled`.
fn plan_into(slot: &mut PlannedRow, issue: &IssueState, filled: &Filled)
    ensures { slot.new ≡ planned_row issue.now filled.now }
{
    slot.issue = Snapshot::of(issue);
    slot.r = filled.row.r;
    slot.c = filled.row.c;
    slot.fills = filled.fills;
}
