//! A queue of rows: the executed instructions, with their ticks, that a run has passed over and
//! nobody has taken yet. docs/timetable.md has the rows. `Machine::run_to` fills it, and `st_run`
//! takes the rows out as events. Room is made for 64 rows at a time, so that many instructions run
//! between two events.
//!
//! Proved: each call is one of a list with room (`queue_with` in specs/RowsDone.antt); a row
//! without room is dropped, which `st_run` uses where it needs only the last row.
//!
//! Pinned: the order of the rows, by the clauses of `put` and `next`; the number 64, by the clause
//! of `open` and by `ROWS` of `st_run`, which have to change together. Free: the array and its
//! three marks, if proofs/row_queue follows.
ghost use Rattle.std.specs.Prelude.{◌≡◌, ◌==◌, [], ◌∷◌, length, MatchOption};
ghost use Rattle.st_ahead.specs.RowsDone.{queue_with};

use crate::events::Row;
use std::marker::Model;

// The capacity of the queue.
const ROOM: usize = 64;

/// A queue of rows, in order of completion, with room for more: at most 64 between two calls of
/// `open`. A row that is taken gives no room back.
#[derive(Debug, Drop)]
pub struct RowQueue {
    // `rows[first..end]` are the rows, and `rows[end..limit]` is the room.
    rows: [Row; ROOM],
    first: usize,
    end: usize,
    limit: usize,
}

// The view has the rows, and how many more there is room for.
impl Model for RowQueue {
    ghost use Rattle.std.specs.Prelude.{◌≡◌, ◌-◌, ◌≤◌, length, drop, take};
    ghost use Rattle.st_ahead.specs.RowsDone.{Queue};

    ghost Value = { Queue };

    ghost view = { λ q. record {
      rows = drop q.first (take q.end q.rows);
      room = q.limit - q.end;
    } };

    ghost invariant = { λ q. (q.first ≤ q.end) × (q.end ≤ q.limit) × (q.limit ≤ 64)
        × (length q.rows ≡ 64) };
}

impl RowQueue {
    /// A queue without rows and without room.
    pub fn new() -> RowQueue
        ensures { result ≡ record { rows = []; room = 0 } }
    {
        RowQueue {
            rows: [Row::default(); ROOM],
            first: 0,
            end: 0,
            limit: 0,
        }
    }

    /// Makes room for 64 rows; the queue must be empty.
    pub fn open(&mut self)
        requires { self.old.rows ≡ [] }
        ensures { self.new ≡ record { rows = []; room = 64 } }
    {
        self.first = 0;
        self.end = 0;
        self.limit = ROOM;
    }

    /// Removes the room for more rows.
    pub fn shut(&mut self)
        ensures { self.new ≡ record self.old { room = 0 } }
    {
        self.limit = self.end;
    }

    /// Whether the queue is empty.
    pub fn is_empty(&self) -> bool
        ensures { result ≡ (length self.now.rows == 0) }
    {
        self.first == self.end
    }

    /// Appends a row, if there is room; otherwise the row is dropped.
    pub fn put(&mut self, row: Row)
        ensures { self.new ≡ queue_with (row ∷ []) self.old }
    {
        if self.end == self.limit {
            return;
        }
        self.rows[self.end] = row;
        self.end += 1;
    }

    /// Removes and returns the first row, if there is one.
    pub fn next(&mut self) -> Option<Row>
        ensures rows { MatchOption result (self.old.rows ≡ [])
            (λ row. self.old.rows ≡ row ∷ self.new.rows) }
        ensures none { MatchOption result (self.new ≡ self.old)
            (λ row. self.new.room ≡ self.old.room) }
    {
        if self.first == self.end {
            return None;
        }
        let row = self.rows[self.first];
        self.first += 1;
        Some(row)
    }
}
