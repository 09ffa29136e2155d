//! A log of reads, by which late reads of a segment (the entries between two flushes) are undone:
//! when a segment ends, reads that the banks would accept later are not made, and the banks are as
//! if none of these reads had been planned. docs/timetable.md has the rules. bus.rt adds a record
//! for each read; `st_ahead` and `st_account` call `undo` at the end of a segment. Addresses are
//! word addresses.
//!
//! Proved: the log has the last 64 records (clause of `put`), and `undo` gives `answers_left` of
//! specs/Notes.antt. That 64 are enough is the law `FewAreUndone` (specs/LogLaws.antt).
//!
//! Pinned, by the clauses of `put` and of bus.rt and by `FewAreUndone`: the number 64. From 39 up
//! any number would do if all these change; a power of two makes the ring cheap. Free: the ring, if
//! proofs/log follows.
ghost use Rattle.std.specs.Prelude.{◌≡◌, ◌∷◌, ◌≤◌, [], take, MatchOption};
ghost use Rattle.st_rows.specs.Notes.{AreSettled, answers_left};

use st_banks::LastAnswers;
use std::marker::Model;

// The number of records that are kept. At most 39 reads are accepted at the tick at which an entry
// completes or later; this is a power of two above.
const KEPT: usize = 64;

/// A record of one read.
#[derive(Clone, Copy, Debug, Default, PartialEq, Eq)]
pub struct Made {
    /// The tick at which it is accepted.
    pub tick: u64,
    /// The last answer of its bank before it.
    pub before: u64,
    /// Its word.
    pub w: u32,
}

/// The records of the last 64 reads of a segment. Contracts see them as a list, youngest first.
#[derive(Debug, Drop)]
pub struct Log {
    // A ring: the youngest record is at `head`, older ones follow, wrapping around the end.
    notes: [Made; KEPT],
    head: usize,
    len: usize,
}

// Contracts see the records, youngest first.
impl Model for Log {
    ghost use Rattle.std.specs.Prelude.{List};
    ghost use Rattle.st_fetch.specs.Queue.{window, IsRing};
    ghost use Rattle.st_rows.specs.declared.log.Made.{Made as Note};

    ghost Value = { List Note };

    ghost view = { λ log. window log.head log.len log.notes };

    ghost invariant = { λ log. IsRing 64 log.head log.len log.notes };
}

impl Default for Log {
    ghost is_default = { λ log. log ≡ [] };

    fn default() -> Log {
        Log::new()
    }
}

impl Log {
    /// The empty log.
    pub fn new() -> Log
        ensures { result ≡ [] }
    {
        Log {
            notes: [Made::default(); KEPT],
            head: 0,
            len: 0,
        }
    }

    /// Removes all records.
    pub fn clear(&mut self)
        ensures { self.new ≡ [] }
    {
        self.len = 0;
    }

    /// Adds a record as the youngest one. If there are 64 already, the oldest one is dropped.
    pub fn put(&mut self, note: Made)
        ensures { self.new ≡ take 64 (note ∷ self.old) }
    {
        self.head = (self.head + KEPT - 1) % KEPT;
        self.notes[self.head] = note;
        if self.len < KEPT {
            self.len += 1;
        }
    }

    /// Undoes the reads that are accepted at the tick `now` or later, youngest first: restores the
    /// last answers of their banks.
    pub fn undo(&mut self, banks: &mut LastAnswers, now: u64)
        ensures { banks.new.ticks ≡ answers_left now self.old banks.old.ticks }
    {
        'reads: while let Some(read) = self.take_late(now) {
            banks.answer(read.w, read.before);
        }
    }

    // Removes and returns the youngest record if its read is accepted at the tick `now` or later.
    fn take_late(&mut self, now: u64) -> Option<Made>
        ensures { MatchOption result (AreSettled now self.old)
            (λ read. (self.old ≡ read ∷ self.new) × (now ≤ read.tick)) }
    {
        if self.len == 0 {
            return None;
        }
        let youngest = self.notes[self.head];
        if youngest.tick < now {
            return None;
        }
        self.head = (self.head + 1) % KEPT;
        self.len -= 1;
        Some(youngest)
    }
}
