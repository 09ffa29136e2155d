//! The queue of pending reads, first in, first out: a memory request queue of at most 40 reads.
//! Each `Want` has a word address and the earliest tick; the purpose is the caller's number. No
//! program uses this queue: `st_rows` computes the ticks of reads in their order, without a queue.
//!
//! Proved: the calls are those of a list (push at the end, pop at the front; `window` of
//! specs/Queue.antt). `push` needs room, and `pop` a read, so no call fails.
//!
//! Pinned, by docs/CLAIMS.md, which offers `push`, `front` and `pop`: the calls with their clauses.
//! Free: `WANTS`, and the ring, as long as `window` gives the list and proofs/wants follows the
//! bodies.
ghost use Rattle.std.specs.Prelude.{◌≡◌, ◌≤◌, ◌<◌, ◌*◌, ◌%◌, [], ◌∷◌, ◌++◌, length, drop, slice_get, ◌==◌};

use std::marker::Model;

/// A pending read.
#[derive(Clone, Copy, Debug, Default, PartialEq, Eq)]
pub struct Want {
    /// The earliest tick at which the read is possible.
    pub tick: u64,
    /// The word address.
    pub w: u32,
    /// The purpose of the read: a number that the machine chooses and the queue does not interpret.
    pub purpose: u8,
}

/// The greatest number of pending reads.
pub const WANTS: usize = 40;

/// The queue of pending reads, at most WANTS, first in, first out. Contracts see their list, the
/// first one first.
#[derive(Drop)]
pub struct Wants {
    slots: [Want; WANTS],
    first: usize,
    len: usize,
}

impl Model for Wants {
    ghost use Rattle.std.specs.Prelude.{List, ◌≡◌, ◌<◌, ◌≤◌, length};
    ghost use Rattle.st_fetch.specs.Queue.{window};
    ghost use Rattle.st_fetch.specs.declared.wants.Want.{Want};
    ghost use Rattle.st_fetch.specs.declared.wants.TheConstants.{WANTS};

    ghost Value = { List Want };

    ghost view = { λ a. window a.first a.len a.slots };

    ghost invariant = { λ a. (a.first < WANTS) × (a.len ≤ WANTS) × (length a.slots ≡ WANTS) };
}

impl Wants {
    /// The empty queue.
    pub fn new() -> Wants
        ensures { result ≡ [] }
    {
        Wants {
            slots: [Want::default(); WANTS],
            first: 0,
            len: 0,
        }
    }

    /// The number of pending reads.
    pub fn len(&self) -> usize
        ensures value { result ≡ length self.now }
        ensures bound { result ≤ WANTS }
    {
        self.len
    }

    /// Whether the queue is empty.
    pub fn is_empty(&self) -> bool
        ensures { result ≡ (length self.now == 0) }
    {
        self.len() == 0
    }

    /// Adds a read at the end. The queue must have fewer than WANTS reads.
    pub fn push(&mut self, want: Want)
        requires { length self.old < WANTS }
        ensures { self.new ≡ self.old ++ want ∷ [] }
    {
        self.slots[slot(self.first + self.len)] = want;
        self.len += 1;
    }

    /// The first pending read; None if and only if the queue is empty.
    pub fn front(&self) -> Option<Want>
        ensures { result ≡ slice_get self.now 0 }
    {
        if self.len == 0 {
            None
        } else {
            Some(self.slots[self.first])
        }
    }

    /// Removes the first pending read. The queue must not be empty.
    pub fn pop(&mut self)
        requires { 0 < length self.old }
        ensures { self.new ≡ drop 1 self.old }
    {
        self.first = slot(self.first + 1);
        self.len -= 1;
    }

    /// Removes all pending reads.
    pub fn clear(&mut self)
        ensures { self.new ≡ [] }
    {
        self.len = 0;
    }
}

// The slot `i` places after the slot 0, with wraparound.
fn slot(i: usize) -> usize
    requires { i < 2 * WANTS }
    ensures { result ≡ i % WANTS }
{
    if i < WANTS { i } else { i - WANTS }
}
