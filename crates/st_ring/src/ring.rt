//! The ring of look-ahead levels (entries in flight), oldest first: at most N of eight slots, N
//! from 1 to 8.
//!
//! levels.rt uses the ring for its machine, and lends it to readers (`st_ahead`, `st_run`). `push`,
//! `get` and `retire` copy a level; only tests call them, and docs/CLAIMS.md offers them. The
//! machine writes in place by `push_prepared`. Undoing goes from the youngest level to the oldest,
//! because a later level can change the index word of an earlier level again.
//!
//! Proved: each call is one of a list, and `undo_into` gives `unwound` of specs/Unwinding.antt,
//! which are the first index words if each level kept the word that it replaced.
//!
//! Pinned, by `unwound`: the order of undoing. Pinned, by `IsLevelRing` of specs/LevelRing.antt:
//! eight slots. Pinned, by docs/CLAIMS.md: the calls that it names. Free: how the ring keeps its
//! list.
ghost use Rattle.std.specs.Prelude.{◌≡◌, ℕ, ◌+◌, ◌<◌, ◌≤◌, List, [], ◌∷◌, ◌++◌, length, drop, slice_get, slice_set, MatchOption, IfSome, Some};
ghost use Rattle.st_ring.specs.declared.level.Level.{Level as LevelOf};
ghost use Rattle.st_ring.specs.OneLevel.{HasNumber, level_with_word as filled_of, prepared_at};
ghost use Rattle.st_ring.specs.Unwinding.{index_words_after, Kept, put_back as put_back_of, unwound};

use crate::level::{Level, begin, put_word};
use st_prep::{IndexChange, Prepared};
use std::marker::Model;

// The largest number of levels.
const SLOTS: usize = 8;

/// At most N levels, oldest first; N is 1 to 8.
#[derive(Debug, Drop)]
pub struct SpecRing<const N: usize> {
    slots: [Level; SLOTS],
    head: usize,
    len: usize,
}

// The view is the list of levels, oldest first.
impl<const N: usize> Model for SpecRing<N> {
    ghost use Rattle.std.specs.Prelude.{List};
    ghost use Rattle.st_fetch.specs.Queue.{window};
    ghost use Rattle.st_ring.specs.declared.level.Level.{Level as LevelOf};
    ghost use Rattle.st_ring.specs.LevelRing.{IsLevelRing};

    ghost Value = { List LevelOf };

    ghost view = { λ ring. window ring.head ring.len ring.slots };

    ghost invariant = { λ ring. IsLevelRing N ring.head ring.len ring.slots };
}

impl<const N: usize> SpecRing<N> {
    /// A ring without levels.
    pub fn new() -> SpecRing<N>
        requires some { 1 ≤ N }
        requires few { N ≤ 8 }
        ensures { result ≡ [] }
    {
        SpecRing {
            slots: [Level::default(); SLOTS],
            head: 0,
            len: 0,
        }
    }

    /// The number of levels, at most N.
    pub fn len(&self) -> usize
        ensures value { result ≡ length self.now }
        ensures within { result ≤ N }
    {
        self.len
    }

    /// Appends a level as the youngest one. There must be room, and the number of the index word
    /// that it changes must be below 16.
    pub fn push(&mut self, level: Level)
        requires room { length self.old < N }
        requires number { HasNumber level }
        ensures levels { self.new ≡ self.old ++ level ∷ [] }
        ensures len { length self.new ≡ length self.old + 1 }
    {
        self.slots[(self.head + self.len) % SLOTS] = level;
        self.len += 1;
    }

    /// Appends the level of an entry that is prepared at the tick `p`, with the operand words that
    /// have arrived by then, as `push` does. The level is written in place.
    pub fn push_prepared(&mut self, prepared: &Prepared, p: u64, have: [Option<u64>; 2])
        requires room { length self.old < N }
        requires number { IfSome prepared.now.index (λ c. c.number < 16) }
        ensures levels { self.new ≡ self.old ++ prepared_at prepared.now p have ∷ [] }
        ensures len { length self.new ≡ length self.old + 1 }
    {
        let at = (self.head + self.len) % SLOTS;
        begin(&mut self.slots[at], prepared, p, have);
        self.len += 1;
    }

    /// The oldest level, which must exist.
    pub fn oldest(&self) -> &Level
        requires { 0 < length self.now }
        ensures level { self.now ≡ result.now ∷ drop 1 self.now }
        ensures number { HasNumber result.now }
    {
        &self.slots[self.head]
    }

    /// Removes the oldest level, which must exist.
    pub fn drop_oldest(&mut self)
        requires { 0 < length self.old }
        ensures levels { self.new ≡ drop 1 self.old }
        ensures len { length self.new + 1 ≡ length self.old }
    {
        self.head = (self.head + 1) % SLOTS;
        self.len -= 1;
    }

    /// Removes and returns the oldest level, which must exist.
    pub fn retire(&mut self) -> Level
        requires { 0 < length self.old }
        ensures level { self.old ≡ result ∷ self.new }
        ensures len { length self.new + 1 ≡ length self.old }
        ensures number { HasNumber result }
    {
        let oldest = *self.oldest();
        self.drop_oldest();
        oldest
    }

    /// A copy of level k, which must exist; level 0 is the oldest.
    pub fn get(&self, k: usize) -> Level
        requires { k < length self.now }
        ensures level { slice_get self.now k ≡ Some result }
        ensures number { HasNumber result }
    {
        *self.level(k)
    }

    /// Level k, which must exist; level 0 is the oldest.
    pub fn level(&self, k: usize) -> &Level
        requires { k < length self.now }
        ensures level { slice_get self.now k ≡ Some result.now }
        ensures number { HasNumber result.now }
    {
        &self.slots[(self.head + k) % SLOTS]
    }

    /// Puts an operand word that arrived at the tick into slot 0 or 1 of level k, where level 0 is
    /// the oldest. The level's `r` is raised to this tick, if it was earlier.
    pub fn fill(&mut self, k: usize, slot: u8, word: u64, tick: u64)
        requires level { k < length self.old }
        requires slot { slot < 2 }
        ensures levels { (level : LevelOf) → slice_get self.old k ≡ Some level
            → self.new ≡ slice_set self.old k (filled_of level slot word tick) }
        ensures len { length self.new ≡ length self.old }
    {
        let at = (self.head + k) % SLOTS;
        put_word(&mut self.slots[at], slot, word, tick);
    }

    /// Restores in `x` the index words that the levels replaced, the youngest level first, removes
    /// all levels, and returns their number.
    pub fn undo_into(&mut self, x: &mut [u64; 16]) -> u8
        ensures words { x.new ≡ unwound x.old self.old }
        ensures empty { self.new ≡ [] }
        ensures count { result ≡ length self.old }

        // If each level recorded the word that it replaced, the index words are those from before
        // all levels.
        ensures first_words { (first : List ℕ) → Kept first self.old → x.old
            ≡ index_words_after first self.old
            → x.new ≡ first }
    {
        let undone = self.len as u8;
        'levels: while let Some(level) = self.take_youngest() {
            put_back(x, level.prepared.index);
        }
        undone
    }

    // Removes and returns the youngest level, if there is one.
    fn take_youngest(&mut self) -> Option<Level>
        ensures level { MatchOption result ((self.old ≡ []) × (self.new ≡ []))
            (λ level. self.old ≡ self.new ++ level ∷ []) }
        ensures number { IfSome result HasNumber }
    {
        if self.len == 0 {
            return None;
        }
        self.len -= 1;
        Some(self.slots[(self.head + self.len) % SLOTS])
    }
}

// Restores the word that a change replaced.
fn put_back(x: &mut [u64; 16], change: Option<IndexChange>)
    requires { IfSome change (λ c. c.number < 16) }
    ensures { x.new ≡ put_back_of x.old change }
{
    if let Some(change) = change {
        x[change.number as usize] = change.kept;
    }
}
