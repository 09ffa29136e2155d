//! The levels of a machine, its entries in flight (prepared, not complete): they are pushed,
//! filled, completed and undone, together with their planned rows and the index words with early
//! changes. docs/timetable.md has the rules.
//!
//! Only `st_ahead` uses `Levels`: an entry is pushed at its P (tick of preparation), completed at
//! its C, and all levels are undone when a flush ends their segment. The caller passes the
//! committed state and the plan of `st_rows`.
//!
//! Proved, for all delays: levels that are the entries in flight after a state (`AreAhead` in
//! specs/Levels.antt) are so after each call; completion executes the next entry of the state
//! (`IsCompleted` there); `undo` restores the index words of the state.
//!
//! Pinned, by `AreAhead` and the proofs of `st_ahead`: the order of the levels, the public calls
//! with their clauses, and that `x` is taken from the state after a serializing entry. Free: the
//! two rings (ring.rt, plans.rt).
ghost use Rattle.std.specs.Prelude.{◌≡◌, ℕ, ◌<◌, ◌≤◌, ◌^◌, length, Option, None, Some, List, [], ◌∷◌, ◌++◌, slice_get, All, false, true};
ghost use Rattle.st_bits.specs.Indicators.{IsIndicatorIfAny};
ghost use Rattle.st_state.specs.Machine.{Machine, IsMachine, word as word_of};
ghost use Rattle.st_prep.specs.SpeculativeChanges.{words_after};
ghost use Rattle.st_prep.specs.Fetch.{index_words as index_words_of};
ghost use Rattle.st_prep.specs.Plan.{plan as plan_of};
ghost use Rattle.st_prep.specs.Ranges.{IsPrepared};
ghost use Rattle.st_exec.specs.Completion.{state_after_execution, prediction};
ghost use Rattle.st_rows.specs.Ranges.{AreDelaysUpTo};
ghost use Rattle.st_rows.specs.Rows.{row_of_entry, issue_after_entry};
ghost use Rattle.st_rows.specs.Words.{fills};
ghost use Rattle.st_rows.specs.declared.issue.IssueState.{IssueState as IssueStateOf};
ghost use Rattle.st_segment.specs.Entries.{entry};
ghost use Rattle.st_segment.specs.Predictions.{predictions, table_behind};
ghost use Rattle.st_segment.specs.Alone.{RunAhead};
ghost use Rattle.st_ring.specs.Levels.{LevelsView, AreLevelsSound, AreAhead, AreFull, AreNotDone, IsCompleted, due_of, is_oldest_due as is_due_of};
ghost use Rattle.st_ring.specs.PlannedRows.{planned_row};

use crate::filling::fill_all;
use crate::plans::{PlannedRow, PlannedRowRing};
use crate::ring::SpecRing;
use crate::slots::mispredicted;
use st_exec::complete_in;
use st_prep::{Prepared, change_index, index_words};
use st_rows::{Filled, IssueState};
use st_state::State;
use std::marker::Model;

/// The completion of a level.
#[derive(Clone, Copy, Debug, PartialEq, Eq)]
pub struct Completed {
    /// The half-word address of its entry.
    pub address: u32,
    /// P, the tick at which the entry was prepared.
    pub p: u64,
    /// R, the tick at which its operands had arrived.
    pub r: u64,
    /// The predicted counter, a half-word address, if the entry is mispredicted.
    pub mispredicted: Option<u32>,
}

/// The levels of a machine of N levels, 1 to 8, and the index words with their speculative changes.
#[derive(Drop)]
pub struct Levels<const N: usize> {
    ring: SpecRing<N>,
    plans: PlannedRowRing,
    x: [u64; 16],
}

// The view has the levels and the planned rows, oldest first, and the index words.
impl<const N: usize> Model for Levels<N> {
    ghost use Rattle.st_ring.specs.Levels.{LevelsView, AreLevelsSound};

    ghost Value = { LevelsView };

    ghost view = { λ levels. record { ring = levels.ring; plans = levels.plans; x = levels.x } };

    ghost invariant = { λ levels. AreLevelsSound N levels.ring levels.plans };
}

impl<const N: usize> Levels<N> {
    /// No levels; `x` has the index words of the state.
    pub fn new(x: [u64; 16]) -> Levels<N>
        requires some { 1 ≤ N }
        requires few { N ≤ 8 }
        ensures { result ≡ record { ring = []; plans = []; x = x } }
    {
        Levels {
            ring: SpecRing::new(),
            plans: PlannedRowRing::new(),
            x,
        }
    }

    /// The number of levels, at most N.
    pub fn len(&self) -> usize
        ensures value { result ≡ length self.now.ring }
        ensures within { result ≤ N }
        ensures beside { length self.now.plans ≡ length self.now.ring }
    {
        self.ring.len()
    }

    /// The levels, oldest first.
    pub fn ring(&self) -> &SpecRing<N>
        ensures levels { result.now ≡ self.now.ring }
        ensures few { length self.now.ring ≤ N }
    {
        &self.ring
    }

    /// The index words with the speculative changes of all levels.
    pub fn index(&self) -> &[u64; 16]
        ensures words { result.now ≡ self.now.x }
        ensures few { length self.now.ring ≤ N }
    {
        &self.x
    }

    /// The planned row of level k, which must exist; level 0 is the oldest.
    pub fn plan(&self, k: usize) -> &PlannedRow
        requires { k < length self.now.ring }
        ensures { slice_get self.now.plans k ≡ Some result.now }
    {
        self.plans.get(k)
    }

    /// Appends the level of an entry that is issued from `issue` with the row `filled`. The entry
    /// changes its index word, and its slots are empty. There must be room.
    pub fn push(&mut self, prepared: &Prepared, issue: &IssueState, filled: &Filled)
        requires room { length self.old.ring < N }
        requires prepared { IsPrepared prepared.now }
        ensures ring { self.new.ring ≡ self.old.ring ++ (record {
          prepared = prepared.now;
          p = filled.now.row.p;
          r = filled.now.row.p;
          have = None ∷ None ∷ [];
        }) ∷ [] }
        ensures plans { self.new.plans ≡ self.old.plans ++ planned_row issue.now filled.now ∷ [] }
        ensures index { self.new.x ≡ words_after self.old.x prepared.now.index }
        ensures few { length self.new.ring ≤ N }
        ensures not_done { (now : ℕ) → AreNotDone now self.old → now < filled.now.row.c →
            AreNotDone now self.new }

        // If the levels are the entries in flight, none of them serializing, and this is the next
        // entry, they are still the entries in flight after the call.
        ensures ahead { (ds : List ℕ) (n tick : ℕ) (t : Option ℕ) (s : Machine)
            (f last : IssueStateOf) →
            let k = length self.old.ring in let u = predictions k t s in let i = table_behind k t in
            IsMachine s → IsIndicatorIfAny t →
            AreAhead ds n tick t s f last self.old → RunAhead k t s →
            issue.now ≡ last → prepared.now ≡ plan_of u i →
            filled.now.row ≡ row_of_entry ds n last (entry i u) →
            filled.now.fills ≡ fills ds n last (entry i u) →
            AreAhead ds n tick t s f (issue_after_entry ds n last (entry i u)) self.new }
    {
        change_index(prepared.index, &mut self.x);
        self.ring
            .push_prepared(prepared, filled.row.p, [None, None]);
        self.plans.push(issue, filled);
    }

    /// The tick at which the oldest level completes, 2^64 - 1 if there is none.
    pub fn due(&self) -> u64
        ensures tick { result ≡ due_of self.now.plans }
        ensures few { length self.now.ring ≤ N }
    {
        if self.plans.len() == 0 {
            return u64::MAX;
        }
        self.plans.get(0).c
    }

    /// Whether the oldest level completes at the tick `now`.
    pub fn is_due(&self, now: u64) -> bool
        ensures value { result ≡ is_due_of self.now.plans now }
        ensures some { result ≡ true → 0 < length self.now.ring }
        ensures few { length self.now.ring ≤ N }
    {
        self.len() > 0 && self.plans.get(0).c == now
    }

    /// Completes the oldest level, which must exist: executes its entry with the operands of the
    /// state, and removes it. After a serializing entry the index words are those of the state.
    /// Fewer than 2^63 instructions must be completed before.
    pub fn complete(&mut self, state: &mut State) -> Completed
        requires some { 0 < length self.old.ring }
        requires few { state.old.done < 2 ^ 63 }
        ensures { (ds : List ℕ) (n tick : ℕ) (t : Option ℕ) (s : Machine) (f last : IssueStateOf) →
            IsMachine s → IsIndicatorIfAny t → AreAhead ds n tick t s f last self.old →
            s ≡ state.old →
            (state.new ≡ state_after_execution t s) × IsCompleted ds n t s f result
            × AreAhead ds n tick None (prediction t s)
            (issue_after_entry ds n f (entry t s)) last self.new
            × (AreFull ds n tick t s f self.old.ring → AreFull ds n tick None (prediction t s)
            (issue_after_entry ds n f (entry t s)) self.new.ring) }
    {
        let r = self.plans.get(0).r;
        let level = self.ring.oldest();
        let mispredicted = mispredicted(&level.prepared, state);
        complete_in(&level.prepared, state);
        renew(&mut self.x, level.prepared.serial, state);
        let done = Completed {
            address: level.prepared.place.address,
            p: level.p,
            r,
            mispredicted,
        };
        self.ring.drop_oldest();
        self.plans.drop_first();
        done
    }

    /// Puts the operand words that have arrived by the tick `now` into their slots, if these are
    /// empty. Their contents are those of the state.
    pub fn fill(&mut self, state: &State, now: u64)
        ensures plans { self.new.plans ≡ self.old.plans }
        ensures index { self.new.x ≡ self.old.x }
        ensures len { length self.new.ring ≡ length self.old.ring }
        ensures few { length self.new.ring ≤ N }

        // If all levels are prepared by then and none completes by then, they stay the entries in
        // flight: no older level writes a word that has arrived, so the state has its content.
        ensures ahead { (ds : List ℕ) (n tick most : ℕ) (t : Option ℕ) (s : Machine)
            (f last : IssueStateOf) →
            AreDelaysUpTo most ds → IsMachine s → IsIndicatorIfAny t →
            AreAhead ds n tick t s f last self.old →
            tick ≤ now → All (λ level. level.p ≤ now) self.old.ring → AreNotDone now self.old →
            ((w : ℕ) → word_of state.now w ≡ word_of s w) →
            AreAhead ds n now t s f last self.new × AreFull ds n now t s f self.new.ring }
    {
        fill_all(&mut self.ring, &self.plans, state, now);
    }

    /// Restores the index words from before all levels, removes the levels, and returns their
    /// number.
    pub fn undo(&mut self) -> u8
        ensures empty { (self.new.ring ≡ []) × (self.new.plans ≡ []) }
        ensures count { result ≡ length self.old.ring }
        ensures few { length self.old.ring ≤ N }
        ensures words { (ds : List ℕ) (n tick : ℕ) (t : Option ℕ) (s : Machine) (f last : IssueStateOf) →
            IsMachine s → IsIndicatorIfAny t → AreAhead ds n tick t s f last self.old →
            self.new.x ≡ index_words_of s }
    {
        self.plans.clear();
        self.ring.undo_into(&mut self.x)
    }
}

// Updates the index words after a completion: after a serializing entry they become those of the
// state.
fn renew(x: &mut [u64; 16], alone: bool, state: &State)
    ensures alone { alone ≡ true → x.new ≡ index_words_of state.now }
    ensures stays { alone ≡ false → x.new ≡ x.old }
{
    if alone {
        *x = index_words(state);
    }
}
