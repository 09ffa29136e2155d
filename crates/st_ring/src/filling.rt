//! The operand words that arrive in the slots of levels (entries in flight): the first two operand
//! words of an entry, as soon as storage has answered them. docs/timetable.md has the rules.
//!
//! levels.rt calls `fill_all`, the only public function, when a tick is over. The contents come
//! from the state: no older level writes a word that has arrived. Completion does not use the
//! slots; they belong to the ring that a machine lends to readers.
//!
//! Proved, by the clause `levels` of `fill_all`: each level becomes `level_with_words` of
//! specs/Slots.antt, at the arrival ticks of its planned row (plans.rt). A register arrives when
//! the entry is prepared. Transmissions have no slots.
//!
//! Pinned, by specs/Slots.antt and `have` of `Level` (level.rt): two slots. Free: the early tests,
//! which save time.
ghost use Rattle.std.specs.Prelude.{◌≡◌, ◌≢◌, ℕ, ◌+◌, ◌<◌, ◌≤◌, true, length, slice_get, slice_set, All, None, Some, Option};
ghost use Rattle.st_prep.specs.Ranges.{IsPrepared};
ghost use Rattle.st_ring.specs.declared.level.Level.{Level as LevelOf};
ghost use Rattle.st_ring.specs.Slots.{fill_tick as fill_tick_of, slot_of, coming as coming_of, came_at as came_at_of, level_with_slot, level_with_words};
ghost use Rattle.st_ring.specs.declared.plans.PlannedRow.{PlannedRow as PlannedRowOf};

use crate::level::Level;
use crate::plans::{PlannedRow, PlannedRowRing};
use crate::ring::SpecRing;
use crate::slots::is_transmission;
use st_bits::register::FIRST_STORAGE_WORD;
use st_prep::Prepared;
use st_state::State;

// The arrival tick of operand word `k`, given those of the first two operand words that are not
// registers.
fn fill_tick(p: &Prepared, fills: &[u64; 2], k: u8) -> u64
    requires prepared { IsPrepared p.now }
    requires slot { k < 2 }
    requires above { 32 ≤ p.now.reads.first + k }
    ensures { result ≡ fill_tick_of fills.now p.now (p.now.reads.first + k) }
{
    let w = p.reads.first + u32::from(k);
    if p.reads.first >= FIRST_STORAGE_WORD {
        fills[(w - p.reads.first) as usize]
    } else {
        fills[(w - FIRST_STORAGE_WORD) as usize]
    }
}

// The content in the state of operand word `k`, if it has arrived by the tick `now`.
#[tactic(auto, unfolding(crate::specs::Slots::slot_of))]
fn slot(p: &Prepared, fills: &[u64; 2], k: u8, state: &State, now: u64) -> Option<u64>
    requires prepared { IsPrepared p.now }
    requires slot { k < 2 }
    ensures { result ≡ slot_of fills.now p.now state.now now k }
{
    if is_transmission(&p.instr) || k >= p.reads.len {
        return None;
    }
    let w = p.reads.first + u32::from(k);
    if w < FIRST_STORAGE_WORD || fill_tick(p, fills, k) <= now {
        Some(state.word(w))
    } else {
        None
    }
}

// The word that has arrived by the tick `now` for slot `k` of a level, if the slot is empty. Most
// levels await no word; this is tested first.
#[tactic(auto, unfolding(crate::specs::Slots::slot_of))]
fn coming(level: &Level, fills: &[u64; 2], k: u8, state: &State, now: u64) -> Option<u64>
    requires prepared { IsPrepared level.now.prepared }
    requires slot { k < 2 }
    ensures { result ≡ coming_of fills.now level.now state.now now k }
{
    if k >= level.prepared.reads.len {
        return None;
    }
    match level.have[k as usize] {
        Some(_) => None,
        None => slot(&level.prepared, fills, k, state, now),
    }
}

// The arrival tick of operand word `k`: a register is available when the entry is prepared.
fn came_at(level: &Level, fills: &[u64; 2], k: u8) -> u64
    requires prepared { IsPrepared level.now.prepared }
    requires slot { k < 2 }
    ensures { result ≡ came_at_of fills.now level.now k }
{
    if level.prepared.reads.first + u32::from(k) < FIRST_STORAGE_WORD {
        level.p
    } else {
        fill_tick(&level.prepared, fills, k)
    }
}

// Whether there is neither word.
fn are_none(first: Option<u64>, second: Option<u64>) -> bool
    ensures { result ≡ true → (first ≡ None) × (second ≡ None) }
{
    first.is_none() && second.is_none()
}

// Puts the word, if there is one, into a slot of level k, with its arrival tick.
fn put<const N: usize>(ring: &mut SpecRing<N>, k: usize, slot: u8, word: Option<u64>, tick: u64)
    requires level { k < length ring.old }
    requires slot { slot < 2 }
    ensures levels { (level : LevelOf) → slice_get ring.old k ≡ Some level
        → ring.new ≡ slice_set ring.old k (level_with_slot level slot word tick) }
    ensures len { length ring.new ≡ length ring.old }
{
    if let Some(word) = word {
        ring.fill(k, slot, word, tick);
    }
}

// Puts the words that have arrived by the tick `now` into the empty slots of level k.
fn fill_level<const N: usize>(
    ring: &mut SpecRing<N>,
    k: usize,
    plan: &PlannedRow,
    state: &State,
    now: u64,
)
    requires level { k < length ring.old }
    requires prepared { (level : LevelOf) → slice_get ring.old k ≡ Some level →
        IsPrepared level.prepared }
    ensures levels { (level : LevelOf) → slice_get ring.old k ≡ Some level
        → slice_get ring.new k ≡ Some (level_with_words plan.now.fills state.now now level) }
    ensures others { (i : ℕ) → i ≢ k → slice_get ring.new i ≡ slice_get ring.old i }
    ensures len { length ring.new ≡ length ring.old }
{
    let read = ring.level(k);
    let first = coming(read, &plan.fills, 0, state, now);
    let second = coming(read, &plan.fills, 1, state, now);
    if are_none(first, second) {
        return;
    }
    let once = came_at(read, &plan.fills, 0);
    let twice = came_at(read, &plan.fills, 1);
    put(ring, k, 0, first, once);
    put(ring, k, 1, second, twice);
}

// Puts the words that have arrived by the tick `now` into the empty slots of all levels.
pub(crate) fn fill_all<const N: usize>(
    ring: &mut SpecRing<N>,
    plans: &PlannedRowRing,
    state: &State,
    now: u64,
)
    requires beside { length plans.now ≡ length ring.old }
    requires prepared { All (λ level. IsPrepared level.prepared) ring.old }
    ensures levels { (k : ℕ) (level : LevelOf) (q : PlannedRowOf) →
        slice_get ring.old k ≡ Some level →
        slice_get plans.now k ≡ Some q
        → slice_get ring.new k ≡ Some (level_with_words q.fills state.now now level) }
    ensures len { length ring.new ≡ length ring.old }
{
    'filling: for k in 0..ring.len() {
        fill_level(ring, k, plans.get(k), state, now);
    }
}
