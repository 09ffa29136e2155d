//! The undoing of a step: storage, registers, counter, flags, count and orders become those before
//! it. `undo` restores in reverse order of the writes: the puts of a card, the words that the entry
//! wrote, words 0 to 31, and the rest. back.rt calls `undo`; `st_plain` calls `keep` before a
//! predicted entry and `undo` after it. docs/machine.md ("Steps back") has the rules.
//!
//! Proved: the state is `state_undone` of specs/Undone.antt, and after a completion of the recorded
//! entry this is the state before it (clause `undone` of `keep`, also with another counter). Law:
//! `UndoingPassesRegistersOver` (specs/Laws.antt). Pinned: the reverse order, by `state_undone`,
//! docs/machine.md and vectors/back.txt. A new field of `State` has to be restored in
//! `restore_rest`, or the proof of `keep` fails. Free: the loops, if proofs/undoing follows.
ghost use Rattle.std.specs.Prelude.{◌≡◌, ◌+◌, ◌≤◌, ℕ};
ghost use Rattle.st_bits.specs.Storage.{words_of_storage};
ghost use Rattle.st_state.specs.Machine.{Machine};
ghost use Rattle.st_prep.specs.Ranges.{IsPrepared};
ghost use Rattle.st_exec.specs.Completion.{state_after_completion};
ghost use Rattle.st_exec.specs.Trails.{CanBePutBack};
ghost use Rattle.st_back.specs.Undone.{state_with_words, unput, with_rest, state_undone};
ghost use Rattle.st_back.specs.Steps.{IsStepSound};

use crate::kept::KeptStep;
use st_exec::{Trail, trail_of};
use st_prep::Prepared;
use st_state::State;

// Stores `len` words from the word address `w`, those of `words` from place `from`.
fn restore(w: u32, len: u8, from: u8, words: &[u64; 32], state: &mut State)
    requires inside { 1 ≤ len → w + len ≤ words_of_storage }
    requires few { from + len ≤ 32 }
    ensures { state.new ≡ state_with_words w len from words.now state.old }
{
    for k in 0..len {
        state.store(w + u32::from(k), words[(from + k) as usize]);
    }
}

// Undoes the puts since the step, the last one first.
fn remove_puts(kept: &KeptStep, state: &mut State)
    requires { IsStepSound kept.now }
    ensures { state.new ≡ unput kept.now.puts kept.now.places kept.now.contents state.old }
{
    let mut n = kept.puts as usize;
    'puts: while n > 0 {
        n -= 1;
        state.store(kept.places[n], kept.contents[n]);
    }
}

// Restores everything outside storage.
fn restore_rest(trail: &Trail, state: &mut State)
    requires { CanBePutBack trail.now }
    ensures { state.new ≡ with_rest trail.now state.old }
{
    state.done = trail.done;
    state.ic = trail.ic;
    state.enabled = trail.enabled;
    state.waiting = trail.waiting;
    state.reader = trail.reader;
    state.printer = trail.printer;
}

/// Records what is needed to undo an entry that was prepared in this state. After its completion,
/// with or without an update of the program counter, `undo` restores the state.
pub fn keep(p: &Prepared, state: &State) -> KeptStep
    requires prepared { IsPrepared p.now }
    ensures sound { IsStepSound result }
    ensures undone { (s : Machine) (ic : ℕ) → s ≡ record
        (state_after_completion p.now state.now) { ic = ic } →
        state_undone result s ≡ state.now }
{
    KeptStep {
        trail: trail_of(None, p, state),
        places: [0; 8],
        contents: [0; 8],
        puts: 0,
    }
}

/// Undoes a recorded step or entry.
#[tactic(auto, unfolding(crate::specs::Undone::state_undone), using(st_bits::specs::Storage::words_of_storage_is))]
pub fn undo(kept: &KeptStep, state: &mut State)
    requires { IsStepSound kept.now }
    ensures { state.new ≡ state_undone kept.now state.old }
{
    remove_puts(kept, state);
    let words = kept.trail.writes;
    let before = &kept.trail.before;
    restore(words.first, words.len, 0, before, state);
    restore(words.first2, words.len2, words.len, before, state);
    restore(0, 32, 0, &kept.trail.registers, state);
    restore_rest(&kept.trail, state);
}
