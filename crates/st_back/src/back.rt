//! The last steps of a machine, recorded so that they can be undone: a ring buffer of 1 to 64
//! steps, whose oldest step is dropped when it is full. `forth` makes a step, `back` undoes the
//! newest, and `put` stores a word of a card between two steps, which `back` undoes with the step
//! before it. `st_top` uses it for `/BACK`. docs/machine.md ("Steps back") has the rules.
//!
//! Proved, by clauses of `forth`, `put` and `back`: `IsForth`, `IsPut` and `IsBack` of
//! specs/Steps.antt: the state after `back` is the one before the step and its puts. Laws:
//! `BackUndoesForth` and `BacksGiveTheStatesBefore` (specs/Laws.antt). In the code only `new`
//! allocates. Pinned: 64, the largest depth that a card can request, by docs/strap.md and
//! vectors/back.txt; at most eight puts for each step, as a card has eight words, by `IsStepSound`
//! (specs/Steps.antt); the calls, by `st_top` (beside.rt) and docs/CLAIMS.md. Free: another ring
//! buffer, if proofs/back follows.
ghost use Rattle.std.specs.Prelude.{◌≡◌, ◌<◌, ◌≤◌, ◌^◌, true, length, IfOk};
ghost use Rattle.st_bits.specs.Storage.{words_of_storage};
ghost use Rattle.st_exec.specs.Step.{IsStep};
ghost use Rattle.st_exec.specs.Trails.{CanBePutBack};
ghost use Rattle.st_back.specs.Steps.{none_of, newest_step, steps_with, IsForth, has_room, IsPut, IsBack};

use crate::kept::{KeptStep, noted};
use crate::undoing::undo;
use circular_buffer::HeapCircularBuffer;
use st_bits::NoMemory;
use st_exec::{Step, Trail, one_kept};
use st_state::State;
use std::alloc::Global;
use std::marker::Model;

/// The last steps of a machine, recorded so that they can be undone; the depth is their greatest
/// number.
#[derive(Drop)]
pub struct Back {
    ring: HeapCircularBuffer<KeptStep>,
}

// Contracts see the steps, the oldest first, and the depth.
impl Model for Back {
    ghost use Rattle.st_back.specs.Steps.{Steps, steps, AreStepsSound};

    ghost Value = { Steps };

    ghost view = { λ b. steps b.ring };

    ghost invariant = { λ b. AreStepsSound (steps b.ring) };
}

impl Back {
    /// An empty ring buffer of `depth` places, 1 to 64. The only error is a failed allocation; no
    /// later call allocates.
    pub fn new(alloc: Global, depth: u8) -> Result<Back, NoMemory>
        requires some { 1 ≤ depth }
        requires few { depth ≤ 64 }
        ensures { IfOk result (λ b. b ≡ none_of depth) }
    {
        let Ok(ring) = HeapCircularBuffer::with_capacity(alloc, depth as usize) else {
            return Err(NoMemory);
        };
        Ok(Back { ring })
    }

    /// Makes the next step as `st_exec::one` does, under the same condition, and records it, so
    /// that `back` undoes it. A full ring buffer drops its oldest step. If the result is `Waits`,
    /// nothing is recorded.
    pub fn forth(&mut self, state: &mut State) -> Step
        requires { state.old.done < 2 ^ 63 }
        ensures step { IsStep state.old state.new result }
        ensures kept { IsForth self.old self.new state.old state.new result }
    {
        let mut trail = Trail::default();
        let step = one_kept(state, &mut trail);
        match step {
            Step::Waits => {}
            Step::Plain => self.keep(trail),
            Step::Interrupt { .. } => self.keep(trail),
        }
        step
    }

    // Records a step, with no words put since.
    fn keep(&mut self, trail: Trail)
        requires { CanBePutBack trail }
        ensures { self.new ≡ steps_with trail self.old }
    {
        self.ring.push_back(KeptStep {
            trail,
            places: [0; 8],
            contents: [0; 8],
            puts: 0,
        });
    }

    /// Stores a word of a transfer at the word address `w`, and records its previous contents with
    /// the newest step. There is a step, and at most seven words were put since it was made.
    pub fn put(&mut self, state: &mut State, w: u32, word: u64)
        requires above { 32 ≤ w }
        requires inside { w < words_of_storage }
        requires room { has_room (newest_step self.old.kept) ≡ true }
        ensures { IsPut self.old self.new state.old state.new w word }
    {
        let Some(kept) = self.ring.pop_back() else {
            unreachable!()
        };
        self.ring.push_back(noted(kept, w, state.word(w)));
        state.store(w, word);
    }

    /// Undoes the newest step and removes it. Returns false and changes nothing if and only if
    /// there is none.
    pub fn back(&mut self, state: &mut State) -> bool
        ensures { IsBack self.old self.new state.old state.new result }
    {
        let Some(kept) = self.ring.pop_back() else {
            return false;
        };
        undo(&kept, state);
        true
    }

    /// The number of recorded steps.
    pub fn len(&self) -> usize
        ensures value { result ≡ length self.now.kept }
        ensures within { result ≤ self.now.depth }
    {
        self.ring.len()
    }
}
