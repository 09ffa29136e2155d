//! A step with a record of everything that is needed to undo the step: the previous contents of the
//! words that the step writes, and the previous registers, counter, flags, count and orders.
//! `st_back` makes its steps with `one_kept`, and records other entries with `trail_of`, for
//! `st_plain`, which undoes them. docs/machine.md ("Steps back") has the rules.
//!
//! Proved: the step is that of `one` (`IsStep` of specs/Step.antt), the trail records the state
//! before it (`TrailKeeps` of specs/Trails.antt), and the trail can be restored (`CanBePutBack`).
//! That undoing restores the state is the law `BackUndoesForth` (specs/Laws.antt of `st_back`).
//!
//! Pinned, by these definitions, docs/CLAIMS.md, vectors/back.txt and `st_back`: the calls and
//! `Trail`, with 32 places, as an entry writes two runs of at most 16 words; a new field of `State`
//! needs a field here. Free: the bodies, if proofs/kept follows.
ghost use Rattle.std.specs.Prelude.{◌≡◌, ℕ, ◌<◌, ◌^◌, slice_index};
ghost use Rattle.st_state.specs.Machine.{word as word_of};
ghost use Rattle.st_prep.specs.Ranges.{IsPrepared};
ghost use Rattle.st_exec.specs.Step.{IsStep};
ghost use Rattle.st_exec.specs.Trails.{TrailKeeps, CanBePutBack, IsKeptStep};

use crate::completing::complete;
use crate::execution::read_operands;
use crate::step::{Step, interrupt, is_at_rest};
use st_prep::{Prepared, Words, plan_in};
use st_state::{Order, State};

/// A record of a state before a step, and of the words that the step reads and writes.
#[derive(Clone, Copy, Debug, Default, PartialEq, Eq)]
pub struct Trail {
    /// The word address of the index-side word, if there is one.
    pub index_read: Option<u32>,
    /// The operand words that the step reads.
    pub reads: Words,
    /// The words that the step writes.
    pub writes: Words,
    /// The previous contents of the written words, in order; the remaining places are 0.
    pub before: [u64; 32],
    /// The previous contents of words 0 to 31.
    pub registers: [u64; 32],
    /// The previous count of completed instructions.
    pub done: u64,
    /// The previous program counter, a half-word address below 2^19.
    pub ic: u32,
    /// Whether interrupts were enabled before the step.
    pub enabled: bool,
    /// Whether the machine waited before the step.
    pub waiting: bool,
    /// The previous order of the card reader.
    pub reader: Option<Order>,
    /// The previous order of the line printer.
    pub printer: Option<Order>,
}

// Words 0 to 31 of a state.
fn registers(state: &State) -> [u64; 32]
    ensures { (w : ℕ) → w < 32 → slice_index result w ≡ word_of state.now w }
{
    let mut registers = [0; 32];
    for w in 0..32 {
        registers[w] = state.word(w as u32);
    }
    registers
}

/// The trail of a state before a prepared entry completes; `side` is the address of the entry's
/// index-side word.
pub fn trail_of(side: Option<u32>, p: &Prepared, state: &State) -> Trail
    requires prepared { IsPrepared p.now }
    ensures keeps { TrailKeeps state.now result }
    ensures fits { CanBePutBack result }
    ensures side { result.index_read ≡ side }
    ensures reads { result.reads ≡ p.now.reads }
    ensures writes { result.writes ≡ p.now.writes }
{
    Trail {
        index_read: side,
        reads: p.reads,
        writes: p.writes,
        before: read_operands(p.writes, state),
        registers: registers(state),
        done: state.done,
        ic: state.ic,
        enabled: state.enabled,
        waiting: state.waiting,
        reader: state.reader,
        printer: state.printer,
    }
}

/// Makes the next step as `one` does, under the same condition, and records in `trail` what is
/// needed to undo it. If the result is `Waits`, the state and `trail` are unchanged.
pub fn one_kept(state: &mut State, trail: &mut Trail) -> Step
    requires { state.old.done < 2 ^ 63 }
    ensures step { IsStep state.old state.new result }
    ensures kept { IsKeptStep state.old trail.old trail.new result }
{
    if is_at_rest(state) {
        return Step::Waits;
    }
    let taken = interrupt(state);
    let mut p = Prepared::default();
    let side = plan_in(taken, state, &mut p);
    *trail = trail_of(side, &p, state);
    let operands = read_operands(p.reads, state);
    complete(&p, &operands, state);
    match taken {
        Some(indicator) => Step::Interrupt { indicator },
        None => Step::Plain,
    }
}
