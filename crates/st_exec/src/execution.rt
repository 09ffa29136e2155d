//! The execution of one entry (instruction), from its preparation to its completion, and the
//! reading of its operand words. `execute` is a step without the choice whether an interrupt comes,
//! which step.rt makes. `read_operands` gives up to 32 words, those of a transmission; kept.rt
//! reads the old contents of written words by this function, too. docs/machine.md has the rules.
//!
//! Proved: the new state is `state_after_execution` of specs/Completion.antt; the operands are the
//! words of the two runs in order (`AreOperands` of specs/Operand.antt), and 0 after them (clause
//! `behind`). Fewer than 2^63 instructions must be complete, so that the count fits. Pinned, by
//! these definitions, docs/machine.md, step.rt and kept.rt: the clauses. Free: both bodies, if
//! proofs/execution follows `read_operands`.
ghost use Rattle.std.specs.Prelude.{◌≡◌, ℕ, ◌+◌, ◌-◌, ◌<◌, ◌≤◌, ◌^◌, slice_index};
ghost use Rattle.st_bits.specs.Indicators.{IsIndicatorIfAny};
ghost use Rattle.st_state.specs.Machine.{word as word_of};
ghost use Rattle.st_prep.specs.Ranges.{IsRuns, AreInside};
ghost use Rattle.st_exec.specs.Operand.{AreOperands};
ghost use Rattle.st_exec.specs.Completion.{state_after_execution};

use crate::completing::complete_in;
use st_prep::{Prepared, Words, plan_in};
use st_state::State;

// The operand in place `k`, 0 if there is none.
fn operand_at(words: Words, k: u8, state: &State) -> u64
    requires runs { IsRuns words }
    requires inside { AreInside words }
    ensures first { k < words.len → result ≡ word_of state.now (words.first + k) }
    ensures second { words.len ≤ k → k < words.len + words.len2
        → result ≡ word_of state.now (words.first2 + (k - words.len)) }
    ensures behind { words.len + words.len2 ≤ k → result ≡ 0 }
{
    if k < words.len {
        return state.word(words.first + u32::from(k));
    }
    let rest = k - words.len;
    if rest < words.len2 {
        state.word(words.first2 + u32::from(rest))
    } else {
        0
    }
}

/// The operand words, in order, read from the state. The remaining places are 0.
pub(crate) fn read_operands(words: Words, state: &State) -> [u64; 32]
    requires runs { IsRuns words }
    requires inside { AreInside words }
    ensures words { AreOperands words result state.now }
    ensures behind { (k : ℕ) → words.len + words.len2 ≤ k → k < 32 → slice_index result k ≡ 0 }
{
    let mut operands = [0; 32];
    for k in 0..words.len + words.len2 {
        operands[k as usize] = operand_at(words, k, state);
    }
    operands
}

/// Executes the next entry of a state, or the table instruction of the interrupt whose indicator is
/// in `table`.
pub fn execute(table: Option<u8>, state: &mut State)
    requires indicator { IsIndicatorIfAny table }
    requires few { state.old.done < 2 ^ 63 }
    ensures { state.new ≡ state_after_execution table state.old }
{
    let mut p = Prepared::default();
    plan_in(table, state, &mut p);
    complete_in(&p, state);
}
