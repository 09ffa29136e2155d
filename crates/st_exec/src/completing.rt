//! The second half of an instruction, the completion of a prepared entry: its effect on the state,
//! given its operands, and the counter after it. `st_ring` completes a level with `complete_in`; so
//! do `st_plain`, `st_sweep` and `st_account`, and execution.rt. kept.rt completes an entry with
//! `complete`, which takes the operands from its caller. docs/machine.md has the rules.
//!
//! Proved: the state after is `state_after_completion` of specs/Completion.antt, and the completion
//! of the next entry of a state is its execution (clause `step`). Laws of completions stand in
//! specs/Laws.antt, such as `EntriesLeaveStates` and `EntriesCountAsOne`.
//!
//! Pinned, by this definition and docs/machine.md, in this order: the interrupt of a table
//! instruction, the speculative change of an index word, the effect, then the counter (a half-word
//! address) and the count. Free: the split into functions, if proofs/completing follows.
ghost use Rattle.std.specs.Prelude.{◌≡◌, ℕ, ◌<◌, ◌^◌, false, Option};
ghost use Rattle.st_prep.specs.Entry.{reads};
ghost use Rattle.st_prep.specs.Plan.{plan};
ghost use Rattle.st_prep.specs.Ranges.{IsPrepared, HasFields, AreInside};
ghost use Rattle.st_exec.specs.Operand.{AreOperands, AreFirstOperands, AreRead};
ghost use Rattle.st_exec.specs.Completion.{is_taken as is_taken_of, target as target_of, counter as counter_of, state_counted_on, state_after_effect, state_after_completion, state_after_execution};

use crate::carrying::carry_out;
use crate::effects::effect_by;
use crate::operands::{first_operands, operand_field};
use crate::speculative::{change_speculatively, take};
use st_bits::part;
use st_bits::register::INDICATORS;
use st_format::Instr;
use st_prep::{Prepared, Words};
use st_state::State;

// Whether a branch on a bit or on an indicator is taken; false for other instructions.
fn is_taken(instr: &Instr, e: u32, operands: &[u64; 2], state: &State) -> bool
    requires inside { AreInside (reads instr.now e) }
    requires read { AreRead (reads instr.now e) operands.now state.now }
    ensures { result ≡ is_taken_of instr.now e state.now }
{
    match *instr {
        Instr::BitBranch { sense, .. } => {
            operand_field(operands, e, 1, state) == u64::from(sense)
        }
        Instr::IndBranch { sense, .. } => {
            part(state.word(INDICATORS), e % 64, 1) == u64::from(sense)
        }
        _ => false,
    }
}

// The target of a branch on a bit or on an indicator; `following` for other instructions.
fn target(instr: &Instr, following: u32) -> u32
    requires fields { HasFields instr.now }
    requires following { following < 2 ^ 19 }
    ensures value { result ≡ target_of instr.now following }
    ensures bound { result < 2 ^ 19 }
{
    match *instr {
        Instr::BitBranch { second, .. } | Instr::IndBranch { second, .. } => second,
        _ => following,
    }
}

// The program counter after an entry that is not suppressed.
fn counter(p: &Prepared, operands: &[u64; 2], state: &State) -> u32
    requires prepared { IsPrepared p.now }
    requires executed { p.now.suppressed ≡ false }
    requires read { AreRead p.now.reads operands.now state.now }
    ensures value { result ≡ counter_of p.now state.now }
    ensures bound { result < 2 ^ 19 }
{
    if is_taken(&p.instr, p.e, operands, state) {
        target(&p.instr, p.following)
    } else {
        p.following
    }
}

// Counts one more completed instruction and sets the program counter to the half-word address `h`.
fn count(state: &mut State, h: u32)
    requires counter { h < 2 ^ 19 }
    requires few { state.old.done < 2 ^ 63 }
    ensures { state.new ≡ state_counted_on state.old h }
{
    state.ic = h;
    state.done += 1;
}

// Applies the effect of an entry, given its operands, and updates the program counter.
fn finish(p: &Prepared, operands: &[u64; 2], state: &mut State)
    requires prepared { IsPrepared p.now }
    requires read { AreRead p.now.reads operands.now state.old }
    requires few { state.old.done < 2 ^ 63 }
    ensures { state.new ≡ state_after_effect p.now state.old }
{
    if p.suppressed {
        count(state, p.following);
        return;
    }
    let counter = counter(p, operands, state);
    let effect = effect_by(&p.instr, p.e, p.value, operands, state);
    carry_out(&effect, state);
    count(state, counter);
}

/// Completes a prepared entry, given its first two operands: applies its speculative change, then
/// its effect, then updates the program counter.
pub fn complete_with(p: &Prepared, operands: &[u64; 2], state: &mut State)
    requires prepared { IsPrepared p.now }
    requires operands { AreFirstOperands p.now.reads operands.now state.old }
    requires few { state.old.done < 2 ^ 63 }
    ensures { state.new ≡ state_after_completion p.now state.old }
{
    take(p.place.table, state);
    change_speculatively(p, state);
    finish(p, operands, state);
}

/// Completes a prepared entry: applies its speculative change, then its effect, then updates the
/// program counter. The first `p.reads.len` operands, and the next `p.reads.len2`, are the words of
/// the state that `p` reads. If the speculative change of the entry writes a register that is an
/// operand, the new contents are used. Returns the words that are written.
pub fn complete(p: &Prepared, operands: &[u64; 32], state: &mut State) -> Words
    requires prepared { IsPrepared p.now }
    requires operands { AreOperands p.now.reads operands.now state.old }
    requires few { state.old.done < 2 ^ 63 }
    ensures state { state.new ≡ state_after_completion p.now state.old }
    ensures written { result ≡ p.now.writes }

    // If `p` is the next entry of the state, or its table instruction, this is its execution.
    ensures step { (t : Option ℕ) → p.now ≡ plan state.old t → state.new
        ≡ state_after_execution t state.old }
{
    complete_with(p, &[operands[0], operands[1]], state);
    p.writes
}

/// Completes a prepared entry with its operands from the state.
pub fn complete_in(p: &Prepared, state: &mut State)
    requires prepared { IsPrepared p.now }
    requires few { state.old.done < 2 ^ 63 }
    ensures state { state.new ≡ state_after_completion p.now state.old }

    // If `p` is the next entry of the state, or its table instruction, this is its execution.
    ensures step { (t : Option ℕ) → p.now ≡ plan state.old t → state.new
        ≡ state_after_execution t state.old }
{
    let operands = first_operands(&p.reads, state);
    complete_with(p, &operands, state);
}
