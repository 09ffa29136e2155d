//! One step of the machine: the instruction at the program counter, or an interrupt. No program
//! calls `one`; docs/CLAIMS.md offers `one`, tests in `st_calls` call it, and `st_back` makes the
//! same steps by `one_kept`. `st_ahead`, `st_sweep`, `st_run`, `st_top` and `st_account` use
//! `interrupt`, `is_at_rest` or `next_address` for their decisions between entries. docs/machine.md
//! ("A step") has the rules.
//!
//! Proved: the results are `step`, `interrupt`, `rests` and `address` of specs/Step.antt. That the
//! overlapped machine makes these steps is the law `CompletionsAreSteps` (specs/Laws.antt of
//! `st_refine`).
//!
//! Pinned, by these definitions, docs/machine.md, docs/CLAIMS.md and vectors/interrupts.txt: an
//! interrupt comes before the instruction, the leftmost pending indicator interrupts, and a machine
//! that waits makes no step until an indicator is pending. Free: the bodies. The count of completed
//! instructions must be below 2^63. No call allocates.
ghost use Rattle.std.specs.Prelude.{◌≡◌, ◌<◌, ◌^◌};
ghost use Rattle.st_bits.specs.Indicators.{IsIndicatorIfAny};
ghost use Rattle.st_exec.specs.Step.{interrupt as interrupt_of, address as address_of, rests, IsStep};

use crate::execution::execute;
use st_prep::place_of;
use st_state::State;

/// The result of a call of `one`.
#[derive(Clone, Copy, Debug, PartialEq, Eq)]
pub enum Step {
    /// The instruction at the program counter was executed or suppressed.
    Plain,
    /// An interrupt by this indicator, 0 to 63, was taken, and its table instruction was executed
    /// or suppressed.
    Interrupt { indicator: u8 },
    /// The machine waits and no indicator is pending: the state is unchanged.
    Waits,
}

/// The indicator that interrupts before the next instruction, 0 to 63; None if there is none.
pub fn interrupt(state: &State) -> Option<u8>
    ensures value { result ≡ interrupt_of state.now }
    ensures bound { IsIndicatorIfAny result }
{
    if state.enabled { state.pending() } else { None }
}

/// The half-word address of the instruction that the next step executes: the program counter, or
/// the left half of the word of the interrupt table.
pub fn next_address(state: &State) -> u32
    ensures value { result ≡ address_of state.now }
    ensures bound { result < 2 ^ 19 }
{
    place_of(state, interrupt(state)).address
}

/// Whether the machine waits and no indicator is pending.
pub fn is_at_rest(state: &State) -> bool
    ensures { result ≡ rests state.now }
{
    state.waiting && state.pending().is_none()
}

/// Makes the next step: an interrupt if one is pending, otherwise the instruction at the program
/// counter. It counts as one completed instruction. If the result is `Waits`, the state is
/// unchanged. The count of completed instructions must be below 2^63. `docs/machine.md` has the
/// rules.
pub fn one(state: &mut State) -> Step
    requires { state.old.done < 2 ^ 63 }
    ensures { IsStep state.old state.new result }
{
    if is_at_rest(state) {
        return Step::Waits;
    }
    let taken = interrupt(state);
    execute(taken, state);
    match taken {
        Some(indicator) => Step::Interrupt { indicator },
        None => Step::Plain,
    }
}
