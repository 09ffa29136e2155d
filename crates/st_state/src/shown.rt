//! Three reads of a state as functions, where a caller's proof needs the clause and not the field:
//! the program counter (half-words), the interrupt flag, and the count of completed instructions.
//! `st_ahead`, `st_run`, `st_lines` and `st_account` call them. docs/machine.md describes the
//! state.
//!
//! Proved: each function returns its field of the state (`Machine` in specs/Machine.antt);
//! `counter_in` also gives the invariant `IsMachine` (clause `machine`) and that the counter is
//! below 2^19 (clause `bound`).
//!
//! Pinned, by the proofs of these four crates: the names and clauses. Free: the bodies.
ghost use Rattle.std.specs.Prelude.{◌≡◌, ◌<◌, ◌^◌};
ghost use Rattle.st_state.specs.Machine.{IsMachine};

use crate::State;

/// The program counter of a state, a half-word address.
pub fn counter_in(state: &State) -> u32
    ensures value { result ≡ state.now.ic }
    ensures bound { result < 2 ^ 19 }
    ensures machine { IsMachine state.now }
{
    state.ic
}

/// Whether interrupts are enabled in a state.
pub fn is_enabled(state: &State) -> bool
    ensures { result ≡ state.now.enabled }
{
    state.enabled
}

/// The number of completed instructions of a state.
pub fn done_in(state: &State) -> u64
    ensures { result ≡ state.now.done }
{
    state.done
}
