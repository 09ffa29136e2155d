//! Copies and exchanges of words (the operations T and SWAP), one word at a time: if the areas
//! overlap, a moved word can be moved again. Only carrying.rt calls `copy` and `exchange`; `count`
//! is 1 to 16, and both areas lie in storage (`AreRuns`), registers included, whose fixed bits
//! stay. docs/machine.md has the rule.
//!
//! Proved: the state is `state_with_copy` or `state_with_exchange` of specs/Effect.antt.
//!
//! Pinned, by these definitions, docs/machine.md and vectors/moves.txt: one word at a time from the
//! first, because overlapping areas show the order; a block copy would be wrong. Free: the form of
//! the loops, if proofs/transmission follows.
ghost use Rattle.std.specs.Prelude.{◌≡◌};
ghost use Rattle.st_exec.specs.Effect.{AreRuns, state_with_copy, state_with_exchange};

use st_state::State;

/// Copies `count` words from the word address `from` to those from `to`.
pub fn copy(from: u32, to: u32, count: u8, state: &mut State)
    requires { AreRuns from to count }
    ensures { state.new ≡ state_with_copy from to count state.old }
{
    for k in 0..u32::from(count) {
        let word = state.word(from + k);
        state.store(to + k, word);
    }
}

/// Exchanges `count` words from the word address `from` with those from `to`.
pub fn exchange(from: u32, to: u32, count: u8, state: &mut State)
    requires { AreRuns from to count }
    ensures { state.new ≡ state_with_exchange from to count state.old }
{
    for k in 0..u32::from(count) {
        let (first, second) = (state.word(from + k), state.word(to + k));
        state.store(from + k, second);
        state.store(to + k, first);
    }
}
