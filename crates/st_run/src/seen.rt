//! A view of the state of a machine, with the index words (index registers) that its entries in
//! flight, prepared and not complete, have already changed, or without. A snapshot shows this
//! state; storage is not copied. docs/report.md describes snapshots. `st_telling` writes the state
//! block from a view. Word addresses are below 98,304; words 16 to 31 are the index words.
//!
//! Proved, by the `ensures` clauses: a view by `new` reads the state; one by `with_index` reads
//! `with_index_words` of specs/Events.antt, the state with these index words. The counter is below
//! 2^19.
//!
//! Pinned, by that definition and docs/report.md: only index words are shown early; the counter and
//! all other words are those of the committed state. The public functions are used by `st_telling`
//! and `st_account`. Free: how the two parts are joined.
ghost use Rattle.std.specs.Prelude.{◌≡◌, ◌<◌, ◌^◌};
ghost use Rattle.st_bits.specs.declared.limits.TheConstants.{WORDS};
ghost use Rattle.st_state.specs.Machine.{word as word_of};
ghost use Rattle.st_run.specs.Events.{with_index_words};

use st_state::{State, counter_in, is_enabled};
use std::marker::Model;

/// A state, with the index words of the entries in flight.
#[derive(Drop)]
pub struct StateView<'a> {
    // The committed state.
    state: &'a State,
    // The sixteen index words, if entries in flight may have changed them.
    index: Option<&'a [u64; 16]>,
}

impl<'a> Model for StateView<'a> {
    ghost use Rattle.std.specs.Option.{option_map_or};
    ghost use Rattle.st_state.specs.Machine.{Machine};
    ghost use Rattle.st_run.specs.Events.{with_index_words};

    ghost Value = { Machine };

    ghost view = { λ s.
        option_map_or (λ xs. with_index_words xs.now s.state.now) s.index s.state.now };
}

impl<'a> StateView<'a> {
    ghost use Rattle.st_run.specs.Events.{with_index_words};

    /// A state without entries in flight.
    pub fn new(state: &'a State) -> StateView<'a>
        ensures { result ≡ state.now }
    {
        StateView { state, index: None }
    }

    /// A state with its index words replaced by these.
    pub fn with_index(state: &'a State, index: &'a [u64; 16]) -> StateView<'a>
        ensures { result ≡ with_index_words index.now state.now }
    {
        StateView {
            state,
            index: Some(index),
        }
    }

    /// The word at the word address `w`, below 98,304.
    pub fn word(&self, w: u32) -> u64
        requires { w < WORDS }
        ensures { result ≡ word_of self.now w }
    {
        match self.index {
            Some(index) => word_with(self.state, index, w),
            None => self.state.word(w),
        }
    }

    /// The program counter, a half-word address.
    pub fn ic(&self) -> u32
        ensures value { result ≡ self.now.ic }
        ensures bound { result < 2 ^ 19 }
    {
        counter_in(self.state)
    }

    /// Whether interrupts are enabled.
    pub fn enabled(&self) -> bool
        ensures { result ≡ self.now.enabled }
    {
        is_enabled(self.state)
    }
}

// The word at the word address `w` of a state with its index words replaced by these.
fn word_with(state: &State, index: &[u64; 16], w: u32) -> u64
    requires { w < WORDS }
    ensures { result ≡ word_of (with_index_words index.now state.now) w }
{
    let words = state.words();
    if w < 16 {
        return words[w as usize];
    }
    if w < 32 {
        return index[w as usize - 16];
    }
    words[w as usize]
}
