//! The transfers of the reader and the printer between two instructions: eight words of a card to
//! storage, or eight words of storage to a line. The caller has found that there is an order, as
//! `requires` says, and that the order is due. `st_run` and `st_ahead` call both, `st_top` calls
//! `print_out` and repeats `read_in` where words must be recorded. `st_exch` makes the text of a
//! line. docs/machine.md has the rules.
//!
//! Proved: the state after is `read_in` or `printed_out` of specs/Transfer.antt: the order is gone,
//! and EOP is on, or EE if there is no card.
//!
//! Pinned, by these definitions, docs/machine.md, docs/CLAIMS.md and vectors/orders.txt: the
//! indicators; eight words, as in `HasArea` of `st_state`. Free: the bodies, if proofs/transfers
//! follows `store_card` and `words_at`.
ghost use Rattle.std.specs.Prelude.{◌≡◌, ◌+◌, ◌≤◌, IsSome, IfSome};
ghost use Rattle.st_bits.specs.Storage.{words_of_storage};
ghost use Rattle.st_state.specs.Machine.{IsMachine};
ghost use Rattle.st_exec.specs.Transfer.{all_stored, words_from, read_in as read_in_of, printed_out};

use st_bits::indicators::{END_EXCEPTION, END_OF_OPERATION};
use st_state::State;

// Writes the words of a card to the eight words from the word address `w`.
fn store_card(w: u32, card: &[u64; 8], state: &mut State)
    requires { w + 8 ≤ words_of_storage }
    ensures { state.new ≡ all_stored state.old w card.now }
{
    for k in 0..8 {
        state.store(w + k, card[k as usize]);
    }
}

// The eight words from the word address `w`.
fn words_at(w: u32, state: &State) -> [u64; 8]
    requires { w + 8 ≤ words_of_storage }
    ensures { result ≡ words_from state.now w 8 }
{
    let mut words = [0; 8];
    for k in 0..8 {
        words[k as usize] = state.word(w + k);
    }
    words
}

/// The reader's order takes effect: the words of the next card are written to its area, and EOP is
/// turned on; without a card, EE is turned on. The reader then has no order. `docs/machine.md`,
/// "Orders of the reader and of the printer", has the rule.
pub fn read_in(state: &mut State, card: Option<[u64; 8]>)
    requires { IsSome state.old.reader }
    ensures state { IfSome state.old.reader
        (λ order. state.new ≡ read_in_of state.old order.word card) }
    ensures after { IsMachine state.new }
{
    let Some(order) = state.reader else {
        unreachable!()
    };
    state.reader = None;
    let Some(card) = card else {
        state.signal(END_EXCEPTION);
        return;
    };
    store_card(order.word, &card, state);
    state.signal(END_OF_OPERATION);
}

/// The printer's order takes effect: returns the eight words of its area, which are printed, and
/// turns on EOP. The printer then has no order. `docs/machine.md`, "Orders of the reader and of the
/// printer", has the rule.
pub fn print_out(state: &mut State) -> [u64; 8]
    requires { IsSome state.old.printer }
    ensures words { IfSome state.old.printer (λ order. result ≡ words_from state.old order.word 8) }
    ensures state { state.new ≡ printed_out state.old }
    ensures before { IsMachine state.old }
    ensures after { IsMachine state.new }
{
    let Some(order) = state.printer else {
        unreachable!()
    };
    let words = words_at(order.word, state);
    state.printer = None;
    state.signal(END_OF_OPERATION);
    words
}
