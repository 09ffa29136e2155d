//! Tests that no run covers: the decoding of the floating group (`st_format`), the budget of a
//! generated deck (`st_gen`), and a step of a plain state (`st_exec`).
//!
//! Proved: nothing here, except that the calls keep their preconditions; the specs of these three
//! crates state what the calls return. Pinned: bits and counts, by docs/instructions.md,
//! docs/deck.md and docs/interrupts.md, from which they are worked out by hand. Free: the tests,
//! which may be moved or extended, each without the others.

use crate::blank;
use st_exec::{Step, one};
use st_format::{Instr, decode};
use st_gen::make_deck;
use st_state::State;
use std::alloc::{AllocError, Global};
use std::test::Fail;

#[test]
fn bits_of_the_floating_group_spell_its_number(rt: HostRuntime) {
    // The address 100.0, number 3, and index word 5.
    let spelled = decode(0x0019_0605, 0).instr;
    let wanted = Instr::Floating {
        number: 3,
        address: 200,
        i: 5,
    };
    assert!(rt; spelled == wanted);
}

#[test]
fn a_made_deck_asks_for_two_instructions_more_than_cards(rt: HostRuntime) -> Result<(), Fail> {
    let Ok(deck) = make_deck(rt.alloc(), 1, 4) else {
        return Err(Fail::from(AllocError));
    };
    // No drawn card has a `/`.
    let at = deck.iter().position(|byte| *byte == b'/');
    let budget = at.ok_or("no control card")?;
    let card = deck.as_slice().split_at(budget).1;
    if card.starts_with(b"/BUDGET 6\n") {
        Ok(())
    } else {
        Err(Fail::new("another budget"))
    }
}

// A state whose interrupt table begins at word 200; word 213 contains an addition to index word 1,
// and so does the word at the instruction counter.
fn opened(alloc: Global) -> Result<State, Fail> {
    let mut state = blank::opened(alloc)?;
    state.store(2, 0x0032_0000_0000_0000);
    state.store(32, 0x0000_4330_0000_0970);
    state.store(213, 0x0000_4330_0000_0970);
    state.signal(13);
    Ok(state)
}

#[test]
fn a_step_takes_an_interrupt_before_the_instruction(rt: HostRuntime) -> Result<(), Fail> {
    let mut state = opened(rt.alloc())?;
    state.enabled = true;
    assert!(rt; state.done == 0);
    let step = one(&mut state);
    let taken = matches!(step, Step::Interrupt { indicator: 13 });
    assert!(rt; taken);
    assert_eq!(rt; (state.ic, state.done), (64, 1));
    Ok(())
}
