//! The cards of the deck that the command `soak` makes from a seed: drawn statements, BEW and END,
//! then control cards. `st_top` (program.rt) and a test of `st_calls` call `make_deck`.
//! docs/deck.md has the rules.
//!
//! Proved, by the clauses of `make_deck`: the deck is the list of bytes `made_deck` of
//! specs/Deck.antt (`deck`), at most 40 bytes for a card and 300 more (`short`); the type of the
//! error has only the case that memory ran out. By the law `MadeDecksAreNotRefused`
//! (specs/Laws.antt of `st_laws`) the assembler accepts the deck, up to 19,980 drawn cards.
//!
//! Pinned, by `made_deck`, docs/deck.md and vectors/soak.txt: the deck of a seed; a changed draw
//! changes every deck. Free: the split into functions, if proofs/deck follows `push_drawn_cards`,
//! `push_delay_cards` and `make_deck`.

ghost use Rattle.std.specs.Prelude.{◌≡◌, ◌+◌, ◌*◌, ◌≤◌, ◌++◌, OnOk, IfOk, length};
ghost use Rattle.st_gen.specs.Deck.{after_cards, card, drawn_cards, control, delay_cards, closing_cards, made_deck};

use crate::form::form_of;
use crate::generator::Generator;
use crate::statement::draw_statement;
use st_bits::NoMemory;
use st_text::{open_line, push_decimal, push_short_decimal};
use std::alloc::{AllocError, Global};

// Appends a statement card.
#[tactic(auto, unfolding(crate::specs::Deck::card))]
fn push_card(deck: &mut Vec<u8>, text: &str) -> Result<(), AllocError>
    ensures { OnOk result (deck.new.items ≡ deck.old.items ++ card text.now) }
{
    deck.extend_from_slice(b"         ")?;
    deck.extend_from_slice(text.as_bytes())?;
    deck.extend_from_slice(b"\n")
}

// Appends this number of drawn cards.
fn push_drawn_cards(
    deck: &mut Vec<u8>,
    generator: &mut Generator,
    count: u32,
) -> Result<(), AllocError>
    ensures drawn { OnOk result (generator.new.x ≡ after_cards count generator.old.x) }
    ensures ok { OnOk result
        (deck.new.items ≡ deck.old.items ++ drawn_cards count generator.old.x) }
{
    // Proofs name the loops by their labels.
    'cards: for _ in 0..count {
        let form = form_of(generator.draw(8));
        let text = draw_statement(form, generator);
        push_card(deck, text.as_str())?;
    }
    Ok(())
}

// Appends a control card.
fn push_control(deck: &mut Vec<u8>, text: &str) -> Result<(), AllocError>
    ensures { OnOk result (deck.new.items ≡ deck.old.items ++ control text.now) }
{
    deck.extend_from_slice(text.as_bytes())?;
    deck.extend_from_slice(b"\n")
}

// Appends this number of cards, each with a delay.
fn push_delay_cards(
    deck: &mut Vec<u8>,
    generator: &mut Generator,
    count: u32,
) -> Result<(), AllocError>
    ensures { OnOk result (deck.new.items ≡ deck.old.items ++ delay_cards count generator.old.x) }
{
    'delays: for _ in 0..count {
        let mut text = open_line("/DELAYS ");
        push_short_decimal(&mut text, 1 + generator.draw(20));
        push_control(deck, text.as_str())?;
    }
    Ok(())
}

// Appends the cards after the drawn ones.
fn push_closing_cards(
    deck: &mut Vec<u8>,
    generator: &mut Generator,
    cards: u32,
) -> Result<(), AllocError>
    ensures { OnOk result (deck.new.items ≡ deck.old.items ++ closing_cards cards generator.old.x) }
{
    let mut budget = open_line("/BUDGET ");
    push_decimal(&mut budget, u64::from(cards) + 2);
    push_card(deck, "BEW")?;
    push_card(deck, "END,32.0")?;
    push_control(deck, budget.as_str())?;
    push_delay_cards(deck, generator, 16)?;
    push_control(deck, "/TIME")
}

// Appends the whole deck.
fn push_deck(deck: &mut Vec<u8>, number: u64, cards: u32) -> Result<(), AllocError>
    ensures { OnOk result (deck.new.items ≡ deck.old.items ++ made_deck number cards) }
{
    let mut generator = Generator { x: number };
    push_drawn_cards(deck, &mut generator, cards)?;
    push_closing_cards(deck, &mut generator, cards)
}

/// Makes the deck of the seed `number`: `cards` drawn cards, the END card, and control cards that
/// request a budget of `cards` plus two instructions, sixteen delays of 1 to 20 ticks, and timing.
/// `soak` uses 1 to 4,000 cards; this call makes a deck of any number. The only error is that
/// memory ran out. `docs/deck.md` has the rules.
pub fn make_deck(alloc: Global, number: u64, cards: u32) -> Result<Vec<u8>, NoMemory>
    ensures deck { IfOk result (λ deck. deck.items ≡ made_deck number cards) }
    ensures short { IfOk result (λ deck. length deck.items ≤ 40 * cards + 300) }
{
    let mut deck = Vec::new(alloc);
    push_deck(&mut deck, number, cards).map_err(|_| NoMemory)?;
    Ok(deck)
}
