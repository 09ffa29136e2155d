//! Disassembles a program into a deck of cards that assembles to it, or refuses it for too many
//! cards. docs/disassembly.md has the rules. `st_top` calls `disassemble` for the command of this
//! name.
//!
//! Proved: the deck is `deck_text` of specs/Deck.antt (clause `deck`), of at most 2,000,000 bytes
//! (`short`) and 20,000 cards (`few`); the errors are more cards, with their number, or no memory
//! (`Explains` of specs/Answers.antt). That the deck assembles to the program, with its start and
//! requests, is the law `DecksAssembleToTheirProgram` (specs/Laws.antt), proved from the
//! assembler's definitions. Not proved: that the deck is the shortest.
//!
//! Pinned, by the definition, docs/disassembly.md, docs/CLAIMS.md and vectors/decks.txt: the deck,
//! the clauses and `DisError`. Free: the body, if proofs/disassembling follows.

ghost use Rattle.std.specs.Prelude.{◌≡◌, ◌≤◌, IfOk, IfErr, length};
ghost use Rattle.st_bits.specs.declared.limits.TheConstants.{LONGEST_JOB, MOST_CARDS};
ghost use Rattle.st_object.specs.Object.{IsProgram};
ghost use Rattle.st_dis.specs.Deck.{program, deck_text, card_count};
ghost use Rattle.st_dis.specs.Answers.{Explains};

use crate::counting::card_count;
use crate::writing::push_deck;
use st_bits::limits::MOST_CARDS;
use st_card::Controls;
use st_expr::Symbols;
use std::alloc::Global;

/// Why a program has no deck.
#[derive(Clone, Copy, Debug, PartialEq, Eq)]
pub enum DisError {
    /// The deck would have more than 20,000 cards; `cards` is their number.
    TooManyCards { cards: u32 },
    /// Memory ran out.
    NoMemory,
}

/// Disassembles a program: returns a deck that assembles to it.
///
/// The preconditions are those of `st_object::write_object`: 98,304 words, the first 32 zero; a
/// half-word address below 2^19 as the start; controls within their limits, with a budget, at least
/// one delay, and no listing. `docs/disassembly.md` has the rules.
pub fn disassemble(
    alloc: Global,
    words: &[u64],
    start: u32,
    controls: &Controls,
) -> Result<Vec<u8>, DisError>
    requires { IsProgram (program words.now start controls.now) }

    // The result is exactly the specified deck, if that has at most 20,000 cards.
    ensures deck { let p = program words.now start controls.now in
        IfOk result (λ deck. deck.items ≡ deck_text p) }
    ensures few { let p = program words.now start controls.now in
        IfOk result (λ deck. card_count p ≤ MOST_CARDS) }
    ensures err { IfErr result (Explains (program words.now start controls.now)) }
    ensures short { IfOk result (λ deck. length deck.items ≤ LONGEST_JOB) }
{
    let symbols = Symbols::new(alloc);
    let cards = card_count(&symbols, words, controls);
    if cards > MOST_CARDS {
        return Err(DisError::TooManyCards { cards });
    }
    let mut deck = Vec::new(alloc);
    match push_deck(&mut deck, &symbols, words, start, controls) {
        Ok(()) => Ok(deck),
        Err(_) => Err(DisError::NoMemory),
    }
}
