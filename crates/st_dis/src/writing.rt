//! Writes a deck: the cards of words that are not zero, END, and the control cards.
//! docs/disassembly.md has the rules. disassembling.rt calls `push_deck` after counting.rt has
//! counted the cards.
//!
//! Proved: exactly the cards of specs/Deck.antt (`deck_text`) are appended, unless memory runs out.
//! The law `CardsAreLines` (specs/Laws.antt) says that cards have only visible characters and
//! blanks.
//!
//! Pinned, by specs/Deck.antt, docs/disassembly.md and vectors/decks.txt: cards and their order: a
//! run of words begins with a card SLC, and a word is one full-word statement, two half-word ones,
//! or a number; BLANKS, the nine blanks of `statement_card`. Free: the split into functions, if
//! proofs/writing follows the loop of `push_words`.

ghost use Rattle.std.specs.Prelude.{◌≡◌, ◌≤◌, ◌++◌, [], ◌∷◌, OnOk, map, length};
ghost use Rattle.st_bits.specs.declared.limits.TheConstants.{WORDS};
ghost use Rattle.st_card.specs.Written.{text_of_lines};
ghost use Rattle.st_dis.specs.Deck as spec;
ghost use Rattle.st_dis.specs.Spelling.{statements_of};

use crate::spelling::{half_spelling, left_half, right_half, word_spelling};
use st_card::{ControlForm, Controls, push_controls};
use st_expr::Symbols;
use st_text::{Line, open_line, push_decimal, push_half_address, push_short_decimal};
use std::alloc::AllocError;

// The columns before a statement, which begins in column 10; pinned by `statement_card`.
const BLANKS: &[u8] = b"         ";

// Appends a statement card.
fn push_statement(deck: &mut Vec<u8>, text: &Line) -> Result<(), AllocError>
    ensures { OnOk result (deck.new.items
        ≡ deck.old.items ++ text_of_lines (spec.statement_card text.now.bytes ∷ [])) }
{
    deck.extend_from_slice(BLANKS)?;
    deck.extend_from_slice(text.as_str().as_bytes())?;
    deck.extend_from_slice(b"\n")
}

// Appends the statements of a word.
fn push_statements(deck: &mut Vec<u8>, symbols: &Symbols, word: u64) -> Result<(), AllocError>
    requires { symbols.now ≡ [] }
    ensures { OnOk result (deck.new.items
        ≡ deck.old.items ++ text_of_lines (map spec.statement_card (statements_of word))) }
{
    let left = left_half(word);
    let right = right_half(word);
    if let Some(text) = word_spelling(symbols, left, right) {
        return push_statement(deck, &text);
    }
    match (half_spelling(symbols, left), half_spelling(symbols, right)) {
        (Some(first), Some(second)) => {
            push_statement(deck, &first)?;
            push_statement(deck, &second)
        }
        _ => {
            let mut text = open_line("DD(BU,64),");
            push_decimal(&mut text, word);
            push_statement(deck, &text)
        }
    }
}

// Appends a card that sets the location counter to word `w`, if the word before, `before`, is zero.
fn push_location(deck: &mut Vec<u8>, w: u32, before: u64) -> Result<(), AllocError>
    ensures { OnOk result (deck.new.items
        ≡ deck.old.items ++ text_of_lines (spec.location_cards w before)) }
{
    if before != 0 {
        return Ok(());
    }
    let mut text = open_line("SLC,");
    push_short_decimal(&mut text, w);
    text.push_str(".0");
    push_statement(deck, &text)
}

// Appends the cards of word `w`, the bits `word`; `before` is the word before it.
fn push_placed(
    deck: &mut Vec<u8>,
    symbols: &Symbols,
    w: u32,
    before: u64,
    word: u64,
) -> Result<(), AllocError>
    requires { symbols.now ≡ [] }
    ensures { OnOk result (deck.new.items
        ≡ deck.old.items ++ text_of_lines (spec.cards_of_word w before word)) }
{
    if word == 0 {
        return Ok(());
    }
    push_location(deck, w, before)?;
    push_statements(deck, symbols, word)
}

// Appends the cards of words, the first of which is word 0; the word before it counts as zero.
fn push_words(deck: &mut Vec<u8>, symbols: &Symbols, words: &[u64]) -> Result<(), AllocError>
    requires symbols { symbols.now ≡ [] }
    requires few { length words.now ≤ WORDS }
    ensures { OnOk result (deck.new.items
        ≡ deck.old.items ++ text_of_lines (spec.word_cards 0 0 words.now)) }
{
    let mut w = 0;
    let mut before = 0;
    let mut rest = words;
    // Proofs name the loop by its label.
    'words: while let [word, after @ ..] = rest {
        push_placed(deck, symbols, w, before, *word)?;
        w += 1;
        before = *word;
        rest = after;
    }
    Ok(())
}

// Appends the END card with the start, a half-word address.
fn push_end(deck: &mut Vec<u8>, start: u32) -> Result<(), AllocError>
    ensures { OnOk result (deck.new.items
        ≡ deck.old.items ++ text_of_lines (spec.statement_card (spec.end_text start) ∷ [])) }
{
    let mut text = open_line("END,");
    push_half_address(&mut text, start);
    push_statement(deck, &text)
}

// Appends the cards of a program before its control cards. The symbol table is empty.
fn push_program(
    deck: &mut Vec<u8>,
    symbols: &Symbols,
    words: &[u64],
    start: u32,
) -> Result<(), AllocError>
    requires symbols { symbols.now ≡ [] }
    requires few { length words.now ≤ WORDS }
    ensures { let cards = spec.word_cards 0 0 words.now
        ++ spec.statement_card (spec.end_text start) ∷ [] in
        OnOk result (deck.new.items ≡ deck.old.items ++ text_of_lines cards) }
{
    push_words(deck, symbols, words)?;
    push_end(deck, start)
}

// Appends the deck of a program. The symbol table is empty.
pub(crate) fn push_deck(
    deck: &mut Vec<u8>,
    symbols: &Symbols,
    words: &[u64],
    start: u32,
    controls: &Controls,
) -> Result<(), AllocError>
    requires symbols { symbols.now ≡ [] }
    requires few { length words.now ≤ WORDS }
    ensures { let p = spec.program words.now start controls.now in
        OnOk result (deck.new.items ≡ deck.old.items ++ spec.deck_text p) }
{
    push_program(deck, symbols, words, start)?;
    push_controls(deck, ControlForm::Card, controls)
}
