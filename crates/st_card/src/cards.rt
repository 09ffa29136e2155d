//! The cards of a job: its lines, each with its number, kind and fault. `split` is the first step
//! of each command that reads a deck (`st_asm`, `st_top`, `st_account`), and of the card reader
//! (`st_exch`). Cards are counted from 1; offsets and lengths are in bytes. docs/strap.md has the
//! rules.
//!
//! Proved: the clause `cards` says that the cards are `cards_of` of specs/Cards.antt, `texts` that
//! each lies within the job and agrees with its text (`IsCardOf`). The law is
//! `CardsStandInTheirJob` in specs/Laws.antt. Pinned: the cards of a job, with MOST_CHARACTERS and
//! COLUMNS, by `cards_of`, docs/strap.md, vectors/edges.txt and vectors/faults.txt; `Card`, by
//! these crates and `st_run`. A new kind of card is a case of `CardKind`. Free: the bodies, if
//! proofs/cards follows those of `split` and `first_line`.

ghost use Rattle.std.specs.Prelude.{◌≡◌, ◌+◌, ◌-◌, ◌^◌, ◌<◌, ◌≤◌, ℕ, length, [], ◌∷◌, ◌++◌, OnOk, All, MatchOption, IfSome, IfOk};
ghost use Rattle.std.specs.Str.Lines.{strip_carriage_return};
ghost use Rattle.st_text.specs.Bytes.{is_printable};
ghost use Rattle.st_card.specs.Cards as spec;
ghost use Rattle.st_text.specs.Pieces.{pieces_of, IsFront, IsBehind};

use crate::faults::Fault;
use st_bits::NoMemory;
use st_bits::limits::MOST_CARDS;
use st_text::{cut, front, is_printable_byte};
use std::alloc::Global;

// The most characters that a card may have.
const MOST_CHARACTERS: usize = 80;

// The number of columns of a card that are read.
const COLUMNS: usize = 72;

/// The kind of a card.
#[derive(Clone, Copy, Debug, PartialEq, Eq)]
pub enum CardKind {
    /// Column 1 is `*`, or columns 1 to 72 are blank.
    Comment,
    /// Column 1 is `/`.
    Control,
    /// Any other card, including one with a wrong column 1.
    Statement,
}

/// A card of a job: one line, with its position in the job's bytes.
#[derive(Clone, Copy, Debug, PartialEq, Eq)]
pub struct Card {
    /// The card's number in the job, counted from 1.
    pub number: u32,
    /// The card's kind.
    pub kind: CardKind,
    /// The offset of the card's first byte in the job, in bytes.
    pub start: u32,
    /// The length of the card's text in bytes, without the line end; 80 if the line is longer.
    pub len: u8,
    /// The fault that this card has regardless of the other cards: a byte that is not printable,
    /// too many characters, a wrong column 1, or a card number above 20,000.
    pub fault: Option<Fault>,
}

impl Card {
    /// The card's text, cut from the bytes of its job: without the line end, and at most 80 bytes.
    pub fn text<'a>(&self, job: &'a [u8]) -> &'a [u8]
        requires { self.now.start + self.now.len ≤ length job.now }
        ensures { result.now ≡ spec.text_in job.now self.now }
    {
        let behind = job.split_at(self.start as usize).1;
        behind.split_at(usize::from(self.len)).0
    }
}

/// Splits a job into its cards.
///
/// A line ends at a line feed, and one carriage return before it is part of the line end. The last
/// line may lack its line feed; if it is empty, it is not a card. Card 20,001 has the fault
/// `TooManyCards`, and no card after it is returned. The only error is that memory ran out.
pub fn split(alloc: Global, job: &[u8]) -> Result<Vec<Card>, NoMemory>
    requires { length job.now < 2 ^ 32 }
    ensures cards { IfOk result (λ cards. cards.items ≡ spec.cards_of job.now) }
    ensures texts { IfOk result (λ cards. All (spec.IsCardOf job.now) cards.items) }
{
    let mut cards = Vec::new(alloc);
    let mut number = 1;
    let mut rest = job;
    // Proofs name the loop by its label.
    'lines: while let Some((line, after)) = first_line(rest) {
        let start = (job.len() - rest.len()) as u32;
        push_card(&mut cards, card_at(number, start, line))?;
        if number > MOST_CARDS {
            return Ok(cards);
        }
        number += 1;
        rest = after;
    }
    Ok(cards)
}

// Appends a card.
fn push_card(cards: &mut Vec<Card>, card: Card) -> Result<(), NoMemory>
    ensures { OnOk result (cards.new.items ≡ cards.old.items ++ card ∷ []) }
{
    cards.push(card).map_err(|_| NoMemory)
}

/// The columns of a card that are read: the first 72 bytes of its text.
pub fn columns(text: &[u8]) -> &[u8]
    ensures { result.now ≡ spec.columns text.now }
{
    front(text, COLUMNS)
}

// The first line of a text without its line end, and the text after it; `None` for an empty text.
fn first_line(text: &[u8]) -> Option<(&[u8], &[u8])>
    ensures cards { MatchOption result
        ((n place : ℕ) → spec.cards_from n place (pieces_of 10 text.now) ≡ [])
        (λ p. (n place : ℕ) → spec.cards_from n place (pieces_of 10 text.now)
        ≡ spec.card_at n place p.0.now ∷ spec.cards_from (n + 1)
        (place + (length text.now - length p.1.now)) (pieces_of 10 p.1.now)) }
    ensures shorter { IfSome result (λ p. length p.1.now < length text.now) }
    ensures front { IfSome result (λ p. IsFront p.0.now text.now) }
    ensures behind { IfSome result (λ p. IsBehind p.1.now text.now) }
{
    match cut(text, b'\n') {
        Some((line, after)) => Some((without_return(line), after)),
        None if text.is_empty() => None,
        None => Some((text, &[])),
    }
}

// A line without its last byte if that is a carriage return.
fn without_return(line: &[u8]) -> &[u8]
    ensures text { result.now ≡ strip_carriage_return line.now }
    ensures front { IsFront result.now line.now }
{
    match line {
        [front @ .., b'\r'] => front,
        _ => line,
    }
}

// The card with number `number`, whose text `text` begins at offset `start` of the job.
fn card_at(number: u32, start: u32, text: &[u8]) -> Card
    ensures { result ≡ spec.card_at number start text.now }
{
    Card {
        number,
        kind: kind_of(text),
        start,
        len: text.len().min(MOST_CHARACTERS) as u8,
        fault: fault_of(number, text),
    }
}

// The kind of the card with this text.
fn kind_of(text: &[u8]) -> CardKind
    ensures { result ≡ spec.kind_of text.now }
{
    let first = first_column(text);
    if first == b'*' || is_blank(columns(text)) {
        CardKind::Comment
    } else if first == b'/' {
        CardKind::Control
    } else {
        CardKind::Statement
    }
}

// The fault that card `number` with this text has regardless of the other cards, if it has one.
fn fault_of(number: u32, text: &[u8]) -> Option<Fault>
    ensures { result ≡ spec.fault_of number text.now }
{
    if number > MOST_CARDS {
        Some(Fault::TooManyCards)
    } else if !is_printable(text) {
        Some(Fault::NotAscii)
    } else if text.len() > MOST_CHARACTERS {
        Some(Fault::CardTooLong)
    } else if !matches!(first_column(text), b' ' | b'*' | b'/') {
        Some(Fault::BadName)
    } else {
        None
    }
}

// The byte in column 1; a blank for an empty card.
fn first_column(text: &[u8]) -> u8
    ensures { result ≡ spec.first_column text.now }
{
    match text {
        [] => b' ',
        [first, ..] => *first,
    }
}

// Whether a text has only blanks; true for an empty text.
fn is_blank(text: &[u8]) -> bool
    ensures { result ≡ spec.is_blank text.now }
{
    text.iter().all(|byte| *byte == b' ')
}

// Whether a text has only blanks and visible ASCII characters.
fn is_printable(text: &[u8]) -> bool
    ensures { result ≡ is_printable text.now }
{
    text.iter().all(|byte| is_printable_byte(*byte))
}
