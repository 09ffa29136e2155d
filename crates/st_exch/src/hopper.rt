//! The cards in the card reader, which the program of a job reads by the order RD: the comment
//! cards after its last statement card. docs/machine.md has the rules of the reader. `st_run` and
//! `st_top` make a reader by `of_cards`, `st_sweep` makes an empty one; no program calls `new`,
//! which docs/CLAIMS.md offers. `st_run` takes a card for each read by `next`.
//!
//! Proved: the reader has exactly the cards `reader_cards` of specs/Reader.antt, and `next` takes
//! the first card. That each card has eight words below 2^64 is the law `CardsAreEightWords`
//! (specs/Laws.antt). When an order takes effect is decided in `st_run`.
//!
//! Pinned, by `reader_cards`, docs/machine.md, docs/CLAIMS.md and vectors/orders.txt: the calls;
//! columns 2 to 65, eight characters a word, blanks for missing columns. Free: the queue, as
//! contracts see a list of cards; the bodies, if proofs/hopper follows.

ghost use Rattle.std.specs.Prelude.{◌≡◌, ◌^◌, ◌<◌, ◌≤◌, [], ◌∷◌, ◌++◌, length, MatchOption, IfOk, OnOk};
ghost use Rattle.st_card.specs.Cards.{IsCardOf, cards_of};
ghost use Rattle.st_exch.specs.Reader as spec;

use st_bits::NoMemory;
use st_card::{Card, CardKind, split};
use std::alloc::Global;
use std::collections::VecDeque;
use std::marker::Model;

/// The cards in the card reader, the next one first.
///
/// A card has eight words: its columns 2 to 65, eight characters a word, eight bits each, with
/// blanks for missing columns.
#[derive(Drop)]
pub struct Hopper {
    // `None` for a reader without cards, which needs no allocation.
    cards: Option<VecDeque<[u64; 8]>>,
}

// Contracts see the remaining cards.
impl Model for Hopper {
    ghost use Rattle.std.specs.Prelude.{ℕ, List, []};
    ghost use Rattle.std.specs.Option.{option_map_or};

    // The list of the remaining cards, the next one first, each a list of eight words.
    ghost Value = { List (List ℕ) };

    ghost view = { λ hopper. option_map_or (λ cards. cards.items) hopper.cards [] };
}

impl Hopper {
    /// A reader without cards.
    pub fn empty() -> Hopper
        ensures { result ≡ [] }
    {
        Hopper { cards: None }
    }

    /// The reader with the comment cards after the last statement card of a job, in order. Blank
    /// cards are comment cards.
    ///
    /// The job must have fewer than 2^32 bytes. The only error is a failed allocation; no later
    /// call allocates.
    pub fn new(alloc: Global, job: &[u8]) -> Result<Hopper, NoMemory>
        requires { length job.now < 2 ^ 32 }
        ensures { IfOk result (λ hopper. hopper ≡ spec.reader_cards job.now) }
    {
        let cards = split(alloc, job)?;
        Hopper::of_cards(alloc, job, cards.as_slice())
    }

    /// As `new`, for a job that is already split into cards: `cards` are all cards of `job`, in
    /// order.
    ///
    /// The only error is a failed allocation; no later call allocates.
    pub fn of_cards(alloc: Global, job: &[u8], cards: &[Card]) -> Result<Hopper, NoMemory>
        requires { cards.now ≡ cards_of job.now }
        ensures { IfOk result (λ hopper. hopper ≡ spec.reader_cards job.now) }
    {
        let mut waiting = VecDeque::new(alloc);
        let behind = behind_statements(cards);
        for card in behind {
            stack(&mut waiting, job, *card)?;
        }
        Ok(Hopper {
            cards: Some(waiting),
        })
    }

    /// Removes the next card and returns it; `None` if and only if no card remains.
    pub fn next(&mut self) -> Option<[u64; 8]>
        ensures { MatchOption result ((self.old ≡ []) × (self.new ≡ []))
            (λ card. self.old ≡ card ∷ self.new) }
    {
        self.cards.as_mut()?.pop_front()
    }
}

// The cards after the last statement card.
fn behind_statements(cards: &[Card]) -> &[Card]
    ensures { result.now ≡ spec.behind_statements cards.now }
{
    let mut count = cards.len();
    // Proofs name the loop by its label.
    'cards: while count > 0 {
        if is_statement(cards[count - 1].kind) {
            return cards.split_at(count).1;
        }
        count -= 1;
    }
    cards
}

// Whether a card is a statement card.
fn is_statement(kind: CardKind) -> bool
    ensures { result ≡ spec.is_statement kind }
{
    match kind {
        CardKind::Statement => true,
        CardKind::Comment | CardKind::Control => false,
    }
}

// Appends a card to the waiting ones if it is a comment card.
#[tactic(auto, unfolding(crate::specs::Reader::texts_in))]
fn stack(waiting: &mut VecDeque<[u64; 8]>, job: &[u8], card: Card) -> Result<(), NoMemory>
    requires { IsCardOf job.now card }
    ensures { OnOk result
        (waiting.new.items ≡ waiting.old.items ++ spec.texts_in job.now (card ∷ [])) }
{
    match card.kind {
        CardKind::Comment => waiting
            .push_back(card_words(card.text(job)))
            .map_err(|_| NoMemory),
        CardKind::Control | CardKind::Statement => Ok(()),
    }
}

// The eight words that the reader reads from a card's text.
#[tactic(auto, unfolding(crate::specs::Reader::card_words))]
fn card_words(text: &[u8]) -> [u64; 8]
    ensures { result ≡ spec.card_words text.now }
{
    [
        word_from(text, 2),
        word_from(text, 10),
        word_from(text, 18),
        word_from(text, 26),
        word_from(text, 34),
        word_from(text, 42),
        word_from(text, 50),
        word_from(text, 58),
    ]
}

// The word in the eight columns from column c.
#[tactic(auto, unfolding(crate::specs::Reader::word_from))]
fn word_from(text: &[u8], c: usize) -> u64
    requires first { 1 ≤ c }
    requires last { c < 65 }
    ensures { result ≡ spec.word_from text.now c }
{
    u64::from_be_bytes([
        column(text, c),
        column(text, c + 1),
        column(text, c + 2),
        column(text, c + 3),
        column(text, c + 4),
        column(text, c + 5),
        column(text, c + 6),
        column(text, c + 7),
    ])
}

// Column c of a card, counted from 1; a blank if the card has no such column.
fn column(text: &[u8], c: usize) -> u8
    requires { 1 ≤ c }
    ensures { result ≡ spec.column_of_card text.now c }
{
    text.get(c - 1).copied().unwrap_or(b' ')
}
