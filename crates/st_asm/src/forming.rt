//! The form pass, the first of three: it checks each card by itself, collects the requests of
//! control cards, and finds the END card. docs/strap.md has the rules. assembling.rt calls
//! `form_pass`; naming.rt takes its cards. `st_strap` parses statements, `st_card` control cards.
//!
//! Proved: the result or the refused card is `form_pass` of specs/Forming.antt, unless memory runs
//! out. The law `CardsHaveTheirFirstFault` in specs/Laws.antt gives the order in which the faults
//! of a card count.
//!
//! Pinned: the order of faults, by this law, docs/strap.md and vectors/faults.txt: a fault of its
//! bytes, then a position before or after END, then a bad column 1, then the statement or request.
//! A job without END is refused at the number after the last card, by `form_pass`. Free: the
//! bodies, if proofs/forming follows the loop of `read_cards`, by the label of the loop.

ghost use Rattle.std.specs.Prelude.{◌≡◌, ◌≤◌, ◌+◌, length, All, IfOk, IfErr, OnOk, Option};
ghost use Rattle.st_bits.specs.declared.limits.TheConstants.{MOST_CARDS};
ghost use Rattle.st_card.specs.Cards.{IsCardOf};
ghost use Rattle.st_asm.specs.Answers.{Stops, Explains};
ghost use Rattle.st_asm.specs.Pass.{pass};
ghost use Rattle.st_asm.specs.Forming as spec;

use crate::line::{ReadCard, name_field, name_in, silent, statement_field};
use crate::stop::{AsmError, PassStop};
use st_card::{Card, CardError, CardKind, Controls, Fault};
use st_strap::{CompactStatement, Statement, read_compact};
use std::alloc::Global;

// The result of the form pass over the cards so far.
#[derive(Drop)]
pub(crate) struct Deck {
    // The cards so far, in order.
    pub lines: Vec<ReadCard>,
    // The requests of the control cards so far.
    pub controls: Controls,
    // Whether the END card has been read.
    pub ended: bool,
}

// The form pass over the cards of a job.
pub(crate) fn form_pass(alloc: Global, job: &[u8], cards: &[Card]) -> Result<Deck, AsmError>
    requires texts { All (IsCardOf job.now) cards.now }
    // `split` of `st_card` returns at most this many cards: those of a job, or one card more, which
    // has the fault `TooManyCards`.
    requires few { length cards.now ≤ MOST_CARDS + 1 }
    ensures ok { IfOk result (λ d. spec.form_pass job.now cards.now ≡ Ok (spec.found_in d)) }
    ensures err { IfErr result (Explains (spec.form_pass job.now cards.now)) }
{
    let deck = read_cards(alloc, job, cards)?;
    if deck.ended {
        Ok(deck)
    } else {
        Err(AsmError::Refused {
            card: cards.len() as u32 + 1,
            fault: Fault::NoEnd,
        })
    }
}

// Runs the form pass over all cards, without the check for an END card.
fn read_cards(alloc: Global, job: &[u8], cards: &[Card]) -> Result<Deck, AsmError>
    requires texts { All (IsCardOf job.now) cards.now }
    ensures ok { IfOk result (λ d. pass (spec.form_card job.now) (λ card. card.number)
        spec.found_at_start cards.now ≡ Ok (spec.found_in d)) }
    ensures err { IfErr result (Explains (pass (spec.form_card job.now) (λ card. card.number)
        spec.found_at_start cards.now)) }
{
    let mut deck = empty_deck(alloc);
    let mut rest = cards;
    // Proofs name the loop by its label.
    'cards: while let [card, after @ ..] = rest {
        if let Err(stop) = add_card(&mut deck, job, *card) {
            return Err(stop.at(card.number));
        }
        rest = after;
    }
    Ok(deck)
}

// The result of the form pass over no cards.
fn empty_deck(alloc: Global) -> Deck
    ensures found { spec.found_in result ≡ spec.found_at_start }
{
    Deck {
        lines: Vec::new(alloc),
        controls: Controls::new(alloc),
        ended: false,
    }
}

// Adds a card.
fn add_card(deck: &mut Deck, job: &[u8], card: Card) -> Result<(), PassStop>
    requires { IsCardOf job.now card }
    ensures ok { OnOk result (spec.form_card job.now (spec.found_in deck.old) card
        ≡ Ok (spec.found_in deck.new)) }
    ensures err { IfErr result (Stops (spec.form_card job.now (spec.found_in deck.old) card)) }
{
    if let Some(fault) = first_fault_of(card.kind, card.fault) {
        return Err(PassStop::Faulty(fault));
    }
    let text = card.text(job);
    match card.kind {
        CardKind::Comment => add_line(deck, silent(card.number)),
        CardKind::Control => add_control(deck, card.number, text),
        CardKind::Statement => add_statement(deck, card.number, card.fault, text),
    }
}

// The fault of a card that precedes the checks of the form pass; a bad column 1 of a statement card
// does not, because `CardAfterEnd` precedes it.
fn first_fault_of(kind: CardKind, fault: Option<Fault>) -> Option<Fault>
    ensures { result ≡ spec.first_fault_of kind fault }
{
    match (kind, fault) {
        (CardKind::Statement, Some(Fault::BadName)) => None,
        _ => fault,
    }
}

// Adds a card that has been read.
fn add_line(deck: &mut Deck, line: ReadCard) -> Result<(), PassStop>
    ensures ok { OnOk result (spec.found_in deck.new
        ≡ spec.with_line (spec.found_in deck.old) line) }
    ensures err { IfErr result (λ stop. stop ≡ PassStop.NoMemory) }
{
    deck.lines.push(line).map_err(|_| PassStop::NoMemory)
}

// Adds a control card.
fn add_control(deck: &mut Deck, card: u32, text: &[u8]) -> Result<(), PassStop>
    ensures ok { OnOk result (spec.form_control (spec.found_in deck.old) card text.now
        ≡ Ok (spec.found_in deck.new)) }
    ensures err { IfErr result (Stops (spec.form_control (spec.found_in deck.old) card text.now)) }
{
    if !deck.ended {
        return Err(PassStop::Faulty(Fault::BadControlCard));
    }
    match deck.controls.add(card, text) {
        Err(CardError::Refused { fault, .. }) => Err(PassStop::Faulty(fault)),
        Err(CardError::NoMemory) => Err(PassStop::NoMemory),
        Ok(()) => add_line(deck, silent(card)),
    }
}

// Adds a statement card; `fault` is the fault that it has by itself.
fn add_statement(
    deck: &mut Deck,
    card: u32,
    fault: Option<Fault>,
    text: &[u8],
) -> Result<(), PassStop>
    ensures ok { OnOk result (spec.form_statement (spec.found_in deck.old) card fault text.now
        ≡ Ok (spec.found_in deck.new)) }
    ensures err { IfErr result
        (Stops (spec.form_statement (spec.found_in deck.old) card fault text.now)) }
{
    if deck.ended {
        return Err(PassStop::Faulty(Fault::CardAfterEnd));
    }
    if let Some(fault) = fault {
        return Err(PassStop::Faulty(fault));
    }
    let name = name_field(text);
    match read_compact(name, statement_field(text)) {
        Err(fault) => Err(PassStop::Faulty(fault)),
        Ok(statement) => add_read(deck, card, name, statement),
    }
}

// Adds a statement card whose statement has been parsed.
fn add_read(
    deck: &mut Deck,
    card: u32,
    name: &[u8],
    statement: CompactStatement,
) -> Result<(), PassStop>
    requires { length name.now ≤ 8 }
    ensures ok { OnOk result (spec.found_in deck.new
        ≡ spec.with_statement (spec.found_in deck.old) card name.now statement) }
    ensures err { IfErr result (λ stop. stop ≡ PassStop.NoMemory) }
{
    deck.ended = is_end(&statement);
    add_line(
        deck,
        ReadCard {
            card,
            name: name_in(name),
            statement: Some(statement),
        },
    )
}

// Whether a statement is END.
pub(crate) fn is_end(statement: &CompactStatement) -> bool
    ensures { result ≡ spec.is_end statement.now }
{
    matches!(statement, Statement::End { .. })
}
