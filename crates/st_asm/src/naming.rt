//! The name pass, the second of three: it defines names and assigns a location, a bit address below
//! 2^24, to each card. docs/strap.md has the rules. assembling.rt calls `name_pass`; valuing.rt
//! takes its table and locations, `st_top` lists its symbols.
//!
//! Proved: the result or the refused card is `name_pass` of specs/Naming.antt, unless memory runs
//! out; list and table of symbols agree (`AreNamesKept`). The law `PassesStopAtTheFirstFault` in
//! specs/Laws.antt says which card is refused.
//!
//! Pinned: the order of the four faults of `name_fault`, and that SYN, SLC and DR need names of
//! earlier cards, other statements names of any card, by specs/Naming.antt, docs/strap.md and
//! vectors/faults.txt; MOST_NAMES, by the law `LimitsInFigures` (specs/Laws.antt of `st_laws`);
//! FIRST_LOCATION, word 32, by `naming_at_start`. Free: the bodies, if proofs/naming follows
//! `name_line`, `name_lines` and `name_pass`.

ghost use Rattle.std.specs.Prelude.{◌≡◌, ◌<◌, ◌^◌, ℕ, All, IfOk, IfErr, OnOk, false, ◌++◌, ◌∷◌, []};
ghost use Rattle.st_asm.specs.Answers.{Stops, Explains};
ghost use Rattle.st_asm.specs.Naming as spec;
ghost use Rattle.st_asm.specs.Pass.{pass};
ghost use Rattle.st_asm.specs.Places.{place_in, behind_in};
ghost use Rattle.st_asm.specs.Values.{values_of as values_by};
ghost use Rattle.st_asm.specs.Symbols.{is_defined};
ghost use Rattle.st_strap.specs.WellFormed.{IsWellFormed, IsWellFormedIfAny};

use crate::line::ReadCard;
use crate::places::{Placing, placing_of};
use crate::stop::{AsmError, PassStop};
use crate::symbols::{knows_all, names_in};
use crate::values::values_of;
use st_card::Fault;
use st_expr::Symbols;
use st_strap::CompactStatement;
use std::alloc::Global;

/// The most names that a job may define.
pub const MOST_NAMES: usize = 4_000;

// The bit address of the first location: word 32, the first that is not a register.
pub(crate) const FIRST_LOCATION: u32 = 64 * 32;

/// A symbol: a name that a card defines.
#[derive(Clone, Copy, Debug, PartialEq, Eq)]
pub struct Symbol {
    /// The name, padded with blanks to eight bytes.
    pub name: [u8; 8],
    /// The symbol's value, a bit address below 2^24: the card's location, or for SYN the value of
    /// its field.
    pub value: u32,
}

// The result of the name pass over the cards so far.
#[derive(Drop)]
pub(crate) struct Names {
    // The location counter, a bit address below 2^24.
    pub location: u32,
    // The symbols in order of definition.
    pub symbols: Vec<Symbol>,
    // The symbols as a table for look-up.
    pub table: Symbols,
    // The locations of the cards, bit addresses below 2^24.
    pub places: Vec<Option<u32>>,
}

// Runs the name pass over the cards.
pub(crate) fn name_pass(alloc: Global, lines: &[ReadCard]) -> Result<Names, AsmError>
    requires { All (λ line. IsWellFormedIfAny line.statement) lines.now }
    ensures ok { IfOk result (λ n. spec.name_pass lines.now ≡ Ok (spec.named_in n)) }
    ensures err { IfErr result (Explains (spec.name_pass lines.now)) }
    ensures kept { IfOk result spec.AreNamesKept }
{
    let Ok(all) = names_in(alloc, lines) else {
        return Err(AsmError::NoMemory);
    };
    name_lines(alloc, &all, lines)
}

// Runs the name pass over the cards, given a table `all` of all names that cards define.
fn name_lines(alloc: Global, all: &Symbols, lines: &[ReadCard]) -> Result<Names, AsmError>
    requires well { All (λ line. IsWellFormedIfAny line.statement) lines.now }
    ensures ok { IfOk result (λ n. pass (spec.name_card (is_defined all.now)) (λ line. line.card)
        spec.naming_at_start lines.now ≡ Ok (spec.named_in n)) }
    ensures err { IfErr result (Explains
        (pass (spec.name_card (is_defined all.now)) (λ line.
        line.card) spec.naming_at_start lines.now)) }
    ensures kept { IfOk result spec.AreNamesKept }
{
    let mut names = no_names(alloc);
    let mut rest = lines;
    // Proofs name the loop by its label.
    'lines: while let [line, after @ ..] = rest {
        if let Err(stop) = name_line(&mut names, all, line) {
            return Err(stop.at(line.card));
        }
        rest = after;
    }
    Ok(names)
}

// The result of the name pass over no cards.
fn no_names(alloc: Global) -> Names
    ensures named { spec.named_in result ≡ spec.naming_at_start }
    ensures kept { spec.AreNamesKept result }
{
    Names {
        location: FIRST_LOCATION,
        symbols: Vec::new(alloc),
        table: Symbols::new(alloc),
        places: Vec::new(alloc),
    }
}

// Adds a card.
#[tactic(auto, unfolding(crate::specs::Naming::name_card))]
fn name_line(names: &mut Names, all: &Symbols, line: &ReadCard) -> Result<(), PassStop>
    requires well { IsWellFormedIfAny line.now.statement }
    requires kept { spec.AreNamesKept names.old }
    ensures ok { OnOk result (spec.name_card (is_defined all.now) (spec.named_in names.old) line.now
        ≡ Ok (spec.named_in names.new)) }
    ensures err { IfErr result
        (Stops (spec.name_card (is_defined all.now) (spec.named_in names.old) line.now)) }
    ensures kept { OnOk result (spec.AreNamesKept names.new) }
{
    match name_fault(names, all, line) {
        Some(fault) => Err(PassStop::Faulty(fault)),
        None => add_line(names, line),
    }
}

// The fault of a card in the name pass, if it has one.
fn name_fault(names: &Names, all: &Symbols, line: &ReadCard) -> Option<Fault>
    requires well { IsWellFormedIfAny line.now.statement }
    requires kept { spec.AreNamesKept names.now }
    ensures { result ≡ spec.name_fault (is_defined all.now) (spec.named_in names.now) line.now }
{
    if is_taken(&names.table, line.name) {
        Some(Fault::NameTwice)
    } else if !is_known(all, &line.statement) {
        Some(Fault::UndefinedSymbol)
    } else if !is_earlier(&names.table, &line.statement) {
        Some(Fault::SymbolNotEarlier)
    } else if line.name.is_some() && names.symbols.len() >= MOST_NAMES {
        Some(Fault::TooManyNames)
    } else {
        None
    }
}

// Whether a card's name is already defined.
fn is_taken(symbols: &Symbols, name: Option<[u8; 8]>) -> bool
    ensures { result ≡ spec.is_name_taken symbols.now name }
{
    match name {
        None => false,
        Some(name) => symbols.get(name).is_some(),
    }
}

// Whether the names in a card's expressions are in a table.
fn is_known(all: &Symbols, statement: &Option<CompactStatement>) -> bool
    ensures { result ≡ spec.is_known (is_defined all.now) statement.now }
{
    match statement {
        None => true,
        Some(statement) => knows_all(all, statement),
    }
}

// Whether the names in a card's expressions are defined by earlier cards, if they must be.
fn is_earlier(symbols: &Symbols, statement: &Option<CompactStatement>) -> bool
    requires { IsWellFormedIfAny statement.now }
    ensures { result ≡ spec.is_earlier symbols.now statement.now }
{
    match statement {
        None => true,
        Some(statement) => is_statement_earlier(symbols, statement),
    }
}

// Whether the names in a statement's expressions are defined by earlier cards, if they must be.
fn is_statement_earlier(symbols: &Symbols, statement: &CompactStatement) -> bool
    requires { IsWellFormed statement.now }
    ensures { result ≡ spec.is_earlier symbols.now (Some statement.now) }
{
    if placing_of(statement).needs_earlier() {
        knows_all(symbols, statement)
    } else {
        true
    }
}

// Adds a card without a fault.
fn add_line(names: &mut Names, line: &ReadCard) -> Result<(), PassStop>
    requires well { IsWellFormedIfAny line.now.statement }
    requires kept { spec.AreNamesKept names.old }
    requires fresh { spec.is_name_taken names.old.table line.now.name ≡ false }

    ensures ok { OnOk result (spec.name_step (spec.named_in names.old) line.now
        ≡ spec.named_in names.new) }
    ensures err { IfErr result (λ stop. stop ≡ PassStop.NoMemory) }
    ensures kept { OnOk result (spec.AreNamesKept names.new) }
{
    let (place, behind) = place_and_behind(&names.table, names.location, &line.statement);
    if let Some(name) = line.name {
        define(names, name, place.unwrap_or(0))?;
    }
    names.location = behind;
    names.places.push(place).map_err(|_| PassStop::NoMemory)
}

// The location of a card, and the location counter after it.
fn place_and_behind(
    symbols: &Symbols,
    location: u32,
    statement: &Option<CompactStatement>,
) -> (Option<u32>, u32)
    requires well { IsWellFormedIfAny statement.now }
    requires location { location < 2 ^ 24 }
    ensures place { result.0 ≡ spec.place_of_card symbols.now location statement.now }
    ensures behind { result.1 ≡ spec.location_behind symbols.now location statement.now }
    ensures below { result.1 < 2 ^ 24 }
{
    match statement {
        None => (None, location),
        Some(statement) => place_and_behind_statement(symbols, location, statement),
    }
}

// The location of a statement, and the location counter after it.
fn place_and_behind_statement(
    symbols: &Symbols,
    location: u32,
    statement: &CompactStatement,
) -> (Option<u32>, u32)
    requires well { IsWellFormed statement.now }
    requires location { location < 2 ^ 24 }
    ensures place { result.0 ≡ spec.place_of_card symbols.now location (Some statement.now) }
    ensures behind { result.1 ≡ spec.location_behind symbols.now location (Some statement.now) }
    ensures below { result.1 < 2 ^ 24 }
{
    let placing = placing_of(statement);
    let value = placing_value(placing, symbols, statement);
    (
        placing.place(location, value),
        placing.behind(location, value),
    )
}

// The value that determines a statement's location or length; 0 if it does not depend on one.
fn placing_value(placing: Placing, symbols: &Symbols, statement: &CompactStatement) -> i64
    ensures place { (location : ℕ) → place_in placing location result
        ≡ place_in placing location (values_by symbols.now statement.now).first }
    ensures behind { (location : ℕ) → behind_in placing location result
        ≡ behind_in placing location (values_by symbols.now statement.now).first }
{
    if placing.needs_earlier() {
        values_of(symbols, statement).first
    } else {
        0
    }
}

// Defines a name.
fn define(names: &mut Names, name: [u8; 8], value: u32) -> Result<(), PassStop>
    requires kept { spec.AreNamesKept names.old }
    requires fresh { is_defined names.old.table name ≡ false }
    ensures ok { OnOk result (spec.named_in names.new ≡ record (spec.named_in names.old) {
      symbols = names.old.symbols.items ++ record { name = name; value = value } ∷ [];
    }) }
    ensures err { IfErr result (λ stop. stop ≡ PassStop.NoMemory) }
    ensures kept { OnOk result (spec.AreNamesKept names.new) }
{
    if names.table.define(name, value).is_err() {
        return Err(PassStop::NoMemory);
    }
    names
        .symbols
        .push(Symbol { name, value })
        .map_err(|_| PassStop::NoMemory)
}
