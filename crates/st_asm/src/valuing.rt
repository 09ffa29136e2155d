//! The value pass, the last of three: it evaluates expressions, and makes the image, the start (a
//! half-word address) and the rows of the listing. docs/strap.md has the rules. assembling.rt calls
//! `value_pass`; `st_top` and `st_account` take the rows (`Listed`).
//!
//! Proved: the result or the refused card is `value_pass` of specs/Valuing.antt, unless memory runs
//! out; `sound` says that the image has all words of storage, words 0 to 31 are 0, and rows are in
//! range (`IsSoundLayout` in specs/Kept.antt). The law `PassesStopAtTheFirstFault` in
//! specs/Laws.antt says which card is refused.
//!
//! Pinned: that of two cards that assemble to one place the later one counts, and that each card
//! has a row, by specs/Valuing.antt and docs/strap.md; listings, by vectors/controls.txt; the
//! fields of `Listed`, by `st_top` and `st_account`. Free: the bodies, if proofs/valuing follows
//! `emit`, `value_pass` and `put_bits`.

ghost use Rattle.std.specs.Prelude.{◌≡◌, ◌<◌, ◌≤◌, ◌^◌, ◌++◌, ◌∷◌, [], All, IfOk, IfErr, OnOk, IsTrue, None, length, unwrap_or};
ghost use Rattle.st_asm.specs.Answers.{Stops, Explains};
ghost use Rattle.st_asm.specs.Checks.{value_fault, in_storage};
ghost use Rattle.st_asm.specs.Valuing as spec;
ghost use Rattle.st_asm.specs.Forming.{is_end};
ghost use Rattle.st_bits.specs.Storage.{IsImage};
ghost use Rattle.st_asm.specs.Sound.{IsRow, IsLocation};
ghost use Rattle.st_asm.specs.Kept.{IsSoundLayout};
ghost use Rattle.st_strap.specs.WellFormed.{IsWellFormed, IsWellFormedIfAny};

use crate::checks::value_fault;
use crate::emitting::{bits_of, half_word};
use crate::forming::is_end;
use crate::line::ReadCard;
use crate::places::placing_of;
use crate::stop::{AsmError, PassStop};
use crate::values::{Values, values_of};
use st_bits::{number_of_words, put_field};
use st_expr::Symbols;
use st_strap::CompactStatement;
use std::alloc::{AllocError, Global};

/// A row of the listing: the bits that a card assembles to, and their location.
#[derive(Clone, Copy, Debug, PartialEq, Eq)]
pub struct Listed {
    /// The card's number, from 1 on.
    pub card: u32,
    /// The location of the bits that the card assembles to or skips, or for SLC and SYN the value
    /// of the field, as a bit address below 2^24; `None` for comments, control cards and END.
    pub location: Option<u32>,
    /// The bits that the card assembles to, as a number below 2^length.
    pub bits: u64,
    /// The number of bits that the card assembles to, at most 64.
    pub length: u8,
}

// The result of the value pass over the cards so far.
#[derive(Drop)]
pub(crate) struct Layout {
    // The words of storage.
    pub image: Vec<u64>,
    // The half-word address of the first instruction.
    pub start: u32,
    // The rows of the listing, one for each card.
    pub rows: Vec<Listed>,
}

// Runs the value pass over the cards.
pub(crate) fn value_pass(
    alloc: Global,
    symbols: &Symbols,
    lines: &[ReadCard],
    places: &[Option<u32>],
) -> Result<Layout, AsmError>
    requires well { All (λ line. IsWellFormedIfAny line.statement) lines.now }
    requires located { All IsLocation places.now }
    ensures ok { IfOk result (λ l. spec.value_pass symbols.now lines.now places.now
        ≡ Ok (spec.emitted_in l)) }
    ensures err { IfErr result (Explains (spec.value_pass symbols.now lines.now places.now)) }
    ensures sound { IfOk result (λ l. IsSoundLayout (spec.emitted_in l)) }
{
    let Ok(mut layout) = empty_layout(alloc) else {
        return Err(AsmError::NoMemory);
    };
    let mut rest = lines;
    let mut places_left = places;
    // Proofs name the loop by its label.
    'lines: while let [line, after @ ..] = rest {
        let [place, places_after @ ..] = places_left else {
            return Ok(layout);
        };
        if let Err(stop) = value_line(&mut layout, symbols, line, *place) {
            return Err(stop.at(line.card));
        }
        rest = after;
        places_left = places_after;
    }
    Ok(layout)
}

// The result of the value pass over no cards.
fn empty_layout(alloc: Global) -> Result<Layout, AllocError>
    ensures emitted { IfOk result (λ l. spec.emitted_in l ≡ spec.emitting_at_start) }
    ensures sound { IfOk result (λ l. IsSoundLayout (spec.emitted_in l)) }
{
    Ok(Layout {
        image: vec![in alloc; 0u64; number_of_words()]?,
        start: 0,
        rows: Vec::new(alloc),
    })
}

// Adds a card.
fn value_line(
    layout: &mut Layout,
    symbols: &Symbols,
    line: &ReadCard,
    place: Option<u32>,
) -> Result<(), PassStop>
    requires well { IsWellFormedIfAny line.now.statement }
    requires located { IsLocation place }
    requires sound { IsSoundLayout (spec.emitted_in layout.old) }

    ensures ok { OnOk result (spec.value_card symbols.now (spec.emitted_in layout.old)
        (line.now, place) ≡ Ok (spec.emitted_in layout.new)) }
    ensures err { IfErr result
        (Stops (spec.value_card symbols.now (spec.emitted_in layout.old) (line.now, place))) }
    ensures sound { OnOk result (IsSoundLayout (spec.emitted_in layout.new)) }
{
    match &line.statement {
        None => add_silent(layout, line.card, place),
        Some(s) => value_statement(layout, line.card, s, values_of(symbols, s), place),
    }
}

// Adds a card without a statement.
fn add_silent(layout: &mut Layout, card: u32, place: Option<u32>) -> Result<(), PassStop>
    requires located { IsLocation place }
    requires sound { IsSoundLayout (spec.emitted_in layout.old) }
    ensures ok { OnOk result (spec.emitted_in layout.new
        ≡ spec.with_silent (spec.emitted_in layout.old) card place) }
    ensures err { IfErr result (λ stop. stop ≡ PassStop.NoMemory) }
    ensures sound { OnOk result (IsSoundLayout (spec.emitted_in layout.new)) }
{
    add_row(
        layout,
        Listed {
            card,
            location: place,
            bits: 0,
            length: 0,
        },
    )
}

// Adds a row to the listing.
fn add_row(layout: &mut Layout, row: Listed) -> Result<(), PassStop>
    requires row { IsRow row }
    requires sound { IsSoundLayout (spec.emitted_in layout.old) }
    ensures ok { OnOk result (spec.emitted_in layout.new ≡ record (spec.emitted_in layout.old) {
      rows = layout.old.rows.items ++ row ∷ [];
    }) }
    ensures err { IfErr result (λ stop. stop ≡ PassStop.NoMemory) }
    ensures sound { OnOk result (IsSoundLayout (spec.emitted_in layout.new)) }
{
    layout.rows.push(row).map_err(|_| PassStop::NoMemory)
}

// Adds a statement card.
fn value_statement(
    layout: &mut Layout,
    card: u32,
    s: &CompactStatement,
    v: Values,
    place: Option<u32>,
) -> Result<(), PassStop>
    requires well { IsWellFormed s.now }
    requires located { IsLocation place }
    requires sound { IsSoundLayout (spec.emitted_in layout.old) }

    ensures ok { OnOk result (spec.value_statement (spec.emitted_in layout.old) card s.now v place
        ≡ Ok (spec.emitted_in layout.new)) }
    ensures err { IfErr result
        (Stops (spec.value_statement (spec.emitted_in layout.old) card s.now v place)) }
    ensures sound { OnOk result (IsSoundLayout (spec.emitted_in layout.new)) }
{
    match value_fault(s, placing_of(s), v, place.unwrap_or(0)) {
        Some(fault) => Err(PassStop::Faulty(fault)),
        None => emit(layout, card, s, v, place),
    }
}

// Adds a statement card without a fault.
fn emit(
    layout: &mut Layout,
    card: u32,
    s: &CompactStatement,
    v: Values,
    place: Option<u32>,
) -> Result<(), PassStop>
    requires well { IsWellFormed s.now }
    requires located { IsLocation place }
    requires sound { IsSoundLayout (spec.emitted_in layout.old) }
    requires good { value_fault s.now v (unwrap_or place 0) ≡ None }

    ensures ok { OnOk result (spec.emitted_in layout.new
        ≡ spec.with_emitted (spec.emitted_in layout.old) card s.now v place) }
    ensures err { IfErr result (λ stop. stop ≡ PassStop.NoMemory) }
    ensures sound { OnOk result (IsSoundLayout (spec.emitted_in layout.new)) }
{
    let length = placing_of(s).length() as u8;
    let bits = bits_of(s, v);
    put_bits(
        layout.image.as_mut_slice(),
        place.unwrap_or(0),
        length,
        bits,
    );
    if is_end(s) {
        layout.start = half_word(v.first);
    }
    add_row(
        layout,
        Listed {
            card,
            location: place,
            bits,
            length,
        },
    )
}

// Writes `length` bits into the image, from bit address `place` on.
fn put_bits(image: &mut [u64], place: u32, length: u8, bits: u64)
    requires few { length ≤ 64 }
    requires image { IsImage image.old }
    requires inside { IsTrue (in_storage place length) }
    requires fits { bits < 2 ^ length }

    ensures put { image.new ≡ spec.image_with image.old place length bits }
    ensures image { IsImage image.new }
{
    if length == 0 {
        return;
    }
    put_field(image, place, length, bits);
}
