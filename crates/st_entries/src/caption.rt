//! The texts of an entry (an executed or a dropped instruction, an interrupt, a snapshot): the
//! three in front of its bars, and the title of its bars. docs/chart.md has the rules. The charts
//! of `st_draw` (drawing.rt, terminal.rt, sheet.rt) and log_line.rt use these texts.
//!
//! Proved: each call returns the definition of its name in specs/Caption.antt, unless memory runs
//! out. The law `SymbolsAgree` (specs/Laws.antt of `st_laws`) compares the names of indicators with
//! the system symbols.
//!
//! Pinned, by specs/Caption.antt, docs/chart.md and vectors/pictures: the texts; CARD_LIMIT, a
//! figure of the definitions `card_limit` and `with_dots`, and of preconditions in `st_draw`
//! (sheet.rt, terminal.rt). Free: the bodies, if proofs/caption follows `push_title` and `widest`.
ghost use Rattle.std.specs.Prelude.{◌≡◌, ◌≤◌, ◌++◌, IfOk, decimal};
ghost use Rattle.st_entries.specs.Caption as spec;

use crate::label::label_at;
use crate::plain::push_decimal;
use crate::report::ReportAddress;
use crate::timetable::DrawnEntry;
use st_text::{behind, front};
use std::alloc::{AllocError, Global};

/// The most characters of a card that are shown; a longer text ends in an ellipsis or in dots.
pub const CARD_LIMIT: usize = 40;

// The names of the indicators 0 to 63, each in four characters.
const INDICATOR_NAMES: &[u8; 256] =
    b"MK  IK  IJ  EK  TS  CPUSEKJ UNRJCBJ EPGKUK  EE  EOP CS      OP  \
    AD  USA EXE DS  DF  IF  LC  PF  ZD                                          \
    TF  UF  VF  XF  BTR DTR PG0 PG1 PG2 PG3 PG4 PG5 PG6 XCZ XVLZXVZ \
    XVGZXL  XE  XH  MOP RLZ RZ  RGZ RN  AL  AE  AH      ";

// The name of an indicator in four characters: blanks if it has none, an empty text for a number
// above 63.
fn indicator(i: u64) -> &'static [u8]
    ensures { result.now ≡ spec.indicator_text i }
{
    if 64 <= i {
        return &[];
    }
    front(behind(INDICATOR_NAMES, 4 * i as usize), 4)
}

// A number in decimal.
fn decimal_text(alloc: Global, n: u64) -> Result<Vec<u8>, AllocError>
    ensures { IfOk result (λ text. text.items ≡ decimal n) }
{
    let mut text = Vec::new(alloc);
    push_decimal(&mut text, u128::from(n))?;
    Ok(text)
}

// An address as word.bit.
fn place_text(alloc: Global, place: ReportAddress) -> Result<Vec<u8>, AllocError>
    ensures { IfOk result (λ text. text.items ≡ spec.place_text place) }
{
    let mut text = decimal_text(alloc, place.word)?;
    text.extend_from_slice(b".")?;
    push_decimal(&mut text, u128::from(place.bit))?;
    Ok(text)
}

/// The first text of an entry: its number if it is completed, else its kind (`drop`, `INT` or
/// `SNAP`).
pub fn first_text(alloc: Global, entry: DrawnEntry) -> Result<Vec<u8>, AllocError>
    ensures { IfOk result (λ text. text.items ≡ spec.first_text entry) }
{
    match entry {
        DrawnEntry::Done { number, .. } => decimal_text(alloc, number),
        DrawnEntry::Dropped { .. } => Vec::from_slice(alloc, b"drop"),
        DrawnEntry::Taken { .. } => Vec::from_slice(alloc, b"INT"),
        DrawnEntry::Shown { .. } => Vec::from_slice(alloc, b"SNAP"),
    }
}

/// The second text of an entry: its address as word.bit; for an interrupt the number of its
/// indicator, for a snapshot its tick.
pub fn second_text(alloc: Global, entry: DrawnEntry) -> Result<Vec<u8>, AllocError>
    ensures { IfOk result (λ text. text.items ≡ spec.second_text entry) }
{
    match entry {
        DrawnEntry::Done { place, .. } => place_text(alloc, place),
        DrawnEntry::Dropped { place, .. } => place_text(alloc, place),
        DrawnEntry::Taken { indicator, .. } => decimal_text(alloc, indicator),
        DrawnEntry::Shown { tick } => decimal_text(alloc, tick),
    }
}

/// The third text of an entry: its card's text in the report's listing, if it has one; for an
/// interrupt the name of its indicator.
pub fn third_text<'a>(report: &'a [u8], entry: DrawnEntry) -> &'a [u8]
    ensures { result.now ≡ spec.third_text report.now entry }
{
    match entry {
        DrawnEntry::Done { place, .. } => label_at(report, place),
        DrawnEntry::Dropped { place, .. } => label_at(report, place),
        DrawnEntry::Taken { indicator: i, .. } => indicator(i),
        DrawnEntry::Shown { .. } => &[],
    }
}

/// A third text with only ASCII characters: a text of more than 40 characters is cut to the first
/// 37 and three dots.
pub fn with_dots(alloc: Global, text: &[u8]) -> Result<Vec<u8>, AllocError>
    ensures { IfOk result (λ out. out.items ≡ spec.with_dots text.now) }
{
    if text.len() <= CARD_LIMIT {
        return Vec::from_slice(alloc, text);
    }
    let mut out = Vec::from_slice(alloc, front(text, 37))?;
    out.extend_from_slice(b"...")?;
    Ok(out)
}

/// The number of characters that are shown of the longest third text, at most 40; 0 if there is no
/// entry.
pub fn widest(report: &[u8], entries: &[DrawnEntry]) -> usize
    ensures value { result ≡ spec.widest report.now entries.now }
    ensures inside { result ≤ 40 }
{
    let mut most = 0;
    let mut rest = entries;
    // Proofs name the loop by its label.
    'entries: while let [entry, after @ ..] = rest {
        most = most.max(third_text(report, *entry).len().min(CARD_LIMIT));
        rest = after;
    }
    most
}

// Appends a text and a number.
fn push_numbered(out: &mut Vec<u8>, words: &[u8], n: u64) -> Result<(), AllocError>
    ensures { IfOk result (λ _. out.new.items ≡ out.old.items
        ++ spec.words_with_number words.now n) }
{
    out.extend_from_slice(words)?;
    push_decimal(out, u128::from(n))
}

// Appends the title of an entry's bars.
fn push_title(out: &mut Vec<u8>, entry: DrawnEntry) -> Result<(), AllocError>
    ensures { IfOk result (λ _. out.new.items ≡ out.old.items ++ spec.title entry) }
{
    match entry {
        DrawnEntry::Done {
            number,
            prepared,
            ready,
            turn,
            complete,
            ..
        } => {
            push_numbered(out, b"row ", number)?;
            push_numbered(out, b": waits for operands from P ", prepared)?;
            push_numbered(out, b" to R ", ready)?;
            push_numbered(out, b", for its turn to ", turn)?;
            push_numbered(out, b", executes to C ", complete)
        }
        DrawnEntry::Dropped { prepared, end, .. } => {
            push_numbered(out, b"prepared at P ", prepared)?;
            push_numbered(out, b", dropped at ", end)
        }
        DrawnEntry::Taken { .. } => Ok(()),
        DrawnEntry::Shown { .. } => Ok(()),
    }
}

/// The title of an entry's bars, which a viewer shows under the pointer: the ticks of its phases.
/// An interrupt and a snapshot have no bars.
pub fn title(alloc: Global, entry: DrawnEntry) -> Result<Vec<u8>, AllocError>
    ensures { IfOk result (λ text. text.items ≡ spec.title entry) }
{
    let mut out = Vec::new(alloc);
    push_title(&mut out, entry)?;
    Ok(out)
}
