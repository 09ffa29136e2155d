//! Parses the lines of a report that describe its timetable: `ROW`, `DROP`, `INT` and `SNAP`, as
//! docs/report.md has them. timetable.rt calls `item_of` for each line; label.rt calls `number` and
//! `place_of`; the charts show a `ReportAddress`.
//!
//! Proved: the contents are `item` of specs/Report.antt, read leniently: only the keywords and
//! numbers at their places count. Not proved: that `st_report` writes these lines; the charts in
//! vectors/pictures show this.
//!
//! Pinned, by specs/Report.antt, docs/report.md and vectors/pictures: the places of keywords and
//! numbers. Addresses are words and bits, ticks are clock cycles, all below 2^64. A new kind of
//! line needs a variant here, and a case of `item` and of `item_of`. Free: the bodies, if
//! proofs/report follows the recursion of `piece`.
ghost use Rattle.std.specs.Prelude.{◌≡◌};
ghost use Rattle.st_entries.specs.Report as spec;

use st_text::{cut, number_up_to};

/// An address in a report: a word, and a bit in it.
#[derive(Clone, Copy)]
pub struct ReportAddress {
    /// The number of the word.
    pub word: u64,
    /// The bit in the word, 0 leftmost; 0 or 32 in reports.
    pub bit: u64,
}

/// The contents of a line that describes the timetable.
#[derive(Clone, Copy)]
pub enum TimetableLine {
    /// An instruction completes: its number, its address, and the ticks at which it was prepared,
    /// its operands were available and it completed.
    Row {
        number: u64,
        place: ReportAddress,
        prepared: u64,
        ready: u64,
        complete: u64,
    },
    /// An entry is dropped (flushed) that was prepared at this tick.
    Drop {
        place: ReportAddress,
        prepared: u64,
    },
    /// An interrupt by this indicator is taken.
    Interrupt {
        indicator: u64,
    },
    /// A snapshot of the machine at this tick.
    Snapshot {
        tick: u64,
    },
}

// The k-th piece, counted from 0, of a text that is cut at a byte.
fn piece(text: &[u8], at: u8, k: usize) -> &[u8]
    ensures { result.now ≡ spec.piece at text.now k }
{
    match cut(text, at) {
        Some((first, _)) if k == 0 => first,
        Some((_, rest)) => piece(rest, at, k - 1),
        None if k == 0 => text,
        None => &[],
    }
}

// The k-th word of a line, counted from 0.
fn word(line: &[u8], k: usize) -> &[u8]
    ensures { result.now ≡ spec.word_in_line line.now k }
{
    piece(line, b' ', k)
}

/// The number that a word spells; `None` if it is not a number below 2^64.
pub fn number(text: &[u8]) -> Option<u64>
    ensures { result ≡ spec.number_in_report text.now }
{
    number_up_to(text, u64::MAX)
}

/// The address that a word spells as word.bit.
pub fn place_of(text: &[u8]) -> Option<ReportAddress>
    ensures { result ≡ spec.place_in_report text.now }
{
    Some(ReportAddress {
        word: number(piece(text, b'.', 0))?,
        bit: number(piece(text, b'.', 1))?,
    })
}

// Whether the k-th word of a line is this text.
fn has(line: &[u8], k: usize, text: &[u8]) -> bool
    ensures { result ≡ spec.has line.now k text.now }
{
    word(line, k) == text
}

// Parses the line of a completed entry.
fn row(line: &[u8]) -> Option<TimetableLine>
    ensures { result ≡ spec.row_item line.now }
{
    let n = number(word(line, 1))?;
    let place = place_of(word(line, 2))?;
    let prepared = number(word(line, 4))?;
    let ready = number(word(line, 6))?;
    let complete = number(word(line, 8))?;
    Some(TimetableLine::Row {
        number: n,
        place,
        prepared,
        ready,
        complete,
    })
}

/// Parses a line; `None` if it does not describe the timetable.
pub fn item_of(line: &[u8]) -> Option<TimetableLine>
    ensures { result ≡ spec.item line.now }
{
    if has(line, 0, b"ROW") && has(line, 3, b"P") && has(line, 5, b"R") && has(line, 7, b"C") {
        return row(line);
    }
    if has(line, 0, b"DROP") && has(line, 2, b"P") {
        return Some(TimetableLine::Drop {
            place: place_of(word(line, 1))?,
            prepared: number(word(line, 3))?,
        });
    }
    if has(line, 0, b"INT") && has(line, 2, b"AFTER") {
        return Some(TimetableLine::Interrupt {
            indicator: number(word(line, 1))?,
        });
    }
    if has(line, 0, b"SNAP") {
        return Some(TimetableLine::Snapshot {
            tick: number(word(line, 1))?,
        });
    }
    None
}
