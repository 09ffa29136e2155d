//! The text of the card that was assembled to the bits at an address, from the listing at the
//! beginning of a report. docs/report.md has the columns of the listing: card in 1 to 5, location
//! in 7 to 15, bits from 17, text from 34. Only caption.rt calls `label_at`.
//!
//! Proved: the text is `label` of specs/Label.antt. Not proved: that `st_report` writes these
//! columns (its specs/Listing.antt); the charts in vectors/pictures show this. A changed listing
//! needs a change here.
//!
//! Pinned, by specs/Label.antt, docs/report.md and vectors/pictures: the columns; that the listing
//! ends at the first line that does not begin with a number, and that the first card with this
//! location counts. Free: the form of the search, if proofs/label follows the loop of `label_at`.
ghost use Rattle.std.specs.Prelude.{◌≡◌};
ghost use Rattle.st_entries.specs.Label as spec;
ghost use Rattle.st_entries.specs.Report.{place_in_report};

use crate::report::{ReportAddress, number, place_of};
use st_text::{behind, cut, front, without_end_blanks, without_front_blanks};

// Whether a line is one of the listing: it begins with a number, right-aligned in five characters.
fn is_listed(line: &[u8]) -> bool
    ensures { result ≡ spec.is_listed line.now }
{
    number(without_front_blanks(front(line, 5))).is_some()
}

// Whether a text spells an address.
fn is_place(text: &[u8], here: ReportAddress) -> bool
    ensures { result ≡ spec.is_place (place_in_report text.now) here }
{
    match place_of(text) {
        Some(place) => place.word == here.word && place.bit == here.bit,
        None => false,
    }
}

// Whether a text begins with a character other than a blank.
fn is_filled(text: &[u8]) -> bool
    ensures { result ≡ spec.has_filled_front text.now }
{
    match text {
        [] => false,
        [first, ..] => *first != b' ',
    }
}

// Whether a listed card was assembled to bits at an address.
fn emits(line: &[u8], here: ReportAddress) -> bool
    ensures { result ≡ spec.emits line.now here }
{
    is_place(without_front_blanks(front(behind(line, 6), 9)), here) && is_filled(behind(line, 16))
}

// The text of a listed card, without leading and trailing blanks.
fn card_text(line: &[u8]) -> &[u8]
    ensures { result.now ≡ spec.card_text line.now }
{
    without_end_blanks(without_front_blanks(behind(line, 33)))
}

/// The text of the card that was assembled to the bits at an address; empty if the report does not
/// list such a card.
pub fn label_at(report: &[u8], here: ReportAddress) -> &[u8]
    ensures { result.now ≡ spec.label report.now here }
{
    let mut rest = report;
    // Proofs name the loop by its label.
    'lines: while let Some((line, after)) = cut(rest, b'\n') {
        if !is_listed(line) {
            return &[];
        }
        if emits(line, here) {
            return card_text(line);
        }
        rest = after;
    }
    if is_listed(rest) && emits(rest, here) {
        return card_text(rest);
    }
    &[]
}
