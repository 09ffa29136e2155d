//! The lines of the listing, with which a report begins if a card `/LIST` requests it: one for each
//! card, then one for each symbol. `st_top` (listing.rt) writes them. Locations and values of
//! symbols are bit addresses, and a card assembles to at most 64 bits. docs/report.md ("The
//! listing") has the rules.
//!
//! Proved: each call returns exactly the bytes that specs/Listing.antt defines, `listed_line` and
//! `symbol_line`, with their columns. A card text is at most 80 bytes of ASCII (`IsCardText`), so a
//! line fits its 128 bytes. Not proved: that label.rt of `st_entries`, which parses the listing,
//! reads what is written here.
//!
//! Pinned, by these two definitions, docs/report.md, vectors/worked.txt and label.rt of
//! `st_entries`: the columns. Free: the private functions, if proofs/cards follows the bodies of
//! `push_text`, `push_blanks` and `shown_bits`.

ghost use Rattle.std.specs.Prelude.{◌≡◌, ◌+◌, ◌-◌, ◌^◌, ◌<◌, ◌≤◌, ◌++◌, length, IsAscii, max};
ghost use Rattle.arrayvec.specs.ArrayString.{array_string_len};
ghost use Rattle.st_report.specs.Listing.{blanks, filling, right_in, left_in, emitted_text, location_text, IsCardText, listed_line, symbol_line};

use crate::Line;
use itoa::Buffer;
use st_text::{
    close_line, drop_end_blanks, filled_len, open_line, push_bit_address, push_hex,
    push_short_decimal,
};
use std::str;

// Appends bytes of ASCII unchanged.
fn push_text(line: &mut Line, text: &[u8])
    requires ascii { IsAscii text.now }
    requires room { array_string_len line.old + length text.now ≤ 128 }
    ensures { line.new.bytes ≡ line.old.bytes ++ text.now }
{
    line.push_str(str::from_utf8(text).unwrap());
}

// Appends blanks.
fn push_blanks(line: &mut Line, count: usize)
    requires { array_string_len line.old + count ≤ 128 }
    ensures { line.new.bytes ≡ line.old.bytes ++ blanks count }
{
    for _ in 0..count {
        line.push_str(" ");
    }
}

// Appends the blanks that extend a text to `width` columns.
fn push_filling(line: &mut Line, width: usize, text: &str)
    requires { array_string_len line.old + (max width (length text.now) - length text.now) ≤ 128 }
    ensures bytes { line.new.bytes ≡ line.old.bytes ++ filling width text.now }
    ensures room { array_string_len line.new
        ≤ array_string_len line.old + (max width (length text.now) - length text.now) }
{
    if text.len() < width {
        push_blanks(line, width - text.len());
    }
}

// Appends a text right-aligned in `width` columns.
fn push_right(line: &mut Line, width: usize, text: &str)
    requires { array_string_len line.old + max width (length text.now) ≤ 128 }
    ensures bytes { line.new.bytes ≡ line.old.bytes ++ right_in width text.now }
    ensures room { let shown = max width (length text.now) in
        array_string_len line.new ≤ array_string_len line.old + shown }
{
    push_filling(line, width, text);
    line.push_str(text);
}

// Appends a text left-aligned in `width` columns.
fn push_left(line: &mut Line, width: usize, text: &str)
    requires { array_string_len line.old + max width (length text.now) ≤ 128 }
    ensures bytes { line.new.bytes ≡ line.old.bytes ++ left_in width text.now }
    ensures room { let shown = max width (length text.now) in
        array_string_len line.new ≤ array_string_len line.old + shown }
{
    line.push_str(text);
    push_filling(line, width, text);
}

// The location of a card as word.bit, empty if it has none.
fn shown_location(location: Option<u32>) -> Line
    ensures bytes { result.bytes ≡ location_text location }
    ensures room { array_string_len result ≤ 14 }
{
    let mut shown = Line::new();
    if let Some(location) = location {
        push_bit_address(&mut shown, location);
    }
    shown
}

// Bits in hexadecimal, padded with zeros on the right to whole digits.
fn shown_bits(bits: u64, length: u8) -> Line
    requires whole { length ≤ 64 }
    requires fits { bits < 2 ^ length }
    ensures bytes { result.bytes ≡ emitted_text bits length }
    ensures room { array_string_len result ≤ 16 }
{
    let digits = length.div_ceil(4);
    let mut shown = Line::new();
    push_hex(&mut shown, digits, bits << (4 * digits - length));
    shown
}

/// A line of the listing: the card's number, counted from 1, right-aligned in 5 columns; its
/// location, a bit address, as word.bit right-aligned in 9; the bits that it assembles to in
/// hexadecimal, left-aligned in 16 and padded with zeros on the right to whole digits; and its
/// text. The columns are separated by one blank, and trailing blanks are dropped. `bits` are these
/// bits as one number, and `length` says how many they are.
pub fn line_listed(card: u32, location: Option<u32>, bits: u64, length: u8, text: &[u8]) -> Line
    requires whole { length ≤ 64 }
    requires fits { bits < 2 ^ length }
    requires card_text { IsCardText text.now }
    ensures { result.bytes ≡ listed_line card location bits length text.now }
{
    let mut line = Line::new();
    push_right(&mut line, 5, Buffer::new().format(card));
    line.push_str(" ");
    push_right(&mut line, 9, shown_location(location).as_str());
    line.push_str(" ");
    push_left(&mut line, 16, shown_bits(bits, length).as_str());
    line.push_str(" ");
    push_text(&mut line, text);
    drop_end_blanks(&mut line);
    close_line(line)
}

/// `SYM name word.bit`: the line of a symbol. `name` comes padded with blanks to eight bytes, and
/// the line has it without them; the value is a bit address.
pub fn line_symbol(name: [u8; 8], value: u32) -> Line
    requires { IsAscii name }
    ensures { result.bytes ≡ symbol_line name value }
{
    let mut line = open_line("SYM ");
    push_text(&mut line, &name[..filled_len(&name)]);
    line.push_str(" ");
    push_bit_address(&mut line, value);
    close_line(line)
}
