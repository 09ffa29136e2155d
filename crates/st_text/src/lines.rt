//! Lines of text in memory, of at most 128 bytes, and the pieces of which they are composed:
//! numbers, addresses and flags. `st_report` and `st_lines` begin a line with `open_line`, append
//! pieces, and end it with `close_line`; `st_card`, `st_dis`, `st_gen` and `st_object` compose
//! texts by the calls; `st_exch` calls `drop_end_blanks`.
//!
//! Proved: exactly the text of the piece is appended (clause `bytes`), as specs/Numerals.antt and
//! `decimal` of the standard library define it. The clause `room` bounds the length; a `requires`
//! has the room of the longest piece, so no line overflows.
//!
//! Pinned, by specs/Numerals.antt and docs/report.md ("How things are written"): the texts. Pinned,
//! by the clauses of these crates: 128. Free: the bodies, if proofs/lines follows `push_hex` and
//! `push_half_address`.

ghost use Rattle.std.specs.Prelude.{◌≡◌, ◌+◌, ◌<◌, ◌≤◌, ◌++◌, length, decimal};
ghost use Rattle.arrayvec.specs.ArrayString.{array_string_len};
ghost use Rattle.st_text.specs.Blanks.{without_end_blanks};
ghost use Rattle.st_text.specs.Bytes.{lf};
ghost use Rattle.st_text.specs.Numerals.{hex_digit, hex_text, bit_address, half_address, flag};

use crate::blanks::filled_len;
use arrayvec::ArrayString;
use itoa::Buffer;

/// A line of at most 128 bytes.
pub type Line = ArrayString<128>;

/// A line that starts with this word, of at most 128 bytes.
pub fn open_line(word: &str) -> Line
    requires { length word.now ≤ 128 }
    ensures { result.bytes ≡ word.now }
{
    let mut line = Line::new();
    line.push_str(word);
    line
}

/// The line with its line end appended.
pub fn close_line(mut line: Line) -> Line
    requires { array_string_len line < 128 }
    ensures { result.bytes ≡ line.bytes ++ lf }
{
    line.push_str("\n");
    line
}

/// Appends a number in decimal; it has at most 20 digits.
pub fn push_decimal(line: &mut Line, n: u64)
    requires { array_string_len line.old + 20 ≤ 128 }
    ensures bytes { line.new.bytes ≡ line.old.bytes ++ decimal n }
    ensures room { array_string_len line.new ≤ array_string_len line.old + 20 }
{
    line.push_str(Buffer::new().format(n));
}

/// Appends a number below 2^32 in decimal; it has at most ten digits.
pub fn push_short_decimal(line: &mut Line, n: u32)
    requires { array_string_len line.old + 10 ≤ 128 }
    ensures bytes { line.new.bytes ≡ line.old.bytes ++ decimal n }
    ensures room { array_string_len line.new ≤ array_string_len line.old + 10 }
{
    line.push_str(Buffer::new().format(n));
}

// The hexadecimal digit of a number below 16.
fn hex_char(digit: u8) -> char
    requires { digit < 16 }
    ensures value { result ≡ hex_digit digit }
    ensures ascii { result < 128 }
{
    let code = if digit < 10 {
        b'0' + digit
    } else {
        b'A' + (digit - 10)
    };
    char::from(code)
}

/// Appends the last `digits` digits of a number in upper-case hexadecimal.
pub fn push_hex(line: &mut Line, digits: u8, n: u64)
    requires { array_string_len line.old + digits ≤ 128 }
    ensures bytes { line.new.bytes ≡ line.old.bytes ++ hex_text digits n }
    ensures room { array_string_len line.new ≡ array_string_len line.old + digits }
{
    if digits == 0 {
        return;
    }
    push_hex(line, digits - 1, n / 16);
    line.push(hex_char((n % 16) as u8));
}

/// Appends a bit address as word.bit.
pub fn push_bit_address(line: &mut Line, address: u32)
    requires { array_string_len line.old + 14 ≤ 128 }
    ensures bytes { line.new.bytes ≡ line.old.bytes ++ bit_address address }
    ensures room { array_string_len line.new ≤ array_string_len line.old + 14 }
{
    push_short_decimal(line, address / 64);
    line.push_str(".");
    line.push_str(Buffer::new().format((address % 64) as u8));
}

/// Appends a half-word address as word.bit.
pub fn push_half_address(line: &mut Line, address: u32)
    requires { array_string_len line.old + 14 ≤ 128 }
    ensures bytes { line.new.bytes ≡ line.old.bytes ++ half_address address }
    ensures room { array_string_len line.new ≤ array_string_len line.old + 14 }
{
    push_short_decimal(line, address / 2);
    if address % 2 == 0 {
        line.push_str(".0");
    } else {
        line.push_str(".32");
    }
}

/// Appends 1 for true, 0 for false.
pub fn push_flag(line: &mut Line, yes: bool)
    requires { array_string_len line.old < 128 }
    ensures bytes { line.new.bytes ≡ line.old.bytes ++ flag yes }
    ensures room { array_string_len line.new ≡ array_string_len line.old + 1 }
{
    line.push_str(if yes { "1" } else { "0" });
}

/// Removes the trailing blanks of a text.
pub fn drop_end_blanks<const N: usize>(text: &mut ArrayString<N>)
    ensures bytes { text.new.bytes ≡ without_end_blanks text.old.bytes }
    ensures room { array_string_len text.new ≤ array_string_len text.old }
{
    let filled = filled_len(text.as_str().as_bytes());
    text.truncate(filled);
}
