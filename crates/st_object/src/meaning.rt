//! Parses the lines of an object text, each by itself. docs/object-text.md has the lines.
//! reading.rt calls `item_in` for each line. The parser is loose (leading zeros, other letters);
//! `item_in` then compares the line with the only spelling of its item (spelling.rt).
//!
//! Proved: the result is `item_in` of specs/Meaning.antt. By the law `LinesAreReadBack`
//! (specs/Laws.antt) the line of an item is read as that item, and no other line is.
//!
//! Pinned, by `item_in`, docs/object-text.md and vectors/objects.txt: the words; by the law
//! `NumbersAgree` (specs/Laws.antt of `st_laws`): numbers of at most 12 digits, as on control
//! cards. Free: how loose the parser is, together with its definition `item_loosely`; the split
//! into functions, if proofs/meaning follows `hex_in` and `parts_at`.

ghost use Rattle.std.specs.Prelude.{◌≡◌, ◌≤◌, ◌<◌, ◌%◌, ◌^◌, IfSome};
ghost use Rattle.std.specs.Option.{option_map};
ghost use Rattle.st_card.specs.declared.limits.TheConstants.{MOST_NUMBER};
ghost use Rattle.st_text.specs.Bytes.{blank};
ghost use Rattle.st_object.specs.Meaning as spec;

use crate::items::{Item, Kind};
use crate::spelling::spelled;
use st_card::limits::MOST_NUMBER;
use st_card::{ControlForm, control_in, keyword_in};
use st_text::{cut, number_up_to, row_of};

// The words at the beginning of lines that are no requests.
const WORDS: [(&[u8], Kind); 4] = [
    (b"OBJECT", Kind::Object),
    (b"START", Kind::Start),
    (b"W", Kind::Word),
    (b"FIN", Kind::Fin),
];

// The text before the first byte `at` of a text, and the text after it.
fn parts_at(at: u8, text: &[u8]) -> Option<(&[u8], &[u8])>
    ensures { option_map (λ p. (p.0.now, p.1.now)) result ≡ spec.parts_at at text.now }
{
    cut(text, at)
}

// The number that a text spells with at most 12 digits.
fn short_number(text: &[u8]) -> Option<u64>
    ensures value { result ≡ spec.short_number text.now }
    ensures short { IfSome result (λ n. n ≤ MOST_NUMBER) }
{
    number_up_to(text, MOST_NUMBER)
}

// The value of a hexadecimal digit.
fn hex_digit_in(c: u8) -> u8
    ensures value { result ≡ spec.hex_digit_in c }
    ensures small { result < 16 }
{
    if c < b'A' { c % 16 } else { (c % 16 + 9) % 16 }
}

// The value of the last sixteen hexadecimal digits of a text.
fn hex_in(text: &[u8]) -> u64
    ensures { result ≡ spec.hex_number text.now % 2 ^ 64 }
{
    let mut number = 0;
    let mut rest = text;
    // Proofs name the loop by its label.
    'digits: while let [digit, after @ ..] = rest {
        number = number % (1 << 60) * 16 + u64::from(hex_digit_in(*digit));
        rest = after;
    }
    number
}

// Parses the text after the word of this kind.
fn item_behind(kind: Kind, text: &[u8]) -> Option<Item>
    ensures { result ≡ spec.item_behind kind text.now }
{
    match kind {
        Kind::Object => Some(Item::Object),
        Kind::Start => {
            let (word, bit) = parts_at(b'.', text)?;
            let (word, bit) = (short_number(word)?, short_number(bit)?);
            Some(Item::Start(2 * word + bit / 32))
        }
        Kind::Word => {
            let (address, word) = parts_at(b' ', text)?;
            Some(Item::Word(short_number(address)?, hex_in(word)))
        }
        Kind::Ask(keyword) => Some(Item::Ask(control_in(keyword, text)?)),
        Kind::Fin => Some(Item::Fin),
    }
}

// The kind of a line that begins with a word.
fn kind_of_word(word: &[u8]) -> Option<Kind>
    ensures { result ≡ spec.kind_of_word word.now }
{
    match row_of(&WORDS, word) {
        Some(kind) => Some(kind),
        None => match keyword_in(ControlForm::ObjectLine, word) {
            Some(keyword) => Some(Kind::Ask(keyword)),
            None => None,
        },
    }
}

// Parses a line, given its keyword and the text after that.
fn item_of(word: &[u8], rest: &[u8]) -> Option<Item>
    ensures { result ≡ spec.item_of word.now rest.now }
{
    item_behind(kind_of_word(word)?, rest)
}

// Parses a line without checking its spelling.
fn item_loosely(line: &[u8]) -> Option<Item>
    ensures { result ≡ spec.item_loosely (spec.parts_at blank line.now) line.now }
{
    match parts_at(b' ', line) {
        None => item_of(line, &[]),
        Some((word, rest)) => item_of(word, rest),
    }
}

// Parses a line; `None` if it is not exactly the spelling of an item.
pub(crate) fn item_in(line: &[u8]) -> Option<Item>
    ensures { result ≡ spec.item_in line.now }
{
    let item = item_loosely(line)?;
    if spelled(item).as_str().as_bytes() == line {
        Some(item)
    } else {
        None
    }
}
