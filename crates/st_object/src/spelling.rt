//! The spelling of the lines of an object text, one text for each item, without its line end.
//! docs/object-text.md has the lines. writing.rt writes them, and meaning.rt compares lines with
//! them. `st_card` spells the lines of requests. No other crate calls `spelled`.
//!
//! Proved: `spelled` is `line_text` of specs/Lines.antt.
//!
//! Pinned, by `line_text`, docs/object-text.md and vectors/objects.txt: each byte; words of storage
//! have 16 hexadecimal digits, other numbers are decimal, a start is `word.bit`. Free: the bodies.
//! A new kind of line needs a case here and in `line_text`.

ghost use Rattle.std.specs.Prelude.{◌≡◌, ◌++◌, codes, decimal};
ghost use Rattle.st_text.specs.Numerals.{hex_word, half_address};
ghost use Rattle.st_object.specs.Lines as spec;

use crate::items::Item;
use st_card::{ControlForm, control_line};
use st_text::{Line, open_line, push_decimal, push_hex};

// The line of the program's start, a half-word address.
fn start_line(half: u64) -> Line
    ensures { result.bytes ≡ codes "START " ++ half_address half }
{
    let mut line = open_line("START ");
    push_decimal(&mut line, half / 2);
    line.push_str(".");
    push_decimal(&mut line, 32 * (half % 2));
    line
}

// The line of word `w` of storage.
fn word_line(w: u64, word: u64) -> Line
    ensures { result.bytes ≡ codes "W " ++ (decimal w ++ (codes " " ++ hex_word word)) }
{
    let mut line = open_line("W ");
    push_decimal(&mut line, w);
    line.push_str(" ");
    push_hex(&mut line, 16, word);
    line
}

// The only spelling of an item as a line.
pub(crate) fn spelled(item: Item) -> Line
    ensures { result.bytes ≡ spec.line_text item }
{
    match item {
        Item::Object => open_line("OBJECT"),
        Item::Start(half) => start_line(half),
        Item::Word(w, word) => word_line(w, word),
        Item::Ask(control) => control_line(ControlForm::ObjectLine, control),
        Item::Fin => open_line("FIN"),
    }
}
