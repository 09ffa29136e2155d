//! The text of a print: the order WR of a job's program sends eight words to the printer, and the
//! report has their text in a line PRT (docs/report.md, docs/machine.md). `st_run` calls
//! `print_text` for the report, `st_lines` for the ledger.
//!
//! Proved: the text is `line_of_words` of specs/Printer.antt, and has only printable characters
//! (`printable`).
//!
//! Pinned, by this definition, docs/machine.md, docs/CLAIMS.md and vectors/orders.txt: 64
//! characters, a blank for each byte outside 32 to 126, and no blanks at the end. Free: the bodies,
//! if proofs/printer follows the loops.

ghost use Rattle.std.specs.Prelude.{◌≡◌, ◌+◌, ◌<◌, ◌≤◌, ◌++◌, IsTrue};
ghost use Rattle.arrayvec.specs.ArrayString.{array_string_len};
ghost use Rattle.st_text.specs.Bytes.{is_printable};
ghost use Rattle.st_exch.specs.Printer as spec;

use arrayvec::ArrayString;
use st_text::{drop_end_blanks, is_printable_byte};

/// The text that the printer prints of eight words: their 64 bytes, the leftmost first, with a
/// blank for each byte outside 32 to 126, and without trailing blanks. It may be empty.
pub fn print_text(words: &[u64; 8]) -> ArrayString<64>
    ensures text { result.bytes ≡ spec.line_of_words words.now }
    ensures printable { IsTrue (is_printable result.bytes) }
{
    let mut text = ArrayString::new();
    for word in words {
        push_word(&mut text, *word);
    }
    drop_end_blanks(&mut text);
    text
}

// Appends the eight characters of a word.
fn push_word(text: &mut ArrayString<64>, word: u64)
    requires { array_string_len text.old + 8 ≤ 64 }
    ensures bytes { text.new.bytes ≡ text.old.bytes ++ spec.characters_of word }
    ensures room { array_string_len text.new ≡ array_string_len text.old + 8 }
{
    for byte in word.to_be_bytes() {
        let shown = if is_printable_byte(byte) { byte } else { b' ' };
        text.push(char::from(shown));
    }
}
