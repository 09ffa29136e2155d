//! The text of a statement, cut into its parts: operation, groups in parentheses, and fields
//! between commas. A statement is columns 10 to 72 of a card, at most 63 bytes, which bounds all
//! texts here. `st_strap` (reading.rt, fields.rt), descriptions.rt, forms.rt and operations.rt use
//! the calls. docs/strap.md has the rules.
//!
//! Proved: the parts are `statement_text`, `operation_text`, `behind_word`, `group_length` and
//! `fields_of` of specs/Text.antt; of fields and pieces the first seventeen are kept.
//!
//! Pinned, by these definitions, docs/strap.md and vectors/texts.txt: the parts; by `st_strap`: the
//! public calls. Free: the bodies, if proofs/parts follows those of `stop`, `ends_with`,
//! `without_blanks` and `pieces`.

ghost use Rattle.std.specs.Prelude.{◌≡◌, ◌≤◌, ◌==◌, not, length, take, filter};
ghost use Rattle.st_text.specs.Bytes.{blank, comma};
ghost use Rattle.st_text.specs.Pieces.{pieces_of};
ghost use Rattle.st_mnemonic.specs.Text as spec;
ghost use Rattle.st_mnemonic.specs.Fields.{texts};

use crate::field::{FieldText, Fields};
use arrayvec::ArrayVec;
use st_text::cut;

// The number of bytes before the first occurrence of either of two bytes.
fn stop(text: &[u8], a: u8, b: u8) -> usize
    ensures value { result ≡ spec.stop a b text.now }
    ensures within { result ≤ length text.now }
{
    match text {
        [] => 0,
        [first, rest @ ..] => {
            if *first == a || *first == b {
                0
            } else {
                stop(rest, a, b) + 1
            }
        }
    }
}

/// Whether a text begins with a byte.
pub fn begins_with(text: &[u8], byte: u8) -> bool
    ensures { result ≡ spec.begins_with byte text.now }
{
    text.first().is_some_and(|first| *first == byte)
}

/// Whether a text ends with a byte.
pub fn ends_with(text: &[u8], byte: u8) -> bool
    ensures { result ≡ spec.ends_with byte text.now }
{
    text.last().is_some_and(|last| *last == byte)
}

/// A statement without its comment, which begins with `;`, and without its blanks. The text is
/// columns 10 to 72 of a card, at most 63 bytes.
pub fn clean(text: &[u8]) -> ArrayVec<u8, 63>
    requires { length text.now ≤ 63 }
    ensures value { result.items ≡ spec.statement_text text.now }
    ensures within { length result.items ≤ 63 }
{
    without_blanks(text.split_at(stop(text, b';', b';')).0)
}

// A text without its blanks.
fn without_blanks(text: &[u8]) -> ArrayVec<u8, 63>
    requires { length text.now ≤ 63 }
    ensures value { result.items ≡ filter (λ c. not (c == blank)) text.now }
    ensures within { length result.items ≤ 63 }
{
    let mut kept = ArrayVec::new();
    let mut rest = text;
    // Proofs name the loops by their labels.
    'bytes: while let [byte, after @ ..] = rest {
        if *byte != b' ' {
            kept.push(*byte);
        }
        rest = after;
    }
    kept
}

/// Splits a statement into its operation, which ends before the first `(` or comma, and the text
/// after the operation.
pub fn split_word(statement: &[u8]) -> (&[u8], &[u8])
    ensures word { result.0.now ≡ spec.operation_text statement.now }
    ensures behind { result.1.now ≡ spec.behind_word statement.now }
    ensures shorter { length result.1.now ≤ length statement.now }
{
    statement.split_at(stop(statement, b'(', b','))
}

// The length in bytes of the parenthesized group at the start of a text.
pub(crate) fn group_length(text: &[u8]) -> usize
    ensures value { result ≡ spec.group_length text.now }
    ensures within { result ≤ length text.now }
{
    if begins_with(text, b'(') {
        (stop(text, b')', b')') + 1).min(text.len())
    } else {
        0
    }
}

/// The first seventeen fields of the text after an operation and its groups, each preceded by a
/// comma. An empty text has no fields. No operation has more than sixteen fields.
pub fn fields(text: &[u8]) -> Fields<'_>
    requires { length text.now ≤ 63 }
    ensures { texts result.items ≡ take 17 (spec.fields_of text.now) }
{
    match text {
        [] => Fields::new(),
        [_, rest @ ..] => pieces(rest),
    }
}

// The first seventeen pieces between the commas of a text.
pub(crate) fn pieces(text: &[u8]) -> Fields<'_>
    requires { length text.now ≤ 63 }
    ensures { texts result.items ≡ take 17 (pieces_of comma text.now) }
{
    let mut fields = Fields::new();
    let mut rest = text;
    'pieces: while let Some((piece, after)) = cut(rest, b',') {
        fields.push(FieldText { text: piece });
        if fields.is_full() {
            return fields;
        }
        rest = after;
    }
    fields.push(FieldText { text: rest });
    fields
}
