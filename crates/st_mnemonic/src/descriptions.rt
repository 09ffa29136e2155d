//! Data descriptions: modes, lengths and byte sizes in parentheses after a mnemonic, as
//! `(BU,64,8)`. Lengths are 1 to 64 bits, byte sizes 1 to 8. `st_strap` (reading.rt) calls
//! `described_in`. docs/strap.md has the rules.
//!
//! Proved: the result is `described_form` after `description_of` of specs/Describing.antt: the form
//! that a group spells, if the operation allows it. The table of modes is `modes` there.
//!
//! Pinned, by these definitions, docs/strap.md, vectors/mnemonics.txt and vectors/faults.txt: the
//! descriptions and which operation allows them. A new mode is a row in `modes` and here. Free: the
//! split into functions.

ghost use Rattle.std.specs.Prelude.{◌≡◌, ◌≤◌, length, IfSome};
ghost use Rattle.std.specs.Option.{option_and_then};
ghost use Rattle.st_text.specs.Bytes.{comma};
ghost use Rattle.st_text.specs.Tables.{row_of};
ghost use Rattle.st_text.specs.Pieces.{pieces_of};
ghost use Rattle.st_mnemonic.specs.Describing as spec;
ghost use Rattle.st_mnemonic.specs.Fields.{texts};

use crate::field::FieldText;
use crate::form::Form;
use crate::operations::Operation;
use crate::parts::{ends_with, pieces};
use st_bits::VflOp;
use st_format::misfits_field;
use st_text::{Reading, read_number, row_of};

/// The mode of a data description: its first word.
#[derive(Clone, Copy)]
pub enum Mode {
    /// A field; `decimal` says whether its bytes are decimal digits, and `unsigned` whether it
    /// lacks a sign byte.
    Field { decimal: bool, unsigned: bool },
    /// The mode N, of the floating group.
    Normalized,
    /// The mode U, of the floating group.
    Unnormalized,
}

/// The meaning of a parenthesized group as a data description.
#[derive(Clone, Copy)]
pub enum Description {
    /// There is no group.
    Absent,
    /// The form of an operand field.
    InForm(Form),
    /// An operation of the floating group.
    Floating { unnormalized: bool },
}

// The modes by their words.
const MODES: [(&[u8], Mode); 6] = [
    (
        b"B",
        Mode::Field {
            decimal: false,
            unsigned: false,
        },
    ),
    (
        b"BU",
        Mode::Field {
            decimal: false,
            unsigned: true,
        },
    ),
    (
        b"D",
        Mode::Field {
            decimal: true,
            unsigned: false,
        },
    ),
    (
        b"DU",
        Mode::Field {
            decimal: true,
            unsigned: true,
        },
    ),
    (b"N", Mode::Normalized),
    (b"U", Mode::Unnormalized),
];

// The form of a field without a data description.
fn default_form() -> Form
    ensures { result ≡ spec.default_form }
{
    Form {
        decimal: false,
        unsigned: true,
        length: 64,
        byte: 8,
        p: 0,
    }
}

// The number that a text spells, if it is from 1 to `most`.
fn number_to(most: u8, text: &[u8]) -> Option<u8>
    ensures { result ≡ spec.number_to most text.now }
{
    match read_number(text, u64::from(most)) {
        Reading::Good(number) if number != 0 => Some(number as u8),
        _ => None,
    }
}

// The description of a mode with the texts of an optional length and byte size after it.
fn in_mode(mode: Mode, more: &[FieldText]) -> Option<Description>
    ensures { result ≡ spec.in_mode mode (texts more.now) }
{
    match mode {
        Mode::Field { decimal, unsigned } => in_form(decimal, unsigned, more),
        Mode::Normalized if more.is_empty() => Some(Description::Floating {
            unnormalized: false,
        }),
        Mode::Unnormalized if more.is_empty() => Some(Description::Floating { unnormalized: true }),
        _ => None,
    }
}

// The description of a mode of fields: the length is 64 bits and the byte size the usual one,
// unless they are given.
fn in_form(decimal: bool, unsigned: bool, more: &[FieldText]) -> Option<Description>
    ensures { result ≡ spec.in_mode (Mode.Field decimal unsigned) (texts more.now) }
{
    let usual = if decimal { 4 } else { 8 };
    let (length, byte) = match more {
        [] => (64, usual),
        [length] => (number_to(64, length.text)?, usual),
        [length, byte] => (number_to(64, length.text)?, number_to(8, byte.text)?),
        _ => return None,
    };
    Some(Description::InForm(Form {
        decimal,
        unsigned,
        length,
        byte,
        p: 0,
    }))
}

// The description of a group in parentheses.
fn description_of(group: &[u8]) -> Option<Description>
    requires { length group.now ≤ 63 }
    ensures { result ≡ spec.description_of group.now }
{
    match group {
        [] => Some(Description::Absent),
        [_, rest @ ..] => {
            if !ends_with(group, b')') {
                return None;
            }
            in_pieces(rest.split_at(group.len().saturating_sub(2)).0)
        }
    }
}

// The description of the text between the parentheses.
fn in_pieces(text: &[u8]) -> Option<Description>
    requires { length text.now ≤ 63 }
    ensures { result ≡ spec.in_pieces (pieces_of comma text.now) }
{
    match pieces(text).as_slice() {
        [] => None,
        [mode, more @ ..] => in_mode(row_of(&MODES, mode.text)?, more),
    }
}

// Whether an operation may have a form.
fn may_have(op: Operation, form: Form) -> bool
    ensures { result ≡ spec.may_have op form }
{
    match op {
        Operation::Vfl { .. } | Operation::Data => {
            !misfits_field(form.decimal, form.unsigned, form.length, form.byte)
        }
        Operation::Connect { .. } => !form.decimal && form.unsigned,
        _ => false,
    }
}

// The number of the normalized floating operation with the mnemonic of an operation on a field;
// `None` if there is none.
fn floating_number(op: Operation) -> Option<u8>
    ensures value { result ≡ spec.floating_number op }
    ensures bound { IfSome result (λ n. n ≤ 6) }
{
    match op {
        Operation::Vfl { op, negated: false } => match op {
            VflOp::L => Some(1),
            VflOp::St => Some(2),
            VflOp::Add => Some(3),
            VflOp::K => Some(4),
            VflOp::Mul => Some(5),
            VflOp::Div => Some(6),
            _ => None,
        },
        _ => None,
    }
}

// The operation and form that result from applying a description to an operation, if the operation
// allows it.
fn described(op: Operation, description: Description) -> Option<(Operation, Form)>
    ensures { result ≡ spec.described_form op description }
{
    match description {
        Description::Absent => Some((op, default_form())),
        Description::InForm(form) if may_have(op, form) => Some((op, form)),
        Description::InForm(_) => None,
        Description::Floating { unnormalized } => {
            let number = floating_number(op)?;
            let number = if unnormalized { number + 8 } else { number };
            Some((Operation::Floating(number), default_form()))
        }
    }
}

/// Applies a group, as a data description, to an operation, and returns the resulting operation and
/// form. An empty group gives the default form. `None` if the group is not a description or the
/// operation does not allow it. A description of the floating group turns an operation on a field
/// into a floating operation.
pub fn described_in(op: Operation, group: &[u8]) -> Option<(Operation, Form)>
    requires { length group.now ≤ 63 }
    ensures { result ≡ option_and_then (spec.described_form op) (spec.description_of group.now) }
{
    described(op, description_of(group)?)
}
