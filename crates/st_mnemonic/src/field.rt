//! The text of a statement's field, and the list of these texts. parts.rt makes them;
//! descriptions.rt and `st_strap` read them. docs/strap.md has the rules of fields.
//!
//! Proved: each text has at most 63 bytes (columns 10 to 72); `fits` is part of the type, and
//! `st_strap` needs it to keep expressions. Not proved here: which texts a statement has; parts.rt
//! proves this.
//!
//! Pinned, by docs/strap.md (the columns of a card) and the clauses of `st_strap`: the bound of 63
//! bytes, and the type `FieldText`. Free: MOST_FIELDS, a figure in clauses of parts.rt; with these
//! clauses it may be any number above 16, the most fields of an operation.

ghost use Rattle.std.specs.Prelude.{◌≤◌, length};

use arrayvec::ArrayVec;

/// The text of one field, between commas.
#[derive(Clone, Copy)]
pub struct FieldText<'a> {
    /// The field's bytes without blanks, at most 63.
    pub text: &'a [u8],
    // Proved for each value of the type: the text has at most 63 bytes.
    ghost fits: { length text.now ≤ 63 },
}

impl Default for FieldText<'_> {
    /// The empty text.
    fn default() -> Self {
        FieldText { text: &[] }
    }
}

// The most fields of a text that are kept: LVS has sixteen, and a seventeenth is too many.
const MOST_FIELDS: usize = 17;

/// The first fields of a text, at most seventeen.
pub type Fields<'a> = ArrayVec<FieldText<'a>, MOST_FIELDS>;
