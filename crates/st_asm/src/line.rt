//! A card as the form pass passes it on: its number, its name and its parsed statement, with the
//! columns of name (2 to 9) and statement (10 to 72), counted from 1. docs/strap.md has the
//! columns. forming.rt makes these cards; naming.rt, symbols.rt and valuing.rt take them.
//!
//! Proved: each call returns exactly the definition of its name in specs/Lines.antt (`silent` is
//! `silent_line` there); the clauses `short` bound the lengths of both texts, 8 and 63 bytes, for
//! the callers.
//!
//! Pinned: the columns, by specs/Lines.antt, docs/strap.md and vectors/faults.txt. Free: the
//! bodies, if proofs/line follows that of `statement_field`. No other crate sees this module.

ghost use Rattle.std.specs.Prelude.{◌≡◌, ◌≤◌, length};
ghost use Rattle.st_asm.specs.Lines as spec;

use st_card::columns;
use st_expr::padded;
use st_strap::CompactStatement;
use st_text::{behind, front, without_end_blanks, without_front_blanks};

// The number of columns before the statement.
const BEFORE_STATEMENT: usize = 9;

// The number of columns of the name.
const NAME_COLUMNS: usize = 8;

// A card without a fault of the form pass.
#[derive(Drop)]
pub(crate) struct ReadCard {
    // The card's number.
    pub card: u32,
    // The card's name, padded with blanks to eight bytes.
    pub name: Option<[u8; 8]>,
    // The card's statement; `None` for comments and control cards.
    pub statement: Option<CompactStatement>,
}

// A card without a name and statement: a comment or a control card.
pub(crate) fn silent(card: u32) -> ReadCard
    ensures { result ≡ spec.silent_line card }
{
    ReadCard {
        card,
        name: None,
        statement: None,
    }
}

// The name of a statement card: columns 2 to 9 without the blanks at both ends.
pub(crate) fn name_field(text: &[u8]) -> &[u8]
    ensures name { result.now ≡ spec.name_field text.now }
    ensures short { length result.now ≤ 8 }
{
    without_end_blanks(without_front_blanks(front(behind(text, 1), NAME_COLUMNS)))
}

// The statement of a statement card: columns 10 to 72.
pub(crate) fn statement_field(text: &[u8]) -> &[u8]
    ensures statement { result.now ≡ spec.statement_field text.now }
    ensures short { length result.now ≤ 63 }
{
    behind(columns(text), BEFORE_STATEMENT)
}

// The name in a field, padded with blanks to eight bytes; `None` for an empty field.
pub(crate) fn name_in(field: &[u8]) -> Option<[u8; 8]>
    requires { length field.now ≤ 8 }
    ensures { result ≡ spec.name_in field.now }
{
    match field {
        [] => None,
        _ => Some(padded(field)),
    }
}
