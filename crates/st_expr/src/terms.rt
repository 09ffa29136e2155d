//! Reads one piece of an expression as a term: a name, a system symbol, or a number, which is a
//! word address `w` or a bit address `w.b` (64w + b). expressions.rt and texts.rt call `read_atom`
//! for each piece. A `$` word that is no system symbol counts as a name; no card can define it, so
//! the value pass refuses it. docs/strap.md has the rules.
//!
//! Proved: the reading is `atom_of` of specs/Term.antt: a name, a system word, `w` or `w.b`, a
//! number too large, or none of these. Pinned: the readings, by the definition, docs/strap.md and
//! vectors/decks.txt; the types `Term` and `Atom`, by definitions of `st_asm`; LAST_ADDRESS and
//! LAST_BIT, by the law `ExpressionsInFigures` of `st_laws`. Free: the bodies, with proofs/terms
//! for that of `read_place`.

ghost use Rattle.std.specs.Prelude.{◌≡◌, ◌≤◌, length};
ghost use Rattle.st_text.specs.Bytes.{period};
ghost use Rattle.st_text.specs.Number.{IsWithin};
ghost use Rattle.st_text.specs.Pieces.{pieces_of};
ghost use Rattle.st_expr.specs.Term as spec;

use crate::names::{is_name, is_system_word, padded};
use crate::system::system_value;
use st_text::{Reading, cut, read_number};

/// The last word address that a field of 18 bits can hold, 2^18 - 1; it is past the end of storage.
pub const LAST_ADDRESS: u64 = 262_143;

/// The number of the last bit of a word.
pub const LAST_BIT: u64 = 63;

/// The operand of a term: a number or a name.
#[derive(Clone, Copy, Debug, PartialEq, Eq)]
pub enum Atom {
    /// A number, a bit address below 2^24.
    Number(u32),
    /// A name, or `$` with 1 to 7 letters and digits, padded with blanks to eight bytes.
    Name([u8; 8]),
}

/// A term of an expression.
#[derive(Clone, Copy, Debug, PartialEq, Eq)]
pub struct Term {
    /// Whether the term is subtracted.
    pub minus: bool,
    /// The number or name that is added or subtracted.
    pub atom: Atom,
}

impl Default for Term {
    // The definition of the default value.
    ghost is_default = { spec.IsZero };

    /// The term that adds nothing.
    fn default() -> Term {
        Term {
            minus: false,
            atom: Atom::Number(0),
        }
    }
}

// The reading of one piece of an expression: an atom, a number that is too large, or no atom.
#[derive(Clone, Copy)]
pub(crate) enum AtomReading {
    // It is neither a name nor a number.
    Bad,
    // It is a number above the greatest that is allowed.
    Large,
    // It is this atom.
    Good(Atom),
}

// Reads one piece of an expression: a name, a system word, or a number.
#[inline(always)]
pub(crate) fn read_atom(word: &[u8]) -> AtomReading
    ensures { result ≡ spec.atom_of word.now }
{
    if is_name(word) {
        AtomReading::Good(Atom::Name(padded(word)))
    } else if is_system_word(word) {
        AtomReading::Good(system_atom(word))
    } else {
        read_place(word)
    }
}

// The atom of a system word: the number of a system symbol, or a name for any other word.
fn system_atom(word: &[u8]) -> Atom
    requires { length word.now ≤ 8 }
    ensures { result ≡ spec.system_atom word.now }
{
    match system_value(word) {
        Some(value) => Atom::Number(value),
        None => Atom::Name(padded(word)),
    }
}

// Reads a text as a number `w` or `w.b`.
fn read_place(word: &[u8]) -> AtomReading
    ensures { result ≡ spec.place_reading (pieces_of period word.now) }
{
    match cut(word, b'.') {
        None => bit_address(read_number(word, LAST_ADDRESS), Reading::Good(0)),
        Some((w, b)) => match cut(b, b'.') {
            None => bit_address(read_number(w, LAST_ADDRESS), read_number(b, LAST_BIT)),
            Some(_) => AtomReading::Bad,
        },
    }
}

// The bit address of a word number and a bit number.
fn bit_address(word: Reading, bit: Reading) -> AtomReading
    requires word_within { IsWithin LAST_ADDRESS word }
    requires bit_within { IsWithin LAST_BIT bit }
    ensures { result ≡ spec.bit_reading word bit }
{
    match (word, bit) {
        (Reading::Good(word), Reading::Good(bit)) => {
            AtomReading::Good(Atom::Number((64 * word + bit) as u32))
        }
        (Reading::Bad, _) | (_, Reading::Bad) => AtomReading::Bad,
        _ => AtomReading::Large,
    }
}
