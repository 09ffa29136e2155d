//! The accumulator with its sign byte: 128 bits, which are words 8 and 9 of storage, and word 10.
//! operations.rt and the two bases (`st_bin`, `st_dec`) compute with an `Acc`; `st_exec` assembles
//! an `Acc` from the registers and writes it back. docs/variable-fields.md has the rules. The base
//! decides whether the 128 bits are a binary number or 32 decimal digits.
//!
//! Proved: the results are `number_in`, `with_number` and `stored_field` of specs/Results.antt, and
//! the `addend` of specs/Bases.antt.
//!
//! Pinned, by these definitions, docs/variable-fields.md, vectors/binary.txt and
//! vectors/decimal.txt: the results; the two fields of `Acc`, by the definitions of `st_bin`,
//! `st_dec`, `st_conn` and `st_exec`. Free: the bodies.
ghost use Rattle.std.specs.Prelude.{◌≡◌, ◌<◌, ◌^◌};
ghost use Rattle.st_field.specs.Fields.{HasRoom, magnitude_bits, sign_of};
ghost use Rattle.st_field.specs.Numbers.{exactly_one as exactly_one_of};
ghost use Rattle.st_field.specs.Results.{number_in, with_number as with_number_of, stored_field as stored_field_of};

use crate::fields::{Field, Shape, is_minus, sign_byte};
use crate::signed::{Signed, exactly_one};

/// The accumulator with its sign byte.
#[derive(Clone, Copy, Debug, PartialEq, Eq)]
pub struct Acc {
    /// The 128 bits of the accumulator.
    pub mag: u128,
    /// The sign byte: zone in bits 0 to 3, sign in bit 4, flags T, U and V in bits 5 to 7; bit 0 is
    /// leftmost.
    pub sb: u8,
}

/// The signed number with the sign of the accumulator and the magnitude `mag`.
pub fn signed_as(acc: &Acc, mag: u128) -> Signed
    ensures { result ≡ number_in acc.now mag }
{
    Signed {
        negative: is_minus(acc.sb),
        mag,
    }
}

/// The accumulator with another number; zone and flags do not change.
pub fn with_number(acc: &Acc, number: Signed) -> Acc
    ensures { result ≡ with_number_of acc.now number.mag number.negative }
{
    Acc {
        mag: number.mag,
        sb: sign_byte(acc.sb / 16, number.negative, acc.sb % 8),
    }
}

/// The number that is added to a field: `mag` with the sign of the accumulator, inverted if the
/// operation is negated.
pub fn addend(acc: &Acc, shape: &Shape, mag: u128) -> Signed
    ensures { result ≡ record { negative = exactly_one_of (sign_of acc.now.sb) shape.now.negated; mag = mag } }
{
    Signed {
        negative: exactly_one(is_minus(acc.sb), shape.negated),
        mag,
    }
}

/// The field that stores the accumulator with the magnitude `mag`, which must fit; an unsigned
/// field has plus.
pub fn stored_field(acc: &Acc, shape: &Shape, mag: u64) -> Field
    requires { mag < 2 ^ magnitude_bits shape.now }
    ensures value { result ≡ stored_field_of acc.now shape.now mag }
    ensures room { HasRoom result shape.now }
{
    Field {
        mag,
        negative: !shape.unsigned && exactly_one(is_minus(acc.sb), shape.negated),
        flags: acc.sb % 8,
        zone: acc.sb / 16,
    }
}
