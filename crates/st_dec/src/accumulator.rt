//! The accumulator as 32 decimal digits, called codes, of four bits each; digit 0 is the last one.
//! A field's last digit is at digit offset / 4, its digit place; the offset counts bits from the
//! right. Only base.rt and stores.rt call these functions. docs/variable-fields.md has the rules.
//!
//! Proved: `digit_place` is `last_digit_place`, the codes are the lists `codes_from_place` and
//! `field_codes` (specs/DecimalOperand.antt), a value is `codes_value` of its list
//! (specs/DigitLists.antt), where a code of 10 to 15 counts with its value. The clauses `bound`: a
//! value is below 2^127, a place below 32.
//!
//! Pinned, by these definitions, docs/variable-fields.md and vectors/decimal.txt: the results.
//! Free: the bodies, if proofs/accumulator follows.
ghost use Rattle.std.specs.Prelude.{◌≡◌, ◌<◌, ◌^◌};
ghost use Rattle.st_dec.specs.DigitLists.{bytes, number_of_bytes, codes_value};
ghost use Rattle.st_dec.specs.DecimalOperand.{IsDecimalShape, last_digit_place, codes_from_place as codes_from_place_of, field_codes as field_codes_of};

use crate::digits::digit_count;
use st_field::fields::Shape;
use st_field::signed::low_bits;
use st_field::{Acc, digits_value};

/// The value of the 32 digits of an accumulator with the bits `mag`.
pub fn whole_value(mag: u128) -> u128
    ensures value { result ≡ codes_value (bytes 4 32 mag) }
    ensures bound { result < 2 ^ 127 }
{
    digits_value(mag)
}

/// The digit of the accumulator, 0 to 31, at which the last digit of a field is placed.
pub fn digit_place(shape: &Shape) -> u8
    requires { IsDecimalShape shape.now }
    ensures value { result ≡ last_digit_place shape.now }
    ensures bound { result < 32 }
{
    shape.offset / 4
}

/// The codes of the accumulator from the digit place.
pub fn codes_from_place(acc: &Acc, shape: &Shape) -> u128
    requires { IsDecimalShape shape.now }
    ensures { result ≡ number_of_bytes 4 (codes_from_place_of acc.now shape.now) }
{
    acc.mag >> (4 * digit_place(shape))
}

/// The codes of the accumulator from the digit place, as many as the field has digits.
pub fn field_codes(acc: &Acc, shape: &Shape) -> u64
    requires { IsDecimalShape shape.now }
    ensures { result ≡ number_of_bytes 4 (field_codes_of acc.now shape.now) }
{
    low_bits(codes_from_place(acc, shape), 4 * digit_count(shape))
}

/// The value of the digits of the accumulator from the digit place.
pub fn value_from_place(acc: &Acc, shape: &Shape) -> u128
    requires { IsDecimalShape shape.now }
    ensures value { result ≡ codes_value (codes_from_place_of acc.now shape.now) }
    ensures bound { result < 2 ^ 127 }
{
    digits_value(codes_from_place(acc, shape))
}
