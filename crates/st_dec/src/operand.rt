//! The value of a decimal field, and digits stored in it. A field is a magnitude of at most 64
//! bits, whose bytes have 4 to 8 bits, the low four a digit. Only base.rt and loads.rt call these
//! functions. docs/variable-fields.md has the rules.
//!
//! Proved: the value is `field_value` of specs/DecimalOperand.antt; stored digits are
//! `digits_in_field` and `field_with_digits` of specs/DecimalResult.antt. Digits that do not fit
//! are cut off and reported by `is_lost`. The clauses `fits` and `room` say that a result fits the
//! magnitude of the field.
//!
//! Pinned, by these definitions, docs/variable-fields.md and vectors/decimal.txt: the results.
//! Free: the bodies, if proofs/operand follows those of `with_digits` and `field_value`.
ghost use Rattle.std.specs.Prelude.{◌≡◌, ◌<◌, ◌^◌};
ghost use Rattle.st_field.specs.Fields.{HasRoom, magnitude_bits as magnitude_bits_of};
ghost use Rattle.st_dec.specs.DecimalOperand.{IsDecimalShape, field_value as field_value_of};
ghost use Rattle.st_dec.specs.DecimalResult.{digits_in_field as in_field_of, field_with_digits};

use crate::digits::{codes, digit_count, recoded, to_decimal};
use st_field::fields::{Field, Shape};
use st_field::{Kept, digits_value};

/// The value of a field without its sign.
pub fn field_value(f: &Field, shape: &Shape) -> u64
    requires shape { IsDecimalShape shape.now }
    ensures value { result ≡ field_value_of f.now shape.now }
    ensures fits { result < 2 ^ magnitude_bits_of shape.now }
{
    digits_value(u128::from(codes(f, shape))) as u64
}

/// The magnitude `mag`, which must fit, as it is stored in a field.
pub fn in_field(f: &Field, shape: &Shape, mag: u64, is_lost: bool) -> Kept
    requires shape { IsDecimalShape shape.now }
    requires room { mag < 2 ^ magnitude_bits_of shape.now }
    ensures value { result ≡ in_field_of f.now shape.now mag is_lost }
    ensures room { result.bits < 2 ^ magnitude_bits_of shape.now }
{
    let value = field_value(&Field { mag, ..*f }, shape);
    Kept {
        bits: u128::from(mag),
        value: u128::from(value),
        is_lost,
    }
}

/// The decimal digits of a number as they are stored in a field, as many as fit. The zones do not
/// change.
pub fn with_digits(f: &Field, shape: &Shape, number: u128) -> Kept
    requires shape { IsDecimalShape shape.now }
    requires room { HasRoom f.now shape.now }
    ensures value { result ≡ field_with_digits f.now shape.now number }
    ensures room { result.bits < 2 ^ magnitude_bits_of shape.now }
{
    let (digits, is_lost) = to_decimal(number, digit_count(shape));
    in_field(f, shape, recoded(f, digits as u64, shape), is_lost)
}
