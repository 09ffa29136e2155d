//! Digits. A digit of a decimal field is a byte with a zone and a code; a digit of the accumulator,
//! or of `codes`, is a code only. Five modules of this crate call these functions: base.rt,
//! accumulator.rt, loads.rt, operand.rt and stores.rt.
//!
//! ```text
//! field, byte of 8   zzzzcccc zzzzcccc zzzzcccc
//! field, byte of 5   zcccc zcccc zcccc
//! codes              cccccccccccc
//! ```
//!
//! Proved: each call returns the number of a list of digits, as specs/DecimalOperand.antt and
//! specs/DigitLists.antt define it (`codes`, `codes_with_zones`, `bytes_with_codes`, `decimal`); a
//! field has at most 16 digits (`few`), and a result fits its bits (`fits`). Pinned, by these
//! definitions, docs/variable-fields.md and vectors/decimal.txt: the results. Free: the bodies, if
//! proofs/digits follows.
ghost use Rattle.std.specs.Prelude.{◌≡◌, ◌-◌, ◌*◌, ◌<◌, ◌≤◌, ◌^◌, nat_le};
ghost use Rattle.st_field.specs.Fields.{HasRoom, magnitude_bits as magnitude_bits_of};
ghost use Rattle.st_dec.specs.DigitLists.{bytes, number_of_bytes, decimal as decimal_of};
ghost use Rattle.st_dec.specs.DecimalOperand.{IsDecimalShape, digit_count as digit_count_of, digit_bytes, codes as codes_of};
ghost use Rattle.st_dec.specs.DecimalOperand.{codes_with_zones, bytes_with_codes as recoded_of};

use st_field::fields::{Field, Shape, magnitude_bits};
use st_field::{power_of_ten, to_digits};

/// The number of digits of a field.
#[tactic(auto, using(crate::proofs::ShapeLemmas::count_rules))]
pub fn digit_count(shape: &Shape) -> u8
    requires { IsDecimalShape shape.now }
    ensures value { result ≡ digit_count_of shape.now }
    ensures few { result ≤ 16 }
    ensures bits { shape.now.byte * result ≤ 64 }
    ensures whole { shape.now.byte * result ≡ magnitude_bits_of shape.now }
{
    magnitude_bits(shape) / shape.byte
}

/// The codes of a field's digits, four bits each.
pub fn codes(f: &Field, shape: &Shape) -> u64
    requires { IsDecimalShape shape.now }
    ensures value { result ≡ number_of_bytes 4 (codes_of f.now shape.now) }
{
    let mut codes = 0;
    let mut rest = f.mag;
    for place in 0..digit_count(shape) {
        codes += rest % 16 << (4 * place);
        rest >>= shape.byte;
    }
    codes
}

/// The magnitude of a field whose digits have these codes, four bits each, and the given zone.
pub fn spread(codes: u64, zone: u64, shape: &Shape) -> u64
    requires shape { IsDecimalShape shape.now }
    requires zone { zone < 2 ^ (shape.now.byte - 4) }
    ensures value { result ≡ number_of_bytes shape.now.byte
        (codes_with_zones zone (bytes 4 (digit_count_of shape.now) codes)) }
    ensures fits { result < 2 ^ magnitude_bits_of shape.now }
{
    let mut mag = 0;
    let mut rest = codes;
    for place in 0..digit_count(shape) {
        mag += (zone * 16 + rest % 16) << (shape.byte * place);
        rest /= 16;
    }
    mag
}

/// The magnitude of a field after its codes are replaced by others, four bits each; the zones do
/// not change.
pub fn recoded(f: &Field, new_codes: u64, shape: &Shape) -> u64
    requires shape { IsDecimalShape shape.now }
    requires room { HasRoom f.now shape.now }
    ensures value { result ≡ number_of_bytes shape.now.byte
        (recoded_of (digit_bytes f.now shape.now) (bytes 4 (digit_count_of shape.now) new_codes)) }
    ensures fits { result < 2 ^ magnitude_bits_of shape.now }
{
    let zones = f.mag - spread(codes(f, shape), 0, shape);
    zones + spread(new_codes, 0, shape)
}

/// The `count` lowest decimal digits of a number, four bits each, and whether it has further
/// digits.
pub fn to_decimal(mag: u128, count: u8) -> (u128, bool)
    requires { count ≤ 32 }
    ensures digits { result.0 ≡ number_of_bytes 4 (decimal_of count mag) }
    ensures fits { result.0 < 2 ^ (4 * count) }
    ensures lost { result.1 ≡ nat_le (10 ^ count) mag }
{
    let limit = power_of_ten(count);
    (to_digits(mag % limit), mag >= limit)
}
