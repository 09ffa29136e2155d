//! Conversion between 32 decimal digits, four bits each and the last one in the low bits, and
//! numbers; and powers of ten. `st_bin` and `st_dec` call these functions where a number changes
//! its radix. docs/variable-fields.md has the rules of digits.
//!
//! Proved: the results are `value_of_digits` and `digits_of` of specs/Digits.antt; a number below
//! 10^32 is converted forth and back. The law `DigitsAgree` (specs/Laws.antt of `st_laws`) compares
//! both with the lists of digits in `st_dec`. Not proved: speed.
//!
//! Pinned, by these definitions, docs/variable-fields.md, vectors/binary.txt and
//! vectors/decimal.txt: the results; the codes 10 to 15 count with these values. Free: the bodies,
//! if proofs/digits follows the loops.
ghost use Rattle.std.specs.Prelude.{◌≡◌, ◌<◌, ◌≤◌, ◌^◌};
ghost use Rattle.st_field.specs.Digits.{value_of_digits, digits_of};

/// The value of 32 decimal digits of four bits each. The codes 10 to 15 have these values.
pub fn digits_value(digits: u128) -> u128
    ensures value { result ≡ value_of_digits 32 digits }
{
    let mut value = 0;
    let mut rest = digits;
    let mut weight = 1;
    // Proofs name the loop by its label.
    'places: while rest != 0 {
        value += rest % 16 * weight;
        rest /= 16;
        weight *= 10;
    }
    value
}

/// The 32 decimal digits of a number below 10^32, four bits each.
pub fn to_digits(value: u128) -> u128
    requires { value < 10 ^ 32 }
    ensures digits { result ≡ digits_of 32 value }
    ensures value { value_of_digits 32 result ≡ value }
{
    let mut digits = 0;
    let mut rest = value;
    for place in 0..32u32 {
        if rest == 0 {
            return digits;
        }
        digits += rest % 10 << (4 * place);
        rest /= 10;
    }
    digits
}

/// Ten to the power of `n`, at most 32.
#[tactic(auto, using(crate::proofs::DigitLemmas::power_rules))]
pub fn power_of_ten(n: u8) -> u128
    requires { n ≤ 32 }
    ensures value { result ≡ 10 ^ n }
    ensures some { 0 < result }
{
    10u128.pow(u32::from(n))
}
