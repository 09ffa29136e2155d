//! Numbers as sign and magnitude, below 2^128, their sums and their order. Zero can have either
//! sign. operations.rt, `st_bin`, `st_dec` and `st_conn` use these numbers. docs/variable-fields.md
//! has the rules.
//!
//! Proved: `number_of` in specs/Numbers.antt is the integer that such a number means, and the sums
//! are defined by integers there (`sum_of`, `magnitude_sum`): magnitude (modulo 2^128), sign and
//! carry of each sum, and by the clause `large` a carry needs large inputs, so that decimal
//! operations have no carry. A sum of zero has the sign of the first number.
//!
//! Pinned, by these definitions, docs/variable-fields.md, vectors/binary.txt and
//! vectors/decimal.txt: the sums. Free: the bodies.
ghost use Rattle.std.specs.Prelude.{◌≡◌, ◌≢◌, ◌<◌, ◌≤◌, ◌+◌, ◌+ℤ◌, ◌%◌, ◌^◌, unsigned_abs, true};
ghost use Rattle.std.specs.Ordering.{int_cmp};
ghost use Rattle.st_field.specs.Numbers.{number_of, exactly_one as exactly_one_of, sign_after, exceeds as exceeds_of};
ghost use Rattle.st_field.specs.Numbers.{sum_of, magnitude_sum};

use std::cmp::Ordering;

/// A number as sign and magnitude.
#[derive(Clone, Copy)]
pub struct Signed {
    /// Whether the sign is minus.
    pub negative: bool,
    /// The magnitude.
    pub mag: u128,
}

/// Exclusive or: the sign of a product, or of a number that may be negated.
pub fn exactly_one(a: bool, b: bool) -> bool
    ensures { result ≡ exactly_one_of a b }
{
    if a { !b } else { b }
}

/// A sum whose magnitude is reduced to 128 bits.
#[derive(Clone, Copy)]
pub struct Sum {
    /// The sum, with the low 128 bits of its magnitude.
    pub number: Signed,
    /// Whether the magnitude has more than 128 bits.
    pub carry: bool,
}

// The sum of two numbers with equal signs.
fn sum_of_alike(a: Signed, b: Signed) -> Sum
    requires { a.negative ≡ b.negative }
    ensures magnitude { result.number.mag ≡ unsigned_abs (number_of a +ℤ number_of b) % 2 ^ 128 }
    ensures sign { result.number.negative ≡ sign_after a.negative (number_of a +ℤ number_of b) }
    ensures carry { result.carry ≡ exceeds_of (unsigned_abs (number_of a +ℤ number_of b)) 128 }
    ensures large { result.carry ≡ true → 2 ^ 128 ≤ a.mag + b.mag }
{
    let (mag, carry) = a.mag.overflowing_add(b.mag);
    Sum {
        number: Signed {
            negative: a.negative,
            mag,
        },
        carry,
    }
}

// The sum of two numbers with different signs; a sum of zero has the sign of `a`.
fn sum_of_opposites(a: Signed, b: Signed) -> Signed
    requires { a.negative ≢ b.negative }
    ensures magnitude { result.mag ≡ unsigned_abs (number_of a +ℤ number_of b) }
    ensures sign { result.negative ≡ sign_after a.negative (number_of a +ℤ number_of b) }
{
    if a.mag < b.mag {
        Signed {
            negative: b.negative,
            mag: b.mag - a.mag,
        }
    } else {
        Signed {
            negative: a.negative,
            mag: a.mag - b.mag,
        }
    }
}

/// The sum of two numbers; a sum of zero has the sign of `a`.
pub fn add(a: Signed, b: Signed) -> Sum
    ensures magnitude { result.number.mag ≡ (sum_of a b).mag % 2 ^ 128 }
    ensures sign { result.number.negative ≡ (sum_of a b).negative }
    ensures carry { result.carry ≡ exceeds_of (sum_of a b).mag 128 }
    ensures large { result.carry ≡ true → 2 ^ 128 ≤ a.mag + b.mag }
{
    if a.negative == b.negative {
        return sum_of_alike(a, b);
    }
    Sum {
        number: sum_of_opposites(a, b),
        carry: false,
    }
}

/// The order of two numbers.
pub fn order(a: Signed, b: Signed) -> Ordering
    ensures { result ≡ int_cmp (number_of a) (number_of b) }
{
    match (a.negative, b.negative) {
        (false, false) => a.mag.cmp(&b.mag),
        (true, true) => b.mag.cmp(&a.mag),
        (false, true) if a.mag > 0 || b.mag > 0 => Ordering::Greater,
        (true, false) if a.mag > 0 || b.mag > 0 => Ordering::Less,
        _ => Ordering::Equal,
    }
}

/// A number with `b` added to its magnitude, which becomes 0 if that sum is negative. The sign does
/// not change.
pub fn add_to_magnitude(a: Signed, b: Signed) -> Sum
    ensures magnitude { result.number.mag ≡ (magnitude_sum a b).mag % 2 ^ 128 }
    ensures sign { result.number.negative ≡ a.negative }
    ensures carry { result.carry ≡ exceeds_of (magnitude_sum a b).mag 128 }
    ensures large { result.carry ≡ true → 2 ^ 128 ≤ a.mag + b.mag }
{
    let (mag, carry) = if b.negative {
        (a.mag.saturating_sub(b.mag), false)
    } else {
        a.mag.overflowing_add(b.mag)
    };
    Sum {
        number: Signed { mag, ..a },
        carry,
    }
}

/// Whether a magnitude does not fit in `bits` bits, at most 127.
pub fn exceeds(mag: u128, bits: u8) -> bool
    requires { bits < 128 }
    ensures { result ≡ exceeds_of mag bits }
{
    mag >= 1 << bits
}

/// The low `bits` bits, at most 64, of a magnitude.
pub fn low_bits(mag: u128, bits: u8) -> u64
    requires { bits ≤ 64 }
    ensures value { result ≡ mag % 2 ^ bits }
    ensures bound { result < 2 ^ bits }
{
    (mag % (1 << bits)) as u64
}
