//! The indicators that an operation on a field turns on and off. Indicator n is the bit of value
//! 2^(63 - n) of a word; an `Ind` has the bits to turn on and those to turn off. Operations of this
//! crate, `st_bin`, `st_dec` and `st_conn` call these functions. docs/machine.md names the
//! indicators, docs/variable-fields.md and docs/connectives.md say when they change.
//!
//! Proved: each result is the definition of its name in specs/Indicators.antt. The bounds (`on`
//! below 2^63, as `requires`) ensure that sums of indicators do not overflow.
//!
//! Pinned, by these definitions, docs/variable-fields.md, docs/connectives.md and the vectors
//! binary.txt, decimal.txt and connectives.txt: the results; by `st_bits` and the law
//! `IndicatorsInFigures` (specs/Laws.antt of `st_laws`): the numbers. Free: the bodies and the
//! private constants.
ghost use Rattle.std.specs.Prelude.{◌≡◌, ◌<◌, ◌≤◌, ◌^◌};
ghost use Rattle.st_field.specs.Indicators.{flag_indicators as flag_indicators_of, number_indicators as number_indicators_of};
ghost use Rattle.st_field.specs.Indicators.{by_number as by_number_of, without_number as without_number_of, by_order as by_order_of};
ghost use Rattle.st_field.specs.Indicators.{by_order_if_equal as by_order_if_equal_of, by_range as by_range_of, on_if};

use crate::signed::Signed;
use st_bits::indicators::{
    ACCUMULATOR_EQUAL, ACCUMULATOR_HIGH, ACCUMULATOR_LOW, FLAG_V, LOST_CARRY, PARTIAL_FIELD,
    RESULT_GREATER, RESULT_LESS, RESULT_NEGATIVE, RESULT_ZERO, TO_MEMORY_OPERATION,
};
use st_bits::{Ind, indicator};
use std::cmp::Ordering;

// The indicators as bits, as the functions below add them. MOP, to-memory operation.
const TO_MEMORY: u64 = 1 << (63 - TO_MEMORY_OPERATION);

// RLZ, result less than zero.
const LESS: u64 = 1 << (63 - RESULT_LESS);

// RZ, result zero.
const ZERO: u64 = 1 << (63 - RESULT_ZERO);

// RGZ, result greater than zero.
const GREATER: u64 = 1 << (63 - RESULT_GREATER);

// RN, result negative.
const NEGATIVE: u64 = 1 << (63 - RESULT_NEGATIVE);

// AL, accumulator low.
const LOW: u64 = 1 << (63 - ACCUMULATOR_LOW);

// AE, accumulator equal.
const EQUAL: u64 = 1 << (63 - ACCUMULATOR_EQUAL);

// AH, accumulator high.
const HIGH: u64 = 1 << (63 - ACCUMULATOR_HIGH);

/// LC if a carry is lost, otherwise 0.
pub fn lost_carry(is_lost: bool) -> u64
    ensures value { result ≡ on_if is_lost LOST_CARRY }
    ensures bound { result ≤ 2 ^ 41 }
{
    if is_lost { indicator(LOST_CARRY) } else { 0 }
}

/// PF if a part of a field is lost, otherwise 0.
pub fn partial_field(is_lost: bool) -> u64
    ensures value { result ≡ on_if is_lost PARTIAL_FIELD }
    ensures bound { result ≤ 2 ^ 40 }
{
    if is_lost { indicator(PARTIAL_FIELD) } else { 0 }
}

/// TF, UF and VF according to the flags T, U and V.
pub fn flag_indicators(flags: u8) -> u64
    requires { flags < 8 }
    ensures value { result ≡ flag_indicators_of flags }
    ensures bound { result < 2 ^ 29 }
{
    u64::from(flags) << (63 - FLAG_V)
}

// RLZ, RZ or RGZ according to a result number, and RN if its sign is minus.
fn number_indicators(number: Signed) -> u64
    ensures value { result ≡ number_indicators_of number.negative number.mag }
    ensures bound { result < 2 ^ 8 }
{
    match (number.mag, number.negative) {
        (0, false) => ZERO,
        (0, true) => ZERO + NEGATIVE,
        (_, false) => GREATER,
        (_, true) => LESS + NEGATIVE,
    }
}

/// The indicators that a result number turns on and off, with the further indicators `on`. `wrote`
/// is true if the result was written to the field.
pub fn by_number(wrote: bool, number: Signed, on: u64) -> Ind
    requires { on < 2 ^ 63 }
    ensures { result ≡ by_number_of wrote number.negative number.mag on }
{
    let memory = if wrote { TO_MEMORY } else { 0 };
    Ind {
        on: on + (memory + number_indicators(number)),
        off: TO_MEMORY + LESS + ZERO + GREATER + NEGATIVE,
    }
}

// The indicators that an operation without a result number turns on and off, with the further
// indicators `on`.
fn without_number(on: u64) -> Ind
    ensures { result ≡ without_number_of on }
{
    Ind { on, off: TO_MEMORY }
}

/// The indicators that a comparison turns on and off, with the further indicators `on`: exactly one
/// of AL, AE and AH is on after it.
pub fn by_order(order: Ordering, on: u64) -> Ind
    requires { on < 2 ^ 63 }
    ensures { result ≡ by_order_of order on }
{
    let side = match order {
        Ordering::Less => LOW,
        Ordering::Equal => EQUAL,
        Ordering::Greater => HIGH,
    };
    Ind {
        on: on + side,
        off: TO_MEMORY + LOW + EQUAL + HIGH,
    }
}

/// As `by_order`, if AE is on in `ind`; otherwise the comparison has no effect.
pub fn by_order_if_equal(ind: u64, order: Ordering, on: u64) -> Ind
    requires { on < 2 ^ 63 }
    ensures { result ≡ by_order_if_equal_of ind order on }
{
    if ind / EQUAL % 2 == 1 {
        by_order(order, on)
    } else {
        without_number(on)
    }
}

/// The indicators that a comparison with the upper end of a range turns on and off, with the
/// further indicators `on`. It has an effect only if AL is off in `ind`: AE is then on if the
/// accumulator is below the upper end, otherwise AH.
pub fn by_range(ind: u64, order: Ordering, on: u64) -> Ind
    requires { on < 2 ^ 63 }
    ensures { result ≡ by_range_of ind order on }
{
    if ind / LOW % 2 == 1 {
        return without_number(on);
    }
    let side = if order == Ordering::Less { EQUAL } else { HIGH };
    Ind {
        on: on + side,
        off: TO_MEMORY + EQUAL + HIGH,
    }
}
