//! Base 10: the parts of the results of operations that differ for decimal fields. `Ten` implements
//! the trait `Base` of `st_field`; operations.rt passes `Ten` to `operate` there, the only caller
//! of the methods. docs/variable-fields.md has the rules. A digit of a field is a byte of 4 to 8
//! bits: the low four are its code, the others its zone, which sums leave as it is. The accumulator
//! has 32 codes. A `Kept` has bits to be stored, their value, and `is_lost`, whether a digit did
//! not fit.
//!
//! Proved: each method returns its part of `base` in specs/DecimalResult.antt, by the clauses of
//! `Base` (base.rt of `st_field`); these clauses require that the field has whole bytes of 4 to 8
//! bits (`Allows`). `limit` is 2^127, so no sum has a carry.
//!
//! Pinned, by this definition, docs/operations.md and vectors/decimal.txt: the results. Free: the
//! bodies, if proofs/base follows that of `at_place`.
ghost use Rattle.std.specs.Prelude.{◌^◌};
ghost use Rattle.st_dec.specs.DecimalOperand.{IsDecimalShape};
ghost use Rattle.st_dec.specs.DecimalResult.{base as base_ten};

use crate::accumulator::{digit_place, value_from_place, whole_value};
use crate::digits::{codes, to_decimal};
use crate::loads::load_transit;
use crate::operand::{field_value, in_field, with_digits};
use crate::stores::{is_code_lost, stored_magnitude};
use st_bits::indicator;
use st_bits::indicators::DECIMAL_TRANSIT;
use st_field::signed::Sum;
use st_field::{Base, Done, Kept, Taken, align, digits_value, load, shift};

/// Base 10.
pub struct Ten;

impl Base for Ten {
    // The definition of what each method returns.
    ghost base = { base_ten };

    // The precondition of each method: the field is a whole number of bytes, each of 4 to 8 bits.
    ghost Allows = { IsDecimalShape };

    // Values of 32 digits, also with codes of 10 to 15, are below this, so no sum has a carry.
    ghost limit = { 2 ^ 127 };

    // The value of all 32 digits of the accumulator.
    fn whole(taken: &Taken) -> u128 {
        whole_value(taken.acc.mag)
    }

    // The value of the digits of the accumulator from the digit place on to the left.
    fn part(taken: &Taken) -> u128 {
        value_from_place(&taken.acc, &taken.shape)
    }

    // The value of the digits of the field.
    fn value(taken: &Taken) -> u64 {
        field_value(&taken.field, &taken.shape)
    }

    // The codes of the field, as a register stores them.
    fn content(taken: &Taken) -> u64 {
        codes(&taken.field, &taken.shape)
    }

    // DTR, decimal transit, the indicator of a load of the transit register (register word 15); it
    // does not depend on the inputs.
    fn transit(_taken: &Taken) -> u64 {
        indicator(DECIMAL_TRANSIT)
    }

    // The codes of the field, shifted left to the digit place; codes beyond the 32nd are lost.
    fn at_place(taken: &Taken) -> Kept {
        let codes = codes(&taken.field, &taken.shape);
        let codes = shift(u128::from(codes), 4 * digit_place(&taken.shape));
        Kept {
            value: digits_value(codes.bits),
            ..codes
        }
    }

    // The accumulator from the digit place as the field stores it, each digit with the zone of the
    // accumulator; lost are nonzero codes to the left of these.
    fn stored(taken: &Taken) -> Kept {
        let mag = stored_magnitude(&taken.acc, &taken.shape);
        let is_lost = is_code_lost(&taken.acc, &taken.shape);
        in_field(&taken.field, &taken.shape, mag, is_lost)
    }

    // The last 32 decimal digits of a sum, which do not depend on the inputs; lost is a sum of
    // 10^32 or more.
    fn summed(_taken: &Taken, sum: Sum) -> Kept {
        let (bits, is_lost) = to_decimal(sum.number.mag, 32);
        Kept {
            bits,
            value: whole_value(bits),
            is_lost,
        }
    }

    // The last digits of a sum, as many as the field has; zones do not change.
    fn replaced(taken: &Taken, sum: Sum) -> Kept {
        with_digits(&taken.field, &taken.shape, sum.number.mag)
    }

    // Loads the transit register, from which a routine of the program multiplies.
    fn multiply(taken: &Taken) -> Done {
        load_transit(&taken.acc, &taken.field, &taken.shape)
    }

    // Loads the transit register, as `multiply` does. The factor register, `_ft`, has no effect
    // here: the routine reads it.
    fn multiply_and_add(taken: &Taken, _ft: u64) -> Done {
        load_transit(&taken.acc, &taken.field, &taken.shape)
    }

    // Loads the transit register, from which a routine of the program divides.
    fn divide(taken: &Taken) -> Done {
        load_transit(&taken.acc, &taken.field, &taken.shape)
    }

    // The value of the field, as a binary number, is loaded into the accumulator from bit `offset`.
    fn convert(taken: &Taken) -> Done {
        let value = u128::from(field_value(&taken.field, &taken.shape));
        let value = shift(value, taken.shape.offset);
        load(align(&taken.field, &taken.shape, value))
    }
}
