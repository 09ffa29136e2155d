//! Base 2: the parts of the results of operations on binary fields that differ for decimal fields.
//! operations.rt passes `Two` to `operate` of `st_field`, which calls the methods.
//! docs/variable-fields.md has the rules. Magnitudes are binary numbers: up to 128 bits in the
//! accumulator, up to 64 in a field.
//!
//! Proved: each method returns its part of `base` in specs/BinaryResult.antt, by the clauses of the
//! trait `Base` of `st_field`. Multiply takes the low 64 bits of the accumulator from the offset;
//! divide puts the remainder in its register. Pinned: the results, by specs/BinaryResult.antt,
//! docs/operations.md and vectors/binary.txt; the methods, by the trait `Base`. Free: the bodies.
ghost use Rattle.std.specs.Prelude.{◌≡◌, ◌≤◌, ◌<◌, ◌%◌, ◌^◌, ℕ};
ghost use Rattle.st_field.specs.Numbers.{exceeds as exceeds_of};
ghost use Rattle.st_field.specs.Fields.{IsBinaryShape};
ghost use Rattle.st_bin.specs.BinaryResult.{base as base_two, product_result as multiplied_of};

use crate::conversion::place_digits;
use st_bits::indicators::{BINARY_TRANSIT, ZERO_DIVISOR};
use st_bits::{Ind, indicator};
use st_field::accumulator::{signed_as, with_number};
use st_field::fields::{is_minus, magnitude_bits};
use st_field::indicators::{flag_indicators, lost_carry, partial_field};
use st_field::operand::operand;
use st_field::signed::{Signed, Sum, add, exactly_one, exceeds, low_bits};
use st_field::{
    Aligned, Base, Done, Kept, Taken, cut, done_with, in_accumulator, load, shift, to_digits,
};

// Whether a sum does not fit in `bits` bits.
#[tactic(auto, using(st_field::proofs::FieldLemmas::exceeds_kept))]
fn is_lost(sum: Sum, bits: u8) -> bool
    requires { bits ≤ 64 }
    ensures { (n : ℕ) → sum.number.mag ≡ n % 2 ^ 128 → sum.carry ≡ exceeds_of n 128 →
        result ≡ exceeds_of n bits }
{
    sum.carry || exceeds(sum.number.mag, bits)
}

// The result with a product or quotient in the accumulator; it is minus if exactly one of
// accumulator and operand is minus.
fn multiplied(taken: &Taken, mag: u128, on: u64) -> Done
    requires { on < 2 ^ 63 }
    ensures { result ≡ multiplied_of taken.now.acc taken.now.field taken.now.shape mag on }
{
    let operand = operand(&taken.field, &taken.shape, mag);
    let number = Signed {
        negative: exactly_one(is_minus(taken.acc.sb), operand.negative),
        mag,
    };
    in_accumulator(with_number(&taken.acc, number), mag, on)
}

/// Base 2.
pub struct Two;

impl Base for Two {
    // The definition of what each method returns.
    ghost base = { base_two };

    // The precondition of each method: 1 to 64 bits, bytes of 1 to 8, a signed field with at least
    // one byte, and an offset of 0 to 127.
    ghost Allows = { IsBinaryShape };

    // Magnitudes have at most 128 bits; a sum may have a carry.
    ghost limit = { 2 ^ 128 };

    // The accumulator as a binary number.
    fn whole(taken: &Taken) -> u128 {
        taken.acc.mag
    }

    // The accumulator from the offset.
    fn part(taken: &Taken) -> u128 {
        taken.acc.mag >> taken.shape.offset
    }

    // The magnitude of the field.
    fn value(taken: &Taken) -> u64 {
        taken.field.mag
    }

    // The magnitude of the field, as a register stores it.
    fn content(taken: &Taken) -> u64 {
        taken.field.mag
    }

    // BTR, binary transit.
    fn transit(_taken: &Taken) -> u64 {
        indicator(BINARY_TRANSIT)
    }

    // The magnitude of the field, shifted left by the offset.
    fn at_place(taken: &Taken) -> Kept {
        shift(u128::from(taken.field.mag), taken.shape.offset)
    }

    // The accumulator from the offset, cut to the magnitude bits of the field.
    fn stored(taken: &Taken) -> Kept {
        cut(
            taken.acc.mag >> taken.shape.offset,
            magnitude_bits(&taken.shape),
        )
    }

    // The low 128 bits of a sum.
    fn summed(_taken: &Taken, sum: Sum) -> Kept {
        Kept {
            bits: sum.number.mag,
            value: sum.number.mag,
            is_lost: sum.carry,
        }
    }

    // The low bits of a sum, as many as the field has for its magnitude.
    #[tactic(auto, using(st_field::proofs::FieldLemmas::kept))]
    fn replaced(taken: &Taken, sum: Sum) -> Kept {
        let bits = magnitude_bits(&taken.shape);
        Kept {
            is_lost: is_lost(sum, bits),
            ..cut(sum.number.mag, bits)
        }
    }

    // The product of the low 64 bits of the accumulator from the offset and the field.
    fn multiply(taken: &Taken) -> Done {
        let factor = taken.acc.mag >> taken.shape.offset;
        let mag = u128::from(low_bits(factor, 64)) * u128::from(taken.field.mag);
        let on = flag_indicators(taken.field.flags) + partial_field(exceeds(factor, 64));
        multiplied(taken, mag, on)
    }

    // The product of the factor register and the field, shifted left by the offset, is added to the
    // accumulator.
    fn multiply_and_add(taken: &Taken, ft: u64) -> Done {
        let Taken { acc, field, shape } = taken;
        let product = shift(u128::from(ft) * u128::from(field.mag), shape.offset);
        let sum = add(
            signed_as(acc, acc.mag),
            operand(field, shape, product.value),
        );
        let on = flag_indicators(field.flags) + lost_carry(product.is_lost || sum.carry);
        in_accumulator(with_number(acc, sum.number), sum.number.mag, on)
    }

    // The accumulator from the offset is divided by the field; the remainder goes to its register.
    // A divisor of zero only turns on ZD.
    fn divide(taken: &Taken) -> Done {
        if taken.field.mag == 0 {
            let ind = Ind {
                on: indicator(ZERO_DIVISOR),
                off: 0,
            };
            return done_with(&taken.acc, ind);
        }
        let dividend = taken.acc.mag >> taken.shape.offset;
        let divisor = u128::from(taken.field.mag);
        let on = flag_indicators(taken.field.flags);
        Done {
            rm: Some((dividend % divisor) as u64),
            ..multiplied(taken, dividend / divisor, on)
        }
    }

    // The field, as decimal digits, is loaded from digit offset / 4 on.
    fn convert(taken: &Taken) -> Done {
        let (mag, is_lost) = place_digits(taken.field.mag, taken.shape.offset / 4);
        load(Aligned {
            bits: to_digits(mag),
            number: operand(&taken.field, &taken.shape, mag),
            on: flag_indicators(taken.field.flags) + partial_field(is_lost),
        })
    }
}
