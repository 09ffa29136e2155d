//! The operand of an operation, stored numbers, and the operand aligned with the accumulator: its
//! last bit is at the bit of value 2^offset. operations.rt and the two bases (`st_bin`, `st_dec`)
//! call these functions. docs/variable-fields.md has the rules. What is cut off is never an error:
//! `is_lost` turns on an indicator.
//!
//! Proved: the results are `signed_operand`, `number_cut` and `aligned_operand` of
//! specs/Results.antt. Pinned, by these definitions, docs/variable-fields.md, vectors/binary.txt
//! and vectors/decimal.txt: the results; `Kept` and `Aligned`, by the clauses of `Base` in base.rt.
//! Free: the bodies.
ghost use Rattle.std.specs.Prelude.{◌≡◌, ◌<◌, ◌≤◌, ◌^◌, ◌*◌};
ghost use Rattle.st_field.specs.Results.{signed_operand as operand_of, number_cut as cut_of, aligned_operand};

use crate::fields::{Field, Shape};
use crate::indicators::{flag_indicators, partial_field};
use crate::signed::{Signed, exactly_one, exceeds, low_bits};

/// The operand of an operation: `mag` with the sign of the field, inverted if the operation is
/// negated.
pub fn operand(f: &Field, shape: &Shape, mag: u128) -> Signed
    ensures { result ≡ operand_of f.now shape.now mag }
{
    Signed {
        negative: exactly_one(f.negative, shape.negated),
        mag,
    }
}

/// The signed number with the sign of a field and the magnitude `mag`.
pub fn signed_as(f: &Field, mag: u128) -> Signed
    ensures { result ≡ record { negative = f.now.negative; mag = mag } }
{
    Signed {
        negative: f.negative,
        mag,
    }
}

/// A number as it is stored in the accumulator or in a field.
#[derive(Clone, Copy)]
pub struct Kept {
    /// The stored bits.
    pub bits: u128,
    /// The value of the stored bits.
    pub value: u128,
    /// Whether a part of the number is lost.
    pub is_lost: bool,
}

/// A magnitude shifted left by `offset` bits; bits beyond the 128th are lost.
pub fn shift(mag: u128, offset: u8) -> Kept
    requires { offset < 128 }
    ensures { result ≡ cut_of 128 (mag * 2 ^ offset) }
{
    let (bits, is_lost) = mag.overflowing_mul(1 << offset);
    Kept {
        bits,
        value: bits,
        is_lost,
    }
}

/// The low `bits` bits, at most 64, of a magnitude.
pub fn cut(mag: u128, bits: u8) -> Kept
    requires { bits ≤ 64 }
    ensures value { result ≡ cut_of bits mag }
    ensures bound { result.bits < 2 ^ bits }
{
    let kept = u128::from(low_bits(mag, bits));
    Kept {
        bits: kept,
        value: kept,
        is_lost: exceeds(mag, bits),
    }
}

/// An operand aligned with the accumulator.
#[derive(Clone, Copy)]
pub struct Aligned {
    /// The bits at their place in the accumulator; bits beyond the 128th are lost.
    pub bits: u128,
    /// The signed number of these bits.
    pub number: Signed,
    /// The indicators of the operand's flags and of lost bits.
    pub on: u64,
}

/// The operand of a field at its place in the accumulator, where `kept` is its shifted magnitude.
pub fn align(f: &Field, shape: &Shape, kept: Kept) -> Aligned
    requires { f.now.flags < 8 }
    ensures value { result ≡ aligned_operand f.now shape.now kept }
    ensures few { result.on < 2 ^ 42 }
{
    Aligned {
        bits: kept.bits,
        number: operand(f, shape, kept.value),
        on: flag_indicators(f.flags) + partial_field(kept.is_lost),
    }
}
