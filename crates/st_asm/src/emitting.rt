//! The bits that a statement assembles to: those of an instruction, of a number, or of an index
//! word. docs/instructions.md has the formats. valuing.rt and alone.rt call `bits_of` for
//! statements whose values, in bits, checks.rt has found to fit.
//!
//! Proved: the result is `bits_of` of specs/Emitting.antt, below 2 to the number of bits of the
//! statement. Instructions are encoded by `st_format`, which is proved to decode them again. The
//! law `EmittedNumbersAreRead` (specs/Laws.antt of `st_laws`) says that the machine reads numbers
//! again.
//!
//! Pinned: every bit, by specs/Emitting.antt, docs/instructions.md and vectors/mnemonics.txt; for
//! instance the list of LVS is in the first 16 of the 19 bits of its address, and the flags of an
//! index word in bits 25 to 27. A new kind of statement needs a case of `bits_of` here and one
//! there. Free: the private functions, and `bits_of` if proofs/emitting follows.

ghost use Rattle.std.specs.Prelude.{◌≡◌, ◌<◌, ◌^◌, unsigned_abs, IsTrue, None};
ghost use Rattle.st_format.specs.Formats.{IsShape, second_half};
ghost use Rattle.st_asm.specs.Checks.{fits};
ghost use Rattle.st_asm.specs.Emitting as spec;
ghost use Rattle.st_asm.specs.Places.{placing_of, length_in};
ghost use Rattle.st_strap.specs.WellFormed.{IsWellFormed, IsSpotOrNone};

use crate::numbers::field_of;
use crate::values::Values;
use st_bits::{HalfOp, with_count, with_part, with_refill, with_value};
use st_format::{Instr, encode};
use st_strap::{CompactSpot, CompactStatement, Statement};

// The bits that a statement assembles to, as a number. Its values have been checked to fit.
pub(crate) fn bits_of(s: &CompactStatement, v: Values) -> u64
    requires well { IsWellFormed s.now }
    requires first { unsigned_abs v.first < 2 ^ 24 }
    requires second { unsigned_abs v.second < 2 ^ 24 }
    requires fits { IsTrue (fits s.now v) }

    ensures bits { result ≡ spec.bits_of s.now v }
    ensures below { result < 2 ^ length_in (placing_of s.now) }
{
    match s {
        Statement::Half { op, j, at } => instruction_bits(Instr::Half {
            op: *op,
            address: half_word(v.first),
            j: *j,
            i: at.index,
        }),
        Statement::Sum { j, list } => instruction_bits(Instr::Half {
            op: HalfOp::Lvs,
            address: u32::from(*list) * 8,
            j: *j,
            i: 0,
        }),
        Statement::Refill { j } => instruction_bits(Instr::Half {
            op: HalfOp::R,
            address: 0,
            j: *j,
            i: 0,
        }),
        Statement::Branch { op, at } => instruction_bits(Instr::Branch {
            op: *op,
            address: half_word(v.first),
            i: index_of(at),
        }),
        Statement::Floating { number, at } => instruction_bits(Instr::Floating {
            number: *number,
            address: half_word(v.first),
            i: at.index,
        }),
        Statement::Vfl {
            op,
            negated,
            form,
            at,
            offset,
        } => instruction_bits(Instr::Vfl {
            op: *op,
            decimal: form.decimal,
            unsigned: form.unsigned,
            negated: *negated,
            p: form.p,
            length: form.length,
            byte: form.byte,
            offset: *offset as u8,
            address: address(v.first),
            i: at.index,
        }),
        Statement::Connect {
            kind,
            table,
            form,
            at,
            offset,
        } => instruction_bits(Instr::Connect {
            kind: *kind,
            table: *table,
            p: form.p,
            length: form.length,
            byte: form.byte,
            offset: *offset as u8,
            address: address(v.first),
            i: at.index,
        }),
        Statement::Move {
            swap,
            at,
            count,
            ..
        } => instruction_bits(Instr::Move {
            swap: *swap,
            address: address(v.first),
            i: at.index,
            second: half_word(v.second),
            count: *count as u8,
        }),
        Statement::BitBranch {
            sense,
            change,
            at,
            ..
        } => instruction_bits(Instr::BitBranch {
            sense: *sense,
            change: *change,
            address: address(v.first),
            i: at.index,
            second: half_word(v.second),
        }),
        Statement::IndBranch { sense, off, at, .. } => instruction_bits(Instr::IndBranch {
            sense: *sense,
            off: *off,
            address: address(v.first),
            i: at.index,
            second: half_word(v.second),
        }),
        Statement::StoreCounter { at, .. } => instruction_bits(Instr::StoreCounter {
            address: address(v.first),
            i: at.index,
            second: half_word(v.second),
        }),
        Statement::Transfer { write, at, count } => instruction_bits(Instr::Transfer {
            write: *write,
            address: address(v.first),
            i: at.index,
            count: *count as u32,
        }),
        Statement::Data {
            form,
            minus,
            number,
        } => field_of(*form, *minus, *number),
        Statement::IndexWord { count, flags, .. } => {
            index_word_bits(v.first, *count as u32, v.second, *flags)
        }
        Statement::Synonym { .. }
        | Statement::SetLocation { .. }
        | Statement::Reserve { .. }
        | Statement::End { .. } => 0,
    }
}

// A value as a bit address.
fn address(a: i64) -> u32
    requires { unsigned_abs a < 2 ^ 24 }
    ensures address { result ≡ unsigned_abs a }
{
    a.unsigned_abs() as u32
}

// The half-word address of a bit address.
pub(crate) fn half_word(a: i64) -> u32
    requires { unsigned_abs a < 2 ^ 24 }
    ensures address { result ≡ spec.half_word_bits a }
    ensures below { result < 2 ^ 19 }
{
    (a.unsigned_abs() / 32) as u32
}

// The index word of an address, 0 if there is no address.
fn index_of(at: &Option<CompactSpot>) -> u8
    requires { IsSpotOrNone at.now }
    ensures index { result ≡ spec.spot_index at.now }
    ensures below { result < 16 }
{
    match at {
        None => 0,
        Some(at) => at.index,
    }
}

// The bits of an instruction, as a number.
fn instruction_bits(instr: Instr) -> u64
    requires { IsShape instr }
    ensures bits { result ≡ spec.instruction_bits instr }
    ensures short { second_half instr ≡ None → result < 2 ^ 32 }
{
    let (first, second) = encode(&instr);
    joined(first, second)
}

// The one or two half-words of an instruction as one number.
fn joined(first: u32, second: Option<u32>) -> u64
    ensures bits { result ≡ spec.number_of_halves first second }
    ensures short { second ≡ None → result < 2 ^ 32 }
{
    match second {
        None => u64::from(first),
        Some(second) => (u64::from(first) << 32) + u64::from(second),
    }
}

// The bits of an index word with these parts.
fn index_word_bits(value: i64, count: u32, refill: i64, flags: u64) -> u64
    requires value { unsigned_abs value < 2 ^ 24 }
    requires count { count < 2 ^ 18 }
    requires refill { unsigned_abs refill < 2 ^ 24 }
    requires flags { flags < 8 }
    ensures { result ≡ spec.index_word_bits value count refill flags }
{
    let valued = with_count(with_value(0, value as i32), count);
    with_part(
        with_refill(valued, (refill.unsigned_abs() / 64) as u32),
        25,
        3,
        flags,
    )
}
