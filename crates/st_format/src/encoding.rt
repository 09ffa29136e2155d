//! Encoding: from an instruction to its bits, for the assembler (`st_asm`), which emits these bits,
//! and for `st_plain`. docs/instructions.md has the rules.
//!
//! Proved: the bits are `first_half` and `second_half` of specs/Formats.antt; the clause `decodes`
//! says that these bits decode to the instruction again. Callers must prove that all fields are in
//! range (`IsShape`). The laws of both directions are `BitsSpellInstruction` and
//! `InstructionKeepsBits` in specs/Laws.antt.
//!
//! Pinned, by these definitions, docs/instructions.md, docs/CLAIMS.md and vectors/mnemonics.txt:
//! the bits. Free: the private functions, which compute sums of shifted fields, and the body of
//! `encode`, if proofs/encoding follows.
ghost use Rattle.std.specs.Prelude.{◌≡◌, ◌+◌, ◌*◌, ◌<◌, ◌^◌, ℕ, unwrap_or, is_some};
ghost use Rattle.st_format.specs.Halves.{is_full, half_bits as half_bits_of, first_bits as first_bits_of, second_half_bits as field_bits_of, second_bits as second_bits_of};
ghost use Rattle.st_format.specs.Operations.{full_number as full_number_of};
ghost use Rattle.st_format.specs.Formats.{instruction_of, first_half, second_half, IsShape, bit_of};

use crate::instruction::Instr;
use crate::operations::{
    BRANCH_GROUP, FLOATING_GROUP, FullOp, branch_number, half_number, kind_number, vfl_number,
};

/// The bits of an instruction whose fields are in range: the first half-word, and the second one if
/// it is a full word.
pub fn encode(instr: &Instr) -> (u32, Option<u32>)
    requires { IsShape instr.now }
    ensures first { result.0 ≡ first_half instr.now }
    ensures second { result.1 ≡ second_half instr.now }

    // The bits decode to the instruction. The half-word that follows a half-word instruction has no
    // effect.
    ensures decodes { (rest : ℕ) → instruction_of result.0 (unwrap_or result.1 rest) ≡ instr.now }
    ensures length { is_full result.0 ≡ is_some result.1 }
{
    pack(instr)
}

// As `encode`; a function of its own, so that the clauses about decoding are proved from its two.
fn pack(instr: &Instr) -> (u32, Option<u32>)
    requires { IsShape instr.now }
    ensures first { result.0 ≡ first_half instr.now }
    ensures second { result.1 ≡ second_half instr.now }
{
    match *instr {
        Instr::Half { op, address, j, i } => (half_bits(address, j, half_number(op), i), None),
        Instr::Branch { op, address, i } => {
            (
                half_bits(address, branch_number(op) as u8, u32::from(BRANCH_GROUP), i),
                None,
            )
        }
        Instr::Floating { number, address, i } => (
            half_bits(address, number, u32::from(FLOATING_GROUP), i),
            None,
        ),
        Instr::Vfl {
            op,
            decimal,
            unsigned,
            negated,
            p,
            length,
            byte,
            offset,
            address,
            i,
        } => {
            let operation = marks(decimal, unsigned, negated) + full_number(FullOp::Variable(op));
            let second = field_bits(p, length, byte, offset, operation);
            (first_bits(address, i), Some(second))
        }
        Instr::Connect {
            kind,
            table,
            p,
            length,
            byte,
            offset,
            address,
            i,
        } => {
            let operation = (u32::from(table) << 4) + full_number(FullOp::Connective(kind));
            let second = field_bits(p, length, byte, offset, operation);
            (first_bits(address, i), Some(second))
        }
        Instr::Move {
            swap,
            address,
            i,
            second,
            count,
        } => {
            let operation = full_number(FullOp::Transmission { swap });
            let second = second_bits(second, operation, count % 16);
            (first_bits(address, i), Some(second))
        }
        Instr::BitBranch {
            sense,
            change,
            address,
            i,
            second,
        } => {
            let operation = marks(sense, false, false)
                + (u32::from(change) << 5)
                + full_number(FullOp::BitTest);
            let second = second_bits(second, operation, 0);
            (first_bits(address, i), Some(second))
        }
        Instr::IndBranch {
            sense,
            off,
            address,
            i,
            second,
        } => {
            let operation = marks(sense, off, false) + full_number(FullOp::IndicatorTest);
            let second = second_bits(second, operation, 0);
            (first_bits(address, i), Some(second))
        }
        Instr::StoreCounter { address, i, second } => {
            let second = second_bits(second, full_number(FullOp::CounterStore), 0);
            (first_bits(address, i), Some(second))
        }
        Instr::Transfer {
            write,
            address,
            i,
            count,
        } => {
            let second = second_bits(count, full_number(FullOp::Order { write }), 0);
            (first_bits(address, i), Some(second))
        }
        Instr::Invalid {
            first,
            second,
            full,
        } => (first, if full { Some(second) } else { None }),
    }
}

// The bits of a half-word instruction with these fields.
fn half_bits(address: u32, j: u8, operation: u32, i: u8) -> u32
    requires address_fits { address < 2 ^ 19 }
    requires j_fits { j < 16 }
    requires operation_fits { operation < 32 }
    requires i_fits { i < 16 }
    ensures { result ≡ half_bits_of address j operation i }
{
    (address << 13) + (u32::from(j) << 9) + (operation << 4) + u32::from(i)
}

// The first half-word of a full-word instruction with these fields.
fn first_bits(address: u32, i: u8) -> u32
    requires address_fits { address < 2 ^ 24 }
    requires i_fits { i < 16 }
    ensures { result ≡ first_bits_of address i }
{
    (address << 8) + (15 << 4) + u32::from(i)
}

// The second half-word of an operation on a field with these fields.
fn field_bits(p: u8, length: u8, byte: u8, offset: u8, operation: u32) -> u32
    requires p_fits { p < 8 }
    requires offset_fits { offset < 128 }
    requires operation_fits { operation < 512 }
    ensures { result ≡ field_bits_of p length byte offset operation }
{
    (u32::from(p) << 29)
        + (u32::from(length % 64) << 23)
        + (u32::from(byte % 8) << 20)
        + (u32::from(offset) << 13)
        + (operation << 4)
}

// The second half-word of an instruction with two addresses, with these fields.
fn second_bits(second: u32, operation: u32, k: u8) -> u32
    requires second_fits { second < 2 ^ 19 }
    requires operation_fits { operation < 512 }
    requires k_fits { k < 16 }
    ensures { result ≡ second_bits_of second operation k }
{
    (second << 13) + (operation << 4) + u32::from(k)
}

// Bits 52-54 of an operation, in their place in the second half-word.
fn marks(first: bool, second: bool, third: bool) -> u32
    ensures value { result ≡ bit_of first * 2 ^ 7 + bit_of second * 2 ^ 6 + bit_of third * 2 ^ 5 }
    ensures bound { result < 256 }
{
    (u32::from(first) << 7) + (u32::from(second) << 6) + (u32::from(third) << 5)
}

// The number in bits 51-59 of an operation of the full-word format, with zeros for its marks or its
// table.
fn full_number(op: FullOp) -> u32
    ensures value { result ≡ full_number_of op }
{
    match op {
        FullOp::Variable(op) => vfl_number(op),
        FullOp::Connective(kind) => 256 + (kind_number(kind) << 2),
        FullOp::Transmission { swap } => 24 + u32::from(swap),
        FullOp::BitTest => 26,
        FullOp::IndicatorTest => 27,
        FullOp::Order { write } => 28 + u32::from(write),
        FullOp::CounterStore => 30,
    }
}
