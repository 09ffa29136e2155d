//! Decoding: from the bits of an instruction, one or two half-words, to the instruction. `st_prep`
//! and `st_dis` call `decode`; `st_next` calls `format_of` and then `decode_as`, which together are
//! `decode`; `st_prep` and `st_lines` call `length_in_halves`. docs/instructions.md has the rules.
//! Invalid bits are no error: they decode to a value, which the machine suppresses.
//!
//! Proved: the result is `decoded_entry` of specs/Formats.antt for all bits, all fields are in
//! range (`IsShape`), and encoding gives the same bits again. The laws are `BitsSpellInstruction`
//! and `InstructionKeepsBits` in specs/Laws.antt. Not proved: speed.
//!
//! Pinned, by `decoded_entry`, docs/instructions.md, docs/CLAIMS.md, vectors/checks.txt and
//! vectors/words.txt: the result; by these crates: the four calls with their clauses. Free: which
//! formats `Format` tells apart, which is for speed, if proofs/decoding follows `decode_as` and
//! `decode`.
ghost use Rattle.std.specs.Prelude.{◌≡◌, ℕ, None, Some, if◌then◌else◌};
ghost use Rattle.st_format.specs.Halves.{is_full as has_ones};
ghost use Rattle.st_format.specs.Operations.{full_op as full_op_of};
ghost use Rattle.st_format.specs.Validity.{is_invalid};
ghost use Rattle.st_format.specs.Formats.{decoded_entry, spelled_as, instruction_of, half_word, full_word, full_word_instruction, first_half, second_half, IsShape, is_no_instruction};

use crate::fields::{
    bit_address, byte_size, field_length, half_address, index_field, is_full, later, offset,
    operation_field, progressive_form, register_field, second_address, word_count,
};
use crate::instruction::{Decoded, Format, Instr};
use crate::operations::{BRANCH_GROUP, FLOATING_GROUP, FullOp, branch_op, full_op, half_op};
use crate::rules::breaks_rules;

/// Decodes two half-words: the instruction and its length. The second half-word is read only if the
/// first begins a full word.
///
/// Invalid bits decode to `Invalid`; docs/instructions.md lists the rules.
pub fn decode(first: u32, second: u32) -> Decoded
    ensures value { result ≡ decoded_entry first second }
    ensures invalid { is_no_instruction result.instr ≡ is_invalid first second }

    // The fields of the result are in range, and it is encoded in the bits that were decoded.
    ensures shape { IsShape result.instr }
    ensures first { first_half result.instr ≡ first }
    ensures second { second_half result.instr ≡ (if has_ones first then Some second else None) }
{
    decode_as(format_of(first, second), first, second)
}

/// Decodes two half-words whose format is known: the instruction and its length.
#[inline(always)]
pub fn decode_as(format: Format, first: u32, second: u32) -> Decoded
    requires { spelled_as format first second ≡ instruction_of first second }
    ensures value { result ≡ decoded_entry first second }
    ensures shape { IsShape result.instr }
{
    Decoded {
        instr: spelled_by(format, first, second),
        halves: length_in_halves(first),
    }
}

/// The number of half-words of the instruction that begins with this half-word, 1 or 2.
pub fn length_in_halves(first: u32) -> u8
    ensures { result ≡ (if has_ones first then 2 else 1) }
{
    if is_full(first) { 2 } else { 1 }
}

/// The format of the instruction that two half-words encode. The second half-word is read only if
/// the first begins a full word.
#[inline(always)]
pub fn format_of(first: u32, second: u32) -> Format
    ensures { spelled_as result first second ≡ instruction_of first second }
{
    if is_full(first) {
        whole_format(first, second)
    } else {
        half_format(first)
    }
}

// The format of a half-word instruction.
fn half_format(first: u32) -> Format
    ensures { (second : ℕ) → spelled_as result first second ≡ half_word first }
{
    match operation_field(first) {
        FLOATING_GROUP => Format::Floating,
        BRANCH_GROUP => match branch_op(register_field(first)) {
            Some(op) => Format::Branch(op),
            None => Format::NoHalf,
        },
        number => match half_op(number) {
            Some(op) => Format::Index(op),
            None => Format::NoHalf,
        },
    }
}

// The format of a full-word instruction.
#[inline(always)]
fn whole_format(first: u32, second: u32) -> Format
    ensures { spelled_as result first second ≡ full_word (full_op_of second) first second }
{
    match full_op(second) {
        Some(op) => ruled(op, first, second),
        None => Format::NoWhole,
    }
}

// The format of a full word with this operation: `NoWhole` if its bits break a rule. The kind of
// the operation is known after this call and is tested only once.
#[inline(always)]
fn ruled(op: FullOp, first: u32, second: u32) -> Format
    ensures { spelled_as result first second ≡ full_word (Some op) first second }
{
    match op {
        FullOp::Variable(op) => checked(FullOp::Variable(op), first, second),
        FullOp::Connective(kind) => checked(FullOp::Connective(kind), first, second),
        FullOp::Transmission { swap } => checked(FullOp::Transmission { swap }, first, second),
        FullOp::BitTest => checked(FullOp::BitTest, first, second),
        FullOp::IndicatorTest => checked(FullOp::IndicatorTest, first, second),
        FullOp::Order { write } => checked(FullOp::Order { write }, first, second),
        FullOp::CounterStore => checked(FullOp::CounterStore, first, second),
    }
}

// The format of a full word with this operation: `NoWhole` if its bits break a rule.
fn checked(op: FullOp, first: u32, second: u32) -> Format
    ensures { spelled_as result first second ≡ full_word (Some op) first second }
{
    if breaks_rules(op, first, second) {
        Format::NoWhole
    } else {
        Format::Whole(op)
    }
}

// The instruction of this format that two half-words encode.
#[inline(always)]
fn spelled_by(format: Format, first: u32, second: u32) -> Instr
    ensures { result ≡ spelled_as format first second }
{
    match format {
        Format::Index(op) => Instr::Half {
            op,
            address: half_address(first),
            j: register_field(first),
            i: index_field(first),
        },
        Format::Branch(op) => Instr::Branch {
            op,
            address: half_address(first),
            i: index_field(first),
        },
        Format::Floating => Instr::Floating {
            number: register_field(first),
            address: half_address(first),
            i: index_field(first),
        },
        Format::Whole(op) => spell(op, first, second),
        Format::NoHalf => Instr::Invalid {
            first,
            second: 0,
            full: false,
        },
        Format::NoWhole => Instr::Invalid {
            first,
            second,
            full: true,
        },
    }
}

// The full-word instruction with this operation that two half-words encode.
#[inline(always)]
fn spell(op: FullOp, first: u32, second: u32) -> Instr
    ensures { result ≡ full_word_instruction op first second }
{
    let address = bit_address(first);
    let i = index_field(first);
    match op {
        FullOp::Variable(op) => Instr::Vfl {
            op,
            decimal: later(second, 52, 1) == 1,
            unsigned: later(second, 53, 1) == 1,
            negated: later(second, 54, 1) == 1,
            p: progressive_form(second),
            length: field_length(second),
            byte: byte_size(second),
            offset: offset(second),
            address,
            i,
        },
        FullOp::Connective(kind) => Instr::Connect {
            kind,
            table: later(second, 52, 4) as u8,
            p: progressive_form(second),
            length: field_length(second),
            byte: byte_size(second),
            offset: offset(second),
            address,
            i,
        },
        FullOp::Transmission { swap } => Instr::Move {
            swap,
            address,
            i,
            second: second_address(second),
            count: word_count(second),
        },
        FullOp::BitTest => Instr::BitBranch {
            sense: later(second, 52, 1) == 1,
            change: later(second, 53, 2) as u8,
            address,
            i,
            second: second_address(second),
        },
        FullOp::IndicatorTest => Instr::IndBranch {
            sense: later(second, 52, 1) == 1,
            off: later(second, 53, 1) == 1,
            address,
            i,
            second: second_address(second),
        },
        FullOp::Order { write } => Instr::Transfer {
            write,
            address,
            i,
            count: second_address(second),
        },
        FullOp::CounterStore => Instr::StoreCounter {
            address,
            i,
            second: second_address(second),
        },
    }
}
