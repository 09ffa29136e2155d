//! The texts of instructions as statements, without a name or a comment. docs/disassembly.md has
//! the rules. Only spelling.rt calls `text_of`; a text that does not assemble to the instruction's
//! bits is refused there.
//!
//! Proved: the text is `instruction_text` of specs/Texts.antt; it is empty for the floating group
//! and for invalid bits. Not proved here: that the text assembles to the instruction, which
//! spelling.rt tests.
//!
//! Pinned, by `instruction_text`, docs/disassembly.md and vectors/decks.txt: the texts. A new kind
//! of instruction needs a case of `instruction_text` in specs/Texts.antt and one of `text_of` here.
//! Free: the split into functions.

ghost use Rattle.std.specs.Prelude.{◌≡◌};
ghost use Rattle.st_dis.specs.Texts as spec;

use crate::names::{
    branch_name, change_name, digit, field_name, half_name, kind_name, move_name, negation,
    order_name, turning,
};
use crate::pieces::{
    push_bit_field, push_description, push_half_field, push_index_field, push_listed_fields,
    push_number_field, push_operand, push_second_field, push_truth,
};
use st_bits::{BranchOp, HalfOp};
use st_format::Instr;
use st_text::{Line, open_line};

// The text of an instruction on an index word.
fn half_text(op: HalfOp, address: u32, j: u8, i: u8) -> Line
    ensures { result.bytes ≡ spec.half_text op address j i }
{
    let mut line = open_line(half_name(op));
    match op {
        HalfOp::Ex => push_half_field(&mut line, address, i),
        HalfOp::R => push_index_field(&mut line, j),
        HalfOp::Lvs => {
            push_index_field(&mut line, j);
            push_listed_fields(&mut line, 16, address);
        }
        _ => {
            push_index_field(&mut line, j);
            push_half_field(&mut line, address, i);
        }
    }
    line
}

// The text of a branch.
fn branch_text(op: BranchOp, address: u32, i: u8) -> Line
    ensures { result.bytes ≡ spec.branch_text op address i }
{
    let mut line = open_line(branch_name(op));
    match op {
        BranchOp::Bew | BranchOp::Nop => {}
        _ => push_half_field(&mut line, address, i),
    }
    line
}

// The text of an instruction; empty if it has none.
pub(crate) fn text_of(instr: Instr) -> Line
    ensures { result.bytes ≡ spec.instruction_text instr }
{
    match instr {
        Instr::Half { op, address, j, i } => half_text(op, address, j, i),
        Instr::Branch { op, address, i } => branch_text(op, address, i),
        Instr::Vfl {
            op,
            decimal,
            unsigned,
            negated,
            p,
            length,
            byte,
            offset,
            address,
            i,
        } => {
            let mut line = open_line(field_name(op));
            line.push_str(negation(negated));
            push_description(&mut line, decimal, unsigned, length, byte);
            push_operand(&mut line, p, address, i, offset);
            line
        }
        Instr::Connect {
            kind,
            table,
            p,
            length,
            byte,
            offset,
            address,
            i,
        } => {
            let mut line = open_line(kind_name(kind));
            push_truth(&mut line, table);
            push_description(&mut line, false, true, length, byte);
            push_operand(&mut line, p, address, i, offset);
            line
        }
        Instr::Move {
            swap,
            address,
            i,
            second,
            count,
        } => {
            let mut line = open_line(move_name(swap));
            push_bit_field(&mut line, address, i);
            push_second_field(&mut line, second);
            push_number_field(&mut line, u32::from(count));
            line
        }
        Instr::BitBranch {
            sense,
            change,
            address,
            i,
            second,
        } => {
            let mut line = open_line("BB");
            line.push_str(digit(sense));
            line.push_str(change_name(change));
            push_bit_field(&mut line, address, i);
            push_second_field(&mut line, second);
            line
        }
        Instr::IndBranch {
            sense,
            off,
            address,
            i,
            second,
        } => {
            let mut line = open_line("BI");
            line.push_str(digit(sense));
            line.push_str(turning(off));
            push_bit_field(&mut line, address, i);
            push_second_field(&mut line, second);
            line
        }
        Instr::StoreCounter { address, i, second } => {
            let mut line = open_line("SIC");
            push_bit_field(&mut line, address, i);
            push_second_field(&mut line, second);
            line
        }
        Instr::Transfer {
            write,
            address,
            i,
            count,
        } => {
            let mut line = open_line(order_name(write));
            push_bit_field(&mut line, address, i);
            push_number_field(&mut line, count);
            line
        }
        Instr::Floating { .. } | Instr::Invalid { .. } => Line::new(),
    }
}
