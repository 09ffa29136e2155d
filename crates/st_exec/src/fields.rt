//! Operations on fields, and connectives: the operand is taken from the operand words, the
//! accumulator from the state, and the result is computed by `st_bin` (binary), `st_dec` (decimal)
//! or `st_conn` (connectives). A field has 1 to 64 bits, at most 24 in form 1, whose operand is the
//! address itself. Only effects.rt calls `operate` and `connect_field`. docs/variable-fields.md and
//! docs/connectives.md have the rules.
//!
//! Proved: the results are `operation_outcome` and `connects` of specs/Outcome.antt, and a field
//! that is written fits its length (clause `field`).
//!
//! Pinned, by these definitions, docs/operations.md and the vectors binary.txt, decimal.txt,
//! connectives.txt and forms.txt: the results. Free: the bodies, if proofs/fields follows. A new
//! operation needs nothing here.
ghost use Rattle.std.specs.Prelude.{◌≡◌, ◌<◌, ◌≤◌, ◌^◌, IfSome, if◌then◌else◌, true};
ghost use Rattle.st_field.specs.Fields.{IsBinaryShape};
ghost use Rattle.st_dec.specs.DecimalOperand.{IsDecimalShape};
ghost use Rattle.st_format.specs.Operations.{writes_field};
ghost use Rattle.st_format.specs.declared.operations.FullOp.{FullOp};
ghost use Rattle.st_state.specs.Machine.{word};
ghost use Rattle.st_prep.specs.Entry.{no_words, field_words, operand_words};
ghost use Rattle.st_prep.specs.Ranges.{AreInside};
ghost use Rattle.st_exec.specs.Operand.{AreRead, taken_words, operand_bits as operand_of, accumulator as accumulator_of};
ghost use Rattle.st_exec.specs.Outcome.{result_by as result_by_of, operation_outcome, connects};
ghost use Rattle.st_exec.specs.Effect.{IsField};

use crate::operands::operand_field;
use st_bin::{Registers, binary};
use st_bits::register::{FACTOR, INDICATORS, LEFT_HALF, RIGHT_HALF, SIGN_BYTE};
use st_bits::{VflOp, part};
use st_conn::{ConnShape, connective};
use st_dec::decimal;
use st_field::{Acc, Done, Shape};
use st_prep::reads_field;
use st_state::State;

/// A field addressed by an instruction.
#[derive(Clone, Copy)]
pub struct Addressed<'a> {
    /// The progressive form; in form 1 the field is the first bits of the address itself.
    pub p: u8,
    /// The bit address, of 24 bits.
    pub e: u32,
    /// The operand words of the field.
    pub operands: &'a [u64; 2],
    /// The state, from which operands that are registers are read.
    pub state: &'a State,
}

// The operand of `n` bits. In form 1 it is the first `n` of the 24 bits of the address.
fn operand(at: &Addressed<'_>, n: u8) -> u64
    requires some { 1 ≤ n }
    requires few { n ≤ 64 }
    requires short { at.now.p ≡ 1 → n ≤ 24 }
    requires inside { AreInside (operand_words at.now.p at.now.e n) }
    requires read { AreRead (operand_words at.now.p at.now.e n)
        at.now.operands.now at.now.state.now }

    ensures value { result ≡ operand_of at.now.p at.now.e n at.now.state.now }
    ensures bound { result < 2 ^ n }
{
    if at.p == 1 {
        part(u64::from(at.e), 40, u32::from(n))
    } else {
        operand_field(at.operands, at.e, n, at.state)
    }
}

// The accumulator of a state, with its sign byte.
fn accumulator(state: &State) -> Acc
    ensures { result ≡ accumulator_of state.now }
{
    Acc {
        mag: u128::from(state.word(LEFT_HALF)) * (1 << 64) + u128::from(state.word(RIGHT_HALF)),
        sb: part(state.word(SIGN_BYTE), 0, 8) as u8,
    }
}

// The registers that an operation reads.
fn registers(state: &State) -> Registers
    ensures { result ≡ record {
      acc = accumulator_of state.now;
      ft = word state.now 14;
      ind = word state.now 11;
    } }
{
    Registers {
        acc: accumulator(state),
        ft: state.word(FACTOR),
        ind: state.word(INDICATORS),
    }
}

// The result of an operation, decimal or binary, on a field with the bits `bits`.
fn result_by(is_decimal: bool, op: VflOp, registers: &Registers, bits: u64, shape: &Shape) -> Done
    requires shape { IsBinaryShape shape.now }
    requires decimal { is_decimal ≡ true → IsDecimalShape shape.now }
    requires fits { bits < 2 ^ shape.now.length }
    ensures value { let r = registers.now in
        result ≡ result_by_of is_decimal op r.acc bits shape.now r.ft r.ind }
    ensures field { IfSome result.field (λ v. v < 2 ^ shape.now.length) }
{
    if is_decimal {
        decimal(op, &registers.acc, bits, shape, registers.ind)
    } else {
        binary(op, registers, bits, shape)
    }
}

/// The result of an operation on a field.
pub fn operate(is_decimal: bool, op: VflOp, shape: &Shape, at: &Addressed<'_>) -> Done
    requires shape { IsBinaryShape shape.now }
    requires decimal { is_decimal ≡ true → IsDecimalShape shape.now }
    requires short { at.now.p ≡ 1 → shape.now.length ≤ 24 }
    requires inside { AreInside (taken_words op at.now.p at.now.e shape.now.length) }
    requires read { AreRead (taken_words op at.now.p at.now.e shape.now.length)
        at.now.operands.now at.now.state.now }
    requires written { AreInside (if writes_field (FullOp.Variable op)
        then field_words at.now.e shape.now.length else no_words) }

    ensures value { result
        ≡ operation_outcome is_decimal op shape.now at.now.p at.now.e at.now.state.now }
    ensures field { IfSome result.field (IsField at.now.e shape.now.length) }
{
    // ST does not read its field.
    let bits = if reads_field(op) {
        operand(at, shape.length)
    } else {
        0
    };
    let registers = registers(at.state);
    result_by(is_decimal, op, &registers, bits, shape)
}

/// The result of a connective of the accumulator and a field.
pub fn connect_field(shape: &ConnShape, at: &Addressed<'_>) -> Done
    requires table { shape.now.table < 16 }
    requires offset { shape.now.offset ≤ 127 }
    requires some { 1 ≤ shape.now.length }
    requires few { shape.now.length ≤ 64 }
    requires short { at.now.p ≡ 1 → shape.now.length ≤ 24 }
    requires inside { AreInside (operand_words at.now.p at.now.e shape.now.length) }
    requires read { AreRead (operand_words at.now.p at.now.e shape.now.length)
        at.now.operands.now at.now.state.now }
    requires written { AreInside (if writes_field (FullOp.Connective shape.now.kind)
        then field_words at.now.e shape.now.length else no_words) }

    ensures value { let h = shape.now in result
        ≡ connects h.kind h.table at.now.p at.now.e h.offset h.length at.now.state.now }
    ensures field { IfSome result.field (IsField at.now.e shape.now.length) }
{
    let acc = accumulator(at.state);
    let bits = operand(at, shape.length);
    connective(shape, &acc, bits)
}
