//! Each binary operation on a field: `binary`, the one call of this crate, for fields.rt of
//! `st_exec`. Inputs are values: 128 bits of accumulator, a field of 1 to 64 bits, the factor and
//! indicator registers. docs/variable-fields.md has the rules.
//!
//! Proved: the clause `done` says that the result is `result` of specs/BinaryResult.antt, `field`
//! that written bits fit the field. Callers must prove that the shape is valid, which decoding
//! ensures. Pinned: the result, by specs/BinaryResult.antt, docs/operations.md and
//! vectors/binary.txt. Free: the body, if proofs/operations follows. No operation is named here:
//! docs/changing.md lists the places of a new one.
ghost use Rattle.std.specs.Prelude.{◌≡◌, ◌<◌, ◌^◌, IfSome};
ghost use Rattle.st_field.specs.Fields.{IsBinaryShape};
ghost use Rattle.st_bin.specs.BinaryResult.{result as binary_result};

use crate::base::Two;
use st_bits::VflOp;
use st_field::{Acc, Done, Shape, operate, take};

/// The registers that an operation on a field reads.
#[derive(Clone, Copy)]
pub struct Registers {
    /// The accumulator with its sign byte.
    pub acc: Acc,
    /// The factor register.
    pub ft: u64,
    /// The indicator register.
    pub ind: u64,
}

/// The result of a binary operation, given the registers and a field with the bits `bits`, below
/// 2^length. The shape must be valid for a binary instruction.
pub fn binary(op: VflOp, registers: &Registers, bits: u64, shape: &Shape) -> Done
    requires shape { IsBinaryShape shape.now }
    requires fits { bits < 2 ^ shape.now.length }
    ensures done { let r = registers.now in
        result ≡ binary_result op r.acc bits shape.now r.ft r.ind }
    ensures field { IfSome result.field (λ x. x < 2 ^ shape.now.length) }
{
    let taken = take(&registers.acc, bits, shape);
    operate::<Two>(op, &taken, registers.ft, registers.ind)
}
