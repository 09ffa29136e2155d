//! Each decimal operation on a field: `decimal`, the one public function of this crate, which
//! `st_exec` (fields.rt) calls. docs/variable-fields.md has the rules.
//!
//! Proved: the clause `done` says that the result is `result` of specs/DecimalResult.antt, `field`
//! that written bits fit the field. Callers must prove that the shape is valid, which decoding
//! ensures.
//!
//! Pinned, by this definition, docs/operations.md, vectors/decimal.txt and docs/CLAIMS.md:
//! `decimal`, its clauses and its results. Free: the body, if proofs/operations follows. A new
//! operation needs nothing here: `operate` of `st_field` has the cases.
ghost use Rattle.std.specs.Prelude.{◌≡◌, ◌<◌, ◌^◌, IfSome};
ghost use Rattle.st_dec.specs.DecimalOperand.{IsDecimalShape};
ghost use Rattle.st_dec.specs.DecimalResult.{result as decimal_result};

use crate::base::Ten;
use st_bits::VflOp;
use st_field::{Acc, Done, Shape, operate, take};

/// The result of a decimal operation, given the accumulator, a field with the bits `bits`, below
/// 2^length, and the indicator register `ind`. The shape must be valid for a decimal instruction:
/// its bytes have 4 to 8 bits, and the field is a whole number of bytes. Multiply, multiply and
/// add, and divide only load the transit register; the program completes them.
pub fn decimal(op: VflOp, acc: &Acc, bits: u64, shape: &Shape, ind: u64) -> Done
    requires shape { IsDecimalShape shape.now }
    requires fits { bits < 2 ^ shape.now.length }
    ensures done { result ≡ decimal_result op acc.now bits shape.now ind }
    ensures field { IfSome result.field (λ x. x < 2 ^ shape.now.length) }
{
    operate::<Ten>(op, &take(acc, bits, shape), 0, ind)
}
