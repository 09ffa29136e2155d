//! The rules by which the bits of a full word with a known operation are an invalid instruction:
//! unused bits that are not zero, wrong sizes of a field, a wrong progressive form, a wrong count
//! of an order. docs/instructions.md lists them. decoding.rt calls `breaks_rules`; `st_mnemonic`
//! (descriptions.rt) calls `misfits_field` for the fields of cards.
//!
//! Proved: the results are `breaks_rules` and `misfits` of specs/Validity.antt, which has one
//! definition for each private function here.
//!
//! Pinned, by these definitions, docs/instructions.md and vectors/checks.txt: the rules. Free: the
//! bodies, and the split into private functions together with their definitions. A new rule is a
//! definition and a case of `breaks_rules` in specs/Validity.antt, and a function and a case here.
ghost use Rattle.std.specs.Prelude.{◌≡◌};
ghost use Rattle.st_format.specs.Validity.{breaks_rules as breaks_rules_of, unused_in_kind as unused_in_kind_of, unused_k as unused_k_of, unused_marks as unused_marks_of, misfits, has_misfit as has_misfit_of, misuses_p, has_misused_p as has_misused_p_of, has_miscount as has_miscount_of};

use crate::fields::{
    byte_size, field_length, index_field, last_field, later, progressive_form, second_address,
};
use crate::operations::{FullOp, writes_field};

/// Whether the bits of a full word with this operation break a rule.
pub fn breaks_rules(op: FullOp, first: u32, second: u32) -> bool
    ensures { result ≡ breaks_rules_of op first second }
{
    unused_in_kind(op, second) != 0
        || unused_k(op, second) != 0
        || unused_marks(op, second) != 0
        || has_misfit(op, second)
        || has_misused_p(op, first, second)
        || has_miscount(op, second)
}

// Bits 58-59 of a connective, which must be zero; 0 for other operations.
fn unused_in_kind(op: FullOp, second: u32) -> u32
    ensures { result ≡ unused_in_kind_of op second }
{
    match op {
        FullOp::Connective(_) => later(second, 58, 2),
        _ => 0,
    }
}

// The K field, which must be zero except in a transmission; 0 for a transmission.
fn unused_k(op: FullOp, second: u32) -> u8
    ensures { result ≡ unused_k_of op second }
{
    match op {
        FullOp::Transmission { .. } => 0,
        _ => last_field(second),
    }
}

// Those of bits 52-54 that the operation does not use, which must be zero.
fn unused_marks(op: FullOp, second: u32) -> u32
    ensures { result ≡ unused_marks_of op second }
{
    match op {
        FullOp::Transmission { .. } | FullOp::CounterStore | FullOp::Order { .. } => {
            later(second, 52, 3)
        }
        FullOp::IndicatorTest => later(second, 54, 1),
        _ => 0,
    }
}

// Whether the field of an operation on a field has a wrong size; false for other operations.
fn has_misfit(op: FullOp, second: u32) -> bool
    ensures { result ≡ has_misfit_of op second }
{
    match op {
        FullOp::Variable(_) => misfits_field(
            later(second, 52, 1) == 1,
            later(second, 53, 1) == 1,
            field_length(second),
            byte_size(second),
        ),
        _ => false,
    }
}

/// Whether a field has a wrong size: a decimal field needs bytes of at least four bits and a whole
/// number of bytes; a signed field needs room for its sign byte. The length is 1 to 64 bits, the
/// byte 1 to 8.
pub fn misfits_field(decimal: bool, unsigned: bool, length: u8, byte: u8) -> bool
    ensures { result ≡ misfits decimal unsigned length byte }
{
    (decimal && (byte < 4 || length % byte != 0)) || (!unsigned && length < byte)
}

// Whether the progressive form of an operation on a field is wrong; false for other operations.
fn has_misused_p(op: FullOp, first: u32, second: u32) -> bool
    ensures { result ≡ has_misused_p_of op first second }
{
    match op {
        FullOp::Variable(_) | FullOp::Connective(_) => misuses_form(
            writes_field(op),
            progressive_form(second),
            field_length(second),
            index_field(first),
        ),
        _ => false,
    }
}

// An immediate operand (form 1) cannot be written and has at most 24 bits; forms 2 to 7 need an
// index word.
fn misuses_form(writes: bool, p: u8, length: u8, i: u8) -> bool
    ensures { result ≡ misuses_p writes p length i }
{
    (p == 1 && (writes || length > 24)) || (p >= 2 && i == 0)
}

// Whether the count of an order is outside 1 to 1,000; false for other operations.
fn has_miscount(op: FullOp, second: u32) -> bool
    ensures { result ≡ has_miscount_of op second }
{
    match op {
        FullOp::Order { .. } => {
            let count = second_address(second);
            count == 0 || count > 1000
        }
        _ => false,
    }
}
