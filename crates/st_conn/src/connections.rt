//! The result of a connective, an operation that combines the bits of a field and of the
//! accumulator by a truth table of four bits. docs/connectives.md has the rules. `st_exec`
//! (fields.rt) calls `connective` and writes the result. The counts go to register word 7: leading
//! zeros in bits 17-23, ones in bits 44-50.
//!
//! Proved: the clause `done` says that the result is `connection` of specs/Connection.antt, `field`
//! that written bits fit the field. The law `CountsAgree` (specs/Laws.antt of `st_laws`) says that
//! the counts lie in bits that the register keeps. Pinned: the result, by `connection`,
//! docs/connectives.md and vectors/connectives.txt. Free: the private functions. A new kind of
//! connective is a case of `ConnKind` (`st_bits`), here and in specs/Connection.antt.
ghost use Rattle.std.specs.Prelude.{◌≡◌, ◌<◌, ◌≤◌, ◌^◌, IfSome, false};
ghost use Rattle.st_bits.specs.declared.indicators.TheConstants.{PARTIAL_FIELD};
ghost use Rattle.st_bits.specs.declared.operations.ConnKind.{ConnKind};
ghost use Rattle.st_field.specs.Indicators.{on_if, by_number as by_number_of};
ghost use Rattle.st_conn.specs.Connection.{put_by as put_by_of, connection};

use crate::logic::connect;
use crate::placement::put_acc;
use st_bits::{ConnKind, Ind};
use st_field::indicators::{by_number, partial_field};
use st_field::{Acc, Done, Signed, done_with};

/// The parameters of a connective.
#[derive(Clone, Copy)]
pub struct ConnShape {
    /// The destination of the result.
    pub kind: ConnKind,
    /// The truth table, below 16: its bits of value 8, 4, 2 and 1 are the results for the field bit
    /// and accumulator bit 00, 01, 10 and 11.
    pub table: u8,
    /// The number of bits of the field, 1 to 64.
    pub length: u8,
    /// The weight of the accumulator's bit that is combined with the field's bit of weight 0, 0 to
    /// 127; the field's bit of weight j is combined with the bit of weight `offset` + j.
    pub offset: u8,
}

// The indicators that the result bits of a connective turn on and off. `wrote` is true if they are
// written to the field, `lost` if a one was lost.
fn result_indicators(bits: u64, wrote: bool, lost: bool) -> Ind
    ensures { result ≡ by_number_of wrote false bits (on_if lost PARTIAL_FIELD) }
{
    let number = Signed {
        negative: false,
        mag: u128::from(bits),
    };
    by_number(wrote, number, partial_field(lost))
}

// The result with the `n` result bits of a connective in the accumulator.
fn put_in_accumulator(acc: &Acc, offset: u8, n: u8, bits: u64) -> Done
    requires offset { offset ≤ 127 }
    requires some { 1 ≤ n }
    requires few { n ≤ 64 }
    requires fits { bits < 2 ^ n }
    ensures { result ≡ put_by_of ConnKind.C acc.now offset n bits }
{
    let (mag, lost) = put_acc(acc.mag, offset, bits, n);
    done_with(
        &Acc { mag, sb: acc.sb },
        result_indicators(bits, false, lost),
    )
}

// The result with the `n` result bits of a connective in their destination.
fn put_by(kind: ConnKind, acc: &Acc, offset: u8, n: u8, bits: u64) -> Done
    requires offset { offset ≤ 127 }
    requires some { 1 ≤ n }
    requires few { n ≤ 64 }
    requires fits { bits < 2 ^ n }

    ensures value { result ≡ put_by_of kind acc.now offset n bits }
    ensures field { IfSome result.field (λ x. x < 2 ^ n) }
{
    match kind {
        ConnKind::C => put_in_accumulator(acc, offset, n, bits),
        ConnKind::Cm => Done {
            field: Some(bits),
            ..done_with(acc, result_indicators(bits, true, false))
        },
        ConnKind::Ct => done_with(acc, result_indicators(bits, false, false)),
    }
}

/// The result of a connective of a field with the bits `field`, below 2^length, and the
/// accumulator: the result bits go to their destination, and the counts of their leading zeros and
/// ones to the counts register.
pub fn connective(shape: &ConnShape, acc: &Acc, field: u64) -> Done
    requires table { shape.now.table < 16 }
    requires offset { shape.now.offset ≤ 127 }
    requires some { 1 ≤ shape.now.length }
    requires few { shape.now.length ≤ 64 }
    requires fits { field < 2 ^ shape.now.length }

    ensures done { let h = shape.now in
        result ≡ connection h.kind h.table acc.now h.offset field h.length }
    ensures field { IfSome result.field (λ x. x < 2 ^ shape.now.length) }
{
    let conn = connect(shape.table, acc.mag, shape.offset, field, shape.length);
    Done {
        counts: Some(u64::from(conn.lzc) * (1 << 40) + u64::from(conn.aoc) * (1 << 13)),
        ..put_by(shape.kind, acc, shape.offset, shape.length, conn.bits)
    }
}
