//! The faults of the value pass: addresses out of range, values that do not fit, wrong boundaries,
//! and bits outside of storage. Values and locations are in bits. docs/strap.md has the faults.
//! valuing.rt and alone.rt call `value_fault`; what passes is what emitting.rt requires.
//!
//! Proved: the result is `value_fault` of specs/Checks.antt, the first fault of a statement in this
//! order of checks. The laws of this crate (specs/Laws.antt) say which card of a job it refuses.
//!
//! Pinned: the four checks and their order, as vectors/faults.txt shows; the public limits, whose
//! figures are in the law `StatementsInFigures` of `st_laws` and in docs/strap.md. A new kind of
//! statement needs cases here and in specs/Checks.antt. Free: the split into functions.

ghost use Rattle.std.specs.Prelude.{◌≡◌, ◌≤◌, ◌^◌};
ghost use Rattle.st_asm.specs.Checks as spec;
ghost use Rattle.st_asm.specs.Places.{placing_of, IsPlacing};
ghost use Rattle.st_strap.specs.WellFormed.{IsWellFormed};

use crate::numbers::holds;
use crate::places::Placing;
use crate::values::Values;
use st_bits::WORDS;
use st_bits::register::FIRST_STORAGE_WORD;
use st_card::Fault;
use st_strap::{CompactStatement, Statement};

// One more than the greatest bit address.
const ADDRESSES: u64 = 1 << 24;

/// The greatest offset of an operand: the number of bits to the right of it in the accumulator.
pub const MOST_OFFSET: u64 = 127;

/// The most words that a move instruction moves.
pub const MOST_MOVED: u64 = 16;

/// The greatest number of instructions after which a transfer order takes effect.
pub const MOST_WAITED: u64 = 1_000;

/// The greatest count of an index word.
pub const MOST_COUNT: u64 = 262_143;

/// The greatest flags of an index word, three bits.
pub const MOST_FLAGS: u64 = 7;

// The bit address of the first bit to which a statement may be assembled.
const FIRST_BIT: u64 = 64 * FIRST_STORAGE_WORD as u64;

// The fault of a statement with these values at this location, if it has one.
pub(crate) fn value_fault(
    s: &CompactStatement,
    placing: Placing,
    v: Values,
    place: u32,
) -> Option<Fault>
    requires well { IsWellFormed s.now }
    requires placing { placing ≡ placing_of s.now }
    ensures { result ≡ spec.value_fault s.now v place }
{
    if !in_range(s, v) {
        Some(Fault::AddressOutOfRange)
    } else if !fits(s, v) {
        Some(Fault::ValueDoesNotFit)
    } else if !on_boundary(s, v) {
        Some(Fault::NotOnABoundary)
    } else if !in_storage(place, extent(placing, v.first)) {
        Some(Fault::LocationOutOfStorage)
    } else {
        None
    }
}

// Whether each address of a statement is in the range of addresses, 0 to 2^24 - 1.
fn in_range(s: &CompactStatement, v: Values) -> bool
    ensures { result ≡ spec.in_range s.now v }
{
    match s {
        Statement::IndexWord { .. } => is_address(v.second),
        _ => is_address(v.first) && is_address(v.second),
    }
}

// Whether a number is a bit address, 0 to 2^24 - 1.
fn is_address(a: i64) -> bool
    ensures { result ≡ spec.is_address a }
{
    a >= 0 && a.unsigned_abs() < ADDRESSES
}

// Whether each value of a statement fits in its field.
fn fits(s: &CompactStatement, v: Values) -> bool
    requires { IsWellFormed s.now }
    ensures { result ≡ spec.fits s.now v }
{
    match s {
        Statement::Vfl { offset, .. } | Statement::Connect { offset, .. } => *offset <= MOST_OFFSET,
        Statement::Move { count, .. } => 1 <= *count && *count <= MOST_MOVED,
        Statement::Transfer { count, .. } => 1 <= *count && *count <= MOST_WAITED,
        Statement::Data {
            form,
            minus,
            number,
        } => holds(*form, *minus, *number),
        Statement::IndexWord { count, flags, .. } => {
            v.first.unsigned_abs() < ADDRESSES && *count <= MOST_COUNT && *flags <= MOST_FLAGS
        }
        _ => true,
    }
}

// Whether each address of a statement is on the boundary that its use requires.
fn on_boundary(s: &CompactStatement, v: Values) -> bool
    ensures { result ≡ spec.on_boundary s.now v }
{
    match s {
        Statement::Half { .. }
        | Statement::Branch { .. }
        | Statement::Floating { .. }
        | Statement::End { .. } => is_multiple(32, v.first),
        Statement::Move { .. }
        | Statement::BitBranch { .. }
        | Statement::IndBranch { .. }
        | Statement::StoreCounter { .. } => is_multiple(32, v.second),
        Statement::IndexWord { .. } => is_multiple(64, v.second),
        _ => true,
    }
}

// Whether a bit address is a multiple of a unit.
fn is_multiple(unit: u64, a: i64) -> bool
    requires { 1 ≤ unit }
    ensures { result ≡ spec.is_multiple unit a }
{
    a.unsigned_abs() % unit == 0
}

// The number of bits that a statement assembles to or skips.
fn extent(placing: Placing, value: i64) -> u64
    requires { IsPlacing placing }
    ensures extent { result ≡ spec.extent placing value }
    ensures few { result ≤ 2 ^ 63 }
{
    match placing {
        Placing::Emits { bits, .. } => u64::from(bits),
        Placing::Passes => value.unsigned_abs(),
        _ => 0,
    }
}

// Whether `bits` bits from bit address `place` on are all in the words of storage after the
// registers.
fn in_storage(place: u32, bits: u64) -> bool
    requires { bits ≤ 2 ^ 63 }
    ensures { result ≡ spec.in_storage place bits }
{
    let place = u64::from(place);
    bits == 0 || (FIRST_BIT <= place && place + bits <= 64 * u64::from(WORDS))
}
