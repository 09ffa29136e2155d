//! The parts of an index word: value, count and refill address. Bits 0-23 are the magnitude of the
//! value, bit 24 its sign (one is minus, and minus zero reads as 0), bits 28-45 the count, bits
//! 46-63 the refill address; bits 25-27 are flags and are kept. docs/index-words.md has the rules.
//! `st_index`, `st_prep` and the assembler (emitting.rt of `st_asm`) use the calls.
//!
//! Proved: each call returns exactly the part that specs/IndexWord.antt defines, or the word with
//! only that part replaced. Pinned: the places of the parts, by specs/IndexWord.antt,
//! docs/index-words.md and vectors/index.txt. Free: the bodies, which are calls of parts.rt. No
//! call changes a flag.
ghost use Rattle.std.specs.Prelude.{◌≡◌, ◌<◌, ◌≤◌, ◌^◌, unsigned_abs};
ghost use Rattle.st_bits.specs.IndexWord.{index_value as value_by, count_of as count_by, refill_of as refill_by, index_word_with_value as with_value_of, with_count as with_count_of, with_refill as with_refill_of};

use crate::parts::{part, with_part};

/// The signed value of an index word.
pub fn value_of(x: u64) -> i32
    ensures { result ≡ value_by x }
{
    let magnitude = part(x, 0, 24) as i32;
    if part(x, 24, 1) == 0 {
        magnitude
    } else {
        -magnitude
    }
}

/// The count of an index word, below 2^18.
pub fn count_of(x: u64) -> u32
    ensures { result ≡ count_by x }
{
    part(x, 28, 18) as u32
}

/// The refill address of an index word, a word address below 2^18.
pub fn refill_of(x: u64) -> u32
    ensures { result ≡ refill_by x }
{
    part(x, 46, 18) as u32
}

/// The index word with `r` as its value: the magnitude modulo 2^24, and a minus sign if r is
/// negative. The magnitude of `r` is at most 2^28, that of a sum of sixteen values.
pub fn with_value(x: u64, r: i32) -> u64
    requires { unsigned_abs r ≤ 2 ^ 28 }
    ensures { result ≡ with_value_of x r }
{
    let magnitude = u64::from(r.unsigned_abs()) % (1 << 24);
    with_part(with_part(x, 0, 24, magnitude), 24, 1, u64::from(r < 0))
}

/// The index word with the count `c`, below 2^18.
pub fn with_count(x: u64, c: u32) -> u64
    requires { c < 2 ^ 18 }
    ensures { result ≡ with_count_of x c }
{
    with_part(x, 28, 18, u64::from(c))
}

/// The index word with the refill address `a`, a word address below 2^18.
pub fn with_refill(x: u64, a: u32) -> u64
    requires { a < 2 ^ 18 }
    ensures { result ≡ with_refill_of x a }
{
    with_part(x, 46, 18, u64::from(a))
}
