//! Consecutive bits within one word, named by the first bit (0 is leftmost) and their number, 1 to
//! 64. Fields and index words are composed of `part` and `with_part`, registers use `kept`; crates
//! that decode words use the calls too (`st_exec`, `st_prep`, `st_state`, `st_asm`, `st_lines`).
//! docs/machine.md has the numbering of bits.
//!
//! Proved: each result is the definition in specs/Bits.antt by division (`part`, `with_part`,
//! `kept_bits`); for `part` and `with_part` also by lists of bits (`field`, `put`), so callers may
//! use either. Callers must prove that no bit is past bit 63. Pinned: the results, by
//! specs/Bits.antt and docs/machine.md; most definitions of the machine rest on them. Free: the
//! bodies, if proofs/parts follows those of `part` and `with_part`.
ghost use Rattle.std.specs.Prelude.{◌≡◌, ◌+◌, ◌<◌, ◌≤◌, ◌^◌};
ghost use Rattle.st_bits.specs.Bits.{bits as bits_of, field, kept_bits as kept_of, num, part as part_of, put, with_part as with_part_of};

/// The number in `count` bits, 1 to 64, of a word from bit `first`. None of them is past bit 63.
pub fn part(word: u64, first: u32, count: u32) -> u64
    requires some { 1 ≤ count }
    requires inside { first + count ≤ 64 }
    ensures value { result ≡ part_of word first count }
    ensures field { result ≡ num (field (bits_of 64 word) first count) }
    ensures bound { result < 2 ^ count }
{
    word << first >> (64 - count)
}

/// The word with all bits cleared except `count` bits from bit `first`.
pub fn kept(word: u64, first: u32, count: u32) -> u64
    requires some { 1 ≤ count }
    requires inside { first + count ≤ 64 }
    ensures { result ≡ kept_of word first count }
{
    part(word, first, count) << (64 - first - count)
}

/// The word with `count` bits, 1 to 64, from bit `first` replaced by `bits`, below 2^count. None of
/// them is past bit 63.
pub fn with_part(word: u64, first: u32, count: u32, bits: u64) -> u64
    requires some { 1 ≤ count }
    requires inside { first + count ≤ 64 }
    requires fits { bits < 2 ^ count }
    ensures value { result ≡ with_part_of word first count bits }
    ensures put { bits_of 64 result ≡ put (bits_of 64 word) first (bits_of count bits) }
{
    let shift = 64 - first - count;
    let mask = u64::MAX >> (64 - count) << shift;
    (word & !mask) | (bits << shift)
}
