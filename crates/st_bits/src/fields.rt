//! Fields: 1 to 64 consecutive bits anywhere in a list of words, addressed by their first bit; bit
//! 0 is the leftmost bit of word 0. docs/machine.md has the rules. `st_exec` reads operands by
//! `get_field`; `st_state`, and `st_asm` for the bits of a card, write by `put_field`.
//!
//! Proved: a read returns the number in exactly these bits (`field` of specs/Bits.antt), and a
//! write replaces them and no other bit (`put` there). Callers must prove that the field lies
//! within the words. Not proved: speed. Pinned: the results, by specs/Bits.antt, docs/machine.md
//! and vectors/forms.txt; the definitions of `st_exec`, `st_state` and `st_asm` rest on them. Free:
//! the bodies, which use that a field touches at most two words, if proofs/fields follows
//! `get_field` and `put_field`.
ghost use Rattle.std.specs.Prelude.{◌≡◌, ℕ, ◌+◌, ◌*◌, ◌<◌, ◌≤◌, ◌^◌, length, slice_index};
ghost use Rattle.st_bits.specs.Bits.{all_bits, bits as bits_of, field, num, put};

use crate::parts::{part, with_part};

/// The number in the `n` bits, 1 to 64, from the bit address `a`, the first bit highest. The field
/// lies within `words`.
pub fn get_field(words: &[u64], a: u32, n: u8) -> u64
    requires some { 1 ≤ n }
    requires few { n ≤ 64 }
    requires inside { a + n ≤ 64 * length words.now }
    ensures value { result ≡ num (field (all_bits words.now) a n) }
    ensures bound { result < 2 ^ n }
{
    let word = (a / 64) as usize;
    let first = a % 64;
    let here = 64 - first;
    let count = n as u32;
    if count <= here {
        part(words[word], first, count)
    } else {
        let rest = count - here;
        let high = part(words[word], first, here);
        let low = part(words[word + 1], 0, rest);
        high << rest | low
    }
}

/// Writes the number `bits`, below 2^n, to the `n` bits, 1 to 64, from the bit address `a`. The
/// field lies within `words`. No other bit changes.
pub fn put_field(words: &mut [u64], a: u32, n: u8, bits: u64)
    requires some { 1 ≤ n }
    requires few { n ≤ 64 }
    requires inside { a + n ≤ 64 * length words.old }
    requires fits { bits < 2 ^ n }
    ensures put { all_bits words.new ≡ put (all_bits words.old) a (bits_of n bits) }

    // A word that contains no bit of the field is unchanged.
    ensures before { (w : ℕ) → 64 * w + 64 ≤ a → slice_index words.new w ≡ slice_index words.old w }
    ensures after { (w : ℕ) → a + n ≤ 64 * w → slice_index words.new w ≡ slice_index words.old w }
{
    let word = (a / 64) as usize;
    let first = a % 64;
    let here = 64 - first;
    let count = n as u32;
    if count <= here {
        words[word] = with_part(words[word], first, count, bits);
    } else {
        let rest = count - here;
        words[word] = with_part(words[word], first, here, bits >> rest);
        words[word + 1] = with_part(words[word + 1], 0, rest, part(bits, 64 - rest, rest));
    }
}
