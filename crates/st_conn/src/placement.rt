//! The insertion of bits into the accumulator, for a connective whose result goes there. Bits are
//! named by weight: the rightmost has weight 0. connections.rt is the only caller.
//! docs/connectives.md has the rule.
//!
//! Proved: the results are `accumulator_bits` and `is_one_lost` of specs/Connective.antt, which are
//! by single bits; the clause `lost_where` says by places when a one is lost. Pinned: the results,
//! by specs/Connective.antt, docs/connectives.md and vectors/connectives.txt. Free: the shifts and
//! masks, if proofs/placement and proofs/Places.antt follow.
ghost use Rattle.std.specs.Prelude.{◌≡◌, ℕ, ◌+◌, ◌<◌, ◌≤◌, ◌^◌, ◌↔◌, IsTrue};
ghost use Rattle.std.specs.Int.{bit_at};
ghost use Rattle.st_bits.specs.Bits.{num};
ghost use Rattle.st_conn.specs.Connective.{is_one_lost, accumulator_bits};

/// The accumulator with its bits from weight `offset`, 0 to 127, replaced by the `n` bits, 1 to 64,
/// of the number `bits`, below 2^n; and whether a one was lost because its place would be beyond
/// weight 127. Lost zeros do not count.
pub(crate) fn put_acc(acc: u128, offset: u8, bits: u64, n: u8) -> (u128, bool)
    requires offset { offset ≤ 127 }
    requires some { 1 ≤ n }
    requires few { n ≤ 64 }
    requires fits { bits < 2 ^ n }
    ensures acc { result.0 ≡ num (accumulator_bits acc offset bits n) }
    ensures lost { result.1 ≡ is_one_lost offset bits }

    // A one is lost if and only if a bit of `bits` that is one has its place beyond weight 127.
    ensures lost_where { IsTrue result.1 ↔ ((j : ℕ) × (127 < offset + j) × (bit_at bits j ≡ 1)) }
{
    // Ones at the `n` weights from `offset`, up to weight 127.
    let places = u128::MAX >> (128 - n) << offset;
    let kept = acc & !places;
    let is_one_lost = u128::from(bits).leading_zeros() < u32::from(offset);
    (kept | u128::from(bits) << offset, is_one_lost)
}
