//! Moves a binary number to a decimal place of the accumulator, for load converted (LCV): the
//! product by a power of ten. Only base.rt calls `place_digits`. `place` is the digit at which the
//! number begins, 0 to 31. docs/variable-fields.md has the rule.
//!
//! Proved, by the clauses here: the result is the product by 10^place modulo 10^32, and whether the
//! product has more digits. `conversion_result` in specs/BinaryResult.antt names both.
//!
//! Pinned: the results, by `conversion_result`, docs/variable-fields.md and vectors/binary.txt.
//! Free: the body, if proofs/PlaceLemmas.antt follows. It avoids the full product, which may need
//! more than 128 bits.
ghost use Rattle.std.specs.Prelude.{◌≡◌, ◌<◌, ◌*◌, ◌%◌, ◌^◌, nat_le};

use st_field::power_of_ten;

/// A number shifted left by `place` decimal digits, without the digits beyond the 32nd, and whether
/// one of these is not zero.
#[tactic(auto, using(crate::proofs::PlaceLemmas::place_rules))]
pub fn place_digits(mag: u64, place: u8) -> (u128, bool)
    requires { place < 32 }
    ensures value { result.0 ≡ mag * 10 ^ place % 10 ^ 32 }
    ensures lost { result.1 ≡ nat_le (10 ^ 32) (mag * 10 ^ place) }
    ensures bound { result.0 < 10 ^ 32 }
{
    let room = power_of_ten(32 - place);
    let mag = u128::from(mag);
    (mag % room * power_of_ten(place), mag >= room)
}
