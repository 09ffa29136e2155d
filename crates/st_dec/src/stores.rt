//! Stores of the accumulator into a decimal field, without the sign. base.rt calls both functions.
//! docs/variable-fields.md has the rules. The stored digits begin at the digit place, and go to the
//! left: `shape.offset` / 4 digits from the right end of the accumulator. Each digit gets the zone
//! of the accumulator, four bits of its sign byte, cut to the bits that a byte has besides its
//! digit.
//!
//! Proved: `stored_magnitude` is the definition of its name in specs/DecimalResult.antt, and fits
//! the field. `is_code_lost` says whether a code of the accumulator to the left of the stored ones
//! is not zero (`any_code` and `codes_from_place` of specs/DecimalOperand.antt). Required is a
//! field of 1 to 64 bits in whole bytes of 4 to 8 bits (`IsDecimalShape`).
//!
//! Pinned, by these definitions, docs/variable-fields.md and vectors/decimal.txt: the results.
//! Free: the bodies, if proofs/stores follows.
ghost use Rattle.std.specs.Prelude.{◌≡◌, ◌<◌, ◌^◌, drop};
ghost use Rattle.st_field.specs.Fields.{magnitude_bits as magnitude_bits_of};
ghost use Rattle.st_dec.specs.DecimalOperand.{IsDecimalShape, digit_count as digit_count_of, codes_from_place as codes_from_place_of, any_code};
ghost use Rattle.st_dec.specs.DecimalResult.{stored_magnitude as stored_magnitude_of};

use crate::accumulator::{codes_from_place, field_codes};
use crate::digits::{digit_count, spread};
use st_field::Acc;
use st_field::fields::Shape;
use st_field::signed::exceeds;

/// The magnitude of the field that stores the accumulator from the digit place.
pub fn stored_magnitude(acc: &Acc, shape: &Shape) -> u64
    requires { IsDecimalShape shape.now }
    ensures value { result ≡ stored_magnitude_of acc.now shape.now }
    ensures fits { result < 2 ^ magnitude_bits_of shape.now }
{
    // The zone, with as many bits as a byte has room for.
    let zone = u64::from(acc.sb / 16 % (1 << (shape.byte - 4)));
    spread(field_codes(acc, shape), zone, shape)
}

/// Whether the accumulator has a nonzero code to the left of those that the field stores.
pub fn is_code_lost(acc: &Acc, shape: &Shape) -> bool
    requires { IsDecimalShape shape.now }
    ensures { result ≡ any_code (drop (digit_count_of shape.now) (codes_from_place_of acc.now shape.now)) }
{
    exceeds(codes_from_place(acc, shape), 4 * digit_count(shape))
}
