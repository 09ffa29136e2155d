//! The operations on fields, for any base: `Two` of `st_bin` and `Ten` of `st_dec`, each of which
//! calls `operate`. Registers and indicators are inputs, and `Done` holds all effects.
//! docs/operations.md and docs/variable-fields.md have the rules.
//!
//! Proved: `operate` is `result_of` of specs/Bases.antt, which defines each operation from the
//! values of the base. The private functions are the parts of which operations consist, each with
//! its definition there.
//!
//! Pinned, by `result_of`, docs/operations.md, vectors/binary.txt and vectors/decimal.txt: the
//! results. Free: the split into private functions. A new operation needs a case of `result_of`,
//! one here, and its variant in `st_bits`; docs/changing.md lists the other places.
ghost use Rattle.std.specs.Prelude.{◌≡◌, ◌<◌, ◌%◌, ◌^◌, ℕ, true};
ghost use Rattle.st_field.specs.Numbers.{exceeds};
ghost use Rattle.st_field.specs.Results.{number_in};
ghost use Rattle.st_field.specs.Bases.{IsTaken, operand_in_base as operand_of, aligned_in_base as aligned_of};
ghost use Rattle.st_field.specs.Bases.{field_number, addend as addend_of, numbers_compared as numbers_of, fields as fields_of};
ghost use Rattle.st_field.specs.Bases.{put_in_accumulator as put_in_accumulator_of, put_in_field as put_in_field_of};
ghost use Rattle.st_field.specs.Bases.{one as one_of, store_result, result_of};

use crate::accumulator::{addend, signed_as, stored_field, with_number};
use crate::base::{Base, Taken};
use crate::comparisons::{Compared, compare, compare_for_range, compare_if_equal};
use crate::fields::{Field, Shape};
use crate::indicators::{flag_indicators, lost_carry, partial_field};
use crate::loads::{load, load_factor, load_transit, load_with_flags};
use crate::operand::{Aligned, Kept, align, operand, signed_as as field_as};
use crate::outcome::{Done, in_accumulator, in_field};
use crate::signed::{Signed, Sum, add, add_to_magnitude, order};
use st_bits::VflOp;

// The accumulator as a signed number.
fn number<B: Base>(taken: &Taken) -> Signed
    requires { IsTaken B.Allows taken.now }
    ensures value { result ≡ number_in taken.now.acc (B.base taken.now).whole }
    ensures bound { result.mag < B.limit }
{
    signed_as(&taken.acc, B::whole(taken))
}

// The operand as a signed number, from the field.
fn operand_in<B: Base>(taken: &Taken) -> Signed
    requires { IsTaken B.Allows taken.now }
    ensures { result ≡ operand_of (B.base taken.now) taken.now }
{
    operand(&taken.field, &taken.shape, u128::from(B::value(taken)))
}

// The operand at its place in the accumulator.
fn aligned<B: Base>(taken: &Taken) -> Aligned
    requires { IsTaken B.Allows taken.now }
    ensures value { result ≡ aligned_of (B.base taken.now) taken.now }
    ensures bound { result.number.mag < B.limit }
    ensures few { result.on < 2 ^ 42 }
{
    align(&taken.field, &taken.shape, B::at_place(taken))
}

// The field as a signed number.
fn number_in_field<B: Base>(taken: &Taken) -> Signed
    requires { IsTaken B.Allows taken.now }
    ensures value { result ≡ field_number (B.base taken.now) taken.now }
    ensures bound { result.mag < B.limit }
{
    field_as(&taken.field, u128::from(B::value(taken)))
}

// The number that is added to the field: the accumulator from the offset.
fn part_added<B: Base>(taken: &Taken) -> Signed
    requires { IsTaken B.Allows taken.now }
    ensures value { result ≡ addend_of (B.base taken.now) taken.now }
    ensures bound { result.mag < B.limit }
{
    addend(&taken.acc, &taken.shape, B::part(taken))
}

// The comparison of the accumulator with the operand at its place.
fn numbers<B: Base>(taken: &Taken) -> Compared
    requires { IsTaken B.Allows taken.now }
    ensures sides { result ≡ numbers_of (B.base taken.now) taken.now }
    ensures few { result.on < 2 ^ 63 }
{
    let aligned = aligned::<B>(taken);
    Compared {
        order: order(number::<B>(taken), aligned.number),
        on: aligned.on,
    }
}

// The comparison of the accumulator from the offset, as it would be stored in the field, with the
// operand.
fn fields<B: Base>(taken: &Taken) -> Compared
    requires { IsTaken B.Allows taken.now }
    ensures sides { result ≡ fields_of (B.base taken.now) taken.now }
    ensures few { result.on < 2 ^ 63 }
{
    let side = signed_as(&taken.acc, B::stored(taken).value);
    Compared {
        order: order(side, operand_in::<B>(taken)),
        on: flag_indicators(taken.field.flags),
    }
}

// The result of storing a sum in the accumulator: its sign, and its magnitude as the base stores
// it. The indicators `on` are also turned on.
fn put_in_accumulator<B: Base>(taken: &Taken, sum: Sum, on: u64) -> Done
    requires taken { IsTaken B.Allows taken.now }
    requires large { sum.carry ≡ true → 2 ^ 127 < B.limit }
    requires few { on < 2 ^ 62 }
    ensures { (n : ℕ) → sum.number.mag ≡ n % 2 ^ 128 → sum.carry ≡ exceeds n 128 →
        result ≡ put_in_accumulator_of (B.base taken.now) taken.now
        (record { negative = sum.number.negative; mag = n }) on }
{
    let kept = B::summed(taken, sum);
    let number = Signed {
        negative: sum.number.negative,
        mag: kept.bits,
    };
    in_accumulator(
        with_number(&taken.acc, number),
        kept.value,
        on + lost_carry(kept.is_lost),
    )
}

// A stored number as the magnitude of a field.
fn magnitude(kept: Kept) -> u64
    requires { kept.bits < 2 ^ 64 }
    ensures { result ≡ kept.bits }
{
    kept.bits as u64
}

// The result of storing a sum in the field: its sign, and its magnitude as the base stores it.
// Flags and zone do not change.
fn put_in_field<B: Base>(taken: &Taken, sum: Sum) -> Done
    requires taken { IsTaken B.Allows taken.now }
    requires large { sum.carry ≡ true → 2 ^ 127 < B.limit }
    ensures { (n : ℕ) → sum.number.mag ≡ n % 2 ^ 128 → sum.carry ≡ exceeds n 128 →
        result ≡ put_in_field_of (B.base taken.now) taken.now
        (record { negative = sum.number.negative; mag = n }) }
{
    let kept = B::replaced(taken, sum);
    let field = Field {
        mag: magnitude(kept),
        negative: sum.number.negative,
        ..taken.field
    };
    let on = flag_indicators(taken.field.flags) + lost_carry(kept.is_lost);
    in_field(&taken.acc, &field, &taken.shape, kept.value, on)
}

// Store: the accumulator from the offset is stored in the field.
fn store<B: Base>(taken: &Taken) -> Done
    requires { IsTaken B.Allows taken.now }
    ensures { result ≡ store_result (B.base taken.now) taken.now }
{
    let kept = B::stored(taken);
    let field = stored_field(&taken.acc, &taken.shape, magnitude(kept));
    in_field(
        &taken.acc,
        &field,
        &taken.shape,
        kept.value,
        partial_field(kept.is_lost),
    )
}

// The number one, negated if the operation is negated.
fn one(shape: &Shape) -> Signed
    ensures { result ≡ one_of shape.now }
{
    Signed {
        negative: shape.negated,
        mag: 1,
    }
}

/// The result of an operation, with the factor register `ft` and the indicator register `ind`.
pub fn operate<B: Base>(op: VflOp, taken: &Taken, ft: u64, ind: u64) -> Done
    requires { IsTaken B.Allows taken.now }
    ensures { result ≡ result_of op (B.base taken.now) taken.now ft ind }
{
    match op {
        VflOp::L => load(aligned::<B>(taken)),
        VflOp::Lwf => load_with_flags(&taken.field, aligned::<B>(taken)),
        VflOp::Ltrs => {
            let on = flag_indicators(taken.field.flags) + B::transit(taken);
            load_transit(&taken.acc, operand_in::<B>(taken), B::content(taken), on)
        }
        VflOp::Lft => {
            let on = flag_indicators(taken.field.flags);
            load_factor(&taken.acc, operand_in::<B>(taken), B::content(taken), on)
        }
        VflOp::St => store::<B>(taken),
        VflOp::Add => {
            let operand = aligned::<B>(taken);
            let sum = add(number::<B>(taken), operand.number);
            put_in_accumulator::<B>(taken, sum, operand.on)
        }
        VflOp::AddMg => {
            let operand = aligned::<B>(taken);
            let sum = add_to_magnitude(number::<B>(taken), operand.number);
            put_in_accumulator::<B>(taken, sum, operand.on)
        }
        VflOp::MAdd => {
            let sum = add(number_in_field::<B>(taken), part_added::<B>(taken));
            put_in_field::<B>(taken, sum)
        }
        VflOp::MAddMg => {
            let sum = add_to_magnitude(number_in_field::<B>(taken), part_added::<B>(taken));
            put_in_field::<B>(taken, sum)
        }
        VflOp::MAdd1 => {
            let sum = add(number_in_field::<B>(taken), one(&taken.shape));
            put_in_field::<B>(taken, sum)
        }
        VflOp::K => compare(&taken.acc, numbers::<B>(taken)),
        VflOp::Kf => compare(&taken.acc, fields::<B>(taken)),
        VflOp::Ke => compare_if_equal(&taken.acc, numbers::<B>(taken), ind),
        VflOp::Kfe => compare_if_equal(&taken.acc, fields::<B>(taken), ind),
        VflOp::Kr => compare_for_range(&taken.acc, numbers::<B>(taken), ind),
        VflOp::Kfr => compare_for_range(&taken.acc, fields::<B>(taken), ind),
        VflOp::Mul => B::multiply(taken),
        VflOp::MulAdd => B::multiply_and_add(taken, ft),
        VflOp::Div => B::divide(taken),
        VflOp::Lcv => B::convert(taken),
    }
}
