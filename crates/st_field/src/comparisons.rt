//! Comparisons of the accumulator with a field, given their order as numbers. Only operations.rt
//! calls these functions. Indicators are bits of a word, indicator n the bit of
//! value 2^(63 - n). docs/variable-fields.md has the rules.
//!
//! Proved: the results are `compared_by` of specs/Comparisons.antt, with the orders `by_order`,
//! `by_order_if_equal` and `by_range` of specs/Indicators.antt: only indicators change, AL, AE and
//! AH above all.
//!
//! Pinned, by these definitions, docs/operations.md, vectors/binary.txt and vectors/decimal.txt:
//! the results. Free: the bodies.
ghost use Rattle.std.specs.Prelude.{◌≡◌, ◌<◌, ◌^◌};
ghost use Rattle.st_field.specs.Comparisons.{compared_by};
ghost use Rattle.st_field.specs.Indicators.{by_order as by_order_of, by_order_if_equal as by_order_if_equal_of, by_range as by_range_of};

use crate::accumulator::Acc;
use crate::indicators::{by_order, by_order_if_equal, by_range};
use crate::outcome::{Done, done_with};
use std::cmp::Ordering;

/// The order of the two sides of a comparison.
#[derive(Clone, Copy)]
pub struct Compared {
    /// The order of the accumulator relative to the operand.
    pub order: Ordering,
    /// The indicators of the operand, below 2^63.
    pub on: u64,
}

/// Compare: exactly one of AL, AE and AH is turned on.
pub(crate) fn compare(acc: &Acc, sides: Compared) -> Done
    requires { sides.on < 2 ^ 63 }
    ensures { result ≡ compared_by by_order_of acc.now sides }
{
    done_with(acc, by_order(sides.order, sides.on))
}

/// Compare if equal: as `compare`, but compares only if AE is on in `ind`.
pub(crate) fn compare_if_equal(acc: &Acc, sides: Compared, ind: u64) -> Done
    requires { sides.on < 2 ^ 63 }
    ensures { result ≡ compared_by (by_order_if_equal_of ind) acc.now sides }
{
    done_with(acc, by_order_if_equal(ind, sides.order, sides.on))
}

/// Compare for range: the operand is the upper end of a range. Compares only if AL is off in `ind`.
pub(crate) fn compare_for_range(acc: &Acc, sides: Compared, ind: u64) -> Done
    requires { sides.on < 2 ^ 63 }
    ensures { result ≡ compared_by (by_range_of ind) acc.now sides }
{
    done_with(acc, by_range(ind, sides.order, sides.on))
}
