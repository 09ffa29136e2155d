//! The indicators of comparisons and of changed index words. An `Ind` has the indicators to turn on
//! and those to turn off, each as a word in which indicator n is bit n. docs/index-words.md has the
//! rules. `st_prep` (speculative.rt) calls `compare` and `index_result`; change.rt calls
//! `index_result` for progressive forms.
//!
//! Proved: the results are `comparison` and `index_result` of specs/IndexChange.antt. Pinned, by
//! these definitions, docs/index-words.md and vectors/index.txt: the results. Free: the bodies.
ghost use Rattle.std.specs.Prelude.{◌≡◌};
ghost use Rattle.st_index.specs.IndexChange.{comparison, index_result as index_result_of};

use st_bits::indicators::{
    INDEX_COUNT_ZERO, INDEX_EQUAL, INDEX_FLAG, INDEX_HIGH, INDEX_LOW, INDEX_VALUE_GREATER,
    INDEX_VALUE_LESS, INDEX_VALUE_ZERO,
};
use st_bits::{Ind, count_of, indicator, part, value_of};
use std::cmp::Ordering;

/// The indicators that a comparison of `a` with `b` turns on and off: XL is on if a < b, XE if they
/// are equal, XH if a > b; the other two are off.
pub fn compare(a: i32, b: i32) -> Ind
    ensures { result ≡ comparison a b }
{
    let on = match a.cmp(&b) {
        Ordering::Less => indicator(INDEX_LOW),
        Ordering::Equal => indicator(INDEX_EQUAL),
        Ordering::Greater => indicator(INDEX_HIGH),
    };
    Ind {
        on,
        off: indicator(INDEX_LOW) + indicator(INDEX_EQUAL) + indicator(INDEX_HIGH),
    }
}

/// The indicators that an index word turns on and off: XCZ is on if its count is zero, otherwise
/// off; exactly one of XVLZ, XVZ and XVGZ is on, by its value; XF is turned on if the first flag is
/// one, and never turned off.
pub fn index_result(y: u64) -> Ind
    ensures { result ≡ index_result_of y }
{
    let count = if count_of(y) == 0 {
        indicator(INDEX_COUNT_ZERO)
    } else {
        0
    };
    let sign = match value_of(y) {
        ..0 => indicator(INDEX_VALUE_LESS),
        0 => indicator(INDEX_VALUE_ZERO),
        _ => indicator(INDEX_VALUE_GREATER),
    };
    let flag = if part(y, 25, 1) == 0 {
        0
    } else {
        indicator(INDEX_FLAG)
    };
    Ind {
        on: count + sign + flag,
        off: indicator(INDEX_COUNT_ZERO)
            + indicator(INDEX_VALUE_LESS)
            + indicator(INDEX_VALUE_ZERO)
            + indicator(INDEX_VALUE_GREATER),
    }
}
