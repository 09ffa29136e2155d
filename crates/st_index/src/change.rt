//! Changes of an index word, and the effective address, a bit address. An index word holds a signed
//! value of 24 bits and a sign, a count of 18 bits and a refill address. docs/index-words.md has
//! the rules. Only `st_prep` uses the calls. A refill is only announced here (`refill`): `st_prep`
//! reads the word.
//!
//! Proved: each result is a definition of specs/IndexChange.antt (`effective_address`,
//! `with_added`, `with_lower_count`, `progression`). The clauses `rest`, `count` and `value` say
//! which parts do not change, `bound` that an address is below 2^24.
//!
//! Pinned, by these definitions, docs/index-words.md and vectors/index.txt: the results of the four
//! public calls, and `Changed`; by docs/instructions.md (the P field): the numbers of the
//! progressive forms. Free: the private functions and the bodies, if proofs/change follows that of
//! `add_value`.
ghost use Rattle.std.specs.Prelude.{◌≡◌, ◌<◌, ◌≤◌, ◌^◌, unsigned_abs, ◌==◌, ◌&&◌};
ghost use Rattle.st_bits.specs.Bits.{part};
ghost use Rattle.st_bits.specs.IndexWord.{index_value as value, count_of as count};
ghost use Rattle.st_index.specs.IndexChange.{effective_address, with_added, one_less, with_lower_count};
ghost use Rattle.st_index.specs.IndexChange.{increment_of, is_counting, is_refilling, progression};

use crate::results::index_result;
use st_bits::{Ind, count_of, value_of, with_count, with_value};

/// The result of a progressive form on an index word.
#[derive(Clone, Copy, Debug, PartialEq, Eq)]
pub struct Changed {
    /// The index word after the change and before a refill.
    pub word: u64,
    /// Whether a refill follows, which replaces the whole index word by the word at the refill
    /// address of `word`.
    pub refill: bool,
    /// The index indicators of `word`.
    pub ind: Ind,
}

/// The effective address, a bit address below 2^24: the address plus the value of the index word
/// `x`, modulo 2^24. If the instruction names no index word, `x` is zero.
pub fn effective(address: u32, x: u64) -> u32
    requires { address < 2 ^ 24 }
    ensures value { result ≡ effective_address address x }
    ensures bound { result < 2 ^ 24 }
{
    (address as i32 + value_of(x)).rem_euclid(1 << 24) as u32
}

/// The index word with `d` added to its value. The magnitude of the sum is taken modulo 2^24, and
/// the sign is minus if the sum is negative, so that -2^24 becomes a minus zero.
pub fn add_value(x: u64, d: i32) -> u64
    requires { unsigned_abs d < 2 ^ 25 }
    ensures word { result ≡ with_added x d }
    ensures rest { part result 25 39 ≡ part x 25 39 }
{
    with_value(x, value_of(x) + d)
}

/// The index word with its count decremented, modulo 2^18.
pub fn count_down(x: u64) -> u64
    ensures word { result ≡ with_lower_count x }
    ensures count { count result ≡ one_less (count x) }
    ensures value { value result ≡ value x }
{
    let count = count_of(x);
    let lower = if count == 0 { (1 << 18) - 1 } else { count - 1 };
    with_count(x, lower)
}

// The number that a progressive form adds to the value: the increment, negated in the V- forms.
fn signed(form: u8, increment: u32) -> i32
    requires { increment < 2 ^ 24 }
    ensures value { result ≡ increment_of form increment }
    ensures bound { unsigned_abs result < 2 ^ 24 }
{
    if form < 5 {
        increment as i32
    } else {
        -(increment as i32)
    }
}

// Whether a progressive form decrements the count.
fn counts(form: u8) -> bool
    ensures { result ≡ is_counting form }
{
    matches!(form, 3 | 4 | 6 | 7)
}

// Whether a refill follows a progressive form that left the count `count`.
fn refills(form: u8, count: u32) -> bool
    ensures { result ≡ (is_refilling form && count == 0) }
{
    matches!(form, 4 | 7) && count == 0
}

/// The change of the index word `x` by a progressive form: 2 to 7 are V+I, V+IC, V+ICR, V-I, V-IC
/// and V-ICR. The increment, below 2^24, is added to the value or subtracted from it. The C forms
/// then decrement the count. The R forms are followed by a refill if the count became zero.
pub fn progress(form: u8, x: u64, increment: u32) -> Changed
    requires low { 2 ≤ form }
    requires high { form ≤ 7 }
    requires increment { increment < 2 ^ 24 }
    ensures { result ≡ progression form x increment }
{
    let sum = add_value(x, signed(form, increment));
    let word = if counts(form) { count_down(sum) } else { sum };
    Changed {
        word,
        refill: refills(form, count_of(word)),
        ind: index_result(word),
    }
}
