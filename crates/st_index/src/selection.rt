//! The sum of selected index values, which the operation LVS loads. The list has 16 bits, one for
//! each index word. docs/instructions.md has the rule. Only `st_prep` (speculative.rt) calls
//! `sum_values`.
//!
//! Proved: the clause `value` says that the sum is `selected_sum` of specs/IndexChange.antt, the
//! clause `bound` that its magnitude is at most 2^28, so no sum overflows. Pinned, by
//! `selected_sum`, docs/instructions.md and vectors/index.txt: the sum. Free: the body, if
//! proofs/selection follows its loop.
ghost use Rattle.std.specs.Prelude.{◌≡◌, ◌<◌, ◌≤◌, ◌^◌, ◌-◌, ◌*◌, unsigned_abs};
ghost use Rattle.std.specs.Int.{bit_at};
ghost use Rattle.st_bits.specs.Bits.{bits};
ghost use Rattle.st_index.specs.IndexChange.{selected_sum, selected_value as selected_value_of};

use st_bits::value_of;

// The value of an index word if bit `j` of the list, 0 leftmost, is one, otherwise 0.
fn selected_value(list: u16, j: usize, word: u64) -> i32
    requires { j < 16 }
    ensures value { result ≡ selected_value_of (bit_at list (15 - j)) word }
    ensures bound { unsigned_abs result < 2 ^ 24 }
{
    if (list >> (15 - j)) % 2 == 1 {
        value_of(word)
    } else {
        0
    }
}

/// The sum of the values of the index words that the list selects: bit 0, the leftmost, selects the
/// first word.
pub fn sum_values(list: u16, x: &[u64; 16]) -> i32
    ensures value { result ≡ selected_sum (bits 16 list) x.now }
    ensures bound { unsigned_abs result ≤ 16 * 2 ^ 24 }
{
    let mut sum = 0;
    for (j, word) in x.iter().enumerate() {
        sum += selected_value(list, j, *word);
    }
    sum
}
