//! The result bits of a connective, and their counts, for connections.rt, the only caller. The code
//! computes 64 positions at once. docs/connectives.md has the rules.
//!
//! Proved: `bits` is the number of the list `connective_bits` of specs/Connective.antt, n bits,
//! each from one bit of the field and one of the accumulator; the counts are its `leading_zeros`
//! and its `sum`. Pinned: the results, by specs/Connective.antt, docs/connectives.md and
//! vectors/connectives.txt. Free: the private functions, if proofs/logic follows; their clauses are
//! about single bits.
ghost use Rattle.std.specs.Prelude.{◌≡◌, ℕ, ◌+◌, ◌*◌, ◌%◌, ◌<◌, ◌≤◌, ◌^◌, sum};
ghost use Rattle.std.specs.Int.{bit_at};
ghost use Rattle.st_bits.specs.Bits.{bits as bits_of, num};
ghost use Rattle.st_conn.specs.Connective.{connective_bits, truth_bit, leading_zeros};

/// The result bits of a connective on n positions, with their counts.
#[derive(Clone, Copy, Debug, PartialEq, Eq)]
pub struct Conn {
    /// The n result bits as a number, below 2^n.
    pub bits: u64,
    /// The number of leading zeros of the n result bits: n if all are zero.
    pub lzc: u8,
    /// The number of ones among the n result bits.
    pub aoc: u8,
}

/// The connective `table` of a field of `n` bits, 1 to 64, and the accumulator. The bits of value
/// 8, 4, 2 and 1 of `table`, below 16, are the results for the field bit and accumulator bit 00,
/// 01, 10 and 11. The field's bit of weight j is combined with the accumulator's bit of weight
/// `offset` + j, which is zero beyond weight 127. `offset` is 0 to 127, and `field` below 2^n.
pub(crate) fn connect(table: u8, acc: u128, offset: u8, field: u64, n: u8) -> Conn
    requires table { table < 16 }
    requires offset { offset ≤ 127 }
    requires some { 1 ≤ n }
    requires few { n ≤ 64 }
    requires fits { field < 2 ^ n }
    ensures bits { result.bits ≡ num (connective_bits table acc offset field n) }
    ensures zeros { result.lzc ≡ leading_zeros (connective_bits table acc offset field n) }
    ensures ones { result.aoc ≡ sum (connective_bits table acc offset field n) }

    ensures bits_bound { result.bits < 2 ^ n }
    ensures zeros_bound { result.lzc ≤ n }
    ensures ones_bound { result.aoc ≤ n }
{
    let bits = results(table, acc, offset, field, n);
    Conn {
        bits,
        lzc: (bits.leading_zeros() - (64 - u32::from(n))) as u8,
        aoc: bits.count_ones() as u8,
    }
}

// The `n` result bits as a number.
fn results(table: u8, acc: u128, offset: u8, field: u64, n: u8) -> u64
    requires offset { offset ≤ 127 }
    requires some { 1 ≤ n }
    requires few { n ≤ 64 }
    ensures each { bits_of n result ≡ connective_bits table acc offset field n }
    ensures bound { result < 2 ^ n }
{
    low_bits(combined(table, field, bits_from(acc, offset)), n)
}

// The 64 bits of the accumulator from weight `offset`.
fn bits_from(acc: u128, offset: u8) -> u64
    requires { offset ≤ 127 }
    ensures { (j : ℕ) → j < 64 → bit_at result j ≡ bit_at acc (offset + j) }
{
    (acc >> offset & u128::from(u64::MAX)) as u64
}

// The results of a truth table at 64 positions: the combination of one row of the table for each
// pair of bits.
fn combined(table: u8, field: u64, acc: u64) -> u64
    ensures { (j : ℕ) → j < 64 → bit_at result j ≡ truth_bit table (bit_at field j) (bit_at acc j) }
{
    selected(table, 3, !field & !acc)
        | selected(table, 2, !field & acc)
        | selected(table, 1, field & !acc)
        | selected(table, 0, field & acc)
}

// The given positions if the table's bit of weight `row` is one, otherwise 0.
fn selected(table: u8, row: u8, positions: u64) -> u64
    requires { row < 8 }
    ensures { result ≡ bit_at table row * positions }
{
    u64::from(table >> row & 1) * positions
}

// The low `n` bits.
fn low_bits(bits: u64, n: u8) -> u64
    requires some { 1 ≤ n }
    requires few { n ≤ 64 }
    ensures value { result ≡ bits % 2 ^ n }
    ensures bound { result < 2 ^ n }
{
    bits & u64::MAX >> (64 - n)
}
