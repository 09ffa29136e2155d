//! The fields of an instruction by their bits. Only decoding.rt, rules.rt and operations.rt call
//! these functions. `half` is any half-word, `first` a first one, `second` a second one, whose bits
//! are numbered 32-63. docs/instructions.md has the formats, lib.rt the pictures.
//!
//! Proved: the clause `value` of each call is the definition of its field in specs/Halves.antt, the
//! other clauses bound the result. Pinned, by these definitions, docs/instructions.md,
//! vectors/words.txt and vectors/mnemonics.txt: the places of the fields. Free: the shifts, if
//! proofs/fields follows the body of `part`.
ghost use Rattle.std.specs.Prelude.{◌≡◌, ◌+◌, ◌<◌, ◌≤◌, ◌^◌};
ghost use Rattle.st_format.specs.Halves.{half_word_part as part_of, later as later_of, is_full as is_full_of, i_of, address_of, j_of, operation_of, bit_address_of, second_address_of, p_of, length_of, byte_of, offset_of, k_of, words_moved, or_greatest as or_greatest_of};

/// The number in `count` bits of a half-word from bit `first`.
pub fn part(half: u32, first: u32, count: u32) -> u32
    requires some { 1 ≤ count }
    requires inside { first + count ≤ 32 }
    ensures value { result ≡ part_of half first count }
    ensures bound { result < 2 ^ count }
{
    half << first >> (32 - count)
}

/// The number in `count` bits of a second half-word from bit `first`.
pub fn later(second: u32, first: u32, count: u32) -> u32
    requires some { 1 ≤ count }
    requires behind { 32 ≤ first }
    requires inside { first + count ≤ 64 }
    ensures value { result ≡ later_of second first count }
    ensures bound { result < 2 ^ count }
{
    part(second, first - 32, count)
}

/// Whether a first half-word begins a full word.
pub fn is_full(first: u32) -> bool
    ensures { result ≡ is_full_of first }
{
    part(first, 24, 4) == 15
}

/// The I field: the number of the index word that modifies the address, 0 to 15.
pub fn index_field(first: u32) -> u8
    ensures value { result ≡ i_of first }
    ensures bound { result < 16 }
{
    part(first, 28, 4) as u8
}

/// The half-word address of a half-word instruction, below 2^19.
pub fn half_address(first: u32) -> u32
    ensures value { result ≡ address_of first }
    ensures bound { result < 2 ^ 19 }
{
    part(first, 0, 19)
}

/// The J field: the number of the index word that a half-word instruction works on, 0 to 15.
pub fn register_field(first: u32) -> u8
    ensures value { result ≡ j_of first }
    ensures bound { result < 16 }
{
    part(first, 19, 4) as u8
}

/// The operation number of a half-word instruction, 0 to 31.
pub fn operation_field(first: u32) -> u8
    ensures value { result ≡ operation_of first }
    ensures bound { result < 32 }
{
    part(first, 23, 5) as u8
}

/// The bit address of a full-word instruction, below 2^24.
pub fn bit_address(first: u32) -> u32
    ensures value { result ≡ bit_address_of first }
    ensures bound { result < 2 ^ 24 }
{
    part(first, 0, 24)
}

/// The second address of a full-word instruction, a half-word address below 2^19.
pub fn second_address(second: u32) -> u32
    ensures value { result ≡ second_address_of second }
    ensures bound { result < 2 ^ 19 }
{
    later(second, 32, 19)
}

/// The progressive form, 0 to 7.
pub fn progressive_form(second: u32) -> u8
    ensures value { result ≡ p_of second }
    ensures bound { result < 8 }
{
    later(second, 32, 3) as u8
}

/// The length of a field, 1 to 64.
pub fn field_length(second: u32) -> u8
    ensures value { result ≡ length_of second }
    ensures some { 1 ≤ result }
    ensures bound { result ≤ 64 }
{
    or_greatest(64, later(second, 35, 6) as u8)
}

/// The size of a field's bytes, 1 to 8.
pub fn byte_size(second: u32) -> u8
    ensures value { result ≡ byte_of second }
    ensures some { 1 ≤ result }
    ensures bound { result ≤ 8 }
{
    or_greatest(8, later(second, 41, 3) as u8)
}

/// The offset of a field in the accumulator, 0 to 127.
pub fn offset(second: u32) -> u8
    ensures value { result ≡ offset_of second }
    ensures bound { result < 128 }
{
    later(second, 44, 7) as u8
}

/// The K field: the last four bits.
pub fn last_field(second: u32) -> u8
    ensures value { result ≡ k_of second }
    ensures bound { result < 16 }
{
    later(second, 60, 4) as u8
}

/// The number of words of a transmission, 1 to 16.
pub fn word_count(second: u32) -> u8
    ensures value { result ≡ words_moved second }
    ensures some { 1 ≤ result }
    ensures bound { result ≤ 16 }
{
    or_greatest(16, last_field(second))
}

// The value of a field in which zero encodes the greatest number.
fn or_greatest(greatest: u8, number: u8) -> u8
    ensures value { result ≡ or_greatest_of greatest number }
    ensures some { 1 ≤ greatest → 1 ≤ result }
    ensures bound { number ≤ greatest → result ≤ greatest }
{
    if number == 0 { greatest } else { number }
}
