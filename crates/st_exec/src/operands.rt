//! Operands: fields of 1 to 64 bits in the one or two operand words of an entry (instruction), at a
//! bit address. Only completing.rt, effects.rt and fields.rt call these functions. The operand
//! words come from the caller, but a register (word below 32) is read from the state, because the
//! entry's speculative change can write it before its operands are read. docs/machine.md has the
//! rule.
//!
//! Proved: the field is the one that the state has at that address (`field_at` of
//! specs/Operand.antt), if operands above the registers are words of the state (`AreRead`).
//!
//! Pinned, by these definitions, docs/machine.md and vectors/forms.txt: the results; two operand
//! words, which suffice here: transmissions, which read more, copy words in the state itself. Free:
//! the bodies, if proofs/operands follows.
ghost use Rattle.std.specs.Prelude.{◌≡◌, ◌+◌, ◌*◌, ◌<◌, ◌≤◌, ◌^◌, length, slice_index};
ghost use Rattle.st_bits.specs.Storage.{words_of_storage};
ghost use Rattle.st_state.specs.Machine.{word as word_of};
ghost use Rattle.st_prep.specs.Entry.{field_words};
ghost use Rattle.st_prep.specs.Ranges.{IsRuns, AreInside};
ghost use Rattle.st_exec.specs.Operand.{AreFirstOperands, AreRead, field_at};

use st_bits::get_field;
use st_bits::register::FIRST_STORAGE_WORD;
use st_prep::Words;
use st_state::State;

// The operand in place `k` of the first range, 0 if there is none.
fn operand_in_run(words: &Words, k: u8, state: &State) -> u64
    requires runs { IsRuns words.now }
    requires inside { AreInside words.now }
    ensures { k < words.now.len → result ≡ word_of state.now (words.now.first + k) }
{
    if k < words.len {
        state.word(words.first + u32::from(k))
    } else {
        0
    }
}

/// The first two operand words, read from the state.
pub fn first_operands(words: &Words, state: &State) -> [u64; 2]
    requires runs { IsRuns words.now }
    requires inside { AreInside words.now }
    ensures { AreFirstOperands words.now result state.now }
{
    [
        operand_in_run(words, 0, state),
        operand_in_run(words, 1, state),
    ]
}

// The word at the address `w` of storage, which is operand number `k`. A register is read from
// `words` instead, since the entry itself can change it before its operands are read.
fn operand_word(operands: &[u64; 2], k: usize, w: u32, words: &[u64]) -> u64
    requires place { k < 2 }
    requires inside { w < length words.now }
    requires read { 32 ≤ w → slice_index operands.now k ≡ slice_index words.now w }
    ensures { result ≡ slice_index words.now w }
{
    if w < FIRST_STORAGE_WORD {
        words[w as usize]
    } else {
        operands[k]
    }
}

/// The number in the `n` bits, 1 to 64, from the bit address `a`, whose words are the operands.
pub fn operand_field(operands: &[u64; 2], a: u32, n: u8, state: &State) -> u64
    requires some { 1 ≤ n }
    requires few { n ≤ 64 }
    requires inside { a + n ≤ 64 * words_of_storage }
    requires read { AreRead (field_words a n) operands.now state.now }

    ensures value { result ≡ field_at state.now a n }
    ensures bound { result < 2 ^ n }
{
    let stored = state.words();
    let w = a / 64;
    let first = a % 64;
    if first + u32::from(n) <= 64 {
        let words = [operand_word(operands, 0, w, stored)];
        get_field(&words, first, n)
    } else {
        let words = [
            operand_word(operands, 0, w, stored),
            operand_word(operands, 1, w + 1, stored),
        ];
        get_field(&words, first, n)
    }
}
