//! The words that an entry (one instruction) reads and writes, as two runs of consecutive words, by
//! its instruction and its effective address (a bit address). Registers, words below 32, count
//! among them. Words past storage can occur; the checks of faults.rt then suppress the entry.
//! preparation.rt calls `reads` and `writes`; `st_exec` calls `reads_field`, `st_lines`
//! `has_register` and `is_register`. docs/machine.md has the table.
//!
//! Proved: the results are `reads`, `words_written`, `reads_field`, `has_register` and
//! `is_register` of specs/Entry.antt; runs have at most 16 words (`IsRuns` of specs/Ranges.antt).
//! The law `OperandsAreFew` (specs/Laws.antt) is about them.
//!
//! Pinned, by these definitions, docs/machine.md and vectors/timetable.txt: the words and their
//! order, in which operands are read and forwarded. Free: the bodies. A new operation that reads or
//! writes needs its case here and in specs/Entry.antt.
ghost use Rattle.std.specs.Prelude.{◌≡◌, ◌<◌, ◌^◌};
ghost use Rattle.st_prep.specs.Entry.{no_words, one_run as one_run_of, two_runs as two_runs_of, field_words as field_words_of, operand_words as operand_words_of, words_moved_from as words_moved_from_of, words_moved_to as words_moved_to_of};
ghost use Rattle.st_prep.specs.Entry.{is_index_store as is_index_store_of, reads_field as reads_field_of, reads as reads_of, words_written as writes_of, has_register as has_register_of, is_register as is_register_of};
ghost use Rattle.st_prep.specs.Ranges.{HasFields, IsRuns};

use crate::entries::Words;
use st_bits::register::FIRST_STORAGE_WORD;
use st_bits::{HalfOp, VflOp};
use st_format::{FullOp, Instr, writes_field};

/// No words.
pub fn none() -> Words
    ensures { result ≡ no_words }
{
    one_run(0, 0)
}

/// The `len` words from the word `first`.
fn one_run(first: u32, len: u8) -> Words
    ensures { result ≡ one_run_of first len }
{
    Words {
        first,
        len,
        first2: 0,
        len2: 0,
    }
}

/// The `len` words from the word `first`, then as many from the word `first2`.
fn two_runs(first: u32, first2: u32, len: u8) -> Words
    ensures { result ≡ two_runs_of first first2 len }
{
    Words {
        first,
        len,
        first2,
        len2: len,
    }
}

// The one or two words that contain the `length` bits from bit `e`.
fn field_words(e: u32, length: u8) -> Words
    requires { e < 2 ^ 24 }
    ensures value { result ≡ field_words_of e length }
    ensures runs { IsRuns result }
{
    let len = if e % 64 + u32::from(length) <= 64 {
        1
    } else {
        2
    };
    one_run(e / 64, len)
}

/// The words of the operand of `length` bits; none in form 1, whose operand is the address itself.
fn operand_words(p: u8, e: u32, length: u8) -> Words
    requires { e < 2 ^ 24 }
    ensures value { result ≡ operand_words_of p e length }
    ensures runs { IsRuns result }
{
    if p == 1 {
        none()
    } else {
        field_words(e, length)
    }
}

// The words that a transmission reads.
fn words_moved_from(swap: bool, from: u32, to: u32, count: u8) -> Words
    ensures { result ≡ words_moved_from_of swap from to count }
{
    if swap {
        two_runs(from, to, count)
    } else {
        one_run(from, count)
    }
}

// The words that a transmission writes.
fn words_moved_to(swap: bool, from: u32, to: u32, count: u8) -> Words
    ensures { result ≡ words_moved_to_of swap from to count }
{
    if swap {
        two_runs(from, to, count)
    } else {
        one_run(to, count)
    }
}

// Whether an operation stores an index word or a part of it.
fn is_index_store(op: HalfOp) -> bool
    ensures { result ≡ is_index_store_of op }
{
    matches!(
        op,
        HalfOp::Sx | HalfOp::Sv | HalfOp::Sc | HalfOp::Sr | HalfOp::Sva
    )
}

/// Whether an operation reads its field: all but ST.
pub fn reads_field(op: VflOp) -> bool
    ensures { result ≡ reads_field_of op }
{
    !matches!(op, VflOp::St)
}

/// The words that an instruction with the effective address `e` reads, in order.
pub fn reads(instr: &Instr, e: u32) -> Words
    requires shape { HasFields instr.now }
    requires address { e < 2 ^ 24 }
    ensures value { result ≡ reads_of instr.now e }
    ensures runs { IsRuns result }
{
    match *instr {
        Instr::Vfl { op, p, length, .. } if reads_field(op) => operand_words(p, e, length),
        Instr::Connect { p, length, .. } => operand_words(p, e, length),
        Instr::Move {
            swap,
            second,
            count,
            ..
        } => words_moved_from(swap, e / 64, second / 2, count),
        Instr::BitBranch { .. } => one_run(e / 64, 1),
        _ => none(),
    }
}

/// The words that an instruction with the effective address `e` writes, in order.
pub fn writes(instr: &Instr, e: u32) -> Words
    requires shape { HasFields instr.now }
    requires address { e < 2 ^ 24 }
    ensures value { result ≡ writes_of instr.now e }
    ensures runs { IsRuns result }
{
    match *instr {
        Instr::Half { op, .. } if is_index_store(op) => one_run(e / 64, 1),
        Instr::Vfl { op, length, .. } if writes_field(FullOp::Variable(op)) => field_words(
            e, length,
        ),
        Instr::Connect { kind, length, .. } if writes_field(FullOp::Connective(kind)) =>
            field_words(e, length),
        Instr::Move {
            swap,
            second,
            count,
            ..
        } => words_moved_to(swap, e / 64, second / 2, count),
        Instr::BitBranch { change, .. } if change != 0 => one_run(e / 64, 1),
        Instr::StoreCounter { .. } => one_run(e / 64, 1),
        _ => none(),
    }
}

/// Whether a register, a word below 32, is among the words.
pub fn has_register(words: Words) -> bool
    ensures { result ≡ has_register_of words }
{
    (words.len != 0 && words.first < FIRST_STORAGE_WORD)
        || (words.len2 != 0 && words.first2 < FIRST_STORAGE_WORD)
}

/// Whether there is a word and it is a register.
pub fn is_register(word: Option<u32>) -> bool
    ensures { result ≡ is_register_of word }
{
    word.is_some_and(|w| w < FIRST_STORAGE_WORD)
}
