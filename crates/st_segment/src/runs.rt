//! The words that an entry (instruction) reads from storage, and the words that it writes, from the
//! words of its preparation. Registers (words below 32) make no read and are left out of the words
//! that are read. docs/timetable.md has the rules. `st_next` calls the three functions when it
//! plans an entry; `st_sweep` calls `words_to_write`. Runs are consecutive words, at most 16.
//!
//! Proved: each result is the definition of this name in specs/Entries.antt.
//!
//! Pinned, by these definitions: written registers are kept. Nothing waits for a written register,
//! because an entry that uses a register as a word is serializing. Free: the bodies.
ghost use Rattle.std.specs.Prelude.{◌≡◌};
ghost use Rattle.st_segment.specs.Entries.{above_registers as above_registers_of, words_to_read as words_to_read_of, words_to_write as words_to_write_of, side_to_read as side_to_read_of};

use st_bits::register::FIRST_STORAGE_WORD;
use st_prep::Words;
use st_rows::{WordRun, WordRuns};

// `len` words from the word address `first`, without the registers, which make no read.
fn above_registers(first: u32, len: u8) -> WordRun
    ensures { result ≡ above_registers_of first len }
{
    if first >= FIRST_STORAGE_WORD {
        return WordRun { first, len };
    }
    WordRun {
        first: FIRST_STORAGE_WORD,
        len: len.saturating_sub((FIRST_STORAGE_WORD - first) as u8),
    }
}

/// The operand words that are read from storage, in order; registers make no read.
pub fn words_to_read(words: Words) -> WordRuns
    ensures { result ≡ words_to_read_of words }
{
    WordRuns {
        one: above_registers(words.first, words.len),
        two: above_registers(words.first2, words.len2),
    }
}

/// The words that are written, registers included.
pub fn words_to_write(words: Words) -> WordRuns
    ensures { result ≡ words_to_write_of words }
{
    WordRuns {
        one: WordRun {
            first: words.first,
            len: words.len,
        },
        two: WordRun {
            first: words.first2,
            len: words.len2,
        },
    }
}

/// The index-side word if it is read from storage; None if it is a register or there is none.
pub fn side_to_read(side: Option<u32>) -> Option<u32>
    ensures { result ≡ side_to_read_of side }
{
    match side {
        Some(w) if w >= FIRST_STORAGE_WORD => Some(w),
        _ => None,
    }
}
