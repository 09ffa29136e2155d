//! The size of storage, and the indicators as bits of a word. docs/machine.md has the rules. An
//! `Ind` is part of the result of nearly all operations: `st_exec` applies it to the indicator
//! register by `turned` of `st_state`. `st_asm` and `st_sweep` call `number_of_words`, which exists
//! so that proofs see the size as a name, not as a figure. Crates that allocate return `NoMemory`.
//!
//! Proved: the results are `indicator` of specs/Indicators.antt and `words_of_storage` of
//! specs/Storage.antt. Pinned: the size, by `words_of_storage_is` in specs/Storage.antt and the law
//! `LimitsInFigures` (specs/Laws.antt of `st_laws`); the bit of an indicator, by `indicator` and
//! docs/machine.md; the two words of `Ind` and `NoMemory`, by the clauses of the crates that return
//! them. Free: the bodies of both calls.
ghost use Rattle.std.specs.Prelude.{◌≡◌, ◌<◌};
ghost use Rattle.st_bits.specs.Indicators.{indicator as indicator_of};
ghost use Rattle.st_bits.specs.Storage.{words_of_storage};

use crate::limits::WORDS;

/// An allocation of memory failed. Most crates return this error; the programs report it.
#[derive(Clone, Copy, Debug, PartialEq, Eq)]
pub struct NoMemory;

/// Indicators to turn on and to turn off. Indicator n, 0 to 63, is the bit of value 2^(63 - n). An
/// indicator in both words is turned on: `turned_bit` in specs/Interrupts.antt of `st_state`
/// defines so, and the call `turned` there is proved to do so.
#[derive(Clone, Copy, Debug, Default, PartialEq, Eq)]
pub struct Ind {
    /// The indicators to turn on.
    pub on: u64,
    /// The indicators to turn off.
    pub off: u64,
}

/// The word with only indicator `n`, 0 to 63, on.
pub fn indicator(n: u8) -> u64
    requires { n < 64 }
    ensures { result ≡ indicator_of n }
{
    1 << (63 - n)
}

/// The number of words of storage.
#[tactic(auto, using(crate::specs::Storage::words_of_storage_is))]
pub fn number_of_words() -> usize
    ensures { result ≡ words_of_storage }
{
    WORDS as usize
}
