//! Limits: the size of storage and the greatest sizes and numbers that a job may use. `st_card`,
//! `st_asm` and `st_top` refuse a job beyond a limit; `st_banks`, `st_state`, `st_run` and other
//! crates of a run have them as bounds. docs/strap.md and docs/machine.md name the limits.
//!
//! Proved: nothing here, since there is no function. Pinned: the figures, by the laws
//! `LimitsInFigures` and `ControlsInFigures` in specs/Laws.antt of `st_laws`, and by docs/strap.md,
//! docs/machine.md and vectors/controls.txt. WORDS is fixed by the machine, and LAST_WORD is one
//! less. Free: the other limits are this project's choice. A change of one changes those laws,
//! pages and vectors, and the folder model, and needs new proofs in the crates that use the limit.

/// The number of words of storage.
pub const WORDS: u32 = 98_304;
/// The address of the last word of storage.
pub const LAST_WORD: u32 = 98_303;
/// The greatest budget of instructions of a job, and the highest count of completed instructions
/// that it can name.
pub const MOST_INSTRUCTIONS: u64 = 10_000_000;
/// The longest delay of a storage access, in ticks.
pub const MOST_DELAY: u64 = 255;
/// The greatest length of a list of delays or of signals in a job.
pub const LONGEST_LIST: usize = 4_096;
/// The greatest size of a job in bytes.
pub const LONGEST_JOB: u32 = 2_000_000;
/// The greatest number of cards of a deck.
pub const MOST_CARDS: u32 = 20_000;
