//! The banks of storage: the delay of a read in ticks, and when a bank accepts the next one.
//! docs/timetable.md has the rules. `st_rows` computes with `LastAnswers` and `Delays` the ticks of
//! all reads; `Banks` holds both for a caller that makes one read at a time, and no program does.
//!
//! Proved: each call is its definition in specs/Bank.antt or specs/Delay.antt; laws about all reads
//! are in specs/Laws.antt, such as `DelaysAreBounded`. Pinned: what is exported, by `st_rows` and
//! docs/CLAIMS.md; its results, by docs/timetable.md and vectors/timetable.txt. Free: all that is
//! not exported, if the clauses are proved again.
#![tactic(auto, using(st_bits::specs::Storage::words_of_storage_is))]

mod answers;
mod banks;
mod delays;

pub use answers::{BANKS, LastAnswers, bank_of};
pub use banks::Banks;
pub use delays::{DelayError, Delays};
