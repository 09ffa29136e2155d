//! The entries of a segment as the timetable sees them: the next entry of a state, and the
//! predicted entries after it. docs/timetable.md has the rules. Most of this crate is definitions
//! and laws in specs/, which the overlapped machine and the ledger share; the code (runs.rt)
//! selects the words that are read from storage or written to it, for `st_next` and `st_sweep`.
//!
//! Proved: the code computes the definitions of its functions' names in specs/Entries.antt.
//! specs/Laws.antt has the laws about entries and predictions, such as `EntriesAreInRange` and
//! `StepsArePredictions`.
//!
//! Pinned, by proofs in `st_ring`, `st_ahead`, `st_run` and the ledger: the definitions in
//! specs/Entries.antt, Predictions.antt, Ahead.antt and Alone.antt. Free: the bodies of the code.
#![tactic(auto, using(st_bits::specs::Storage::words_of_storage_is), unfolding( //
crate::specs::Entries::above_registers, //
crate::specs::Entries::side_to_read, //
crate::specs::Entries::words_to_read //
))]

mod runs;

pub use runs::{side_to_read, words_to_read, words_to_write};
