//! From a state by itself: its next entry, the row of the entry with its reads and its words, and
//! the predicted entries after it. docs/timetable.md has the rules. `st_account` follows a run with
//! plain steps and computes each row here, independently of the overlapped machine, for the ledger;
//! `st_lines` writes the results, and `st_ledger` reads `Begun`.
//!
//! Proved: the rows are `row_of_entry` of specs/Rows.antt of `st_rows`, the words and predicted
//! entries are those of specs/Uses.antt and specs/Looking.antt; the law about reads is
//! `ReadsOfAnEntryComeInTurn` (specs/Laws.antt). In the code no call allocates; no clause says so.
//!
//! Pinned, by `st_account`, `st_lines`, `st_ledger` and docs/CLAIMS.md: what is exported, with its
//! clauses. Free: all that is not exported. The list `tactic` names the definitions that the prover
//! unfolds in this crate.
#![tactic(auto, using(st_bits::specs::Storage::words_of_storage_is), unfolding( //
crate::specs::Looking::level_wait, //
crate::specs::Uses::data_uses, //
crate::specs::Uses::fetch_uses, //
crate::specs::Uses::following_uses, //
crate::specs::Uses::inside_uses, //
crate::specs::Uses::side_uses, //
st_exec::specs::Completion::predicted_state, //
st_prep::specs::Checks::effective_instr, //
st_prep::specs::Reading::instruction_at, //
st_prep::specs::Reading::with_first, //
st_rows::specs::Asked::fetches_asked, //
st_rows::specs::Asked::following_asked, //
st_rows::specs::BusTimes::bus_after_read, //
st_rows::specs::BusTimes::bus_after_request, //
st_rows::specs::Notes::log_after_reads, //
st_rows::specs::Rows::bus_a, //
st_rows::specs::Words::bus_after_prefetch, //
st_rows::specs::Uses::behind, //
st_rows::specs::Uses::behind_use, //
st_rows::specs::Uses::reads_of, //
st_rows::specs::Uses::uses, //
st_rows::specs::Uses::wishes, //
st_rows::specs::Words::bus_after_index_read, //
st_rows::specs::Words::operands_read, //
st_rows::specs::Words::read_word, //
st_rows::specs::Words::read_words, //
st_rows::specs::Words::side_there, //
st_rows::specs::Rows::index_arrival, //
st_rows::specs::Rows::words_tick, //
st_segment::specs::Entries::run_of //
))]

mod known;
mod looking;
mod rows;

pub use known::{Code, Known};
pub use looking::{Ahead, FoundAhead, Reach, look};
pub use rows::{Before, Begun, WaitedRow, begin, fill, pass};
