//! The ledger of a run: it accounts for each tick of the run, line by line. docs/ledger.md has the
//! rules. The `main` of `ledger` calls `ledger` with the words, the input and the output of the
//! process. The run is followed by plain steps (`st_plain`), without the overlapped machine.
//!
//! Proved: the lines are `ledger_lines_of` of specs/Answers.antt, by `ledger` of specs/Text.antt;
//! laws in specs/Laws.antt of `st_causes` say that the lines are true. Not proved: speed.
//!
//! Pinned: `ledger` and `Status`, by docs/ledger.md, docs/CLAIMS.md, vectors/ledger and the crate
//! `ledger`; the clauses of `write_ledger`, `write_ledger_rows` and `write_ledger_sums`, which rest
//! on specs/Text.antt, LedgerRows.antt and LedgerSums.antt. Free: the modules, which are private,
//! if these clauses are proved again.
#![tactic(auto, using(st_bits::specs::Storage::words_of_storage_is))]

mod account;
mod behind;
mod job;
mod last;
mod origins;
mod passing;
mod past;
mod program;
mod running;
mod settling;
mod status;
mod stepping;
mod tallying;
mod uses;

pub use program::ledger;
pub use running::{Ready, write_ledger, write_ledger_rows, write_ledger_sums};
pub use status::Status;
