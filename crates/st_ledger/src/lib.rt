//! The ledger of a run: each tick is charged to one stage of one entry (completion-stall
//! accounting), and a charge has waits, a row the cause that delayed it. docs/ledger.md has the
//! rules ("Charges", "Waits", "Reasons"). `st_account` and `st_tally` add up and write sums,
//! `st_lines` writes rows, charges and waits; `st_account` asks for the cause of each row. Waits
//! and causes are found from the words that two successive rows use (`st_rows::Use`), without
//! running anything.
//!
//! Proved: charges and totals are those of specs/Charges.antt and specs/Totals.antt; by the laws
//! `ChargesFollow` and `ChargesAddUpToTheRun` (specs/Laws.antt) they cover the run without a gap,
//! so that they add up to its ticks. Waits and causes are those of specs/Waits.antt and
//! specs/Reasons.antt; by the laws `WaitsAreTrue` and `WaitsCoverTheirCharge` (specs/WaitLaws.antt)
//! and `ReasonsAreTrue` (specs/ReasonLaws.antt) they are true of the run. In the code no call
//! allocates; no clause says so.
//!
//! Pinned, by docs/CLAIMS.md ("Where the ticks went"), docs/promises.txt, docs/ledger.md,
//! vectors/ledger/lines.txt, `st_lines`, `st_account`, `st_tally` and `st_causes`: the laws, and
//! what is exported below with its clauses. Free: all that is not exported. The list `tactic` names
//! the definitions that the prover unfolds.
#![tactic(auto, using(st_bits::specs::Storage::words_of_storage_is), unfolding( //
crate::specs::Reasons::because, //
crate::specs::Reasons::is_stored, //
crate::specs::Reasons::reason_done, //
crate::specs::Reasons::reason_in_order, //
crate::specs::Reasons::reason_of_bus, //
crate::specs::Reasons::reason_of_words, //
crate::specs::Reasons::side_writer, //
crate::specs::Reasons::writer_of_supply, //
crate::specs::Sums::all_stalled, //
crate::specs::Sums::stalled_for, //
crate::specs::Waits::acceptance_of, //
crate::specs::Waits::bus_waits, //
crate::specs::Waits::data_waits, //
crate::specs::Waits::fetch_waits, //
crate::specs::Waits::held_waits, //
crate::specs::Waits::is_accepted_between, //
crate::specs::Waits::wait_piece, //
crate::specs::Waits::read_waits, //
crate::specs::Waits::stage_waits, //
crate::specs::Words::is_answered, //
crate::specs::Words::is_answered_at, //
crate::specs::Words::is_read, //
crate::specs::Words::read_of //
))]

mod because;
mod charges;
mod lines;
mod sums;
mod telling;
mod totals;
mod uses;
mod waits;

pub use because::{Cause, Prefetched, Reason, StallCause, find_reason};
pub use charges::{Charge, Stage, StagePart};
pub use lines::{RowLine, fill_charge, put_stage};
pub use sums::{Shares, WaitSum, WaitTotals, wait_sums};
pub use telling::{later, parts, write_row};
pub use totals::{Totals, write_sums};
pub use waits::{Accepted, Stall, Wait, Waits, fill_waits};
