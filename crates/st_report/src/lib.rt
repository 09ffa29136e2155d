//! The lines of the report and of the listing, by the rules of docs/report.md: one call per line,
//! each including its line end. `st_telling`, `st_time`, `st_top` and the crates of the ledger
//! (`st_account`, `st_ledger`, `st_lines`, `st_tally`) decide which lines there are; here is only
//! how each is written. The lines that may occur for each instruction are written to a line that is
//! composed from its end.
//!
//! Proved: each call gives exactly the bytes that specs/Line.antt or specs/Listing.antt defines.
//! Which lines a report has, and in what order, is proved in the callers.
//!
//! Pinned, by these definitions, docs/report.md, the files of vectors that the heads of the modules
//! name, and `st_entries`, which parses some of the lines: the texts. Free: the bodies, with their
//! proofs in proofs/. A new line needs a definition in specs/Line.antt, a function here, and its
//! call in one of these crates.
#![tactic(auto)]

mod cards;
mod entry_line;
mod from_end;
mod job;
mod kept;
mod levels;
mod run;
mod state_block;
mod sweep;
mod writing;

pub use cards::{line_listed, line_symbol};
pub use entry_line::EntryLine;
pub use from_end::LineFromEnd;
pub use job::{line_fault, line_soak};
pub use kept::KeptDigits;
pub use levels::{EntryRow, fill_row, line_drop, line_lev, line_row, line_snap};
pub use run::{
    fill_trc, line_back, line_done, line_end, line_int, line_prt, line_ticks, line_time, line_trc,
};
pub use st_text::Line;
pub use state_block::{line_dump, line_en, line_ic, line_mem, line_reg};
pub use sweep::{line_calm, line_levels};
pub use writing::put;
