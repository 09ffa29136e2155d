//! The events of a run and the parts of a state as lines of a report, written one by one to a sink.
//! docs/report.md has the rules. `st_top` calls `write_run` for a run and `write_state` for the
//! state of `/BACK`. `st_report` and `st_time` format the bytes of each line. No call allocates.
//!
//! Proved: exactly the lines of `report` in specs/Report.antt are written, or the first ones up to
//! a failed write: each line with the count and the tick at which it is written, and whether the
//! delays of storage can change it (`WritesEvents` in specs/Running.antt).
//!
//! Pinned, by `report` of specs/Report.antt and docs/report.md: which lines there are, and their
//! order. Another line is a change of specs/Report.antt first. Pinned, by the proofs of `st_top`:
//! what is exported below. Free: all else.
#![tactic(auto, using(st_bits::specs::Storage::words_of_storage_is))]

mod block;
mod moment;
mod telling;

pub use moment::Moment;
pub use st_report::put;
pub use telling::{write_run, write_state};
