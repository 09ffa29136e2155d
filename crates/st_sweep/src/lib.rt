//! One job on machines of one to eight levels, for the command `sweep`: the ticks of each run, and
//! whether the run is hazard-free ("calm"). docs/timetable.md has the rules ("One to eight
//! levels"). `st_top` calls `sweep` and writes the result. Memory is allocated only at the start.
//!
//! Proved: the result is `side_by_side` of specs/SideBySide.antt, and on a hazard-free run more
//! levels never take more ticks (`MoreLevelsAreNoSlower` in specs/Laws.antt). Not proved, and not
//! true in general: that more levels are faster.
//!
//! Pinned, by the proofs of `st_top` and docs/timetable.md: `sweep`, its clauses and the types that
//! it takes and returns. Free: all else.
#![tactic(auto, using(st_bits::specs::Storage::words_of_storage_is))]

mod hazards;
mod interlude;
mod start;
mod sweeping;
mod written;

pub use sweeping::{Swept, SweptJob, sweep};
