//! The look-ahead levels of a machine: entries that are prepared and not completed, oldest first,
//! in a ring (a reorder buffer), with their operands, their planned rows, and the index words with
//! their speculative changes. The levels can undo these changes. docs/timetable.md has the rules.
//! `st_ahead` uses `Levels`; `st_run` and tests read the ring. No call allocates.
//!
//! Proved: the levels are the entries in flight along predicted states (`AreAhead` in
//! specs/Levels.antt). specs/Laws.antt has the laws of several calls, such as
//! `LevelsAreTheEntriesAhead`.
//!
//! Pinned, by the proofs of `st_ahead`: the public calls with their clauses. Pinned, by `View` of
//! `st_ahead` and `IsLevelRing` of specs/LevelRing.antt: the order, and eight slots. Free: the
//! modules are private.
#![tactic(auto, using(st_bits::specs::Storage::words_of_storage_is))]

mod filling;
mod level;
mod levels;
mod plans;
mod ring;
mod slots;

pub use level::Level;
pub use levels::{Completed, Levels};
pub use plans::{PlannedRow, PlannedRowRing};
pub use ring::SpecRing;
