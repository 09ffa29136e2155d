//! The overlapped machine: it prepares instructions ahead of the committed state, tick by tick,
//! with the results of sequential execution. The rules are in `docs/timetable.md`.
//!
//! `Machine` is the interface; `st_run` and the tests of `st_calls` call it, in the order that
//! `docs/inside.md` describes. A `Lookahead` joins the levels (`st_ring`), the issue state and log
//! (`st_rows`) and the fetch unit (`st_next`). Proved: each call does as specs/Calls.antt defines,
//! on the abstract machine of specs/Overlap.antt; laws are in specs/Laws.antt, those of all
//! machines that are reached in specs/Laws.antt of `st_refine`. No call allocates. Free: the parts
//! of `Machine`, by `IsInside` of specs/Inside.antt. Pinned: the clauses of `Machine`, by
//! `st_refine` and `st_run`; the types of events.rt, by `st_run`, `st_time` and `st_telling`.
#![tactic(auto, using(st_bits::specs::Storage::words_of_storage_is))]

mod committed;
mod events;
mod lookahead;
mod lookahead_going;
mod lookahead_run;
mod lookahead_shown;
mod lookahead_steps;
mod lookahead_tick;
mod machine;
mod phase;
mod row_queue;

pub use events::{Event, Halt, LevelView, Row, Settled, View};
pub use lookahead::Lookahead;
pub use machine::Machine;
pub use row_queue::RowQueue;
