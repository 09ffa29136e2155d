//! A whole timed run: its events with their ticks, as definitions with laws, and as an iterator
//! (`Run`). docs/timetable.md has the rules. `st_telling` writes the events of a `Run` as a report,
//! `st_sweep` counts ticks with it. `between` serves signals and devices between two steps;
//! `st_top`, `st_sweep` and `st_account` use it for machines of their own. `plain` is a run by
//! steps without ticks.
//!
//! Proved: the events are `timed_run` of specs/TimedRun.antt; without ticks they are those of `run`
//! in specs/Run.antt (law `TheTimedRunIsTheRun`). All laws are in specs/Laws.antt,
//! specs/RunLaws.antt and specs/OverlappedLaws.antt. Only calls of beginning.rt take an allocator.
//!
//! Pinned: what is exported, by the four crates named; the definitions, by docs/THEOREM.md. Free:
//! all that is not exported.
#![tactic(auto, using(st_bits::specs::Storage::words_of_storage_is))]

mod beginning;
pub mod between;
mod driven;
mod external_events;
mod leaving;
mod output_queue;
mod pending;
pub mod plain;
mod progress;
mod run;
mod run_events;
mod run_phase;
mod seen;
mod serving;
mod teller;
mod ticking;

pub use beginning::{delays_asked, reader_of_job};
pub use external_events::ExternalEvents;
pub use pending::PendingEvents;
pub use run::{Run, RunControls};
pub use run_events::{RunEvent, TimedRunEvent};
pub use seen::StateView;
pub use serving::{Served, serve};
