//! The fetch unit: fetch and decode of the next instruction. It requests the instruction words in
//! order, and plans the entry when the last one is known. docs/timetable.md has the rules,
//! docs/inside.md the calls. `st_ahead` lets the unit plan ahead of the committed state; `st_plain`
//! plans the next entry of a state with it, and `st_account` keeps one, for the ledger.
//!
//! Proved: the planned entry is that of the state before it, with its ticks (specs/Progress.antt,
//! specs/Going.antt); by the law `EntriesArePlannedInTime` (specs/Laws.antt) no entry is planned
//! too late. In the code no call allocates; no clause says so.
//!
//! Pinned, by docs/CLAIMS.md, docs/promises.txt, `st_ahead` and `st_plain`: the calls with their
//! clauses, and the public fields of `FetchUnit`. Free: all that is not exported.
#![tactic(auto, using(st_bits::specs::Storage::words_of_storage_is))]

mod fetch_unit;

pub use fetch_unit::{FetchUnit, PlanContext};
