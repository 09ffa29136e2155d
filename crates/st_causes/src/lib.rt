//! Laws only, no code: the facts in the ledger of a run about each tick are true, and its lines
//! contain exactly those facts. docs/ledger.md describes the lines. No program uses this crate.
//!
//! Proved: the statements in specs/Laws.antt and specs/CardLaws.antt: lines are those of the rows
//! of the run, sums add up to its ticks, waits cover their charges and hold at each tick, and
//! causes did delay their rows. The laws of one segment are in the specs of `st_ledger`.
//!
//! Pinned: each statement, by docs/promises.txt; docs/CLAIMS.md names those that carry a promise.
//! Free: the proofs, in proofs/. A change of the ledger or of the timetable that makes a line
//! untrue makes a proof here fail.
#![tactic(auto)]
