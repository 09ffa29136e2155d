//! The last four requested instruction words, an instruction buffer (first in, first out), and a
//! queue of pending reads. docs/timetable.md has the rules. The timetable (`st_rows`) uses only
//! `HeldWords`, which has no contents, since the state has the contents. `Hold`, `Contents` and
//! `Wants` are for a caller that moves the words itself; no program uses these three.
//!
//! Proved: each call is its definition in specs/HeldWords.antt, specs/Planned.antt or
//! specs/Queue.antt, whose `window` is also the view of other rings of the project. The laws
//! `RequestsHoldFour`, `AnswersAreKnown` and `StoresChangeContentAlone` (specs/Laws.antt) are about
//! `Hold`.
//!
//! Pinned: `HeldWords`, by docs/timetable.md, docs/CLAIMS.md and `st_rows`; `Hold` and `Wants`, by
//! docs/CLAIMS.md, which offers both. Free: all that is not exported.
#![tactic(auto)]

mod contents;
mod fetched;
mod held;
mod wants;

pub use contents::Contents;
pub use fetched::{AskedWord, HeldWords};
pub use held::{Held, Hold};
pub use wants::{WANTS, Want, Wants};
