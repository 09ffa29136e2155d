//! Recorded steps that can be undone, the newest first. docs/machine.md ("Steps back") has the
//! rules. `st_top` uses `Back` for the machine of `/BACK`, which shows the state some steps before
//! the end of a run; `st_plain` uses `keep` and `undo` to return from predicted steps. In the code
//! only `new` allocates.
//!
//! Proved: undoing a step restores the state before it, also after words of a card were put
//! (specs/Steps.antt and specs/Undone.antt). The laws `BackUndoesForth`, `BacksGiveTheStatesBefore`
//! and `UndoingPassesRegistersOver` in specs/Laws.antt are about several calls. Pinned: what is
//! exported, by these two crates, docs/CLAIMS.md and docs/machine.md. Free: all that is not
//! exported, if the clauses of `Back`, `keep` and `undo` are proved again.
#![tactic(auto, using(st_bits::specs::Storage::words_of_storage_is))]

mod back;
mod kept;
mod undoing;

pub use back::Back;
pub use kept::KeptStep;
pub use undoing::{keep, undo};
