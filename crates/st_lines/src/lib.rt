//! The lines of a ledger: their contents, and the code that writes them. docs/ledger.md has the
//! rules. `st_account` follows a run and writes its lines with these calls, `st_tally` writes sums
//! of waits; charges, waits and causes come from `st_ledger`, entries from `st_plain`.
//!
//! Proved: each call writes exactly the lines of its definition, or the first ones up to a failed
//! write (`WritesLines`, specs/Lines.antt of `st_io`). The bytes of each line are defined in specs/
//! (`Lines`, `UseLines`, `WaitLines`), their order by `EntryLines` and `BorderLines`. By the laws
//! of `st_causes` (specs/Laws.antt there) the lines are true of the run. In the code no call
//! allocates; no clause says so.
//!
//! Pinned, by these definitions, docs/ledger.md and the files of vectors/ledger: lines and order;
//! by `st_account` and `st_tally`: the exported calls. A new kind of line needs its definition, its
//! place in `EntryLines` or `BorderLines`, and a function. Free: all that is not exported.
#![tactic(auto, using(st_bits::specs::Storage::words_of_storage_is))]

mod changes;
mod digits;
mod facts;
mod lines;
mod origins;
mod uses;
mod waits;
mod writing;

pub use changes::Changeable;
pub use facts::{EntryDone, EntryRecord, write_done};
pub use lines::{Alone, Why};
pub use origins::{Origin, Origins};
pub use uses::FactLine;
pub use waits::{RowTelling, add_waits, write_wait_sums};
pub use writing::{
    Between, Border, Dropped, Printed, copy_changed, write_border, write_end, write_machine,
    write_marks, write_start, write_totals, write_whole_state,
};
