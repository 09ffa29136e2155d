//! The timetable of a segment (the entries between two flushes): the ticks at which each entry is
//! fetched, addressed, prepared, ready and complete. docs/timetable.md has the rules. From an issue
//! state (the banks, the held words and the last entries) and an entry, `form` and `fill` compute
//! its row, without running anything; `pass` gives the next issue state. `st_next` and `st_ahead`
//! call these for the overlapped machine, `st_plain` for the ledger. No call allocates.
//!
//! Proved: a row is `row_of_entry` in specs/Rows.antt; specs/Laws.antt (such as `RowsAreInOrder`)
//! and specs/LogLaws.antt have the laws of all rows.
//!
//! Pinned, by specs/Rows.antt, docs/timetable.md and vectors/timetable.txt: the rows. Another rule
//! begins in specs/Rows.antt, and docs/changing.md lists the places. Pinned, by the proofs of the
//! crates above: what is exported. Free: all else. The list `tactic` names the definitions that the
//! prover unfolds in this crate.
#![tactic(auto, using(st_bits::specs::Storage::words_of_storage_is), unfolding( //
crate::specs::Asked::following_asked, //
crate::specs::Asked::side_asked, //
crate::specs::BusTimes::answer_tick_on, //
crate::specs::BusTimes::bus_after_read, //
crate::specs::BusTimes::bus_after_request, //
crate::specs::Entries::is_among, //
crate::specs::Entries::is_in, //
crate::specs::Entries::writer_bits, //
crate::specs::Notes::log_after_reads, //
crate::specs::Rows::address_tick, //
crate::specs::Words::bus_after_prefetch, //
crate::specs::Words::bus_after_index_read, //
crate::specs::Words::fetch_word, //
crate::specs::Words::fills_of, //
crate::specs::Words::operands_read, //
crate::specs::Rows::preparation_tick, //
crate::specs::Words::read_word, //
crate::specs::Words::read_words, //
crate::specs::Words::side_there, //
crate::specs::Uses::behind, //
crate::specs::Uses::behind_use, //
crate::specs::Uses::reads_of, //
crate::specs::Uses::uses, //
crate::specs::Uses::wishes //
))]

mod bus;
mod entry;
mod fetching;
mod issue;
mod log;
mod past;
mod reading;
mod timing;
mod uses;
mod watch;

pub use bus::Bus;
pub use entry::{Entry, WordRun, WordRuns};
pub use fetching::{Fetching, Wanted};
pub use issue::{EntryTicks, Filled, Formed, FormedEntry, IssueState, TimedEntry};
pub use log::{Log, Made};
pub use past::{LastEntries, Past};
pub use timing::Timing;
pub use uses::{ReadTicks, Role, Supply, Use, Uses, Wish, Writer};
pub use watch::{Nobody, Watch};
