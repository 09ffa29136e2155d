//! Preparation of an entry (fetch and decode of one instruction): its address, its checks, its
//! speculative change of an index word, the words that it will read and write, and the counter
//! after it. docs/machine.md has the rules. The calls compute; none changes a state. `st_exec`
//! prepares and completes an entry in one call; `st_next`, the fetch unit of the overlapped
//! machine, prepares it word by word.
//!
//! Proved: the results are `plan` of specs/Plan.antt and its parts; the laws of specs/Laws.antt are
//! about more than one call, as `PlansAreInRange` and `PlansDependOnWhatIsRead`. In the code no
//! call allocates; no clause says so.
//!
//! Pinned, by docs/machine.md, docs/promises.txt and the crates that use them (`st_exec`,
//! `st_next`, `st_ring`, `st_ahead`, `st_plain` and others): the structures of entries and the
//! exported calls. Free: all that is not exported. The list `tactic` names the definitions that the
//! prover unfolds in this crate.
#![tactic(auto, using(st_bits::specs::Storage::words_of_storage_is), unfolding( //
crate::specs::Checks::effective_instr, //
crate::specs::Checks::fault, //
crate::specs::Checks::forbidden_area, //
crate::specs::Checks::forbidden_side, //
crate::specs::Checks::forbidden_words, //
crate::specs::SpeculativeChanges::change, //
crate::specs::SpeculativeChanges::change_of_comparison, //
crate::specs::SpeculativeChanges::change_of_index, //
crate::specs::SpeculativeChanges::effective, //
crate::specs::SpeculativeChanges::field_address, //
crate::specs::SpeculativeChanges::full_word_address, //
crate::specs::SpeculativeChanges::half_side, //
crate::specs::SpeculativeChanges::half_word_address, //
crate::specs::SpeculativeChanges::index_operand, //
crate::specs::SpeculativeChanges::progressive_change, //
crate::specs::SpeculativeChanges::progressive_side, //
crate::specs::SpeculativeChanges::refill_word, //
crate::specs::SpeculativeChanges::side, //
crate::specs::Entry::is_serial_operation, //
crate::specs::Entry::cost, //
crate::specs::Entry::counter_after, //
crate::specs::Entry::counter_behind, //
crate::specs::Entry::field_words, //
crate::specs::Entry::has_register, //
crate::specs::Entry::reads, //
crate::specs::Entry::value_stored, //
crate::specs::Entry::words_written, //
crate::specs::Fetch::place_of, //
crate::specs::Plan::resolved, //
crate::specs::Plan::resolved_at, //
crate::specs::Plan::entry_at, //
crate::specs::Plan::is_serial, //
crate::specs::Plan::needs, //
crate::specs::Plan::prepared_entry, //
crate::specs::Plan::suppressed_entry, //
crate::specs::Reading::instruction_at, //
crate::specs::Reading::is_execute, //
crate::specs::Reading::own_use, //
crate::specs::Reading::reading_at_place, //
crate::specs::Reading::with_first //
))]

mod addresses;
mod entries;
mod faults;
mod fetching;
mod outcome;
mod preparation;
mod runs;
mod speculative;

pub use entries::{Fetched, Fetching, IndexChange, Needs, Place, Prepared, Words};
pub use fetching::{
    fetch_all, fetch_on, halves_known, index_words, index_words_in, is_execute, place_of,
};
pub use preparation::{
    change_by_side, change_index, is_execute_format, look, plan_in, prepare, prepare_in,
    prepare_without_side, side_word,
};
pub use runs::{has_register, is_register, reads_field};
