//! One step of the machine: the sequential execution of one instruction, or of the table
//! instruction of an interrupt. docs/machine.md has the rules. A step is a preparation (`st_prep`)
//! and a completion, the two halves that the overlapped machine (`st_ring`, `st_ahead`) makes at
//! different ticks. `st_back`, `st_sweep`, `st_plain` and `st_account` make one half directly after
//! the other. No call allocates.
//!
//! Proved: a step is `step` of specs/Step.antt, a completion `state_after_completion` of
//! specs/Completion.antt; laws are in specs/Laws.antt. That the overlapped machine makes these
//! steps is `CompletionsAreSteps` (specs/Laws.antt of `st_refine`). Pinned, by docs/CLAIMS.md,
//! docs/machine.md and the crates named above: the exported calls and `Trail`. Free: all that is
//! not exported. The list `tactic` names the definitions that the prover unfolds in this crate.
#![tactic(auto, using(st_bits::specs::Storage::words_of_storage_is), unfolding( //
crate::specs::Completion::is_mispredicted, //
crate::specs::Completion::is_taken, //
crate::specs::Completion::state_after_completion, //
crate::specs::Completion::state_after_effect, //
crate::specs::Completion::state_with_speculative_changes, //
crate::specs::Completion::target, //
crate::specs::Effect::carried_out, //
crate::specs::Effect::effect_of, //
crate::specs::Outcome::connects, //
crate::specs::Outcome::operation_outcome, //
crate::specs::Outcome::with_registers, //
crate::specs::Outcome::with_result, //
crate::specs::Step::address, //
crate::specs::Step::step, //
st_prep::specs::Fetch::place_of //
))]

mod carrying;
mod completing;
mod effects;
mod execution;
mod fields;
mod kept;
mod mispredicted;
mod operands;
mod speculative;
mod step;
mod transfers;
mod transmission;

pub use completing::{complete, complete_in};
pub use execution::execute;
pub use kept::{Trail, one_kept, trail_of};
pub use mispredicted::is_mispredicted;
pub use step::{Step, interrupt, is_at_rest, next_address, one};
pub use transfers::{print_out, read_in};
