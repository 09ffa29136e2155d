//! The committed state: every completed entry (instruction) has changed it, and no entry in flight
//! has. It is the architectural state (docs/machine.md), with the interrupt that was taken last.
//! machine.rt owns it, and no other crate sees it; lookahead_run.rt changes it when entries
//! complete.
//!
//! Proved: nothing here, since there is no function. The clauses of machine.rt say how it changes,
//! by the definitions of specs/Calls.antt.
//!
//! Pinned: the two fields, by `state` and `taken` of `Overlap` in specs/Overlap.antt, which the
//! laws of `st_refine` name. `taken` is an indicator, 0 to 63, and makes the next entry a table
//! instruction. Free: the derived trait.
use st_state::State;

/// The state after the last completed entry and before the next one.
#[derive(Drop)]
pub struct CommittedState {
    /// The architectural state.
    pub state: State,
    /// The indicator of an interrupt that was taken, until its table instruction completes.
    pub taken: Option<u8>,
}
