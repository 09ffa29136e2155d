//! The phase of a run between two events: before the next entry (instruction), at the end with
//! snapshots and the end event still to come, or over. progress.rt keeps the phase, leaving.rt
//! decides it, and run.rt begins with `Before`; no other crate sees it. docs/report.md has the
//! order of events.
//!
//! Proved: nothing here, there is no code. `IsTurn` and `rest_by` in specs/Telling.antt say which
//! events remain in each phase, and the clauses `told` of progress.rt keep this.
//!
//! Pinned, by `IsTurn` and `rest_by`: the variants. A new phase needs a case in each. Free: the
//! derived traits.
// The phase of a run between two events.
#[derive(Clone, Copy, Debug, PartialEq, Eq)]
pub(crate) enum RunPhase {
    // Before the next entry.
    Before,
    // At its end: true at rest, false with the budget used up.
    AtEnd(bool),
    // After the last event.
    Over,
}
