//! The phase of a machine between two calls, and the decision after a tick. machine.rt keeps the
//! one and makes the other; no other file names them. docs/inside.md has the protocol.
//!
//! Proved: nothing here, since there is no function. `phase_of` of specs/Inside.antt gives the
//! phase of the abstract machine, and `IsInPhase` there what holds in each; the clause of
//! `decision` in machine.rt is `IsDecision` of specs/Decided.antt.
//!
//! Pinned: the variants, by `Phase` of specs/Overlap.antt and by docs/inside.md. Free: the derived
//! traits.

/// The phase of a machine between two calls.
#[derive(Clone, Copy, Debug, PartialEq, Eq)]
pub enum Phase {
    /// The next tick may be made.
    Ready,
    /// The last tick completed no entry, and its decision is owed.
    Ticked,
    /// The last tick completed an entry, and its decision is owed.
    Completed,
    /// The last tick completed an entry, the segment has ended at it, and its decision is owed.
    Ended,
    /// The run has ended at the last tick.
    Stopped,
}

/// The decision after a tick.
#[derive(Clone, Copy, Debug, PartialEq, Eq)]
pub enum Decision {
    /// The interrupt of this indicator, 0 to 63, is taken.
    Interrupt(u8),
    /// The machine waits, and no indicator is pending.
    Waits,
    /// A mispredicted branch ends the segment.
    Mispredicted,
    /// The machine continues.
    Goes,
}
