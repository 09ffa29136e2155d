//! The moment of a line of a report: the count of completed instructions and the tick of the last
//! completion when the line is written. If a write fails, the moment of that line is part of the
//! answer of `stretch` (`done` and `ticks` of `Answer`, docs/THEOREM.md), so `st_top` passes a
//! `Moment` through `write_run`.
//!
//! Proved: `start` is 0 and 0. telling.rt is proved to set the moment of the line that failed
//! (`WritesEvents` in specs/Running.antt).
//!
//! Pinned, by `Event` of `st_io` and `moment_told` of specs/Running.antt: the two fields. A third
//! fact about a line would be a field in all three places. Free: the derived traits.
ghost use Rattle.std.specs.Prelude.{◌≡◌};

/// The moment at which a line of a report is written.
#[derive(Clone, Copy, Debug, PartialEq, Eq)]
pub struct Moment {
    /// The count of completed instructions.
    pub done: u64,
    /// The tick of the last completion, 0 before the first.
    pub tick: u64,
}

impl Moment {
    /// The moment before the first instruction.
    pub fn start() -> Moment
        ensures { result ≡ record { done = 0; tick = 0 } }
    {
        Moment { done: 0, tick: 0 }
    }
}
