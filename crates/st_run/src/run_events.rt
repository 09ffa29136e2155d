//! The events of a run, as `Run::next` returns them: small values; what an event shows (state,
//! levels, text) is left in the run. docs/report.md has the lines that the events become.
//! progress.rt and output_queue.rt make them; `st_telling` writes a line or a block for each kind.
//!
//! Proved: nothing here, there is no code. `told_as` in specs/Telling.antt joins an event with what
//! the run shows to a `ReportedEvent`, of which the report is defined.
//!
//! Pinned, by `told_as` and `parts_at` of `st_telling` (specs/Report.antt there): variants and
//! fields; addresses are half-word addresses, ticks and counts those of the run. A new kind of
//! event needs its case in both, and in progress.rt or output_queue.rt. Free: the derived traits.
/// An event of a run.
#[derive(Clone, Copy, Debug)]
pub enum RunEvent {
    /// The entry at this half-word address completes; it was prepared at the tick `p` and ready at
    /// `r`. The tick of its completion is that of the event.
    Done { address: u32, p: u64, r: u64 },
    /// An entry in flight, at this half-word address and prepared at this tick, is flushed.
    Dropped { address: u32, p: u64 },
    /// A text is printed. The run shows the text.
    Printed,
    /// An interrupt by this indicator is taken. The run shows the state in which it is taken.
    Interrupted(u8),
    /// A snapshot at this tick. The run shows the state and the levels.
    Shown(u64),
    /// The run ends: true if the machine is at rest, false if the budget is used up. The run shows
    /// the last state.
    Ended(bool),
}

/// An event with its time.
#[derive(Clone, Copy, Debug)]
pub struct TimedRunEvent {
    /// The number of completed instructions at the event.
    pub done: u64,
    /// The tick of the last completion, 0 before the first.
    pub tick: u64,
    /// The event.
    pub event: RunEvent,
}
