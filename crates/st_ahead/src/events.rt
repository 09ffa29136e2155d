//! The results of the machine's calls, and the view of the machine: `Event` is the result of
//! `tick`, `Halt` of `run_to`, `Settled` of `settle`, and `View` of `view`. docs/inside.md has the
//! calls. `st_run` turns rows and decisions into events, and `st_time` formats rows and views.
//! Ticks count from 0 at the start of the run; addresses are half-word addresses. A level is an
//! entry (instruction) in flight, prepared and not complete.
//!
//! Proved: nothing here, since there is no function. specs/Calls.antt defines when each result is
//! returned (`IsEvent`, `answer`), and specs/Shown.antt the view (`view_at_tick`); the clauses of
//! machine.rt promise these.
//!
//! Pinned: variants and fields, by these definitions and docs/inside.md. A new one needs its case
//! there, in machine.rt, and where `st_run`, `st_time` and `st_telling` match it. Eight, the
//! largest number of levels, is fixed by `view_at_tick`. Free: the derived traits.

/// A row of the timetable: a completed entry.
#[derive(Clone, Copy, Debug, Default, PartialEq, Eq)]
pub struct Row {
    /// The number of completed instructions, with this one.
    pub number: u64,
    /// The half-word address of the entry.
    pub address: u32,
    /// P, the tick at which the entry was prepared.
    pub p: u64,
    /// R, the tick at which the operand words that it reads had arrived; P if it reads none.
    pub r: u64,
    /// C, the tick at which the entry completed.
    pub c: u64,
}

/// A completion at which `run_to` stops: an event is possible after it.
#[derive(Clone, Copy, Debug, PartialEq, Eq)]
pub struct Halt {
    /// The row of the completed entry.
    pub row: Row,
    /// Whether no order is due and the decision is to continue.
    pub quiet: bool,
}

/// The result of a tick.
#[derive(Clone, Copy, Debug, PartialEq, Eq)]
pub enum Event {
    /// No entry completed.
    Passed,
    /// The oldest entry completed.
    Done(Row),
}

/// The decision after a tick.
#[derive(Clone, Copy, Debug, PartialEq, Eq)]
pub enum Settled {
    /// The machine continues.
    Goes,
    /// An interrupt by this indicator, 0 to 63, is taken after `done` instructions, at the counter
    /// `ic`, a half-word address; `dropped` levels are flushed.
    Interrupt {
        indicator: u8,
        done: u64,
        ic: u32,
        dropped: u8,
    },
    /// A branch was mispredicted; `dropped` levels are flushed.
    Mispredicted {
        dropped: u8,
    },
    /// The machine waits, and no indicator is pending. The decision is still owed.
    Waits,
}

/// The view of a level.
#[derive(Clone, Copy, Debug, PartialEq, Eq)]
pub struct LevelView {
    /// The half-word address of its entry.
    pub address: u32,
    /// P, the tick at which the entry was prepared.
    pub p: u64,
    /// The number of the index word, 0 to 15, that the entry changed speculatively, if any.
    pub index: Option<u8>,
    /// The old content of the changed index word; 0 if none was changed.
    pub kept: u64,
    /// Whether the operand words that the entry reads have arrived; forwarded ones do not count.
    pub ready: bool,
}

/// The view of a machine.
#[derive(Clone, Copy, Debug, PartialEq, Eq)]
pub struct View {
    /// The last tick made, 0 before the first one.
    pub tick: u64,
    /// The number of completed instructions.
    pub done: u64,
    /// The index words with the speculative changes of all levels.
    pub x: [u64; 16],
    /// The levels, oldest first, and None after them.
    pub levels: [Option<LevelView>; 8],
}
